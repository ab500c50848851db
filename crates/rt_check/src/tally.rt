//! How often cells name numbers, counted in one pass for all of the numbers.
//!
//! A count stops at 2, since the conditions only ask whether it is 1 (`specs/Tally.antt`).

ghost use Rattle.std.specs.Prelude.{◌≡◌, ◌∷◌, [], ◌++◌, List, length, IfOk};
ghost use Rattle.rt_check.specs.declared.node.RawCell.{RawCell as Cell};
ghost use Rattle.rt_check.specs.Tally.{tallies, tallies_of};

use crate::index::{are_distinct, index_of};
use crate::node::RawCell;
use crate::shadow::Shadow;
use indexmap::IndexSet;
use std::alloc::{AllocError, Global};
use std::hash::RandomState;

/// What cells name: those of leaves name rows, and the others nodes.
#[derive(Clone, Copy)]
pub(crate) enum Named {
    /// The nodes, by their numbers.
    Nodes,
    /// The row entries, by their ids.
    Rows,
}

impl Named {
    ghost use Rattle.rt_check.specs.Tally.{are_named_by_leaves};

    fn are_named_by_leaves(self) -> bool
        ensures { result ≡ are_named_by_leaves self }
    {
        match self {
            Named::Nodes => false,
            Named::Rows => true,
        }
    }
}

/// Counts one cell more.
fn count_cell<const D: usize>(
    counts: &mut [u8],
    numbers: &IndexSet<i64, RandomState>,
    cell: &RawCell<D>,
)
    requires { length counts.old ≡ length numbers.now.keys }
    ensures { (cells : List (Cell D)) → counts.old ≡ tallies numbers.now.keys cells
        → counts.new ≡ tallies numbers.now.keys (cells ++ cell.now ∷ []) }
{
    are_distinct(numbers);
    if let Some(at) = index_of(numbers, &cell.number) {
        counts[at] = counts[at].saturating_add(1).min(2);
    }
}

/// Counts the cells.
fn count_cells<const D: usize>(
    counts: &mut [u8],
    numbers: &IndexSet<i64, RandomState>,
    cells: &[RawCell<D>],
)
    requires { length counts.old ≡ length numbers.now.keys }
    ensures { (before : List (Cell D)) → counts.old ≡ tallies numbers.now.keys before
        → counts.new ≡ tallies numbers.now.keys (before ++ cells.now) }
{
    for cell in cells {
        count_cell(counts, numbers, cell);
    }
}

/// Counts for each of a shadow's nodes, or of its row entries, how many cells name it; 2 stands for more.
pub(crate) fn tally<const D: usize>(
    alloc: Global,
    shadow: &Shadow<D>,
    named: Named,
) -> Result<Vec<u8>, AllocError>
    ensures { IfOk result (λ counts. counts.items ≡ tallies_of named shadow.now) }
{
    let numbers = match named {
        Named::Nodes => shadow.numbers(),
        Named::Rows => shadow.ids(),
    };
    let mut counts = vec![in alloc; 0; numbers.len()]?;
    for node in shadow.nodes() {
        if (node.level == 0) != named.are_named_by_leaves() {
            continue;
        }
        count_cells(&mut counts, numbers, node.cells.as_slice());
    }
    Ok(counts)
}
