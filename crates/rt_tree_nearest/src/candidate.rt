//! What may come next: rows that may be in the answer, and nodes whose rows are still to come.

ghost use Rattle.std.specs.Prelude.{◌≡◌};
ghost use Rattle.rt_tree_nearest.specs.Candidates.{candidate_of, branch_of, own_row};

use crate::distance::squared_distance;
use rt_box::Rect;
use rt_tree_node::{Cell, Key};
use rt_tree_walk::Row;

/// A row with its distance. Candidates stand in order by distance and then by id. No two of them have the same id, so boxes
/// aren't compared.
#[derive(Clone, Copy)]
#[derive_where(PartialEq, Eq, PartialOrd, Ord)]
pub(crate) struct Candidate<const D: usize> {
    /// The squared distance from the row's box to what is asked about.
    pub(crate) distance: u128,
    /// The row's id.
    pub(crate) id: i64,
    /// The box.
    #[derive_where(skip)]
    pub(crate) rect: Rect<D>,
}

impl<const D: usize> Candidate<D> {
    /// A cell of a leaf.
    pub(crate) fn new(cell: &Cell<D>, target: &Rect<D>) -> Candidate<D>
        ensures { result ≡ candidate_of target.now cell.now }
    {
        Candidate {
            distance: squared_distance(&cell.rect, target),
            id: cell.number,
            rect: cell.rect,
        }
    }

    /// The row that it is.
    pub(crate) fn row(&self) -> Row<D>
        ensures { result ≡ own_row self.now }
    {
        Row {
            id: self.id,
            rect: self.rect,
        }
    }
}

/// A node, and a distance that no row below it is nearer than. Branches stand in order by distance alone.
#[derive(Clone, Copy)]
#[derive_where(PartialEq, Eq, PartialOrd, Ord)]
pub(crate) struct Branch {
    /// The squared distance from the node's box to what is asked about.
    pub(crate) distance: u128,
    /// The node's key.
    #[derive_where(skip)]
    pub(crate) key: Key,
}

impl Branch {
    /// A cell above the leaves.
    pub(crate) fn new<const D: usize>(cell: &Cell<D>, target: &Rect<D>) -> Branch
        ensures { result ≡ branch_of target.now cell.now }
    {
        Branch {
            distance: squared_distance(&cell.rect, target),
            key: cell.key(),
        }
    }
}
