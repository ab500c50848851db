//! The room that a plan takes.
//!
//! A row that takes the place of another counts like a row that comes, since `Store::replace` asks for the same
//! room.

ghost use Rattle.std.specs.Prelude.{◌≡◌, map};
ghost use Rattle.rt_table_row.specs.Entries.{row_of, step_of};
ghost use Rattle.rt_table_step.specs.Steps.{inserts, inserts_all, auxiliary_rows, auxiliary_rows_of, auxiliary_rows_all};

use rt_table_row::{Entry, Step};

/// How many rows a step inserts.
fn inserts<const D: usize>(step: &Step<D>) -> usize
    ensures { result ≡ inserts (step_of step.now) }
{
    match step {
        Step::Leaves(_) => 0,
        Step::Comes(_) | Step::Becomes(_, _) => 1,
    }
}

/// How many rows a plan inserts.
pub fn inserts_all<const D: usize>(plan: &[Step<D>]) -> usize
    ensures { result ≡ inserts_all (map step_of plan.now) }
{
    let mut count = 0;
    for step in plan {
        count += inserts(step);
    }
    count
}

/// 1 if the row has auxiliary values, else 0.
fn auxiliary_rows<const D: usize>(row: &Entry<D>) -> usize
    ensures { result ≡ auxiliary_rows (row_of row.now) }
{
    if row.auxiliary.is_empty() { 0 } else { 1 }
}

/// How many rows with auxiliary values a step inserts.
fn auxiliary_rows_of<const D: usize>(step: &Step<D>) -> usize
    ensures { result ≡ auxiliary_rows_of (step_of step.now) }
{
    match step {
        Step::Leaves(_) => 0,
        Step::Comes(row) | Step::Becomes(_, row) => auxiliary_rows(row),
    }
}

/// How many rows with auxiliary values a plan inserts.
pub fn auxiliary_rows_all<const D: usize>(plan: &[Step<D>]) -> usize
    ensures { result ≡ auxiliary_rows_all (map step_of plan.now) }
{
    let mut count = 0;
    for step in plan {
        count += auxiliary_rows_of(step);
    }
    count
}
