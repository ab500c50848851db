//! What a new row has to know of those that are there.
//!
//! While an INSERT is planned, two numbers stand for the rows: the largest id, and how many more rows there is
//! room for (`specs/Counts.antt`).

ghost use Rattle.std.specs.Prelude.{◌≡◌, ◌-◌};
ghost use Rattle.rt_table_row.specs.Edits.{most_rows};
ghost use Rattle.rt_table_row.specs.Entries.{step_of};
ghost use Rattle.rt_table_plan.specs.Counts.{id_after, larger, largest_after, room_after};

use rt_table_row::Step;

/// The most rows that a table may have. The limit is own.
const MOST_ROWS: usize = 1_048_576;

/// The id one above the largest, 1 if there is none; none above the largest integer.
fn id_after(largest: &Option<i64>) -> Option<i64>
    ensures { result ≡ id_after largest.now }
{
    match largest {
        None => Some(1),
        Some(id) => id.checked_add(1),
    }
}

/// The larger one of the ids.
fn larger(largest: &Option<i64>, id: &i64) -> Option<i64>
    ensures { result ≡ larger largest.now id.now }
{
    match largest {
        Some(other) if *id < *other => Some(*other),
        _ => Some(*id),
    }
}

/// The largest id after the steps so far, and for how many rows there is room.
#[derive(Drop)]
pub(crate) struct Count {
    pub(crate) largest: Option<i64>,
    pub(crate) room: usize,
}

impl Count {
    ghost use Rattle.rt_table_plan.specs.Counts.{id_or_after};

    /// The count of rows of which this id is the largest, and of which there are `rows`.
    pub(crate) fn new(largest: Option<i64>, rows: usize) -> Count
        ensures largest { result.largest ≡ largest }
        ensures room { result.room ≡ most_rows - rows }
    {
        Count {
            largest,
            room: MOST_ROWS.saturating_sub(rows),
        }
    }

    /// The id, or a new one if none is given.
    pub(crate) fn id_or_new(&self, id: &Option<i64>) -> Option<i64>
        ensures { result ≡ id_or_after self.now.largest id.now }
    {
        match id {
            Some(id) => Some(*id),
            None => id_after(&self.largest),
        }
    }

    /// Adds a step.
    pub(crate) fn add<const D: usize>(&mut self, step: &Step<D>)
        ensures largest { self.new.largest ≡ largest_after self.old.largest (step_of step.now) }
        ensures room { self.new.room ≡ room_after self.old.room (step_of step.now) }
    {
        if let Step::Comes(row) = step {
            self.largest = larger(&self.largest, &row.id);
            self.room = self.room.saturating_sub(1);
        }
    }
}
