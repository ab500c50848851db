//! The rows that an answer shows, with the columns that it shows of them.
//!
//! Columns are picked when a row is printed, so no value is copied for them. Contracts see a list of rows of values
//! (`specs/Rows.antt`).

use crate::rows::Rows;
use std::marker::Model;

/// Rows, of each the values that are shown.
pub struct Shown {
    /// The rows.
    pub rows: Rows,
    /// The places of the columns that are shown, in this order; a place past the last column shows NULL. `None` shows all
    /// columns.
    pub columns: Option<Vec<usize>>,
}

// By hand, since a derived drop is written out, field by field, wherever such a value ends.
impl Drop for Shown {
    fn drop(self) {
        let Shown {
            rows: _,
            columns: _,
        } = self;
    }
}

// Clauses see the list of the rows that are shown.
impl Model for Shown {
    ghost use Rattle.rt_table_row.specs.RowLists.{Lists};

    ghost Value = { Lists };

    ghost use Rattle.rt_reply.specs.Rows.{values_shown};

    ghost view = { λ shown. values_shown shown.columns shown.rows };
}
