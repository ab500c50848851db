//! What a statement changes in the views.
//!
//! The rows of all changes stand in one list, so no row takes memory by itself. Contracts see a list of changes
//! (`specs/Changes.antt`).

ghost use Rattle.rt_table_row.specs.Entries.{view_row};
ghost use Rattle.rt_reply.specs.Changes.{change_seen};

use rt_sql_statement::Name;
use rt_table_row::{ListedRow, RowList, RowView};
use std::alloc::{AllocError, Global};
use std::marker::Model;

/// What a change is beside its row.
#[derive(Debug, Drop)]
struct Head {
    view: Name,
    came: bool,
}

/// A row that came into a view, or left it, looked at where it stands.
#[derive(Clone, Copy)]
pub struct Change<'a> {
    /// The view's name, as it was written when it was named.
    pub view: &'a Name,
    /// Whether the row came; else it left.
    pub came: bool,
    /// The row.
    pub row: ListedRow<'a>,
}

/// Rows that came into views or left them, in the order in which they are shown.
#[derive(Debug)]
pub struct Changes {
    heads: Vec<Head>,
    rows: RowList,
}

// By hand, since a derived drop is written out, field by field, wherever such a value ends.
impl Drop for Changes {
    fn drop(self) {
        let Changes { heads: _, rows: _ } = self;
    }
}

// Clauses see the list of the changes.
impl Model for Changes {
    ghost use Rattle.std.specs.Prelude.{List};
    ghost use Rattle.rt_table_row.specs.Views.{ViewChange};

    ghost Value = { List ViewChange };

    ghost use Rattle.rt_reply.specs.Changes.{changes_in, HaveRows};

    ghost view = { changes_in };

    ghost invariant = { HaveRows };
}

impl Changes {
    ghost use Rattle.std.specs.Prelude.{◌≡◌, ◌<◌, ◌++◌, ◌∷◌, [], length, nat_eq, slice_index_or, OnOk, OnErr};
    ghost use Rattle.rt_reply.specs.Changes.{row_change};

    /// No changes. This takes no memory.
    pub fn new(alloc: Global) -> Changes
        ensures { result ≡ [] }
    {
        Changes {
            heads: Vec::new(alloc),
            rows: RowList::new(alloc),
        }
    }

    /// How many changes there are.
    pub fn len(&self) -> usize
        ensures { result ≡ length self.now }
    {
        self.heads.len()
    }

    /// Whether there are none.
    pub fn is_empty(&self) -> bool
        ensures { result ≡ nat_eq (length self.now) 0 }
    {
        self.len() == 0
    }

    /// The change at that place.
    pub fn get(&self, at: usize) -> Change<'_>
        requires { at < length self.now }
        ensures { change_seen result ≡ slice_index_or self.now at (change_seen result) }
    {
        let head = &self.heads[at];
        Change {
            view: &head.view,
            came: head.came,
            row: self.rows.row(at),
        }
    }

    /// Appends the change of a row that came into the view of that name, or left it. A refusal changes nothing.
    ///
    /// # Errors
    ///
    /// `AllocError` if no memory is left.
    pub fn push<const D: usize>(
        &mut self,
        alloc: Global,
        view: &Name,
        came: bool,
        row: &RowView<'_, D>,
    ) -> Result<(), AllocError>
        ensures ok { OnOk result (self.new ≡ self.old ++ row_change came view.now (view_row row.now) ∷ []) }
        ensures refused { OnErr result (self.new ≡ self.old) }
    {
        let head = Head {
            view: view.try_clone(alloc)?,
            came,
        };
        // Room for the head first: once the row is there, nothing fails.
        self.heads.reserve(1)?;
        self.rows.push(alloc, row)?;
        self.heads.push_reserved(head);
        Ok(())
    }
}
