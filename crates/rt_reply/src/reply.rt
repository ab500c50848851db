//! What statements answer.
//!
//! A reply owns what it shows and borrows nothing from the tables, so it stays as it is when they change.

use crate::changes::Changes;
use crate::shown::Shown;
use rt_check::Problem;
use rt_check_dump::AnyShadow;
use rt_sql_statement::Items;
use std::alloc::{AllocError, Global};
use std::marker::Model;

/// A tree from outside. It is large, and each statement would pay for a reply's size, so it stands on the heap.
pub struct TreeDump {
    tree: Box<AnyShadow>,
}

// By hand and not inlined, since the locals of a drop of a tree would be cleared for each reply.
impl Drop for TreeDump {
    #[inline(never)]
    fn drop(self) {
        let TreeDump { tree: _ } = self;
    }
}

// Clauses see the tree.
impl Model for TreeDump {
    ghost use Rattle.rt_check_dump.specs.declared.dump.AnyShadow.{AnyShadow};

    ghost Value = { AnyShadow };

    ghost view = { λ dump. dump.tree.value };
}

impl TreeDump {
    ghost use Rattle.std.specs.Prelude.{◌≡◌, IfOk};

    /// This tree.
    ///
    /// # Errors
    ///
    /// `AllocError` if no memory is left.
    pub fn new(alloc: Global, tree: AnyShadow) -> Result<TreeDump, AllocError>
        ensures { IfOk result (λ dump. dump ≡ tree) }
    {
        Ok(TreeDump {
            tree: Box::new(alloc, tree)?,
        })
    }

    /// The tree.
    pub fn tree(&self) -> &AnyShadow
        ensures { result.now ≡ self.now }
    {
        &*self.tree
    }
}

/// What a statement that was carried out shows.
pub enum Reply {
    /// Of a table or a view that was made or dropped.
    Nothing,
    /// The rows selected, or those of a view, by rising id: their values, column by column.
    Rows(Shown),
    /// What an INSERT, UPDATE or DELETE changed in the views of its table.
    Changes(Changes),
    /// The problems that the checker finds in a table's tree.
    Verdict(Items<Problem>),
    /// A table's tree from outside.
    Dump(TreeDump),
}

// By hand, since a derived drop is written out, field by field, wherever such a value ends.
impl Drop for Reply {
    fn drop(self) {
        match self {
            Reply::Nothing => {}
            Reply::Rows(_) => {}
            Reply::Changes(_) => {}
            Reply::Verdict(_) => {}
            Reply::Dump(_) => {}
        }
    }
}
