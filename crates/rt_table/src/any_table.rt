//! A table, whatever its number of axes.
//!
//! Each call goes to the table of that number of axes. `edit` plans, prepares and commits in one call, so no plan
//! meets a table of other axes.

ghost use Rattle.std.specs.Prelude.{◌≡◌, ◌<◌, [], length, nat_lt, Ok, IfOk, IfErr, OnOk, OnErr};

use crate::table::Table;
use rt_box::Capacity;
use rt_check::Problem;
use rt_check_dump::AnyShadow;
use rt_reply::{Changes, Rows};
use rt_sql_statement::{Cond, Edit, Name, Refusal};
use rt_table_row::Schema;
use rt_table_store::Nodes;
use rt_tree::Found;
use std::alloc::{AllocError, Global};
use std::hash::RandomState;
use std::marker::Model;

#[derive(Drop)]
enum Axes {
    One(Table<1>),
    Two(Table<2>),
    Three(Table<3>),
}

/// A table of one, two or three axes.
pub struct AnyTable {
    axes: Axes,
}

// By hand, since a derived drop is written out, field by field, wherever such a value ends.
impl Drop for AnyTable {
    fn drop(self) {
        let AnyTable { axes: _ } = self;
    }
}

impl Model for AnyTable {
    ghost use Rattle.rt_table.specs.Held.{TableAndTree};

    ghost Value = { TableAndTree };

    ghost use Rattle.rt_table.specs.AnyAxes.{held_by};

    ghost view = { λ table. held_by table.axes };
}

impl AnyTable {
    ghost use Rattle.rt_table_row.specs.Tables.{new_table, has_view, select, watch, unwatch, view};
    ghost use Rattle.rt_reply.specs.Rows.{values_in};
    ghost use Rattle.rt_table.specs.Replies.{Refuses, Shows, ShowsIds, VisitsAnyBy};
    ghost use Rattle.rt_table.specs.Edits.{edit_outcome, FollowsAnyEdit};
    ghost use Rattle.rt_table.specs.AnyTrees.{new_tree};
    ghost use Rattle.rt_table_store.specs.declared.select.Nodes.TheVariants.{Counted};

    /// A table of these columns, without rows and views. The nodes of its tree have at most `capacity` cells. Look-ups
    /// hash by `keys`, which are to be random if others choose the ids.
    pub fn new(
        alloc: Global,
        keys: RandomState,
        capacity: Capacity,
        columns: Schema,
    ) -> Result<AnyTable, AllocError>
        ensures lists { IfOk result (λ table. table.lists ≡ new_table columns) }
        ensures tree { IfOk result (λ table. table.tree ≡ new_tree capacity columns) }
    {
        let number = columns.axes();
        if number == 1 {
            let table = Table::new(alloc, keys, capacity, columns)?;
            return Ok(AnyTable {
                axes: Axes::One(table),
            });
        }
        if number == 2 {
            let table = Table::new(alloc, keys, capacity, columns)?;
            return Ok(AnyTable {
                axes: Axes::Two(table),
            });
        }
        let table = Table::new(alloc, keys, capacity, columns)?;
        Ok(AnyTable {
            axes: Axes::Three(table),
        })
    }

    /// How many rows there are.
    pub fn len(&self) -> usize
        ensures { result ≡ length self.now.lists.rows }
    {
        match &self.axes {
            Axes::One(table) => table.len(),
            Axes::Two(table) => table.len(),
            Axes::Three(table) => table.len(),
        }
    }

    /// The columns.
    pub fn schema(&self) -> &Schema
        ensures { result.now ≡ self.now.lists.columns }
    {
        match &self.axes {
            Axes::One(table) => table.schema(),
            Axes::Two(table) => table.schema(),
            Axes::Three(table) => table.schema(),
        }
    }

    /// Whether the table has a view.
    pub fn watched(&self) -> bool
        ensures { result ≡ nat_lt 0 (length self.now.lists.views) }
    {
        match &self.axes {
            Axes::One(table) => table.watched(),
            Axes::Two(table) => table.watched(),
            Axes::Three(table) => table.watched(),
        }
    }

    /// How many views the table has.
    pub fn view_count(&self) -> usize
        ensures { result ≡ length self.now.lists.views }
    {
        match &self.axes {
            Axes::One(table) => table.view_count(),
            Axes::Two(table) => table.view_count(),
            Axes::Three(table) => table.view_count(),
        }
    }

    /// Whether the table has a view of that name; ASCII case doesn't matter.
    pub fn has_view(&self, name: &Name) -> bool
        ensures { result ≡ has_view self.now.lists name.now }
    {
        match &self.axes {
            Axes::One(table) => table.has_view(name),
            Axes::Two(table) => table.has_view(name),
            Axes::Three(table) => table.has_view(name),
        }
    }

    /// The rows that a condition picks, by rising id, and the number of nodes that its window reaches, if they are counted.
    ///
    /// # Errors
    ///
    /// `NoSuchColumn` if a test looks at a column that the table hasn't, and `OutOfMemory`.
    pub fn select(&self, cond: Cond, nodes: Nodes) -> Result<Found<Rows>, Refusal>
        ensures ok { IfOk result (λ found. Shows (select self.now.lists cond) (values_in found.rows)) }
        ensures visited { IfOk result (λ found. nodes ≡ Counted → VisitsAnyBy self.now cond found.visited) }
        ensures err { IfErr result (Refuses (select self.now.lists cond)) }
    {
        match &self.axes {
            Axes::One(table) => {
                let Found { rows, visited } = table.select(cond, nodes)?;
                let rows = Rows::one(rows);
                Ok(Found { rows, visited })
            }
            Axes::Two(table) => {
                let Found { rows, visited } = table.select(cond, nodes)?;
                let rows = Rows::two(rows);
                Ok(Found { rows, visited })
            }
            Axes::Three(table) => {
                let Found { rows, visited } = table.select(cond, nodes)?;
                let rows = Rows::three(rows);
                Ok(Found { rows, visited })
            }
        }
    }

    /// The ids of the rows that a condition picks, by rising id. They are sorted without their rows.
    ///
    /// # Errors
    ///
    /// Those of `select`.
    pub fn select_ids(&self, cond: Cond) -> Result<Vec<i64>, Refusal>
        ensures ok { IfOk result (λ ids. ShowsIds (select self.now.lists cond) ids.items) }
        ensures err { IfErr result (Refuses (select self.now.lists cond)) }
    {
        match &self.axes {
            Axes::One(table) => table.select_ids(cond),
            Axes::Two(table) => table.select_ids(cond),
            Axes::Three(table) => table.select_ids(cond),
        }
    }

    /// The rows of a view, by rising id. No node is visited for them.
    ///
    /// # Errors
    ///
    /// `NoSuchView` if no view of this table has the name, and `OutOfMemory`.
    pub fn view(&self, name: &Name) -> Result<Found<Rows>, Refusal>
        ensures ok { IfOk result (λ found. Shows (view self.now.lists name.now) (values_in found.rows)) }
        ensures visited { IfOk result (λ found. found.visited ≡ 0) }
        ensures err { IfErr result (Refuses (view self.now.lists name.now)) }
    {
        match &self.axes {
            Axes::One(table) => {
                let Found { rows, visited } = table.view(name)?;
                let rows = Rows::one(rows);
                Ok(Found { rows, visited })
            }
            Axes::Two(table) => {
                let Found { rows, visited } = table.view(name)?;
                let rows = Rows::two(rows);
                Ok(Found { rows, visited })
            }
            Axes::Three(table) => {
                let Found { rows, visited } = table.view(name)?;
                let rows = Rows::three(rows);
                Ok(Found { rows, visited })
            }
        }
    }

    /// Names a view of the rows that a condition picks. A refusal changes nothing.
    ///
    /// # Errors
    ///
    /// `ViewAlreadyExists` if a view of this table has the name, `NoSuchColumn`, and `OutOfMemory`.
    pub fn watch(&mut self, name: Name, cond: Cond) -> Result<(), Refusal>
        ensures ok { OnOk result (watch self.old.lists name cond ≡ Ok self.new.lists) }
        ensures tree { self.new.tree ≡ self.old.tree }
        ensures err { IfErr result (Refuses (watch self.old.lists name cond)) }
        ensures refused { OnErr result (self.new ≡ self.old) }
    {
        match &mut self.axes {
            Axes::One(table) => table.watch(name, cond),
            Axes::Two(table) => table.watch(name, cond),
            Axes::Three(table) => table.watch(name, cond),
        }
    }

    /// Forgets a view. It takes no memory; a refusal changes nothing.
    ///
    /// # Errors
    ///
    /// `NoSuchView` if no view of this table has the name.
    pub fn unwatch(&mut self, name: &Name) -> Result<(), Refusal>
        ensures ok { OnOk result (unwatch self.old.lists name.now ≡ Ok self.new.lists) }
        ensures tree { self.new.tree ≡ self.old.tree }
        ensures err { IfErr result (λ refusal. unwatch self.old.lists name.now ≡ Err refusal) }
        ensures refused { OnErr result (self.new ≡ self.old) }
    {
        match &mut self.axes {
            Axes::One(table) => table.unwatch(name),
            Axes::Two(table) => table.unwatch(name),
            Axes::Three(table) => table.unwatch(name),
        }
    }

    /// Carries an INSERT, UPDATE or DELETE out, and answers what it changed in the views. A refusal changes nothing.
    ///
    /// # Errors
    ///
    /// Those of `Table::plan`.
    pub fn edit(&mut self, edit: Edit) -> Result<Changes, Refusal>
        ensures ok { IfOk result (λ changes. edit_outcome edit self.old.lists ≡ Ok (changes, self.new.lists)) }
        ensures tree { OnOk result (FollowsAnyEdit edit self.old.lists self.old.tree self.new.tree) }
        ensures err { IfErr result (Refuses (edit_outcome edit self.old.lists)) }
        ensures refused { OnErr result (self.new ≡ self.old) }
    {
        match &mut self.axes {
            Axes::One(table) => table.edit(edit),
            Axes::Two(table) => table.edit(edit),
            Axes::Three(table) => table.edit(edit),
        }
    }

    /// The problems of the tree: there are none.
    ///
    /// # Errors
    ///
    /// `AllocError` if no memory is left.
    pub fn check(&self) -> Result<Vec<Problem>, AllocError>
        ensures { IfOk result (λ problems. problems.items ≡ []) }
    {
        match &self.axes {
            Axes::One(table) => table.check(),
            Axes::Two(table) => table.check(),
            Axes::Three(table) => table.check(),
        }
    }

    /// The tree from outside.
    ///
    /// # Errors
    ///
    /// `AllocError` if no memory is left.
    pub fn shadow(&self) -> Result<AnyShadow, AllocError>
        ensures { IfOk result (λ shadow. shadow ≡ self.now.tree) }
    {
        match &self.axes {
            Axes::One(table) => Ok(AnyShadow::One(table.shadow()?)),
            Axes::Two(table) => Ok(AnyShadow::Two(table.shadow()?)),
            Axes::Three(table) => Ok(AnyShadow::Three(table.shadow()?)),
        }
    }
}
