//! The steps of a statement.
//!
//! A plan is made before anything changes, so a refused statement has nothing to undo (`specs/Plans.antt`).

use crate::delete::plan_delete;
use crate::insert::plan_insert;
use crate::update::plan_update;
use rt_sql_statement::{Edit, Refusal};
use rt_table_row::{Schema, Step};
use rt_table_store::Store;
use std::alloc::Global;
use std::hash::RandomState;
use std::marker::Model;

/// The steps that a statement takes, one after the other.
#[derive(Drop)]
pub struct Plan<const D: usize> {
    steps: Vec<Step<D>>,
}

impl<const D: usize> Model for Plan<D> {
    ghost use Rattle.std.specs.Prelude.{List, map};
    ghost use Rattle.rt_table_row.specs.Edits.{Step};
    ghost use Rattle.rt_table_row.specs.Entries.{step_of};

    ghost Value = { List Step };

    ghost view = { λ plan. map step_of plan.steps.items };
}

impl<const D: usize> Plan<D> {
    ghost use Rattle.std.specs.Prelude.{◌≡◌, map};
    ghost use Rattle.rt_table_row.specs.Edits.{steps_of};
    ghost use Rattle.rt_table_row.specs.Entries.{step_of};
    ghost use Rattle.rt_table_plan.specs.Plans.{Plans};

    /// The plan of an edit, or the refusal of the whole of it. The store is only looked at.
    ///
    /// # Errors
    ///
    /// - Of an INSERT: `BadColumnList` if a column is listed twice; else `NoSuchColumn`, and then `WrongNumberOfValues` if a
    ///   list has more or fewer values than columns are listed. Then for the first row that can't be put there the first of
    ///   `WrongType`, `IntegerOutOfRange`, `MinimumAboveMaximum`, `NoIdLeft`, `IdAlreadyTaken` and `TableFull`.
    /// - Of an UPDATE: `BadColumnList` if a column is set twice; `NoSuchColumn` if a column is set, read or looked at that
    ///   the table hasn't; then for the first row that can't be what it is to be the first of `WrongType`,
    ///   `IntegerOutOfRange`, `MinimumAboveMaximum`, and `IdAlreadyTaken` if another row then has the new id.
    /// - Of a DELETE: `NoSuchColumn` if the condition looks at a column that the table hasn't.
    /// - Of any: `OutOfMemory` if no memory is left.
    pub fn new(
        alloc: Global,
        keys: RandomState,
        schema: &Schema,
        store: &Store<D>,
        edit: Edit,
    ) -> Result<Plan<D>, Refusal>
        requires { schema.now.axes ≡ D }
        ensures { Plans (steps_of edit schema.now store.now.rows) result }
    {
        match edit {
            Edit::Insert {
                rule,
                columns,
                rows,
            } => plan_insert(alloc, keys, schema, store, rule, &columns, rows.as_slice()),
            Edit::Update { sets, cond } => plan_update(
                alloc,
                keys,
                schema,
                store,
                sets.as_slice(),
                cond,
            ),
            Edit::Delete { cond } => plan_delete(alloc, schema, store, cond),
        }
    }

    /// The plan of these steps.
    pub(crate) fn from_steps(steps: Vec<Step<D>>) -> Plan<D>
        ensures { result ≡ map step_of steps.entry.items }
    {
        Plan { steps }
    }

    /// The steps.
    pub fn into_steps(self) -> Vec<Step<D>>
        ensures { map step_of result.items ≡ self.entry }
    {
        let Plan { steps } = self;
        steps
    }
}
