//! What a DELETE does.
//!
//! A row can always leave, so a DELETE is refused only if its condition looks at an unknown column or memory ran out.

ghost use Rattle.std.specs.Prelude.{◌≡◌, IfOk};
ghost use Rattle.rt_table_row.specs.Edits.{delete};
ghost use Rattle.rt_table_plan.specs.Drafts.{step_list, leaf_rows, leave_steps};
ghost use Rattle.rt_table_plan.specs.Plans.{Plans};

use crate::plan::Plan;
use rt_sql_statement::{Cond, Refusal};
use rt_table_row::{Filter, Schema, Step};
use rt_table_store::{Nodes, Store};
use rt_tree::Row;
use std::alloc::{AllocError, Global};

/// A step for each row that goes.
fn leave_steps<const D: usize>(alloc: Global, rows: &[Row<D>]) -> Result<Vec<Step<D>>, AllocError>
    ensures { IfOk result (λ steps. step_list steps ≡ leave_steps rows.now) }
{
    let mut steps = Vec::with_capacity(alloc, rows.len())?;
    for row in rows {
        steps.push(Step::Leaves(row.id))?;
    }
    Ok(steps)
}

/// A step for each row of which the condition holds.
fn picked_steps<const D: usize>(
    alloc: Global,
    store: &Store<D>,
    condition: &Filter,
) -> Result<Vec<Step<D>>, AllocError>
    ensures { IfOk result (λ steps. step_list steps ≡ leave_steps (leaf_rows D condition.now store.now.rows)) }
{
    // There are one to three axes.
    store.facts();
    let found = store.select(alloc, condition, Nodes::Uncounted)?;
    leave_steps(alloc, found.rows.as_slice())
}

/// The plan of a DELETE: the rows of which the condition holds go, by rising id.
pub(crate) fn plan_delete<const D: usize>(
    alloc: Global,
    schema: &Schema,
    store: &Store<D>,
    cond: Cond,
) -> Result<Plan<D>, Refusal>
    ensures { Plans (delete schema.now store.now.rows cond) result }
{
    store.facts();
    let condition = Filter::new(alloc, schema, cond)?;
    Ok(Plan::from_steps(picked_steps(alloc, store, &condition)?))
}
