//! What an UPDATE does.
//!
//! The rows are picked at the start, and then change one after the other. So an id is taken while a row has it,
//! even if that row gets another id later.

ghost use Rattle.std.specs.Prelude.{◌≡◌, ◌≤◌, ◌+◌, ◌*◌, All, [], ◌∷◌, length};
ghost use Rattle.rt_table_row.specs.Answers.{GivesAs};
ghost use Rattle.rt_table_row.specs.Edits.{replace_row, update};
ghost use Rattle.rt_table_row.specs.Entries.{row_of, view_row};
ghost use Rattle.rt_table_store.specs.Picking.{Stands};
ghost use Rattle.rt_table_plan.specs.Drafts.{GivesStep, step_list, set_row, set_found, set_picked};
ghost use Rattle.rt_table_plan.specs.Plans.{Plans};

use crate::draft::Draft;
use crate::plan::Plan;
use rt_sql_statement::{Cond, Name, Refusal, Source};
use rt_table_row::{Entry, Filter, RowView, Schema, Settings, Step};
use rt_table_store::{Nodes, Store};
use rt_tree::Row;
use std::alloc::Global;
use std::hash::RandomState;

/// The row of the old id is now this one, unless another row has its id now.
fn replace_row<const D: usize>(
    store: &Store<D>,
    draft: &Draft<D>,
    old: &i64,
    row: Entry<D>,
) -> Result<Step<D>, Refusal>
    requires { D ≤ 3 }
    ensures { GivesStep store.now.rows draft.now (λ now. replace_row now old.now (row_of row.entry)) result }
{
    if *old != row.id && draft.is_there(store, &row.id) {
        return Err(Refusal::IdAlreadyTaken);
    }
    Ok(Step::Becomes(*old, row))
}

/// The step of one row, which stands in the store.
fn set_row<const D: usize>(
    alloc: Global,
    store: &Store<D>,
    draft: &Draft<D>,
    settings: &Settings,
    row: &RowView<'_, D>,
) -> Result<Step<D>, Refusal>
    requires some { 1 ≤ D }
    requires few { D ≤ 3 }
    requires long { 1 + 2 * D ≤ length settings.now.fills }
    ensures { GivesStep store.now.rows draft.now (λ now. set_row D settings.now now (view_row row.now)) result }
{
    let new = settings.new_entry(alloc, row)?;
    replace_row(store, draft, &row.id, new)
}

/// The steps of rows that stand in the table, each planned among the rows as they are after those before it.
fn all_steps<const D: usize>(
    alloc: Global,
    keys: RandomState,
    store: &Store<D>,
    settings: &Settings,
    rows: &[Row<D>],
) -> Result<Vec<Step<D>>, Refusal>
    requires some { 1 ≤ D }
    requires few { D ≤ 3 }
    requires long { 1 + 2 * D ≤ length settings.now.fills }
    requires stand { All (Stands store.now.rows) rows.now }
    ensures { GivesAs step_list (set_found D settings.now store.now.rows rows.now) result }
{
    let mut draft = Draft::new(alloc, keys);
    for row in rows {
        let step = set_row(alloc, store, &draft, settings, &store.view(row))?;
        draft.push(step)?;
    }
    Ok(draft.steps)
}

/// The steps for a single row that stands in the table: one, with none before it.
fn lone_step<const D: usize>(
    alloc: Global,
    keys: RandomState,
    store: &Store<D>,
    settings: &Settings,
    row: &Row<D>,
) -> Result<Vec<Step<D>>, Refusal>
    requires some { 1 ≤ D }
    requires few { D ≤ 3 }
    requires long { 1 + 2 * D ≤ length settings.now.fills }
    requires stands { Stands store.now.rows row.now }
    ensures { GivesAs step_list (set_found D settings.now store.now.rows (row.now ∷ [])) result }
{
    let draft = Draft::new(alloc, keys);
    let step = set_row(alloc, store, &draft, settings, &store.view(row))?;
    let mut steps = Vec::with_capacity(alloc, 1)?;
    steps.push_reserved(step);
    Ok(steps)
}

/// The steps of the rows of which the condition holds. If it fixes an id, that is one row at most, and no list of rows is
/// made.
fn picked_steps<const D: usize>(
    alloc: Global,
    keys: RandomState,
    store: &Store<D>,
    settings: &Settings,
    condition: &Filter,
) -> Result<Vec<Step<D>>, Refusal>
    requires some { 1 ≤ D }
    requires few { D ≤ 3 }
    requires long { 1 + 2 * D ≤ length settings.now.fills }
    ensures { GivesAs step_list (set_picked D settings.now condition.now store.now.rows) result }
{
    // The rows rise by id.
    store.facts();
    if let Some(id) = condition.id() {
        return match store.passing_row(condition, &id) {
            Some(row) => lone_step(alloc, keys, store, settings, &row),
            None => Ok(Vec::new(alloc)),
        };
    }
    let found = store.select(alloc, condition, Nodes::Uncounted)?;
    all_steps(alloc, keys, store, settings, found.rows.as_slice())
}

/// The plan of an UPDATE: the rows of which the condition holds at its start, by rising id, each among the rows as
/// those before it left them.
pub(crate) fn plan_update<const D: usize>(
    alloc: Global,
    keys: RandomState,
    schema: &Schema,
    store: &Store<D>,
    sets: &[(Name, Source)],
    cond: Cond,
) -> Result<Plan<D>, Refusal>
    requires { schema.now.axes ≡ D }
    ensures { Plans (update schema.now store.now.rows sets.now cond) result }
{
    // There are one to three axes, and columns enough for them.
    store.facts();
    schema.facts();
    let settings = Settings::new(alloc, schema, sets)?;
    let condition = Filter::new(alloc, schema, cond)?;
    Ok(Plan::from_steps(picked_steps(alloc, keys, store, &settings, &condition)?))
}
