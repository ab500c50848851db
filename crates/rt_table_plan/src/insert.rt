//! What an INSERT does.
//!
//! Each list of values is planned among the rows as the lists before it leave them (`put_all` in
//! `specs/Edits.antt` of `rt_table_row`).

ghost use Rattle.std.specs.Prelude.{◌≡◌, ◌≤◌, ◌+◌, ◌*◌, length, map};
ghost use Rattle.std.specs.Option.{option_copied};
ghost use Rattle.rt_table_row.specs.Answers.{GivesAs};
ghost use Rattle.rt_table_row.specs.Arrangements.{row_values};
ghost use Rattle.rt_table_row.specs.Edits.{put_over, put_row, put, put_all, insert};
ghost use Rattle.rt_table_row.specs.Entries.{row_of};
ghost use Rattle.rt_table_plan.specs.Counts.{GivesCounted, GivesStepCounted, put_values, is_ignored};
ghost use Rattle.rt_table_plan.specs.Drafts.{one_step, step_given, step_list};
ghost use Rattle.rt_table_plan.specs.Plans.{Plans, ArrangesListed};

use crate::count::Count;
use crate::draft::Draft;
use crate::plan::Plan;
use rt_sql_statement::{Items, Name, Refusal, Rule, Value};
use rt_table_row::{Arrangement, Entry, Schema, Step};
use rt_table_store::Store;
use std::alloc::Global;
use std::hash::RandomState;

/// Whether the refusal of a row is passed over.
fn is_ignored(rule: Rule, refusal: &Refusal) -> bool
    ensures { result ≡ is_ignored rule refusal.now }
{
    match (rule, refusal) {
        (Rule::Ignore, Refusal::IdAlreadyTaken | Refusal::MinimumAboveMaximum) => true,
        _ => false,
    }
}

/// The step of a row whose id another row has.
fn put_over<const D: usize>(rule: Rule, row: Entry<D>) -> Result<Step<D>, Refusal>
    requires { D ≤ 3 }
    ensures { GivesAs one_step (put_over rule (row_of row.entry)) result }
{
    match rule {
        Rule::Replace => Ok(Step::Becomes(row.id, row)),
        Rule::Abort | Rule::Ignore => Err(Refusal::IdAlreadyTaken),
    }
}

/// The step of a new row.
fn put_row<const D: usize>(
    store: &Store<D>,
    draft: &Draft<D>,
    count: &Count,
    rule: Rule,
    row: Entry<D>,
) -> Result<Step<D>, Refusal>
    requires { D ≤ 3 }
    ensures { GivesStepCounted store.now.rows draft.now count.now (λ now. put_row rule now (row_of row.entry)) result }
{
    if draft.is_there(store, &row.id) {
        return put_over(rule, row);
    }
    if count.room == 0 {
        return Err(Refusal::TableFull);
    }
    Ok(Step::Comes(row))
}

/// The step of a row of these values, as the arrangement has them.
fn put_values<const D: usize>(
    alloc: Global,
    store: &Store<D>,
    draft: &Draft<D>,
    count: &Count,
    rule: Rule,
    arrangement: &Arrangement,
    values: &[Value],
) -> Result<Step<D>, Refusal>
    requires some { 1 ≤ D }
    requires few { D ≤ 3 }
    requires long { 1 + 2 * D ≤ length arrangement.now.places }
    ensures { GivesStepCounted store.now.rows draft.now count.now
        (λ now. put_values D rule now (row_values arrangement.now values.now)) result }
{
    let id = count.id_or_new(&arrangement.given_id(values));
    let row = arrangement.new_entry(alloc, id, values)?;
    put_row(store, draft, count, rule, row)
}

/// The step of a row of these values, or none if it is passed over.
fn step_or_none<const D: usize>(
    alloc: Global,
    store: &Store<D>,
    draft: &Draft<D>,
    count: &Count,
    rule: Rule,
    arrangement: &Arrangement,
    values: &[Value],
) -> Result<Option<Step<D>>, Refusal>
    requires some { 1 ≤ D }
    requires few { D ≤ 3 }
    requires long { 1 + 2 * D ≤ length arrangement.now.places }
    ensures { GivesCounted store.now.rows draft.now count.now step_given
        (λ now. put D rule now (row_values arrangement.now values.now)) result }
{
    match put_values(alloc, store, draft, count, rule, arrangement, values) {
        Ok(step) => Ok(Some(step)),
        Err(refusal) => {
            if is_ignored(rule, &refusal) {
                return Ok(None);
            }
            Err(refusal)
        }
    }
}

/// The steps of these lists of values, each planned among the rows as they are after those before it.
fn all_steps<const D: usize>(
    alloc: Global,
    keys: RandomState,
    store: &Store<D>,
    rule: Rule,
    arrangement: &Arrangement,
    lists: &[Items<Value>],
) -> Result<Vec<Step<D>>, Refusal>
    requires some { 1 ≤ D }
    requires few { D ≤ 3 }
    requires long { 1 + 2 * D ≤ length arrangement.now.places }
    ensures { GivesAs step_list (put_all D rule store.now.rows (map (row_values arrangement.now) lists.now)) result }
{
    store.facts();
    let mut draft = Draft::new(alloc, keys);
    let mut count = Count::new(store.largest(), store.len());
    for list in lists {
        let values = list.as_slice();
        let step = step_or_none(alloc, store, &draft, &count, rule, arrangement, values)?;
        let Some(step) = step else {
            continue;
        };
        count.add(&step);
        draft.push(step)?;
    }
    Ok(draft.steps)
}

/// The arrangement of values for the columns that an INSERT lists, or for all of the table's.
fn arrangement_of(
    alloc: Global,
    schema: &Schema,
    listed: &Option<Items<Name>>,
) -> Result<Arrangement, Refusal>
    ensures { ArrangesListed schema.now listed.now result }
{
    match listed {
        None => Ok(Arrangement::whole(schema)),
        Some(names) => Arrangement::new(alloc, schema, names.as_slice()),
    }
}

/// The plan of an INSERT: a row for each list of values, one after the other. A column that isn't listed gets NULL,
/// and a NULL id one more than the largest. A row whose id is taken replaces the old one under `Replace`; under `Ignore`
/// it is passed over, as one whose minimum is above its maximum is.
pub(crate) fn plan_insert<const D: usize>(
    alloc: Global,
    keys: RandomState,
    schema: &Schema,
    store: &Store<D>,
    rule: Rule,
    listed: &Option<Items<Name>>,
    lists: &[Items<Value>],
) -> Result<Plan<D>, Refusal>
    requires { schema.now.axes ≡ D }
    ensures { Plans (insert schema.now store.now.rows rule listed.now lists.now) result }
{
    // There are one to three axes, and columns enough for them.
    store.facts();
    schema.facts();
    let arrangement = arrangement_of(alloc, schema, listed)?;
    if !arrangement.fits(lists) {
        return Err(Refusal::WrongNumberOfValues);
    }
    let steps = all_steps(alloc, keys, store, rule, &arrangement, lists)?;
    Ok(Plan::from_steps(steps))
}
