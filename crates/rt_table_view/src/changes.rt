//! What a plan changes in the views.
//!
//! All of it is found before anything changes. At each touched id the view's own ids say whether it shows the row that is
//! there, and its filter looks at the one that has the id after the plan (`specs/Fates.antt`).
//!
//! The draft of a plan gathers touched ids too, to answer another question: whether a row has an id after the steps so far.
//! It knows no rows and no order, and is gone once the plan is made. Here each id goes with the row that has it in the end,
//! by rising id, as changes are shown; and if there is no view, nothing is gathered.

ghost use Rattle.std.specs.Prelude.{◌≡◌, ◌≤◌, ◌++◌, ℤ, All, AllPairs, ◌<ℤ◌, is_some, length, map, OnOk, IfOk};
ghost use Rattle.std.specs.Ordering.{int_cmp};
ghost use Rattle.std.specs.Option.{option_map};
ghost use Rattle.std.specs.BTreeMap.{get, keys};
ghost use Rattle.indexmap.specs.IndexSet.{spare};
ghost use Rattle.rt_table_row.specs.Rows.{row_at};
ghost use Rattle.rt_table_row.specs.Entries.{step_of, view_row};
ghost use Rattle.rt_table_row.specs.Filters.{admits};
ghost use Rattle.rt_table_view.specs.Preparing.{StayKept, Stages, AwaitSteps};
ghost use Rattle.rt_table_view.specs.Watching.{view_of, is_listed, shown, KeepsIds, IsRoomier, AreRoomier};
ghost use Rattle.rt_table_view.specs.Fates.{fate_at, fate_after, Settles, rows_after, shift, changes_seen, view_changes, all_changes, view_shifts, HaveShifts};

use crate::view::{Shift, Watched};
use rt_reply::Changes;
use rt_sql_statement::Name;
use rt_table_row::{Entry, Filter, RowView, Step};
use rt_table_store::Store;
use std::alloc::{AllocError, Global};
use std::collections::BTreeMap;

/// Inserts the ids of a step, each with the row that has it after the step.
fn insert_fates<'a, const D: usize>(
    rows: &mut BTreeMap<i64, Option<&'a Entry<D>>>,
    step: &'a Step<D>,
) -> Result<(), AllocError>
    ensures { OnOk result ((id : ℤ) → fate_at rows.new id ≡ fate_after (step_of step.now) id (fate_at rows.old id)) }
{
    match step {
        Step::Leaves(id) => {
            rows.insert(*id, None)?;
            Ok(())
        }
        Step::Comes(row) => {
            rows.insert(row.id, Some(row))?;
            Ok(())
        }
        Step::Becomes(id, row) => {
            rows.insert(*id, None)?;
            rows.insert(row.id, Some(row))?;
            Ok(())
        }
    }
}

/// The ids that a plan touches, each with the row that has it after the plan.
fn fates<'a, const D: usize>(
    alloc: Global,
    plan: &'a [Step<D>],
) -> Result<BTreeMap<i64, Option<&'a Entry<D>>>, AllocError>
    ensures { IfOk result (Settles (map step_of plan.now)) }
{
    let mut rows = BTreeMap::new(alloc);
    for step in plan {
        insert_fates(&mut rows, step)?;
    }
    Ok(rows)
}

/// A law: the ids of an ordered map rise. The call does nothing.
fn ids_rise<'a, const D: usize>(fates: &BTreeMap<i64, Option<&'a Entry<D>>>)
    ensures { AllPairs ◌<ℤ◌ (keys fates.now) }
{
    // The contract of `len` says so.
    let _ = fates.len();
}

fn ids_of<'a, const D: usize>(
    alloc: Global,
    fates: &BTreeMap<i64, Option<&'a Entry<D>>>,
) -> Result<Vec<i64>, AllocError>
    ensures { IfOk result (λ ids. ids.items ≡ keys fates.now) }
{
    fates.keys().copied().collect(alloc)
}

/// The ids that a plan touches, rising.
fn rising_ids<'a, const D: usize>(
    alloc: Global,
    fates: &BTreeMap<i64, Option<&'a Entry<D>>>,
) -> Result<Vec<i64>, AllocError>
    ensures rising { IfOk result (λ ids. AllPairs ◌<ℤ◌ ids.items) }
    ensures all { IfOk result (λ ids. (q : ℤ) → is_listed ids.items q ≡ is_some (get int_cmp fates.now q)) }
{
    ids_rise(fates);
    let ids = ids_of(alloc, fates)?;
    Ok(ids)
}

/// The row that has the id after the plan.
fn row_after<'a, const D: usize>(
    store: &'a Store<D>,
    fates: &BTreeMap<i64, Option<&'a Entry<D>>>,
    id: &i64,
) -> Option<RowView<'a, D>>
    ensures { option_map view_row result ≡ rows_after store.now.rows fates.now id.now }
{
    store.facts();
    match fates.get(id) {
        Some(Some(row)) => Some(row.view()),
        Some(None) => None,
        None => store.get(id),
    }
}

/// The row of that id, if the view shows it. The view has the ids of the rows that it shows, so its filter isn't asked.
fn shown_before<'a, const D: usize>(
    store: &'a Store<D>,
    view: &Watched,
    id: &i64,
) -> Option<RowView<'a, D>>
    requires { KeepsIds (admits view.now.filter) store.now.rows view.now.ids.keys }
    ensures { option_map view_row result ≡ shown (admits view.now.filter) (row_at store.now.rows id.now) }
{
    store.facts();
    if !view.ids.contains(id) {
        return None;
    }
    store.get(id)
}

/// The row that has the id after the plan, if the filter holds of it.
fn shown_after<'a, const D: usize>(
    store: &'a Store<D>,
    fates: &BTreeMap<i64, Option<&'a Entry<D>>>,
    condition: &Filter,
    id: &i64,
) -> Option<RowView<'a, D>>
    ensures { option_map view_row result ≡ shown (admits condition.now) (rows_after store.now.rows fates.now id.now) }
{
    store.facts();
    let Some(row) = row_after(store, fates, id) else {
        return None;
    };
    if !condition.holds(&row) {
        return None;
    }
    Some(row)
}

/// Stages the row that leaves a view at an id, and the one that comes. Rows are compared before they are copied.
fn push_changes<const D: usize>(
    alloc: Global,
    staged: &mut Changes,
    view: &Name,
    before: &Option<RowView<'_, D>>,
    after: &Option<RowView<'_, D>>,
) -> Result<(), AllocError>
    ensures { OnOk result (staged.new ≡ staged.old ++ changes_seen view.now before.now after.now) }
{
    match (before, after) {
        (None, None) => Ok(()),
        (Some(old), None) => staged.push(alloc, view, false, old),
        (None, Some(new)) => staged.push(alloc, view, true, new),
        (Some(old), Some(new)) => {
            if old.is_same(new) {
                return Ok(());
            }
            staged.push(alloc, view, false, old)?;
            staged.push(alloc, view, true, new)
        }
    }
}

fn push_shift(
    shifts: &mut Vec<Shift>,
    id: &i64,
    was_in: bool,
    is_in: bool,
) -> Result<(), AllocError>
    ensures { OnOk result (shifts.new.items ≡ shifts.old.items ++ shift id.now was_in is_in) }
{
    if was_in != is_in {
        shifts.push(Shift { id: *id, is_in })?;
    }
    Ok(())
}

/// Stages what a plan changes in a view, and which ids it shifts.
fn stage_changes<'a, const D: usize>(
    alloc: Global,
    staged: &mut Changes,
    view: &Watched,
    store: &'a Store<D>,
    fates: &BTreeMap<i64, Option<&'a Entry<D>>>,
    ids: &[i64],
) -> Result<Vec<Shift>, AllocError>
    requires { KeepsIds (admits view.now.filter) store.now.rows view.now.ids.keys }
    ensures changes { OnOk result (staged.new ≡ staged.old ++ view_changes view.now store.now.rows fates.now ids.now) }
    ensures shifts { IfOk result (λ shifts. shifts.items ≡ view_shifts view.now store.now.rows fates.now ids.now) }
{
    store.facts();
    let mut shifts = Vec::new(alloc);
    for id in ids {
        let before = shown_before(store, view, id);
        let after = shown_after(store, fates, &view.filter, id);
        push_shift(&mut shifts, id, before.is_some(), after.is_some())?;
        push_changes(alloc, staged, &view.name, &before, &after)?;
    }
    Ok(shifts)
}

/// Stages what a plan changes in a view, and has the view await the ids that come and leave.
fn stage_view<'a, const D: usize>(
    alloc: Global,
    staged: &mut Changes,
    view: &mut Watched,
    store: &'a Store<D>,
    fates: &BTreeMap<i64, Option<&'a Entry<D>>>,
    ids: &[i64],
) -> Result<(), AllocError>
    requires { KeepsIds (admits view.old.filter) store.now.rows view.old.ids.keys }
    ensures same { IsRoomier view.old view.new }
    ensures changes { OnOk result (staged.new ≡ staged.old ++ view_changes view.old store.now.rows fates.now ids.now) }
    ensures shifts { OnOk result (view.new.shifts.items ≡ view_shifts view.old store.now.rows fates.now ids.now) }
    ensures room { OnOk result (length view.new.shifts.items ≤ spare view.new.ids) }
{
    store.facts();
    let shifts = stage_changes(alloc, staged, view, store, fates, ids)?;
    view.ids.reserve(shifts.len())?;
    view.shifts = shifts;
    Ok(())
}

/// Stages what a plan changes in the views, in the order in which they were named.
fn stage_each<'a, const D: usize>(
    alloc: Global,
    views: &mut [Watched],
    store: &'a Store<D>,
    fates: &BTreeMap<i64, Option<&'a Entry<D>>>,
    ids: &[i64],
) -> Result<Changes, AllocError>
    requires { All (λ w. KeepsIds (admits w.filter) store.now.rows w.ids.keys) views.old }
    ensures same { AreRoomier views.old views.new }
    ensures changes { IfOk result (λ staged. staged ≡ all_changes views.old store.now.rows fates.now ids.now) }
    ensures shifts { OnOk result (HaveShifts store.now.rows fates.now ids.now views.old views.new) }
    ensures room { OnOk result (All (λ w. length w.shifts.items ≤ spare w.ids) views.new) }
{
    store.facts();
    let mut staged = Changes::new(alloc);
    for at in 0..views.len() {
        stage_view(alloc, &mut staged, &mut views[at], store, fates, ids)?;
    }
    Ok(staged)
}

/// Stages what a plan changes in the views, and has each view await it. The views stay, also after a refusal.
pub fn stage<'a, const D: usize>(
    alloc: Global,
    views: &mut Vec<Watched>,
    store: &'a Store<D>,
    plan: &'a [Step<D>],
) -> Result<Changes, AllocError>
    requires { All (λ w. KeepsIds (admits w.filter) store.now.rows w.ids.keys) views.old.items }
    ensures views { map view_of views.new.items ≡ map view_of views.old.items }
    ensures kept { StayKept views.old.items views.new.items }
    ensures changes { IfOk result (Stages store.now.rows (map step_of plan.now) views.old.items) }
    ensures awaited { OnOk result (AwaitSteps store.now.rows (map step_of plan.now) views.old.items views.new.items) }
{
    store.facts();
    if views.is_empty() {
        return Ok(Changes::new(alloc));
    }
    let fates = fates(alloc, plan)?;
    let ids = rising_ids(alloc, &fates)?;
    let staged = stage_each(alloc, views.as_mut_slice(), store, &fates, ids.as_slice())?;
    Ok(staged)
}
