//! A plan carried out.
//!
//! All room was reserved before, so nothing here takes memory or fails.

ghost use Rattle.std.specs.Prelude.{◌≡◌, ◌≤◌, ◌+◌, map};
ghost use Rattle.rt_table_row.specs.Edits.{after_step, outcome};
ghost use Rattle.rt_table_row.specs.Entries.{step_of};
ghost use Rattle.rt_table_store.specs.Trees.{TakesStep, TakesEach};
ghost use Rattle.rt_table_step.specs.Steps.{Applies, ApplyInTurn, inserts, inserts_all, auxiliary_rows_of, auxiliary_rows_all};

use rt_table_row::Step;
use rt_table_store::Store;

fn apply_step<const D: usize>(store: &mut Store<D>, step: Step<D>)
    requires applies { Applies store.old.rows (step_of step) }
    requires room { inserts (step_of step) ≤ store.old.room }
    requires auxiliary_room { auxiliary_rows_of (step_of step) ≤ store.old.auxiliary_room }
    ensures rows { store.new.rows ≡ after_step store.old.rows (step_of step.entry) }
    ensures tree { TakesStep store.old.rows (step_of step.entry) store.old.tree store.new.tree }
    ensures capacity { store.new.tree.capacity ≡ store.old.tree.capacity }
    ensures room { store.old.room ≤ store.new.room + inserts (step_of step.entry) }
    ensures auxiliary { store.old.auxiliary_room ≤ store.new.auxiliary_room + auxiliary_rows_of (step_of step.entry) }
{
    store.facts();
    match step {
        Step::Leaves(id) => {
            let _ = store.remove(&id);
        }
        Step::Comes(row) => store.insert(row),
        Step::Becomes(id, row) => store.replace(&id, row),
    }
}

/// Carries the steps out one after the other.
pub fn apply<const D: usize>(store: &mut Store<D>, plan: Vec<Step<D>>)
    requires apply { ApplyInTurn store.old.rows (map step_of plan.items) }
    requires room { inserts_all (map step_of plan.items) ≤ store.old.room }
    requires auxiliary_room { auxiliary_rows_all (map step_of plan.items) ≤ store.old.auxiliary_room }
    ensures rows { store.new.rows ≡ outcome store.old.rows (map step_of plan.entry.items) }
    ensures tree { TakesEach store.old.rows (map step_of plan.entry.items) store.old.tree store.new.tree }
    ensures capacity { store.new.tree.capacity ≡ store.old.tree.capacity }
{
    let mut steps = plan.into_iter();
    while let Some(step) = steps.next() {
        apply_step(store, step);
        store.facts();
    }
}
