//! A plan while it is made.
//!
//! The rows aren't copied. Of each id that the steps touched, a draft knows whether a row has it after them; of
//! every other id the store knows (`specs/Drafts.antt`).

ghost use Rattle.std.specs.Prelude.{◌≡◌, ◌≤◌, ◌∷◌, ◌++◌, ℤ, [], None, OnOk};
ghost use Rattle.std.specs.Ordering.{int_eq};
ghost use Rattle.indexmap.specs.IndexMap.{get};
ghost use Rattle.rt_table_row.specs.Entries.{step_of};
ghost use Rattle.rt_table_plan.specs.Drafts.{is_there, known, known_of, IsTouchedBy, KnowsStep, step_list};

use indexmap::IndexMap;
use rt_table_row::Step;
use rt_table_store::Store;
use std::alloc::{AllocError, Global};
use std::hash::RandomState;

/// The ids that the steps before the last one touched, and whether a row has each of them after those steps. The next
/// step is planned by that. What a finished plan changes in the views is found from its steps, which have the rows.
type Touched = IndexMap<i64, bool, RandomState>;

/// The id that the last step left without a row, and the one that it gave a row. They go to the other ids that were
/// touched if another step follows, so that a single step is planned without a map.
#[derive(Clone, Copy)]
pub(crate) struct Latest {
    left: Option<i64>,
    came: Option<i64>,
}

impl Latest {
    fn new(left: Option<i64>, came: Option<i64>) -> Latest
        ensures left { result.left ≡ left }
        ensures came { result.came ≡ came }
    {
        Latest { left, came }
    }

    /// What a step touches.
    fn of<const D: usize>(step: &Step<D>) -> Latest
        ensures { IsTouchedBy (step_of step.now) result }
    {
        match step {
            Step::Leaves(id) => Latest::new(Some(*id), None),
            Step::Comes(row) => Latest::new(None, Some(row.id)),
            Step::Becomes(id, row) => Latest::new(Some(*id), Some(row.id)),
        }
    }
}

/// Whether the steps so far left the id a row, if they touched it.
fn known(touched: &Touched, latest: &Latest, id: &i64) -> Option<bool>
    ensures { result ≡ known (get int_eq touched.now) latest.now id.now }
{
    if latest.came == Some(*id) {
        return Some(true);
    }
    if latest.left == Some(*id) {
        return Some(false);
    }
    touched.get(id).copied()
}

/// Inserts the ids of the last step, with what it did to them.
fn insert_latest(touched: &mut Touched, latest: &Latest) -> Result<(), AllocError>
    ensures { OnOk result ((id : ℤ) → get int_eq touched.new id ≡ known (get int_eq touched.old) latest.now id) }
{
    if let Some(id) = latest.left {
        touched.insert(id, false)?;
    }
    if let Some(id) = latest.came {
        touched.insert(id, true)?;
    }
    Ok(())
}

/// The steps so far. The rows aren't copied: what the steps left of the ids is enough to plan the next one.
#[derive(Drop)]
pub(crate) struct Draft<const D: usize> {
    pub(crate) steps: Vec<Step<D>>,
    pub(crate) touched: Touched,
    pub(crate) latest: Latest,
}

impl<const D: usize> Draft<D> {
    /// No steps.
    pub(crate) fn new(alloc: Global, keys: RandomState) -> Draft<D>
        requires { D ≤ 3 }
        ensures steps { result.steps.items ≡ [] }
        ensures known { (id : ℤ) → known_of result id ≡ None }
    {
        Draft {
            steps: Vec::new(alloc),
            touched: IndexMap::with_hasher(alloc, keys),
            latest: Latest::new(None, None),
        }
    }

    /// Whether a row has the id after the steps: the ids that they touched are looked at before the store.
    pub(crate) fn is_there(&self, store: &Store<D>, id: &i64) -> bool
        ensures { result ≡ is_there store.now.rows (known_of self.now) id.now }
    {
        store.facts();
        match known(&self.touched, &self.latest, id) {
            Some(there) => there,
            None => store.contains(id),
        }
    }

    /// Appends a step.
    pub(crate) fn push(&mut self, step: Step<D>) -> Result<(), AllocError>
        requires { D ≤ 3 }
        ensures steps { OnOk result (step_list self.new.steps ≡ step_list self.old.steps ++ step_of step.entry ∷ []) }
        ensures known { OnOk result (KnowsStep self.old self.new (step_of step.entry)) }
    {
        insert_latest(&mut self.touched, &self.latest)?;
        self.latest = Latest::of(&step);
        self.steps.push(step)?;
        Ok(())
    }
}
