//! A table of `D` axes.
//!
//! A statement that changes rows goes in three steps: `plan` only looks, `prepare` takes all the memory, and
//! `commit` can't fail. If nobody watches, a DELETE by id goes in one, since nothing can refuse it. Contracts see a
//! table as `Held` (`specs/Held.antt`).

ghost use Rattle.std.specs.Prelude.{◌≡◌, ◌≤◌, ◌<◌, [], not, map, filter, length, position, nat_lt, Ok, IfSome, IfNone, IfOk, IfErr, OnOk, OnErr};
ghost use Rattle.std.specs.List.{list_any};
ghost use Rattle.rt_sql_statement.specs.Name.{same_name};

use rt_box::Capacity;
use rt_check::{Problem, Shadow, check};
use rt_reply::{Changes, RowsOf};
use rt_sql_statement::{Cond, Edit, Name, Refusal};
use rt_table_plan::Plan;
use rt_table_row::{Filter, Schema, Step, lone_id};
use rt_table_step::{apply, auxiliary_rows_all, inserts_all};
use rt_table_store::{Nodes, Store};
use rt_table_view::{Watched, refresh_each, rows_of, select, stage, watch};
use rt_tree::Found;
use std::alloc::{AllocError, Global};
use std::hash::RandomState;
use std::marker::Model;
use std::mem;

fn has_view(views: &[Watched], name: &Name) -> bool
    ensures { result ≡ list_any (λ w. same_name name.now w.name) views.now }
{
    views.iter().any(|view| name.is_same(&view.name))
}

fn position(views: &[Watched], name: &Name) -> Option<usize>
    ensures { result ≡ position (λ w. same_name name.now w.name) views.now }
{
    views.iter().position(|view| name.is_same(&view.name))
}

/// Each view of that name goes.
fn forget(views: &mut Vec<Watched>, name: &Name)
    ensures { views.new.items ≡ filter (λ w. not (same_name name.now w.name)) views.old.items }
{
    while let Some(at) = position(views.as_slice(), name) {
        let _ = views.remove(at);
    }
}

/// A table of `D` axes: its columns, its rows by rising id, and its views in the order in which they were named.
pub struct Table<const D: usize> {
    alloc: Global,
    keys: RandomState,
    columns: Schema,
    store: Store<D>,
    views: Vec<Watched>,
    staged: Changes,
}

// By hand, since a derived drop is written out, field by field, wherever such a value ends.
impl<const D: usize> Drop for Table<D> {
    fn drop(self) {
        let Table {
            alloc: _,
            keys: _,
            columns: _,
            store: _,
            views: _,
            staged: _,
        } = self;
    }
}

impl<const D: usize> Model for Table<D> {
    ghost use Rattle.rt_table.specs.Held.{Held};

    ghost Value = { Held D };

    ghost use Rattle.rt_table.specs.TableInside.{contents, IsWhole};

    ghost view = { contents };

    ghost invariant = { IsWhole D };
}

impl<const D: usize> Table<D> {
    ghost use Rattle.rt_table_row.specs.Tables.{new_table, has_view, select, watch, unwatch, view, edited};
    ghost use Rattle.rt_table_row.specs.Entries.{step_of};
    ghost use Rattle.rt_table_plan.specs.Plans.{Plans};
    ghost use Rattle.rt_table.specs.Replies.{Refuses, Shows, ShowsIds, VisitsBy};
    ghost use Rattle.rt_reply.specs.Rows.{values_of_rows};
    ghost use Rattle.rt_table_step.specs.Steps.{ApplyTo};
    ghost use Rattle.rt_table.specs.Ready.{IsReady};
    ghost use Rattle.rt_table.specs.Edits.{edit_steps, edit_outcome, lists_after, changes_to, removal, FollowsEdit, NeedsPlan};
    ghost use Rattle.rt_tree.specs.Lists.{empty_lists};
    ghost use Rattle.rt_table_store.specs.Trees.{FollowsSteps};
    ghost use Rattle.rt_table_store.specs.declared.select.Nodes.TheVariants.{Counted};

    /// A table of these columns, without rows and views. The nodes of its tree have at most `capacity` cells. Look-ups
    /// hash by `keys`, which are to be random if others choose the ids.
    pub fn new(
        alloc: Global,
        keys: RandomState,
        capacity: Capacity,
        columns: Schema,
    ) -> Result<Table<D>, AllocError>
        requires { columns.axes ≡ D }
        ensures lists { IfOk result (λ table. table.lists ≡ new_table columns) }
        ensures tree { IfOk result (λ table. table.tree ≡ empty_lists capacity) }
    {
        // There are one to three axes.
        columns.facts();
        let store = Store::new(alloc, keys, capacity)?;
        Ok(Table {
            alloc,
            keys,
            columns,
            store,
            views: Vec::new(alloc),
            staged: Changes::new(alloc),
        })
    }

    /// How many rows there are.
    pub fn len(&self) -> usize
        ensures { result ≡ length self.now.lists.rows }
    {
        self.store.len()
    }

    /// The columns.
    pub fn schema(&self) -> &Schema
        ensures { result.now ≡ self.now.lists.columns }
    {
        &self.columns
    }

    /// Whether the table has a view.
    pub fn watched(&self) -> bool
        ensures { result ≡ nat_lt 0 (length self.now.lists.views) }
    {
        !self.views.is_empty()
    }

    /// How many views the table has.
    pub fn view_count(&self) -> usize
        ensures { result ≡ length self.now.lists.views }
    {
        self.views.len()
    }

    /// Whether the table has a view of that name; ASCII case doesn't matter.
    pub fn has_view(&self, name: &Name) -> bool
        ensures { result ≡ has_view self.now.lists name.now }
    {
        has_view(self.views.as_slice(), name)
    }

    /// The rows that a condition picks, by rising id, and the number of nodes that its window reaches, if they are counted.
    ///
    /// # Errors
    ///
    /// `NoSuchColumn` if a test looks at a column that the table hasn't, and `OutOfMemory`.
    pub fn select(&self, cond: Cond, nodes: Nodes) -> Result<Found<RowsOf<D>>, Refusal>
        ensures ok { IfOk result (λ found. Shows (select self.now.lists cond) (values_of_rows found.rows)) }
        ensures visited { IfOk result (λ found. nodes ≡ Counted → VisitsBy self.now cond found.visited) }
        ensures err { IfErr result (Refuses (select self.now.lists cond)) }
    {
        let condition = Filter::new(self.alloc, &self.columns, cond)?;
        Ok(select(self.alloc, &self.store, &condition, nodes)?)
    }

    /// The ids of the rows that a condition picks, by rising id.
    ///
    /// # Errors
    ///
    /// Those of `select`.
    pub fn select_ids(&self, cond: Cond) -> Result<Vec<i64>, Refusal>
        ensures ok { IfOk result (λ ids. ShowsIds (select self.now.lists cond) ids.items) }
        ensures err { IfErr result (Refuses (select self.now.lists cond)) }
    {
        let condition = Filter::new(self.alloc, &self.columns, cond)?;
        let ids = self.store.select_ids(self.alloc, &condition)?;
        Ok(ids)
    }

    /// The rows of a view, by rising id. No node is visited for them.
    ///
    /// # Errors
    ///
    /// `NoSuchView` if no view of this table has the name, and `OutOfMemory`.
    pub fn view(&self, name: &Name) -> Result<Found<RowsOf<D>>, Refusal>
        ensures ok { IfOk result (λ found. Shows (view self.now.lists name.now) (values_of_rows found.rows)) }
        ensures visited { IfOk result (λ found. found.visited ≡ 0) }
        ensures err { IfErr result (Refuses (view self.now.lists name.now)) }
    {
        let Some(at) = position(self.views.as_slice(), name) else {
            return Err(Refusal::NoSuchView);
        };
        let rows = rows_of(self.alloc, &self.store, &self.views[at])?;
        Ok(Found { rows, visited: 0 })
    }

    /// Names a view of the rows that a condition picks. A refusal changes nothing.
    ///
    /// # Errors
    ///
    /// `ViewAlreadyExists` if a view of this table has the name, `NoSuchColumn`, and `OutOfMemory`.
    pub fn watch(&mut self, name: Name, cond: Cond) -> Result<(), Refusal>
        ensures ok { OnOk result (watch self.old.lists name cond ≡ Ok self.new.lists) }
        ensures tree { self.new.tree ≡ self.old.tree }
        ensures err { IfErr result (Refuses (watch self.old.lists name cond)) }
        ensures refused { OnErr result (self.new ≡ self.old) }
    {
        if self.has_view(&name) {
            return Err(Refusal::ViewAlreadyExists);
        }
        let view = watch(
            self.alloc,
            self.keys,
            &self.columns,
            &self.store,
            name,
            cond,
        )?;
        self.views.push(view)?;
        Ok(())
    }

    /// The plan of an edit, with what the table has. The table stays.
    ///
    /// # Errors
    ///
    /// - Of an INSERT: `BadColumnList`, `NoSuchColumn` and `WrongNumberOfValues` of the statement; `WrongType`,
    ///   `IntegerOutOfRange`, `MinimumAboveMaximum`, `NoIdLeft`, `IdAlreadyTaken` and `TableFull` of a row.
    /// - Of an UPDATE: `BadColumnList` and `NoSuchColumn` of the statement; `WrongType`, `IntegerOutOfRange`,
    ///   `MinimumAboveMaximum` and `IdAlreadyTaken` of a row.
    /// - Of a DELETE: `NoSuchColumn`.
    /// - Of any: `OutOfMemory`.
    pub fn plan(&self, edit: Edit) -> Result<Plan<D>, Refusal>
        ensures plans { Plans (edit_steps edit self.now.lists) result }
        ensures applies { IfOk result (ApplyTo self.now.lists.columns self.now.lists.rows) }
    {
        Plan::new(self.alloc, self.keys, &self.columns, &self.store, edit)
    }

    /// Makes the table ready for a plan: reserves what carrying it out takes, and stages what it changes in the
    /// views. Rows, views and the tree stay, also after a refusal.
    ///
    /// # Errors
    ///
    /// `AllocError` if no memory is left.
    pub fn prepare(&mut self, plan: &[Step<D>]) -> Result<(), AllocError>
        requires { ApplyTo self.old.lists.columns self.old.lists.rows (map step_of plan.now) }
        ensures lists { self.new.lists ≡ self.old.lists }
        ensures tree { self.new.tree ≡ self.old.tree }
        ensures ok { OnOk result (IsReady self.new (map step_of plan.now)) }
    {
        let staged = stage(self.alloc, &mut self.views, &self.store, plan)?;
        self.store
            .reserve(inserts_all(plan), auxiliary_rows_all(plan))?;
        self.staged = staged;
        Ok(())
    }

    /// Carries out the plan that the table is ready for. It takes no memory, and nothing refuses it.
    pub fn commit(&mut self, plan: Vec<Step<D>>) -> Changes
        requires { IsReady self.old (map step_of plan.items) }
        ensures lists { self.new.lists ≡ lists_after self.old.lists (map step_of plan.entry.items) }
        ensures changed { result ≡ changes_to self.old.lists self.new.lists.rows }
        ensures tree { FollowsSteps self.old.lists.rows (map step_of plan.entry.items) self.old.tree self.new.tree }
    {
        apply(&mut self.store, plan);
        self.store.facts();
        refresh_each(self.alloc, &mut self.views);
        mem::replace(&mut self.staged, Changes::new(self.alloc))
    }

    /// Forgets a view. It takes no memory; a refusal changes nothing.
    ///
    /// # Errors
    ///
    /// `NoSuchView` if no view of this table has the name.
    pub fn unwatch(&mut self, name: &Name) -> Result<(), Refusal>
        ensures ok { OnOk result (unwatch self.old.lists name.now ≡ Ok self.new.lists) }
        ensures tree { self.new.tree ≡ self.old.tree }
        ensures err { IfErr result (λ refusal. unwatch self.old.lists name.now ≡ Err refusal) }
        ensures refused { OnErr result (self.new ≡ self.old) }
    {
        if !self.has_view(name) {
            return Err(Refusal::NoSuchView);
        }
        forget(&mut self.views, name);
        Ok(())
    }

    /// Carries a plan out, and answers what it changed in the views. A refusal changes nothing.
    fn carry_out(&mut self, plan: Plan<D>) -> Result<Changes, AllocError>
        requires { ApplyTo self.old.lists.columns self.old.lists.rows plan }
        ensures ok { IfOk result (λ changes. edited self.old.lists (Ok plan.entry) ≡ Ok (changes, self.new.lists)) }
        ensures tree { OnOk result (FollowsSteps self.old.lists.rows plan.entry self.old.tree self.new.tree) }
        ensures refused { OnErr result (self.new.lists ≡ self.old.lists) }
        ensures same_tree { OnErr result (self.new.tree ≡ self.old.tree) }
    {
        self.store.facts();
        let steps = plan.into_steps();
        self.prepare(steps.as_slice())?;
        Ok(self.commit(steps))
    }

    /// Takes the row of an id out, if there is one. It takes no memory, and no view has to follow.
    fn take(&mut self, id: &i64)
        requires { self.old.lists.views ≡ [] }
        ensures lists { self.new.lists ≡ lists_after self.old.lists (removal self.old.lists id.now) }
        ensures tree { FollowsSteps self.old.lists.rows (removal self.old.lists id.now) self.old.tree self.new.tree }
    {
        // The law says before and after that the tree has the rows.
        self.store.facts();
        let _ = self.store.take(id);
        self.store.facts();
    }

    /// The id whose row an edit takes out without a plan: nothing can refuse a DELETE that asks for an id alone, and if nobody
    /// watches, no view has to follow.
    fn leaving_id(&self, edit: &Edit) -> Option<i64>
        ensures unwatched { IfSome result (λ _. self.now.lists.views ≡ []) }
        ensures steps { IfSome result (λ id. edit_steps edit.now self.now.lists ≡ Ok (removal self.now.lists id)) }
        ensures none { IfNone result (NeedsPlan edit.now self.now.lists) }
    {
        let Edit::Delete { cond } = edit else {
            return None;
        };
        if self.watched() {
            return None;
        }
        lone_id(&self.columns, cond)
    }

    /// Carries an edit out, and answers what it changed in the views. A refusal changes nothing.
    ///
    /// # Errors
    ///
    /// Those of `plan`.
    pub fn edit(&mut self, edit: Edit) -> Result<Changes, Refusal>
        ensures ok { IfOk result (λ changes. edit_outcome edit self.old.lists ≡ Ok (changes, self.new.lists)) }
        ensures tree { OnOk result (FollowsEdit edit self.old.lists self.old.tree self.new.tree) }
        ensures err { IfErr result (Refuses (edit_outcome edit self.old.lists)) }
        ensures refused { OnErr result (self.new.lists ≡ self.old.lists) }
        ensures same_tree { OnErr result (self.new.tree ≡ self.old.tree) }
    {
        if let Some(id) = self.leaving_id(&edit) {
            self.take(&id);
            return Ok(Changes::new(self.alloc));
        }
        let plan = self.plan(edit)?;
        Ok(self.carry_out(plan)?)
    }

    /// The problems of the tree: there are none.
    ///
    /// # Errors
    ///
    /// `AllocError` if no memory is left.
    pub fn check(&self) -> Result<Vec<Problem>, AllocError>
        ensures { IfOk result (λ problems. problems.items ≡ []) }
    {
        self.store.facts();
        let shadow = self.shadow()?;
        check(self.alloc, &shadow)
    }

    /// The tree from outside, with the allocator and the keys that the table has.
    ///
    /// # Errors
    ///
    /// `AllocError` if no memory is left.
    pub fn shadow(&self) -> Result<Shadow<D>, AllocError>
        ensures { IfOk result (λ shadow. shadow ≡ self.now.tree) }
    {
        self.store.shadow(self.alloc, self.keys)
    }
}
