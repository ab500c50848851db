//! Rows and windows, each in a tree.
//!
//! An edit first makes room, and finds what is to be told, in a list of its own. What it then commits takes no memory and
//! can't fail. So an edit that is refused leaves all as it was.

ghost use Rattle.std.specs.Prelude.{◌≡◌, ◌≢◌, ◌≤◌, ◌<◌, None, Some, Err, map, length, IsSome, IsOk, IfOk, IfErr, OnOk, OnErr};
ghost use Rattle.rt_tree_node.specs.Whole.{most_rows_of_a_tree};
ghost use Rattle.rt_live.specs.Rows.{AreRising, rows_by_id, box_at};
ghost use Rattle.rt_live.specs.Live.{empty, with_row, with_window, seen};
ghost use Rattle.rt_live.specs.Room.{around, used, HasRoom, UsesRoom};
ghost use Rattle.rt_live.specs.declared.fault.Fault.TheVariants.{Taken, Missing, WindowTaken, NoWindow, Memory};
ghost use Rattle.rt_live.specs.Faults.{IsFaultOfInsertion, IsFaultOfEdit, IsFaultOfWatch, IsFaultOfWindow};

use crate::change::Change;
use crate::fault::Fault;
use crate::finding::{Scratch, find_either};
use crate::hull::least_side;
use crate::nodes::{few_nodes, nodes_with};
use crate::plan::{plan_row, plan_window};
use crate::setting::{make_room, set_box};
use crate::touching::does_stay;
use rt_box::{Capacity, Rect};
use rt_tree::{MOST_ROWS_OF_A_TREE, Row, Tree};
use std::alloc::{AllocError, Global};
use std::hash::RandomState;
use std::marker::Model;
use std::mem;

/// Rows and windows of `D` axes, from one to three, and what the last edit told the windows.
pub struct Live<const D: usize> {
    rows: Tree<D>,
    windows: Tree<D>,
    changes: Vec<Change>,
    // What the next edit is to tell, and what it finds: kept, so that few edits take memory for them.
    planned: Vec<Change>,
    scratch: Scratch<D>,
    // A lower bound of the windows' sides: the shortest side since there last was no window.
    least: u32,
    // A box, if the windows that were found last are those that touch it.
    near: Option<Rect<D>>,
    alloc: Global,
}

// By hand, since a derived drop is written out, field by field, wherever such a value ends.
impl<const D: usize> Drop for Live<D> {
    fn drop(self) {
        let Live {
            rows: _,
            windows: _,
            changes: _,
            planned: _,
            scratch: _,
            least: _,
            near: _,
            alloc: _,
        } = self;
    }
}

// Clauses see rows and windows as lists by rising id.
impl<const D: usize> Model for Live<D> {
    ghost use Rattle.rt_live.specs.Live.{LiveState};

    ghost Value = { LiveState D };

    ghost use Rattle.rt_live.specs.LiveInside.{state_of, IsLive};

    ghost view = { state_of };

    ghost invariant = { IsLive D };
}

/// Lists for searches.
fn empty_scratch<const D: usize>(alloc: Global) -> Scratch<D> {
    Scratch {
        found: Vec::new(alloc),
        last: Vec::new(alloc),
        reached: Vec::new(alloc),
    }
}

/// The ids of rows.
fn ids_of<const D: usize>(alloc: Global, rows: &[Row<D>]) -> Result<Vec<i64>, AllocError>
    ensures { IfOk result (λ ids. ids.items ≡ map (λ r. r.id) rows.now) }
{
    let mut ids = Vec::with_capacity(alloc, rows.len())?;
    for row in rows {
        ids.push(row.id)?;
    }
    Ok(ids)
}

impl<const D: usize> Live<D> {
    /// No rows and no windows. The nodes of the trees have at most `capacity` cells. Look-ups by id hash by `keys`, which
    /// are to be random if others choose the ids.
    ///
    /// # Errors
    ///
    /// `AllocError` if no memory is left.
    pub fn new(alloc: Global, keys: RandomState, capacity: Capacity) -> Result<Live<D>, AllocError>
        requires some { 1 ≤ D }
        requires few { D ≤ 3 }
        ensures { IfOk result (λ live. live.lists ≡ empty) }
    {
        let rows = Tree::new(alloc, keys, capacity)?;
        let windows = Tree::new(alloc, keys, capacity)?;
        Ok(Live {
            rows,
            windows,
            changes: Vec::new(alloc),
            planned: Vec::new(alloc),
            scratch: empty_scratch(alloc),
            least: u32::MAX,
            near: None,
            alloc,
        })
    }

    /// A law: rows and windows stand by rising id, and there are one to three axes. The call does nothing.
    pub fn facts(&self)
        ensures some { 1 ≤ D }
        ensures few { D ≤ 3 }
        ensures rows { AreRising self.now.lists.rows }
        ensures windows { AreRising self.now.lists.windows }
    {
        let _ = &self.changes;
    }

    /// What the last edit told the windows, by rising window and then by rising id.
    pub fn changes(&self) -> &[Change]
        ensures { result.now ≡ self.now.lists.changes }
    {
        self.changes.as_slice()
    }

    /// The tree of the rows, to search.
    pub fn rows_tree(&self) -> &Tree<D>
        ensures { rows_by_id result.now.lists ≡ self.now.lists.rows }
    {
        &self.rows
    }

    /// The tree of the windows, to search.
    pub fn windows_tree(&self) -> &Tree<D>
        ensures { rows_by_id result.now.lists ≡ self.now.lists.windows }
    {
        &self.windows
    }

    /// The ids of the rows that a window sees, by rising id.
    ///
    /// # Errors
    ///
    /// `NoWindow` if no window has the id, and `Memory` if no memory is left.
    pub fn rows(&self, window: &i64) -> Result<Vec<i64>, Fault>
        ensures ids { IfOk result (λ ids. ids.items ≡ seen self.now.lists window.now) }
        ensures no_window { box_at self.now.lists.windows window.now ≡ None → result ≡ Err NoWindow }
        ensures fault { IfErr result (IsFaultOfWindow self.now.lists.windows window.now) }
    {
        let rect = self.windows.get(window);
        if rect.is_none() {
            return Err(Fault::NoWindow);
        }
        let mut scratch = empty_scratch(self.alloc);
        find_either(&self.rows, &rect, &None, &mut scratch)?;
        let ids = ids_of(self.alloc, scratch.found.as_slice())?;
        Ok(ids)
    }

    /// Makes room for `rows` and `windows` more, and for edits that look at up to `changes` windows, or rows: those around the
    /// old box and the new one. Edits within these bounds then can't fail for want of memory. An edit that gives a row a box
    /// counts as one of `rows`, and one that gives a window a box as one of `windows`.
    ///
    /// # Errors
    ///
    /// `AllocError` if no memory is left. All is then as before, except that there may be more room.
    pub fn reserve(&mut self, rows: usize, windows: usize, changes: usize) -> Result<(), AllocError>
        ensures lists { self.new.lists ≡ self.old.lists }
        ensures rows { OnOk result (rows ≤ self.new.row_room) }
        ensures windows { OnOk result (windows ≤ self.new.window_room) }
        ensures changes { OnOk result (changes ≤ self.new.change_room) }
        ensures room { OnOk result (HasRoom self.new rows windows changes) }
        ensures keeps { UsesRoom self.old self.new 0 0 }
    {
        self.rows.reserve(rows)?;
        self.windows.reserve(windows)?;
        self.planned.reserve(changes)?;
        self.changes.reserve(changes)?;
        self.scratch.found.reserve(changes)?;
        self.scratch.last.reserve(changes)?;
        let of_rows = self.rows.capacity();
        let of_windows = self.windows.capacity();
        let least = of_rows.least().min(of_windows.least());
        let for_rows = nodes_with(&self.rows, rows, least)?;
        let for_windows = nodes_with(&self.windows, windows, least)?;
        self.scratch.reached.reserve(for_rows.max(for_windows))?;
        Ok(())
    }

    /// Gives the row of an id that box, or none, and lists what the windows are told. A refused edit leaves all as before.
    fn edit_row(
        &mut self,
        id: &i64,
        was: &Option<Rect<D>>,
        is: &Option<Rect<D>>,
    ) -> Result<(), AllocError>
        requires was { box_at self.old.lists.rows id.now ≡ was.now }
        requires few { was.now ≡ None → length self.old.lists.rows < most_rows_of_a_tree }
        ensures ok { OnOk result (self.new.lists ≡ with_row self.old.lists id.now is.now) }
        ensures err { OnErr result (self.new.lists ≡ self.old.lists) }
        ensures succeeds { (IsSome is.now → 1 ≤ self.old.row_room) →
            HasRoom self.old 0 0 (around was.now is.now self.old.lists.windows) → IsOk result }
        ensures uses { UsesRoom self.old self.new (used is.now) 0 }
    {
        if does_stay(was, is) {
            self.changes.clear();
            return Ok(());
        }
        // The list of the rows is as long as the tree's.
        self.rows.is_in_shape();
        few_nodes(&self.windows);
        make_room(&mut self.rows, is)?;
        plan_row(
            &self.windows,
            self.least,
            id,
            was,
            is,
            &mut self.near,
            &mut self.scratch,
            &mut self.planned,
        )?;
        set_box(&mut self.rows, id, was, is);
        mem::swap(&mut self.changes, &mut self.planned);
        Ok(())
    }

    /// Gives the window of an id that box, or none, and lists what it is told. A refused edit leaves all as before.
    fn edit_window(
        &mut self,
        window: &i64,
        was: &Option<Rect<D>>,
        is: &Option<Rect<D>>,
    ) -> Result<(), AllocError>
        requires was { box_at self.old.lists.windows window.now ≡ was.now }
        requires few { was.now ≡ None → length self.old.lists.windows < most_rows_of_a_tree }
        ensures ok { OnOk result (self.new.lists ≡ with_window self.old.lists window.now is.now) }
        ensures err { OnErr result (self.new.lists ≡ self.old.lists) }
        ensures succeeds { (IsSome is.now → 1 ≤ self.old.window_room) →
            HasRoom self.old 0 0 (around was.now is.now self.old.lists.rows) → IsOk result }
        ensures uses { UsesRoom self.old self.new 0 (used is.now) }
    {
        self.near = None;
        if does_stay(was, is) {
            self.changes.clear();
            return Ok(());
        }
        // The list of the windows is as long as the tree's.
        self.windows.is_in_shape();
        few_nodes(&self.rows);
        make_room(&mut self.windows, is)?;
        plan_window(
            &self.rows,
            window,
            was,
            is,
            &mut self.scratch,
            &mut self.planned,
        )?;
        self.least = least_side(self.least, &self.windows, is);
        set_box(&mut self.windows, window, was, is);
        mem::swap(&mut self.changes, &mut self.planned);
        Ok(())
    }

    /// Puts a row in. The windows that see it are told that it came.
    ///
    /// # Errors
    ///
    /// `Taken` if a row has the id already, `Full` if there are as many rows as there may be, and `Memory` if no memory is
    /// left.
    pub fn insert(&mut self, id: &i64, rect: &Rect<D>) -> Result<(), Fault>
        ensures ok { OnOk result (self.new.lists ≡ with_row self.old.lists id.now (Some rect.now)) }
        ensures err { OnErr result (self.new.lists ≡ self.old.lists) }
        ensures taken { IsSome (box_at self.old.lists.rows id.now) → result ≡ Err Taken }
        ensures fault { IfErr result (IsFaultOfInsertion self.old.lists.rows id.now) }
        ensures fits { HasRoom self.old 1 0
            (around None (Some rect.now) self.old.lists.windows) → result ≢ Err Memory }
        ensures uses { UsesRoom self.old self.new 1 0 }
    {
        self.rows.is_in_shape();
        if self.rows.contains(id) {
            return Err(Fault::Taken);
        }
        if self.rows.len() >= MOST_ROWS_OF_A_TREE {
            return Err(Fault::Full);
        }
        self.edit_row(id, &None, &Some(*rect))?;
        Ok(())
    }

    /// Takes a row out. The windows that saw it are told that it left.
    ///
    /// # Errors
    ///
    /// `Missing` if no row has the id, and `Memory` if no memory is left.
    pub fn remove(&mut self, id: &i64) -> Result<(), Fault>
        ensures ok { OnOk result (self.new.lists ≡ with_row self.old.lists id.now None) }
        ensures err { OnErr result (self.new.lists ≡ self.old.lists) }
        ensures missing { box_at self.old.lists.rows id.now ≡ None → result ≡ Err Missing }
        ensures fault { IfErr result (IsFaultOfEdit self.old.lists.rows id.now) }
        ensures fits { HasRoom self.old 0 0
            (around (box_at self.old.lists.rows id.now) None self.old.lists.windows) → result ≢ Err Memory }
        ensures uses { UsesRoom self.old self.new 0 0 }
    {
        let was = self.rows.get(id);
        if was.is_none() {
            return Err(Fault::Missing);
        }
        self.edit_row(id, &was, &None)?;
        Ok(())
    }

    /// Gives a row another box. The windows that see it, before or after, are told that it left, came, or moved inside. If it
    /// has that box already, nothing is told.
    ///
    /// # Errors
    ///
    /// `Missing` if no row has the id, and `Memory` if no memory is left.
    pub fn replace(&mut self, id: &i64, rect: &Rect<D>) -> Result<(), Fault>
        ensures ok { OnOk result (self.new.lists ≡ with_row self.old.lists id.now (Some rect.now)) }
        ensures err { OnErr result (self.new.lists ≡ self.old.lists) }
        ensures missing { box_at self.old.lists.rows id.now ≡ None → result ≡ Err Missing }
        ensures fault { IfErr result (IsFaultOfEdit self.old.lists.rows id.now) }
        ensures fits { HasRoom self.old 1 0
            (around (box_at self.old.lists.rows id.now) (Some rect.now) self.old.lists.windows) → result ≢ Err Memory }
        ensures uses { UsesRoom self.old self.new 1 0 }
    {
        let was = self.rows.get(id);
        if was.is_none() {
            return Err(Fault::Missing);
        }
        self.edit_row(id, &was, &Some(*rect))?;
        Ok(())
    }

    /// Puts a window in. It is told of each row that it sees.
    ///
    /// # Errors
    ///
    /// `WindowTaken` if a window has the id already, `Full` if there are as many windows as there may be, and `Memory` if no
    /// memory is left.
    pub fn watch(&mut self, window: &i64, rect: &Rect<D>) -> Result<(), Fault>
        ensures ok { OnOk result (self.new.lists ≡ with_window self.old.lists window.now (Some rect.now)) }
        ensures err { OnErr result (self.new.lists ≡ self.old.lists) }
        ensures taken { IsSome (box_at self.old.lists.windows window.now) → result ≡ Err WindowTaken }
        ensures fault { IfErr result (IsFaultOfWatch self.old.lists.windows window.now) }
        ensures fits { HasRoom self.old 0 1
            (around None (Some rect.now) self.old.lists.rows) → result ≢ Err Memory }
        ensures uses { UsesRoom self.old self.new 0 1 }
    {
        self.windows.is_in_shape();
        if self.windows.contains(window) {
            return Err(Fault::WindowTaken);
        }
        if self.windows.len() >= MOST_ROWS_OF_A_TREE {
            return Err(Fault::Full);
        }
        self.edit_window(window, &None, &Some(*rect))?;
        Ok(())
    }

    /// Takes a window out. It is told that each row left that it saw.
    ///
    /// # Errors
    ///
    /// `NoWindow` if no window has the id, and `Memory` if no memory is left.
    pub fn unwatch(&mut self, window: &i64) -> Result<(), Fault>
        ensures ok { OnOk result (self.new.lists ≡ with_window self.old.lists window.now None) }
        ensures err { OnErr result (self.new.lists ≡ self.old.lists) }
        ensures no_window { box_at self.old.lists.windows window.now ≡ None → result ≡ Err NoWindow }
        ensures fault { IfErr result (IsFaultOfWindow self.old.lists.windows window.now) }
        ensures fits { HasRoom self.old 0 0
            (around (box_at self.old.lists.windows window.now) None self.old.lists.rows) → result ≢ Err Memory }
        ensures uses { UsesRoom self.old self.new 0 0 }
    {
        let was = self.windows.get(window);
        if was.is_none() {
            return Err(Fault::NoWindow);
        }
        self.edit_window(window, &was, &None)?;
        Ok(())
    }

    /// Gives a window another box, as a screen that pans or zooms. It is told which rows left it, and which came.
    ///
    /// # Errors
    ///
    /// `NoWindow` if no window has the id, and `Memory` if no memory is left.
    pub fn shift(&mut self, window: &i64, rect: &Rect<D>) -> Result<(), Fault>
        ensures ok { OnOk result (self.new.lists ≡ with_window self.old.lists window.now (Some rect.now)) }
        ensures err { OnErr result (self.new.lists ≡ self.old.lists) }
        ensures no_window { box_at self.old.lists.windows window.now ≡ None → result ≡ Err NoWindow }
        ensures fault { IfErr result (IsFaultOfWindow self.old.lists.windows window.now) }
        ensures fits { HasRoom self.old 0 1
            (around (box_at self.old.lists.windows window.now) (Some rect.now) self.old.lists.rows) →
            result ≢ Err Memory }
        ensures uses { UsesRoom self.old self.new 0 1 }
    {
        let was = self.windows.get(window);
        if was.is_none() {
            return Err(Fault::NoWindow);
        }
        self.edit_window(window, &was, &Some(*rect))?;
        Ok(())
    }
}
