//! Rows in a tree.
//!
//! No list of the rows is kept: the tree has ids and boxes, and a map by id has the auxiliary values. Contracts
//! put both together as the list of rows (`specs/StoreInside.antt`).

ghost use Rattle.std.specs.Prelude.{◌≡◌, ◌≢◌, ◌⊎◌, ◌≤◌, ◌<◌, ◌+◌, ℤ, [], All, None, Some, true, false, length, IfSome, IfNone, IfOk, OnOk};
ghost use Rattle.std.specs.Option.{option_map, unwrap_or};
ghost use Rattle.std.specs.Ordering.{int_eq};
ghost use Rattle.indexmap.specs.IndexMap.{get, spare};
ghost use Rattle.rt_tree_node.specs.declared.arena.Work.{Work};
ghost use Rattle.rt_tree.specs.Lists.{empty_lists};
ghost use Rattle.rt_tree.specs.Changes.{IsInsertion, IsRemoval};
ghost use Rattle.rt_table_row.specs.Rows.{AreRising, row_at, has_id, with_row, without_id, largest_id};
ghost use Rattle.rt_table_row.specs.Edits.{Becomes, most_rows};
ghost use Rattle.rt_table_row.specs.Entries.{row_of, view_row};
ghost use Rattle.rt_table_store.specs.Trees.{leaf_row, IsTreeOf, TakesStep};

use crate::largest::Largest;
use indexmap::IndexMap;
use rt_box::Capacity;
use rt_check::Shadow;
use rt_sql_statement::{Items, Value};
use rt_table_row::{Entry, RowView};
use rt_tree::{Row, Tree};
use std::alloc::{AllocError, Global};
use std::hash::RandomState;
use std::marker::Model;

/// The rows of a table with `D` axes, from one to three, by rising id: their boxes in an R*-tree, their auxiliary values
/// in a map by id.
pub struct Store<const D: usize> {
    pub(crate) tree: Tree<D>,
    auxiliary: IndexMap<i64, Items<Value>, RandomState>,
    largest: Largest,
    // A row without auxiliary values is removed with an empty list.
    alloc: Global,
}

// By hand, since a derived drop is written out, field by field, in each place in which such a value ends.
impl<const D: usize> Drop for Store<D> {
    fn drop(self) {
        let Store {
            tree: _,
            auxiliary: _,
            largest: _,
            alloc: _,
        } = self;
    }
}

/// The auxiliary values of the row of that id.
fn auxiliary_of<'a>(
    auxiliary: &'a IndexMap<i64, Items<Value>, RandomState>,
    id: &i64,
) -> &'a [Value]
    ensures { result.now ≡ unwrap_or (get int_eq auxiliary.now id.now) [] }
{
    // Most tables keep none: then no id is hashed.
    if auxiliary.is_empty() {
        return &[];
    }
    match auxiliary.get(id) {
        Some(auxiliary) => auxiliary.as_slice(),
        None => &[],
    }
}

/// The auxiliary values of the row of that id are these from now on. It takes no memory.
fn set_auxiliary(
    auxiliary: &mut IndexMap<i64, Items<Value>, RandomState>,
    id: &i64,
    values: Items<Value>,
)
    requires { (values ≡ []) ⊎ (1 ≤ spare auxiliary.old) }
    ensures here { unwrap_or (get int_eq auxiliary.new id.now) [] ≡ values }
    ensures others { (other : ℤ) → other ≢ id.now → get int_eq auxiliary.new other ≡ get int_eq auxiliary.old other }
    ensures room { spare auxiliary.old ≤ spare auxiliary.new + 1 }
    ensures no_auxiliary { values ≡ [] → spare auxiliary.old ≤ spare auxiliary.new }
{
    if values.is_empty() {
        if !auxiliary.is_empty() {
            let _ = auxiliary.swap_remove(id);
        }
        return;
    }
    // There is room, so the map takes them.
    let _ = auxiliary.insert(*id, values);
}

/// The auxiliary values of the row of that id, which leave the map.
fn take_auxiliary(
    auxiliary: &mut IndexMap<i64, Items<Value>, RandomState>,
    alloc: Global,
    id: &i64,
) -> Items<Value>
    ensures value { result ≡ unwrap_or (get int_eq auxiliary.old id.now) [] }
    ensures gone { get int_eq auxiliary.new id.now ≡ None }
    ensures others { (other : ℤ) → other ≢ id.now → get int_eq auxiliary.new other ≡ get int_eq auxiliary.old other }
    ensures room { spare auxiliary.old ≤ spare auxiliary.new }
{
    if auxiliary.is_empty() {
        return Items::new(alloc);
    }
    match auxiliary.swap_remove(id) {
        Some(auxiliary) => auxiliary,
        None => Items::new(alloc),
    }
}

impl<const D: usize> Model for Store<D> {
    ghost use Rattle.rt_table_store.specs.StoreLists.{StoreLists};

    ghost Value = { StoreLists D };

    ghost use Rattle.rt_table_store.specs.StoreInside.{stored, IsJoined};

    ghost view = { stored };

    ghost invariant = { IsJoined D };
}

impl<const D: usize> Store<D> {
    /// No rows. The tree's nodes have at most `capacity` cells. Look-ups by id hash by `keys`, which are to be random
    /// if others choose the ids.
    ///
    /// # Errors
    ///
    /// `AllocError` if no memory is left.
    pub fn new(alloc: Global, keys: RandomState, capacity: Capacity) -> Result<Store<D>, AllocError>
        requires some { 1 ≤ D }
        requires few { D ≤ 3 }
        ensures rows { IfOk result (λ store. store.rows ≡ []) }
        ensures tree { IfOk result (λ store. store.tree ≡ empty_lists capacity) }
    {
        let tree = Tree::new(alloc, keys, capacity)?;
        Ok(Store {
            tree,
            auxiliary: IndexMap::with_hasher(alloc, keys),
            largest: Largest::new(alloc)?,
            alloc,
        })
    }

    /// How many rows there are.
    pub fn len(&self) -> usize
        ensures { result ≡ length self.now.rows }
    {
        self.tree.is_in_shape();
        self.tree.len()
    }

    /// A law: what holds of every store. The ids of the rows rise, the tree has their boxes, there are at most as many as a
    /// table may have, and one to three axes. The call does nothing.
    pub fn facts(&self)
        ensures rising { AreRising self.now.rows }
        ensures stands { IsTreeOf self.now.rows self.now.tree }
        ensures most { length self.now.rows ≤ most_rows }
        ensures some { 1 ≤ D }
        ensures few { D ≤ 3 }
    {
        self.tree.is_in_shape();
    }

    /// Whether a row has that id. Neither its box nor its values are looked at.
    pub fn contains(&self, id: &i64) -> bool
        ensures { result ≡ has_id self.now.rows id.now }
    {
        // The ids of the rows are those of the tree.
        self.tree.is_in_shape();
        self.tree.contains(id)
    }

    /// The row of that id, where it stands.
    pub fn get(&self, id: &i64) -> Option<RowView<'_, D>>
        ensures { option_map view_row result ≡ row_at self.now.rows id.now }
    {
        // The row of an id has the box that the tree has.
        self.tree.is_in_shape();
        let rect = self.tree.get(id)?;
        Some(RowView {
            id: *id,
            rect,
            auxiliary: auxiliary_of(&self.auxiliary, id),
        })
    }

    /// The row of a box that was found, where it stands: its box isn't looked up again.
    pub fn view(&self, row: &Row<D>) -> RowView<'_, D>
        requires { option_map leaf_row (row_at self.now.rows row.now.id) ≡ Some row.now }
        ensures { Some (view_row result) ≡ row_at self.now.rows row.now.id }
    {
        self.tree.is_in_shape();
        RowView {
            id: row.id,
            rect: row.rect,
            auxiliary: auxiliary_of(&self.auxiliary, &row.id),
        }
    }

    /// Whether a row may have auxiliary values. If none has, its id and its box are all of it.
    pub fn has_auxiliary(&self) -> bool
        ensures { result ≡ false → All (λ row. row.auxiliary ≡ []) self.now.rows }
    {
        !self.auxiliary.is_empty()
    }

    /// The largest id.
    pub fn largest(&self) -> Option<i64>
        ensures { result ≡ largest_id self.now.rows }
    {
        self.tree.is_in_shape();
        self.largest.get()
    }

    /// The tree from outside, told as the store's: no one else has the tree itself. Look-ups in it hash by `keys`.
    ///
    /// # Errors
    ///
    /// `AllocError` if no memory is left.
    pub fn shadow(&self, alloc: Global, keys: RandomState) -> Result<Shadow<D>, AllocError>
        ensures { IfOk result (λ shadow. shadow ≡ self.now.tree) }
    {
        self.tree.shadow(alloc, keys)
    }

    /// Makes room for `rows` more rows, and for `auxiliary` of them with auxiliary values. The rows and the tree stay, also
    /// after a refusal.
    ///
    /// # Errors
    ///
    /// `AllocError` if no memory is left.
    pub fn reserve(&mut self, rows: usize, auxiliary: usize) -> Result<(), AllocError>
        ensures rows { self.new.rows ≡ self.old.rows }
        ensures tree { self.new.tree ≡ self.old.tree }
        ensures room { self.old.room ≤ self.new.room }
        ensures auxiliary_room { self.old.auxiliary_room ≤ self.new.auxiliary_room }
        ensures ok { OnOk result (rows ≤ self.new.room) }
        ensures auxiliary { OnOk result (auxiliary ≤ self.new.auxiliary_room) }
    {
        self.tree.reserve(rows)?;
        if auxiliary == 0 {
            return Ok(());
        }
        self.auxiliary.reserve(auxiliary)?;
        Ok(())
    }

    /// Inserts a row. It takes no memory.
    pub fn insert(&mut self, row: Entry<D>)
        requires absent { has_id self.old.rows row.id ≡ false }
        requires few { length self.old.rows < most_rows }
        requires room { 1 ≤ self.old.room }
        requires auxiliary_room { (row.auxiliary ≡ []) ⊎ (1 ≤ self.old.auxiliary_room) }
        ensures rows { self.new.rows ≡ with_row self.old.rows (row_of row.entry) }
        ensures tree { (work : Work) × IsInsertion self.old.tree self.new.tree row.entry.id row.entry.rect work }
        ensures capacity { self.new.tree.capacity ≡ self.old.tree.capacity }
        ensures room { self.old.room ≤ self.new.room + 1 }
        ensures auxiliary_room { self.old.auxiliary_room ≤ self.new.auxiliary_room + 1 }
        ensures no_auxiliary { row.entry.auxiliary ≡ [] → self.old.auxiliary_room ≤ self.new.auxiliary_room }
    {
        // The law says before and after which ids the tree has.
        self.tree.is_in_shape();
        let Entry {
            id,
            rect,
            auxiliary,
        } = row;
        // The `Work` that it answers is for those who measure a tree; a table has no use for it.
        let _ = self.tree.insert(&id, &rect);
        self.tree.is_in_shape();
        self.largest.push(&id);
        set_auxiliary(&mut self.auxiliary, &id, auxiliary);
    }

    /// Takes out the row of that id. If there is none, the store stays. It takes no memory.
    pub fn take(&mut self, id: &i64) -> Option<Entry<D>>
        ensures row { option_map row_of result ≡ row_at self.old.rows id.now }
        ensures none { IfNone result (self.new ≡ self.old) }
        ensures rows { IfSome result (λ _. self.new.rows ≡ without_id self.old.rows id.now) }
        ensures tree { IfSome result (λ row. IsRemoval self.old.tree self.new.tree id.now row.rect) }
        ensures capacity { self.new.tree.capacity ≡ self.old.tree.capacity }
        ensures room { self.old.room ≤ self.new.room }
        ensures auxiliary_room { self.old.auxiliary_room ≤ self.new.auxiliary_room }
    {
        // The law says before and after which ids the tree has.
        self.tree.is_in_shape();
        let rect = self.tree.take(id)?;
        self.tree.is_in_shape();
        self.largest.remove(id, &self.tree);
        let auxiliary = take_auxiliary(&mut self.auxiliary, self.alloc, id);
        Some(Entry {
            id: *id,
            rect,
            auxiliary,
        })
    }

    /// Removes the row of that id. It takes no memory.
    pub fn remove(&mut self, id: &i64) -> Entry<D>
        requires { has_id self.old.rows id.now ≡ true }
        ensures row { Some (row_of result) ≡ row_at self.old.rows id.now }
        ensures rows { self.new.rows ≡ without_id self.old.rows id.now }
        ensures tree { IsRemoval self.old.tree self.new.tree id.now result.rect }
        ensures capacity { self.new.tree.capacity ≡ self.old.tree.capacity }
        ensures room { self.old.room ≤ self.new.room }
        ensures auxiliary_room { self.old.auxiliary_room ≤ self.new.auxiliary_room }
    {
        self.take(id).unwrap()
    }

    /// Replaces the row of that id by another that keeps the id, so that the largest id stays. It takes no memory.
    fn update(&mut self, id: &i64, row: Entry<D>)
        requires there { has_id self.old.rows id.now ≡ true }
        requires same { row.id ≡ id.now }
        requires room { 1 ≤ self.old.room }
        requires auxiliary_room { (row.auxiliary ≡ []) ⊎ (1 ≤ self.old.auxiliary_room) }
        ensures rows { self.new.rows ≡ with_row (without_id self.old.rows id.now) (row_of row.entry) }
        ensures tree { TakesStep self.old.rows (Becomes id.now (row_of row.entry)) self.old.tree self.new.tree }
        ensures capacity { self.new.tree.capacity ≡ self.old.tree.capacity }
        ensures room { self.old.room ≤ self.new.room + 1 }
        ensures auxiliary_room { self.old.auxiliary_room ≤ self.new.auxiliary_room + 1 }
        ensures no_auxiliary { row.entry.auxiliary ≡ [] → self.old.auxiliary_room ≤ self.new.auxiliary_room }
    {
        // The law says before and after which ids the tree has.
        self.tree.is_in_shape();
        let Entry {
            id: _,
            rect,
            auxiliary,
        } = row;
        self.tree.replace(id, &rect);
        self.tree.is_in_shape();
        set_auxiliary(&mut self.auxiliary, id, auxiliary);
    }

    /// Replaces the row of that id by another. If id and box stay, the tree is left alone; if the id stays, so does what is
    /// known of the largest. It takes no memory.
    pub fn replace(&mut self, id: &i64, row: Entry<D>)
        requires there { has_id self.old.rows id.now ≡ true }
        requires absent { has_id (without_id self.old.rows id.now) row.id ≡ false }
        requires room { 1 ≤ self.old.room }
        requires auxiliary_room { (row.auxiliary ≡ []) ⊎ (1 ≤ self.old.auxiliary_room) }
        ensures rows { self.new.rows ≡ with_row (without_id self.old.rows id.now) (row_of row.entry) }
        ensures tree { TakesStep self.old.rows (Becomes id.now (row_of row.entry)) self.old.tree self.new.tree }
        ensures capacity { self.new.tree.capacity ≡ self.old.tree.capacity }
        ensures room { self.old.room ≤ self.new.room + 1 }
        ensures auxiliary_room { self.old.auxiliary_room ≤ self.new.auxiliary_room + 1 }
        ensures no_auxiliary { row.entry.auxiliary ≡ [] → self.old.auxiliary_room ≤ self.new.auxiliary_room }
    {
        // There are few enough rows, and fewer once the old one is out.
        self.facts();
        if *id == row.id {
            self.update(id, row);
            return;
        }
        let _ = self.remove(id);
        self.facts();
        self.insert(row);
    }
}
