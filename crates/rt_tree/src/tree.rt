//! A tree: an arena of nodes, and how many more rows it has room for.
//!
//! Rows come and go without taking memory: `reserve` makes room for the nodes of any tree with that many rows. Between two
//! calls no cell is pending and no node is out of shape (`IsKept` in `specs/TreeInside.antt`).

ghost use Rattle.std.specs.Prelude.{◌≡◌, ◌≢◌, ◌<◌, ◌≤◌, ◌+◌, ◌-◌, ◌*◌, ◌/◌, ◌^◌, ◌↔◌, ℤ, [], max, length, is_some, vec_capacity, Some, None, IsSome, IfSome, IsNone, IfNone, IsOk, IfOk, IfErr, OnOk, OnErr};
ghost use Rattle.std.specs.List.{list_any, count_by};
ghost use Rattle.std.specs.Ordering.{int_eq};
ghost use Rattle.rt_box.specs.Capacity.{least_fill};
ghost use Rattle.rt_tree_node.specs.Whole.{most_rows_of_a_tree};
ghost use Rattle.rt_tree.specs.Lists.{root_level, most_nodes, least_rows, empty_lists, IsInShape, box_of, rows_of, GainsRow, LosesRow};
ghost use Rattle.rt_tree.specs.Boxes.{HasBoxes};
ghost use Rattle.rt_tree.specs.Changes.{IsInsertion, IsRemoval};
ghost use Rattle.rt_tree.specs.Moving.{TakesRow, DropsRow};
ghost use Rattle.rt_tree.specs.Replacing.{ReplacesOther};
ghost use Rattle.rt_tree.specs.Search.{FindsIn, FindsInAfter, CountsIn, HasRoomToFindIn};
ghost use Rattle.rt_tree.specs.Bounds.{IsLeastAround};
ghost use Rattle.indexmap.specs.IndexMap.{keys};
ghost use Rattle.rt_tree_outside.specs.Outside.{outside};
ghost use Rattle.rt_tree.specs.Kept.{IsKeptWith};
ghost use Rattle.rt_tree_walk.specs.Search.{StaysInFront};

use crate::bounds::{admits_root, root_box};
use crate::learning::{learn, learn_all};
use crate::rowless::bare_arena;
use rt_box::{Capacity, Rect, Window};
use rt_check::Shadow;
use rt_tree_node::{Arena, Nodes, Work, find_leaf, leaves_facts};
use rt_tree_outside::shadow_of;
use rt_tree_place::{insert_row, levels_are_few, nodes_are_few};
use rt_tree_remove::{find_row, remove_found, replace_found};
use rt_tree_walk::{Found, Reached, Row, count, search, search_into};
use std::alloc::{AllocError, Global};
use std::hash::RandomState;
use std::marker::Model;

/// The nodes that a tree has room for beyond those that its rows may need: an insertion splits at most one
/// node a level.
const NODES_AHEAD: usize = 33;

/// The most nodes that a tree has room for, so that a key is a cell's number.
pub(crate) const MOST_NODES: usize = 1 << 62;

/// The most nodes that room grows to by doubling.
const FEW_NODES: usize = 512;

/// How many nodes a larger tree has room for at least: more than 32 MB of addresses, which take memory only as nodes come.
/// Once glibc has freed a mapped block of at most 32 MB, it takes blocks of up to that size from its heap. The map of
/// leaves would then grow there, and leave holes.
const MANY_NODES: usize = 40_000;

/// The most rows that room is asked for. No machine holds more.
const MOST_ROOM: usize = 1 << 42;

/// The most rows that a tree may have.
pub const MOST_ROWS_OF_A_TREE: usize = 1 << 31;

/// The rows that room grows to before it grows any further: as many as a table of a script may have. So a full table keeps no
/// room for rows that it can't get.
const FIRST_ROWS: usize = 1 << 20;

/// The most cells that may be pending at once: those of an underfull node on each level, and 512.
pub(crate) const PENDING_ROOM: usize = 1152;

/// A box.
pub(crate) fn point<const D: usize>() -> Rect<D>
    requires some { 1 ≤ D }
    requires few { D ≤ 3 }
{
    Rect::new([0; D], [0; D]).unwrap()
}

/// An R*-tree of rows, each an id and a box of `D` axes. No id is there twice.
pub struct Tree<const D: usize> {
    arena: Arena<D>,
    spare: usize,
}

// By hand, since a derived drop is written out, field by field, wherever such a value ends.
impl<const D: usize> Drop for Tree<D> {
    fn drop(self) {
        let Tree { arena: _, spare: _ } = self;
    }
}

// Clauses see the tree from outside.
impl<const D: usize> Model for Tree<D> {
    ghost use Rattle.rt_tree.specs.Lists.{TreeLists};

    ghost Value = { TreeLists D };

    ghost use Rattle.rt_tree.specs.TreeInside.{lists_of, IsKept};

    ghost view = { lists_of };

    ghost invariant = { IsKept };
}

/// The nodes that there is to be room for if there are that many rows: each except the root has `capacity.least()` cells.
pub fn nodes_for(capacity: Capacity, rows: usize) -> usize
    requires { rows ≤ 2 ^ 43 }
    ensures { rows + (least_fill capacity - 1) * 33 ≤ (least_fill capacity - 1) * result }
{
    rows / (capacity.least() - 1) + 1 + NODES_AHEAD
}

/// A copy of the nodes that has room for `room` nodes. What was there stays as it was, so nothing has to be put back if no
/// memory is left.
fn with_room<const D: usize>(nodes: &Nodes<D>, room: usize) -> Result<Nodes<D>, AllocError>
    ensures same { IfOk result (λ copy. copy.slots ≡ nodes.now.slots) }
    ensures room { IfOk result (λ copy. room ≤ copy.capacity) }
    ensures keys { IfOk result (λ copy. copy.capacity ≤ 2 ^ 62) }
{
    let copy = nodes.copy_with_room(room.saturating_sub(nodes.len()))?;
    if copy.capacity() > MOST_NODES {
        return Err(AllocError);
    }
    Ok(copy)
}

/// How many nodes to make room for if `room` nodes are needed.
fn likely_room(room: usize) -> usize
    ensures { room ≤ result }
{
    if room > FEW_NODES && room < MANY_NODES {
        return MANY_NODES;
    }
    room
}

/// A copy of the nodes that has room for `room` nodes, and for more if there is memory for that.
fn with_likely_room<const D: usize>(nodes: &Nodes<D>, room: usize) -> Result<Nodes<D>, AllocError>
    ensures same { IfOk result (λ copy. copy.slots ≡ nodes.now.slots) }
    ensures room { IfOk result (λ copy. room ≤ copy.capacity) }
    ensures keys { IfOk result (λ copy. copy.capacity ≤ 2 ^ 62) }
{
    let likely = likely_room(room);
    if likely == room {
        return with_room(nodes, room);
    }
    match with_room(nodes, likely) {
        Ok(copy) => Ok(copy),
        Err(_) => with_room(nodes, room),
    }
}

/// Makes room for `room` nodes, unless there is room already.
fn make_room<const D: usize>(nodes: &mut Nodes<D>, room: usize) -> Result<(), AllocError>
    requires { nodes.old.capacity ≤ 2 ^ 62 }
    ensures same { nodes.new.slots ≡ nodes.old.slots }
    ensures keys { nodes.new.capacity ≤ 2 ^ 62 }
    ensures grows { nodes.old.capacity ≤ nodes.new.capacity }
    ensures room { OnOk result (room ≤ nodes.new.capacity) }
{
    if room <= nodes.capacity() {
        return Ok(());
    }
    *nodes = with_likely_room(nodes, room)?;
    Ok(())
}

/// The further rows that a tree of `rows` rows makes room for if it is asked for `more`: as many as it has, so that many
/// reservations of one row each copy a node only a few times, but no more than it may still get. A full tree is asked for
/// more if rows are replaced; twice of that keeps copies few there. A tree of `FIRST_ROWS` rows counts as full.
fn room_ahead(rows: usize, more: usize) -> usize
    requires { more ≤ 2 ^ 42 }
    ensures room { more ≤ result }
    ensures most { result ≤ max more rows }
{
    let most = if rows > FIRST_ROWS {
        MOST_ROWS_OF_A_TREE
    } else {
        FIRST_ROWS
    };
    let free = most.saturating_sub(rows);
    let wanted = if free < 2 * more { 2 * more } else { free };
    let ahead = if rows < wanted { rows } else { wanted };
    if more < ahead { ahead } else { more }
}

impl<const D: usize> Tree<D> {
    /// A tree without rows, whose nodes have at most `capacity` cells. Look-ups by id hash by `keys`, which are to be
    /// random if others choose the ids.
    ///
    /// # Errors
    ///
    /// `AllocError` if no memory is left.
    pub fn new(alloc: Global, keys: RandomState, capacity: Capacity) -> Result<Tree<D>, AllocError>
        requires some { 1 ≤ D }
        requires few { D ≤ 3 }
        ensures { IfOk result (λ tree. tree ≡ record { lists = empty_lists capacity; spare = 0; ids = [] }) }
    {
        let arena = bare_arena(alloc, keys, capacity, NODES_AHEAD)?;
        Ok(Tree { arena, spare: 0 })
    }

    /// A tree of these nodes, for the crates that make trees.
    pub fn from_arena(arena: Arena<D>) -> Tree<D>
        requires kept { IsKeptWith arena 0 }
        ensures { result ≡ record { lists = outside arena.entry; spare = 0; ids = keys arena.entry.leaves } }
    {
        let mut arena = arena;
        learn_all(&mut arena);
        Tree { arena, spare: 0 }
    }

    /// The nodes, for the crates that read trees.
    pub fn arena(&self) -> &Arena<D>
        ensures kept { IsKeptWith result.now self.now.spare }
        ensures lists { outside result.now ≡ self.now.lists }
        ensures ids { keys result.now.leaves ≡ self.now.ids }
    {
        &self.arena
    }

    /// The number of rows.
    pub fn len(&self) -> usize
        ensures { result ≡ length self.now.lists.rows }
    {
        self.arena.leaves.len()
    }

    /// The greatest number of cells in a node.
    pub fn capacity(&self) -> Capacity
        ensures { result ≡ self.now.lists.capacity }
    {
        self.arena.capacity
    }

    /// How many more rows `insert` takes without asking for memory.
    pub fn spare(&self) -> usize
        ensures { result ≡ self.now.spare }
    {
        self.spare
    }

    /// The number of levels of nodes: 1 if the root is a leaf.
    pub fn depth(&self) -> usize
        ensures { result ≡ root_level self.now.lists + 1 }
    {
        usize::from(self.arena.level) + 1
    }

    /// The number of nodes.
    pub fn node_count(&self) -> usize
        ensures { result ≡ length self.now.lists.nodes }
    {
        self.arena.nodes.len()
    }

    /// Whether a row has that id. No leaf is looked at.
    pub fn contains(&self, id: &i64) -> bool
        ensures { result ≡ is_some (box_of self.now.lists id.now) }
    {
        find_leaf(&self.arena.leaves, id).is_some()
    }

    /// The box of the row with that id, or `None` if there is none.
    pub fn get(&self, id: &i64) -> Option<Rect<D>>
        ensures { result ≡ box_of self.now.lists id.now }
    {
        let location = find_row(&self.arena, id)?;
        Some(location.rect)
    }

    /// The least box around all rows, or `None` if there are none.
    pub fn bounds(&self) -> Option<Rect<D>>
        ensures none { IsNone result ↔ (rows_of self.now.lists ≡ []) }
        ensures some { IfSome result (IsLeastAround (rows_of self.now.lists)) }
    {
        root_box(&self.arena)
    }

    /// The ids of the rows, each once. Their order is none in particular, but stays while the tree does.
    pub fn ids(&self) -> &[i64]
        ensures order { result.now ≡ self.now.ids }
        ensures once { (id : ℤ) → count_by (int_eq id) result.now ≤ 1 }
        ensures ids { (id : ℤ) → list_any (int_eq id) result.now ≡ is_some (box_of self.now.lists id) }
        ensures count { length result.now ≡ length self.now.lists.rows }
    {
        self.arena.leaves.keys().as_slice()
    }

    // The walks over nodes are calls on the arena, which is hidden here. So `shadow`, `search`, `search_into`, `count`,
    // `nearest` and `join` forward to them, and state the results of the tree from outside.

    /// The tree from outside: its nodes in preorder, numbered from 1, and its row entries by rising id. Look-ups in it
    /// hash by `keys`.
    ///
    /// # Errors
    ///
    /// `AllocError` if no memory is left.
    pub fn shadow(&self, alloc: Global, keys: RandomState) -> Result<Shadow<D>, AllocError>
        ensures { IfOk result (λ shadow. shadow ≡ self.now.lists) }
    {
        shadow_of(alloc, keys, &self.arena)
    }

    /// A law: whatever was done to the tree, the checker finds no problem in it, its nodes are in preorder, and its row
    /// entries stand by rising id. The call does nothing.
    pub fn is_in_shape(&self)
        ensures { IsInShape self.now.lists }
    {
        leaves_facts(&self.arena.leaves);
    }

    /// A law: each cell of each node has a box of `D` axes. The call does nothing.
    pub fn has_boxes(&self)
        ensures { HasBoxes self.now.lists }
    {
        // What holds of the nodes is known once they are looked at.
        let _ = self.arena.nodes.len();
    }

    /// A law: a tree has as many row entries as rows, at most 2^31, and at most one node for each `capacity.least() - 1` of
    /// them, and one more. If it has levels above the leaves, it has at least twice `capacity.least()` to the power of their
    /// number as many rows. So it has at most 20 levels of nodes while it has at most 2^20 rows, and at most 31 in all. The call
    /// does nothing.
    pub fn is_small(&self)
        ensures rows { length self.now.lists.rows ≤ most_rows_of_a_tree }
        ensures entries { length self.now.lists.rows ≡ length (rows_of self.now.lists) }
        ensures nodes { length self.now.lists.nodes ≤ most_nodes self.now.lists }
        ensures powers { 1 ≤ root_level self.now.lists → least_rows self.now.lists ≤ length self.now.lists.rows }
        ensures few_levels { length self.now.lists.rows ≤ 2 ^ 20 → root_level self.now.lists < 20 }
        ensures levels { root_level self.now.lists < 31 }
    {
        nodes_are_few(&self.arena);
    }

    /// Finds the rows whose boxes the window admits, each once, in no stated order.
    ///
    /// # Errors
    ///
    /// `AllocError` if no memory is left for the rows found, or for the list of the nodes reached: 16 bytes a node.
    pub fn search(
        &self,
        alloc: Global,
        window: &Window<D>,
    ) -> Result<Found<Vec<Row<D>>>, AllocError>
        ensures { IfOk result (λ found. FindsIn self.now.lists window.now found.rows.items found.visited) }
    {
        search(alloc, &self.arena, window)
    }

    /// Appends the rows whose boxes the window admits, and returns the number of nodes that the search went into. What
    /// `reached` held is dropped. Both lists keep their memory, so searches that share them ask for some only a few times.
    ///
    /// # Errors
    ///
    /// `AllocError` if no memory is left for the rows found, or for the nodes reached: 16 bytes a node. Some of the rows that
    /// were found may then stand in the list. If `rows` has room for the rows found, and `reached` for the nodes of the tree,
    /// the search doesn't fail.
    pub fn search_into(
        &self,
        window: &Window<D>,
        rows: &mut Vec<Row<D>>,
        reached: &mut Vec<Reached>,
    ) -> Result<u64, AllocError>
        ensures ok { IfOk result (λ nodes. FindsInAfter self.now.lists window.now rows.old.items rows.new.items nodes) }
        ensures err { OnErr result (StaysInFront rows.old.items rows.new.items) }
        ensures succeeds { HasRoomToFindIn self.now.lists window.now rows.old reached.old → IsOk result }
        ensures rows_capacity { vec_capacity rows.old ≤ vec_capacity rows.new }
        ensures nodes_capacity { vec_capacity reached.old ≤ vec_capacity reached.new }
    {
        search_into(&self.arena, window, rows, reached)
    }

    /// Counts the rows whose boxes the window admits: as many as `search` would find, without a list of them. If all of them
    /// lie inside the window, it looks at the root alone.
    ///
    /// # Errors
    ///
    /// `AllocError` if no memory is left for the list of the nodes reached: 16 bytes a node.
    pub fn count(&self, alloc: Global, window: &Window<D>) -> Result<usize, AllocError>
        ensures { IfOk result (λ count. CountsIn self.now.lists window.now count) }
    {
        if admits_root(&self.arena, window) {
            return Ok(self.arena.leaves.len());
        }
        count(alloc, &self.arena, window)
    }

    /// Makes room for `more` further rows. The room grows by as many rows as there are, so that many reservations of one row
    /// each copy a node only a few times; but first to 2^20 rows, and from there to the most rows that a tree may have.
    ///
    /// # Errors
    ///
    /// `AllocError` if no memory is left, or if more rows than 2^42 are asked for, which no machine holds; the tree is then
    /// as before.
    pub fn reserve(&mut self, more: usize) -> Result<(), AllocError>
        ensures same { more ≤ self.old.spare → (self.new ≡ self.old) × IsOk result }
        ensures room { OnOk result (more ≤ self.new.spare) }
        ensures keeps { self.old.spare ≤ self.new.spare }
        ensures most { self.new.spare ≤ max self.old.spare (max more (length self.old.lists.rows)) }
        ensures lists { self.new.lists ≡ self.old.lists }
        ensures ids { self.new.ids ≡ self.old.ids }
    {
        if more <= self.spare {
            return Ok(());
        }
        if more > MOST_ROOM {
            return Err(AllocError);
        }
        let rows = self.arena.leaves.len();
        let spare = room_ahead(rows, more);
        let room = nodes_for(self.arena.capacity, rows + spare);
        make_room(&mut self.arena.nodes, room)?;
        self.arena.leaves.reserve(spare)?;
        self.spare = spare;
        Ok(())
    }

    /// Puts a row into the tree. It takes no memory: each row uses up one of the rows that there is room for.
    pub fn insert(&mut self, id: &i64, rect: &Rect<D>) -> Work
        requires absent { box_of self.old.lists id.now ≡ None }
        requires few { length self.old.lists.rows < most_rows_of_a_tree }
        requires spare { 1 ≤ self.old.spare }
        ensures rows { GainsRow self.old.lists self.new.lists id.now rect.now }
        ensures insertion { IsInsertion self.old.lists self.new.lists id.now rect.now result }
        ensures takes { TakesRow self.old.lists self.new.lists id.now rect.now result }
        ensures spare { self.new.spare + 1 ≡ self.old.spare }
        ensures capacity { self.new.lists.capacity ≡ self.old.lists.capacity }
    {
        let work = insert_row(&mut self.arena, id, rect);
        learn(&mut self.arena);
        self.spare -= 1;
        work
    }

    /// Takes the row with the id out of the tree, and returns its box. If there is none, the tree stays. It takes no memory.
    pub fn take(&mut self, id: &i64) -> Option<Rect<D>>
        ensures none { IfNone result (box_of self.old.lists id.now ≡ None) }
        ensures same { IfNone result (self.new ≡ self.old) }
        ensures rows { IfSome result (LosesRow self.old.lists self.new.lists id.now) }
        ensures removal { IfSome result (IsRemoval self.old.lists self.new.lists id.now) }
        ensures drops { IfSome result (DropsRow self.old.lists self.new.lists id.now) }
        ensures spare { self.new.spare ≡ self.old.spare }
        ensures capacity { self.new.lists.capacity ≡ self.old.lists.capacity }
    {
        let found = find_row(&self.arena, id)?;
        // The pending cells have room: there are few levels.
        levels_are_few(&self.arena);
        remove_found(&mut self.arena, id, &found);
        learn(&mut self.arena);
        Some(found.rect)
    }

    /// Takes the row with the id out of the tree, and returns its box. It takes no memory.
    pub fn remove(&mut self, id: &i64) -> Rect<D>
        requires { IsSome (box_of self.old.lists id.now) }
        ensures rows { LosesRow self.old.lists self.new.lists id.now result }
        ensures removal { IsRemoval self.old.lists self.new.lists id.now result }
        ensures drops { DropsRow self.old.lists self.new.lists id.now result }
        ensures spare { self.new.spare ≡ self.old.spare }
        ensures capacity { self.new.lists.capacity ≡ self.old.lists.capacity }
    {
        self.take(id).unwrap()
    }

    /// Gives the row with the id another box: the row is removed and inserted again. If it has that box already, the tree
    /// stays. It takes no memory.
    pub fn replace(&mut self, id: &i64, rect: &Rect<D>)
        requires there { IsSome (box_of self.old.lists id.now) }
        requires spare { 1 ≤ self.old.spare }
        ensures same { box_of self.old.lists id.now ≡ Some rect.now → self.new.lists ≡ self.old.lists }
        ensures other { ReplacesOther self.old.lists self.new.lists id.now rect.now }
        ensures spare { self.old.spare ≤ self.new.spare + 1 }
        ensures capacity { self.new.lists.capacity ≡ self.old.lists.capacity }
    {
        let location = find_row(&self.arena, id).unwrap();
        if location.rect == *rect {
            return;
        }
        // The pending cells have room: there are few levels.
        levels_are_few(&self.arena);
        replace_found(&mut self.arena, id, &location, rect);
        learn(&mut self.arena);
        self.spare -= 1;
    }
}
