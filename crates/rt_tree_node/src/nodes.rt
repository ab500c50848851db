//! The nodes of a tree by key, and how many rows there are below each.
//!
//! Contracts see the slab of the nodes alone. The numbers of rows are sums: that of a leaf is the number of its cells, and
//! that of another node the sum of its children's. A write of a node doesn't touch them: it notes the node's key as stale.

ghost use Rattle.std.specs.Prelude.{◌≡◌, ℕ, ◌≤◌, [], length, Some, IfOk, option_copied};
ghost use Rattle.slab.specs.Slab.{get, slab_len, HasRoomFor};
ghost use Rattle.rt_tree_node.specs.Places.{level_at};
ghost use Rattle.rt_tree_node.specs.Below.{HangTogether, CountsBelow};
ghost use Rattle.rt_tree_node.specs.Sums.{sum_at};

use crate::key::Key;
use crate::node::Node;
use crate::summing::{are_right, learn_levels, mend, sum_of};
use slab::Slab;
use std::alloc::{AllocError, Global};
use std::marker::Model;

/// How many keys can be stale before all sums are lost.
const STALE_ROOM: usize = 64;

/// How many places of nodes an edit may look at, so that sums that were lost are learnt again.
const PLACES_AN_EDIT: usize = 16;

/// The nodes of a tree by key, and how many rows there are below each.
#[derive(Drop)]
pub struct Nodes<const D: usize> {
    pub(crate) slab: Slab<Node<D>>,
    /// By key, how many rows there are below the node.
    pub(crate) sums: Vec<u32>,
    /// The keys of the nodes whose sums may be wrong.
    pub(crate) stale: Vec<Key>,
    /// Whether any sum may be wrong.
    pub(crate) is_lost: bool,
    /// How many edits came since.
    edits: usize,
}

// Clauses see the slab.
impl<const D: usize> Model for Nodes<D> {
    ghost use Rattle.slab.specs.Slab.{Slab as Slots};
    ghost use Rattle.rt_tree_node.specs.Node.{NodeCells};

    ghost Value = { Slots (NodeCells D) };

    ghost use Rattle.rt_tree_node.specs.NodesInside.{slab_of, AreSummed};

    ghost view = { slab_of };

    ghost invariant = { AreSummed };
}

/// The sums, and 0 for each key after them and below `len`.
fn padded(alloc: Global, sums: &[u32], len: usize) -> Result<Vec<u32>, AllocError>
    ensures { IfOk result (λ copy. (key : ℕ) → sum_at copy.items key ≡ sum_at sums.now key) }
{
    let mut copy = Vec::with_capacity(alloc, len)?;
    copy.extend_from_slice(sums)?;
    copy.resize(len.max(sums.len()), 0)?;
    Ok(copy)
}

impl<const D: usize> Nodes<D> {
    /// No nodes, with room for some.
    ///
    /// # Errors
    ///
    /// `AllocError` if no memory is left.
    pub fn with_capacity(alloc: Global, capacity: usize) -> Result<Nodes<D>, AllocError>
        requires few { D ≤ 3 }
        ensures empty { IfOk result (λ nodes. nodes.slots ≡ []) }
        ensures first_key { IfOk result (λ nodes. nodes.vacant_key ≡ 0) }
        ensures capacity { IfOk result (λ nodes. capacity ≤ nodes.capacity) }
    {
        let slab = Slab::with_capacity(alloc, capacity)?;
        let mut sums = Vec::new(alloc);
        sums.resize(slab.capacity(), 0)?;
        let stale = Vec::with_capacity(alloc, STALE_ROOM)?;
        Ok(Nodes {
            slab,
            sums,
            stale,
            is_lost: false,
            edits: 0,
        })
    }

    /// A copy with room for more nodes.
    ///
    /// # Errors
    ///
    /// `AllocError` if no memory is left.
    pub fn copy_with_room(&self, more: usize) -> Result<Nodes<D>, AllocError>
        ensures same { IfOk result (λ copy. copy.slots ≡ self.now.slots) }
        ensures room { IfOk result (λ copy. HasRoomFor copy more) }
    {
        let mut slab = self.slab.clone()?;
        slab.reserve(more)?;
        let alloc = *self.sums.allocator();
        let sums = padded(alloc, self.sums.as_slice(), slab.capacity())?;
        let stale = Vec::with_capacity(alloc, STALE_ROOM)?;
        let is_right = are_right(self.stale.as_slice(), self.is_lost);
        Ok(Nodes {
            slab,
            sums,
            stale,
            is_lost: !is_right,
            edits: 0,
        })
    }

    /// How many nodes there is room for.
    #[inline]
    pub fn capacity(&self) -> usize
        ensures value { result ≡ self.now.capacity }
        ensures holds_all { slab_len self.now ≤ result }
        ensures slots { length self.now.slots ≤ result }
    {
        self.slab.capacity()
    }

    /// How many nodes there are.
    #[inline]
    pub fn len(&self) -> usize
        ensures { result ≡ slab_len self.now }
    {
        self.slab.len()
    }

    /// The node at a key, if there is one.
    #[inline]
    pub fn get(&self, key: Key) -> Option<&Node<D>>
        ensures { option_copied result ≡ get self.now key }
    {
        self.slab.get(key.index())
    }

    /// How many rows there are below a node, if that is known.
    #[inline]
    pub fn rows_below(&self, key: Key) -> Option<usize>
        requires { HangTogether self.now }
        ensures { CountsBelow self.now key result }
    {
        if !are_right(self.stale.as_slice(), self.is_lost) {
            return None;
        }
        Some(sum_of(self.sums.as_slice(), key))
    }

    /// At the end of an edit: learns how many rows there are below the nodes that were written. The root has the level. It
    /// takes no memory.
    pub fn learn(&mut self, level: u8)
        requires joined { HangTogether self.old }
        requires level { (key l : ℕ) → level_at self.old key ≡ Some l → l ≤ level }
        ensures { self.new ≡ self.old }
    {
        if self.is_lost {
            self.learn_again(level);
            return;
        }
        while let Some(key) = self.stale.pop() {
            if !mend(&self.slab, &mut self.sums, self.stale.as_slice(), key) {
                self.is_lost = true;
                return;
            }
        }
    }

    /// After an edit that wrote many nodes, learns the sums of all, but only once so many edits came that it is cheap.
    fn learn_again(&mut self, level: u8)
        requires joined { HangTogether self.old }
        requires level { (key l : ℕ) → level_at self.old key ≡ Some l → l ≤ level }
        ensures { self.new ≡ self.old }
    {
        self.edits = self.edits.saturating_add(1);
        // What learns them goes through all places, also those that no node has.
        if self.edits >= self.slab.capacity() / PLACES_AN_EDIT {
            self.learn_all(level);
        }
    }

    /// Learns how many rows there are below each node of a tree whose root has the level. It takes no memory.
    pub fn learn_all(&mut self, level: u8)
        requires joined { HangTogether self.old }
        requires level { (key l : ℕ) → level_at self.old key ≡ Some l → l ≤ level }
        ensures { self.new ≡ self.old }
    {
        self.edits = 0;
        self.is_lost = !learn_levels(&self.slab, &mut self.sums, level);
        self.stale.clear();
    }
}
