//! The arena of a tree: its nodes by key, and what goes with them.
//!
//! The type has no invariant, since a node may be out of shape in the middle of a change. Contracts say what
//! holds: `IsWhole` in `specs/Whole.antt` between two placements.

use crate::cell::Pending;
use crate::key::Key;
use crate::nodes::Nodes;
use indexmap::IndexMap;
use rt_box::Capacity;
use std::alloc::Global;
use std::hash::RandomState;

/// The nodes of a tree, and what goes with them.
pub struct Arena<const D: usize> {
    /// The nodes by key.
    pub nodes: Nodes<D>,
    /// The key of the leaf that each row lies in, by the row's id.
    pub leaves: IndexMap<i64, Key, RandomState>,
    /// The pending cells; the last is placed first.
    pub pending: Vec<Pending<D>>,
    /// The key of the root.
    pub root: Key,
    /// The level of the root: 0 if it is a leaf.
    pub level: u8,
    /// The greatest number of cells in a node.
    pub capacity: Capacity,
}

// By hand, since a derived drop is written out, field by field, wherever such a value ends.
impl<const D: usize> Drop for Arena<D> {
    fn drop(self) {
        let Arena {
            nodes: _,
            leaves: _,
            pending: _,
            root: _,
            level: _,
            capacity: _,
        } = self;
    }
}

/// What an insertion took.
#[derive(Clone, Copy, PartialEq, Eq, Debug)]
pub struct Work {
    /// The cells that were placed: the row's own, and each that was inserted again.
    pub placements: u32,
    /// The nodes that were split.
    pub splits: u32,
    /// The nodes that gave up cells to be inserted again.
    pub reinsertions: u32,
}
