//! Looks at entries of the map of leaves, before they are written one after another.
//!
//! A write waits for its entry's memory. Looks at several entries wait together, and the writes find them in the cache.

ghost use Rattle.std.specs.Prelude.{◌≤◌, length};

use indexmap::IndexMap;
use rt_tree_node::{Cell, Key};
use std::hash::RandomState;

/// How many rows are looked up together, at most.
const LOOKED_UP: usize = 16;

/// What was seen of entries. Nothing reads it, but without it the compiler would leave the looks out.
#[derive(Drop)]
pub(crate) struct Looks {
    seen: u64,
}

impl Looks {
    /// Nothing was seen yet.
    pub(crate) fn new() -> Looks {
        Looks { seen: 0 }
    }

    /// Looks at the entry at this index, if there is one.
    #[inline]
    fn look_at_entry(&mut self, leaves: &IndexMap<i64, Key, RandomState>, index: usize) {
        if let Some((id, leaf)) = leaves.get_index(index) {
            // Ids and leaves are two arrays.
            let seen = id.unsigned_abs().wrapping_add(leaf.index() as u64);
            self.seen = self.seen.wrapping_add(seen);
        }
    }

    /// Looks at the places in which ids have their entries if they count up from 1, or from 0.
    #[inline(never)]
    pub(crate) fn look_at<const D: usize>(
        &mut self,
        leaves: &IndexMap<i64, Key, RandomState>,
        cells: &[Cell<D>],
    ) {
        for cell in cells {
            let number = cell.number.unsigned_abs() as usize;
            self.look_at_entry(leaves, number.wrapping_sub(1));
            self.look_at_entry(leaves, number);
        }
    }

    /// Looks up the ids of some rows from a place on. They have no entries yet, but a look-up reads where these go.
    #[inline(never)]
    pub(crate) fn look_up<const D: usize>(
        &mut self,
        leaves: &IndexMap<i64, Key, RandomState>,
        rows: &[Cell<D>],
        from: usize,
    )
        requires { from ≤ length rows.now }
    {
        let (_, left) = rows.split_at(from);
        let (next, _) = left.split_at(LOOKED_UP.min(left.len()));
        for row in next {
            let is_known = leaves.contains_key(&row.number);
            self.seen = self.seen.wrapping_add(u64::from(is_known));
        }
    }

    /// Whether rows are to be looked up from this place on, where they come one after another.
    #[inline]
    pub(crate) fn is_due(at: usize) -> bool {
        at % LOOKED_UP == 0
    }
}
