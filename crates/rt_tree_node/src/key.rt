//! Keys of nodes.
//!
//! A type of their own keeps them apart from positions of cells and from counts.

ghost use Rattle.std.specs.Prelude.{◌≡◌};

use std::marker::Model;

/// The key of a node: its index in the arena's slab.
#[derive(Clone, Copy, PartialEq, Eq, Debug)]
pub struct Key {
    index: usize,
}

// Clauses see the index.
impl Model for Key {
    ghost use Rattle.std.specs.Prelude.{ℕ};

    ghost Value = { ℕ };

    ghost view = { λ k. k.index };

    ghost inverse = { λ n. record { index = n } };
}

impl Key {
    /// The key of the node at an index.
    #[inline]
    pub fn new(index: usize) -> Key
        ensures { result ≡ index }
    {
        Key { index }
    }

    /// The index of the node.
    #[inline]
    pub fn index(self) -> usize
        ensures { result ≡ self }
    {
        self.index
    }
}
