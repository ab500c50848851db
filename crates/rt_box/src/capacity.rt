//! The capacity of a tree's nodes, and the two numbers that follow from it.
//!
//! It is at most 51, as in SQLite's nodes. It is at least 5, so that neither number is 0 and a split leaves no
//! cell alone (`specs/Capacity.antt`). An overfull node has a cell more, until it is split or gives cells up.

ghost use Rattle.std.specs.Prelude.{◌≡◌, ◌↔◌, IsSome, IfSome};
ghost use Rattle.rt_box.specs.Capacity.{IsCapacity, least_fill, reinsertion_share};

use std::marker::Model;

/// The most cells that are ever in a node: a cell more than the greatest capacity allows, in an overfull one.
pub const MOST_CELLS: usize = 52;

/// The greatest number of cells in a node of a tree, from 5 to 51.
#[derive(Clone, Copy, Debug, PartialEq, Eq)]
pub struct Capacity {
    greatest: u8,
}

// Clauses see the number.
impl Model for Capacity {
    ghost use Rattle.std.specs.Prelude.{ℕ};
    ghost use Rattle.rt_box.specs.Capacity.{IsCapacity};

    ghost Value = { ℕ };

    ghost view = { λ c. c.greatest };

    ghost invariant = { λ c. IsCapacity c.greatest };

    ghost inverse = { λ n. record { greatest = n } };
}

impl Capacity {
    /// The capacity of `greatest` cells, or `None` if that is below 5 or above 51.
    pub fn new(greatest: u8) -> Option<Capacity>
        ensures valid { IsSome result ↔ IsCapacity greatest }
        ensures value { IfSome result (λ c. c ≡ greatest) }
    {
        if greatest >= 5 && greatest <= 51 {
            Some(Capacity { greatest })
        } else {
            None
        }
    }

    /// A law: the greatest number of cells is from 5 to 51. The call does nothing.
    #[inline]
    pub fn facts(self)
        ensures { IsCapacity self }
    {
        let _ = self.greatest;
    }

    /// The greatest number of cells in a node.
    pub fn greatest(self) -> usize
        ensures value { result ≡ self }
        ensures valid { IsCapacity self }
    {
        usize::from(self.greatest)
    }

    /// The least number of cells in a node that isn't the root: two fifths of the greatest, rounded down.
    pub fn least(self) -> usize
        ensures value { result ≡ least_fill self }
        ensures valid { IsCapacity self }
    {
        self.greatest() * 2 / 5
    }

    /// The number of cells that an overfull node gives up for reinsertion: three tenths, rounded down.
    pub fn share(self) -> usize
        ensures value { result ≡ reinsertion_share self }
        ensures valid { IsCapacity self }
    {
        self.greatest() * 3 / 10
    }
}
