//! What the checker lists: problems, each a condition and the place where it fails.
//!
//! `specs/Conditions.antt` defines the nine conditions, and has the numbers that a program prints for them.

ghost use Rattle.std.specs.Prelude.{◌≡◌};

use std::fmt;

/// A condition on a tree seen from outside. A program prints one as `C1` to `C9`.
#[derive(Clone, Copy, PartialEq, Eq, Debug)]
pub enum Condition {
    /// C1: the root's number is listed, without a parent.
    HasRoot,
    /// C2: the node is the root; or its parent is listed, on the next level, and exactly one cell
    /// names it.
    HasPlace,
    /// C3: the cell of an inner node names a listed node whose parent is this node.
    NamesChild,
    /// C4: on each axis lo is at most hi.
    IsOrdered,
    /// C5: the cells of the node that the cell names lie in it.
    HoldsChild,
    /// C6: the cell is the hull of the cells of the node that it names.
    FitsChild,
    /// C7: the node has at most as many cells as the capacity, and its least number of them.
    IsFilled,
    /// C8: the cell of a leaf has a row entry with its id and this leaf.
    HasEntry,
    /// C9: the id of the row entry is that of exactly one cell of the leaves.
    HasCell,
}

impl Condition {
    ghost use Rattle.rt_check.specs.Conditions.{code_of};

    /// The condition's number, from 1 to 9.
    pub fn code(self) -> u8
        ensures { result ≡ code_of self }
    {
        match self {
            Condition::HasRoot => 1,
            Condition::HasPlace => 2,
            Condition::NamesChild => 3,
            Condition::IsOrdered => 4,
            Condition::HoldsChild => 5,
            Condition::FitsChild => 6,
            Condition::IsFilled => 7,
            Condition::HasEntry => 8,
            Condition::HasCell => 9,
        }
    }
}

impl fmt::Display for Condition {
    fn fmt<W: fmt::Write>(&self, f: &mut fmt::Formatter<W>) -> fmt::Result {
        let code = self.code();
        write!(f, "C{code}")
    }
}

/// A condition that fails somewhere in a shadow.
#[derive(Clone, Copy, PartialEq, Eq, Debug)]
pub struct Problem {
    /// The condition that fails.
    pub condition: Condition,
    /// The number of the node: for C1 the root's, for C9 that of the entry's leaf.
    pub node: i64,
    /// The cell's position in the node, or for C9 the row entry's, counted from 1; 0 is the node as a
    /// whole.
    pub position: u64,
}
