//! The code's steps follow the rules of the R*-tree on nested trees (`rt_tree_rules`): the nested tree of an arena has what
//! its cells name in the cells' place.
//!
//! A pending cell is placed as `insert_one` places its nested view, whatever else waits; so are all pending cells, one after
//! the other, and so a row comes and goes. What is seen of an arena is what is seen of its nested tree. The code counts
//! as many placements and reinsertions as the rules do.
//!
//! Each function does nothing: its contract is the law, over the steps that the contracts of `rt_tree_place` and
//! `rt_tree_remove` tell. Definitions: `specs/View.antt` (the nested tree of an arena), `Laws.antt`.
#![tactic(auto)]

ghost use Rattle.rt_tree_obeys.specs.Laws.{PlacingObeys, SettlingObeys, InsertionObeys, NodesAreSeen, RemovalObeys};

/// A placement follows the rules.
pub fn placing_obeys()
    ensures { PlacingObeys }
{}

/// A pending cell that is placed, with each that has to be placed again because of it, follows the rules.
pub fn settling_obeys()
    ensures { SettlingObeys }
{}

/// The insertion of a row follows the rules.
pub fn insertion_obeys()
    ensures { InsertionObeys }
{}

/// The nodes that are seen of an arena are those of its nested tree.
pub fn nodes_are_seen()
    ensures { NodesAreSeen }
{}

/// The removal of a row follows the rules.
pub fn removal_obeys()
    ensures { RemovalObeys }
{}
