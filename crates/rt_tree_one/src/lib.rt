//! An insertion, a removal and a replacement lead to one tree: whoever begins with the same nodes and does the same
//! ends with the same nodes and row entries. They are what the rules of the R*-tree make of the nested tree that the
//! nodes show, and these lead to one tree (`rt_tree_rules`). A sound tree in preorder shows one nested tree, and no
//! other: with `shadows_are_faithful` each of the two determines the other. The nested tree of a sound one is filled,
//! so it always takes a row, and gives one up.
//!
//! Each function does nothing: its contract is the law. Definitions: `specs/Laws.antt`.
#![tactic(auto)]

ghost use Rattle.rt_tree_one.specs.Laws.{RowsAreDetermined, InsertionIsDetermined, RemovalIsDetermined, ReplacementIsDetermined, SoundTreesAreNested, SoundTreesAreFilled};

/// The nodes of sound lists determine their row entries.
pub fn rows_are_determined()
    ensures { RowsAreDetermined }
{}

/// A row that comes into a tree leads to one tree, by one amount of work.
pub fn insertion_is_determined()
    ensures { InsertionIsDetermined }
{}

/// A row that goes leads to one tree.
pub fn removal_is_determined()
    ensures { RemovalIsDetermined }
{}

/// A row that gets another box leads to one tree.
pub fn replacement_is_determined()
    ensures { ReplacementIsDetermined }
{}

/// A sound tree in preorder shows a nested tree, and only one.
pub fn sound_trees_are_nested()
    ensures { SoundTreesAreNested }
{}

/// The nested tree that a sound tree shows is filled.
pub fn sound_trees_are_filled()
    ensures { SoundTreesAreFilled }
{}
