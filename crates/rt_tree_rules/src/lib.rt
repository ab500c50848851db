//! The rules of the R*-tree on nested lists: a node is the list of its cells, and the cell of a child is that child. They
//! name no arena and no key, and each is a function that can be computed, from ChooseSubtree to CondenseTree.
//!
//! By these rules an insertion leads to one tree and one amount of work, and so does a replacement; a removal leads to one
//! tree. There always is one, if nodes are filled, and it is filled too. No two trees look the same to the checker. Each
//! function does nothing: its contract is the law. That the code follows these rules stands in `rt_tree_obeys`.
//!
//! Definitions: `specs/Nested.antt` (trees), `Placing.antt` and `Removing.antt` (the rules), `Filled.antt`,
//! `Shadow.antt` (what the checker sees), `Laws.antt`. `Examples.antt` holds the rules against worked trees. The keys of the choices are
//! those of `rt_tree_choice`.
#![tactic(auto)]

ghost use Rattle.rt_tree_rules.specs.Laws.{SettlingIsUnique, InsertionIsUnique, RemovalIsUnique, ReplacementIsUnique, InsertionExists, RemovalExists, ShadowsAreFaithful, BestChildIsTaken, BestCutIsTaken};

/// A cell that is inserted, with all that is inserted again because of it, leads to one tree by one amount of work.
pub fn settling_is_unique()
    ensures { SettlingIsUnique }
{}

/// A row that comes leads to one tree, by one amount of work.
pub fn insertion_is_unique()
    ensures { InsertionIsUnique }
{}

/// A row that goes leads to one tree.
pub fn removal_is_unique()
    ensures { RemovalIsUnique }
{}

/// A row that gets another box leads to one tree, by one amount of work.
pub fn replacement_is_unique()
    ensures { ReplacementIsUnique }
{}

/// The cells that an insertion inserts, and inserts again, come to an end: each filled tree takes each row.
pub fn insertion_exists()
    ensures { InsertionExists }
{}

/// So does what a removal inserts again.
pub fn removal_exists()
    ensures { RemovalExists }
{}

/// No two trees look the same to the checker.
pub fn shadows_are_faithful()
    ensures { ShadowsAreFaithful }
{}

/// The child that takes a box is the one that `IsBestChild` tells.
pub fn best_child_is_taken()
    ensures { BestChildIsTaken }
{}

/// The cut of an overfull node is the one that `IsBestCut` tells.
pub fn best_cut_is_taken()
    ensures { BestCutIsTaken }
{}
