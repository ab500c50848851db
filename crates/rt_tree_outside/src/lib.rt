//! An R*-tree from outside: as the checker takes it, with numbers in the place of keys.
//!
//! - `shadow_of`: the tree's nodes in preorder, numbered from 1, and its row entries by rising id.
//! - `is_seen_as`: whether the tree from outside is a shadow that is at hand.
//! - `laws`: the checker finds no problem in it, its nodes are in preorder, and its leaves' cells are the rows.
//!
//! It asks for a whole tree without pending cells, and takes memory for what it returns and for lists of nodes.
//!
//! Stands on `rt_tree_walk` (the keys of the nodes in preorder), `rt_tree_node`, and `rt_check` for the tree from outside.
//! Definitions: `specs/Outside.antt`, `InOrder.antt`, `LeafRows.antt`.
#![tactic(auto)]

pub mod laws;
mod outside;
pub mod preorder;
mod seen;

pub use outside::{cell_row, shadow_of};
pub use seen::is_seen_as;
