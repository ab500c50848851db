//! An R*-tree of rows with ids (Beckmann, Kriegel, Schneider, Seeger 1990): a map from ids to boxes that is searched
//! by windows.
//!
//! `Tree` is seen as lists, the way `rt_check` takes a tree from outside: its nodes in preorder, numbered from 1, with
//! their cells, and an entry for each row.
//!
//! - `insert` and `remove` take no memory and don't fail: `reserve` made the room. They make of the nested tree that the nodes
//!   show what the rules make of it (`rt_tree_rules`). Each other row stays, and if no node gets overfull or underfull, no other
//!   row moves. `take` removes a row that may be missing.
//! - `replace` gives a row another box, by a removal and an insertion that look its id up once. If the row has the box
//!   already, the tree stays.
//! - `is_in_shape`, `has_boxes` and `is_small` hold of each tree, whatever was done to it: the checker finds no problem,
//!   each cell has a box, and there are few nodes and few levels.
//! - `search` lists the rows that a window admits, and counts the nodes that it went into; `search_into` appends them to a
//!   list of the caller's, who also keeps the list of the nodes reached: if both have room, it can't fail. `count` says how
//!   many rows there are.
//! - `bounds` is the least box around all rows. `ids` tells the ids in an order that stays while the tree does.
//! - `arena` and `from_arena` are for the crates that read and make whole trees, as `rt_map` does.
//!
//! Stands on `rt_tree_node`, `rt_tree_walk`, `rt_tree_outside`, `rt_tree_place`, `rt_tree_remove` and `rt_tree_obeys`, and on
//! `rt_check` for the tree from outside. Definitions: `specs/Lists.antt` (a tree from outside, and its rows), `Boxes.antt`,
//! `Bounds.antt`, `Changes.antt` (insertion and removal), `Moving.antt` (which rows move), `Replacing.antt`, `Search.antt`,
//! `Way.antt`, `Kept.antt` (what holds of its nodes).
#![tactic(auto)]

mod bounds;
mod learning;
mod rowless;
mod tree;

pub use rowless::bare_arena;
pub use rt_tree_node::Work;
pub use rt_tree_walk::{Found, Reached, Row};
pub use tree::{MOST_ROWS_OF_A_TREE, Tree, nodes_for};
