//! Walks over the nodes of an R*-tree.
//!
//! - `search`: the rows whose boxes a window admits, each once, and the number of nodes that it went into; `search_into`
//!   appends them to a list of the caller's, who also keeps the list of the nodes reached.
//! - `count`: how many rows a search would find, without a list of them.
//!
//! All of them ask for a whole tree without pending cells, and take memory for what they return and for a list of nodes.
//! `search_into` can't fail if its lists have room.
//!
//! Stands on `rt_tree_node`. Definitions: `specs/Search.antt` (what a search finds), `Preorder.antt` and `Rows.antt` (the
//! nodes and the rows of a tree, as lists).
#![tactic(auto)]

mod ahead;
mod counting;
mod searching;

pub use counting::count;
pub use searching::{Found, Reached, Row, search, search_into};
