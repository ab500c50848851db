//! The nodes of an R*-tree, in an arena.
//!
//! - `Node` and the calls on a slab of nodes: each changes the one node that it names, and nothing else.
//! - `Key` is the key of a node in the slab, a type of its own, so that no position or count is taken for one.
//! - A sound arena is defined node by node: each clause speaks of a node, its parent and its children, so that a
//!   change of one node is a matter of three.
//!
//! Stands on `rt_box`. Definitions: `specs/Node.antt`, `Sound.antt` and `Whole.antt` (a sound arena), `Open.antt` (one
//! in the middle of a change), `Places.antt`, `Changes.antt`, `Homes.antt` (the map from ids to leaves), `Settles.antt`
//! (what the placing of pending cells comes to).
#![tactic(auto)]

mod access;
mod arena;
mod cell;
mod key;
mod leaves;
mod node;
mod nodes;
mod summing;

pub use access::{
    add_cell, add_cells, add_node, hull_at, node_at, put_node, remove_cell, remove_node, set_cell,
    set_parent, slab_facts, take_cells,
};
pub use arena::{Arena, Work};
pub use cell::{Cell, Pending, key_of, number_of};
pub use key::Key;
pub use leaves::{find_leaf, leaves_facts, set_leaf};
pub use node::Node;
pub use nodes::Nodes;
