//! Placing cells in an R*-tree, and inserting rows (Beckmann, Kriegel, Schneider, Seeger 1990, section 4).
//!
//! The last of the pending cells goes down by best children to a node of its level. From there up to the root each overfull
//! node gives up cells, to be inserted again, or is split, and the boxes of cells above are made the least ones again. An
//! overfull root is split under a new one.
//!
//! - `insert_row`: a row comes into a whole tree, which is whole again, and each other row stays in it.
//! - `push_row`: appends a row to the pending cells.
//! - `settle`: places pending cells, last first, until `base` remain.
//! - `place_last`: places the last pending cell, and specifies which cells are then pending. The tree is whole again.
//! - `choose_node`: the way down, by best children.
//! - `has_least_box`, `box_above`, `refit`: whether the cell above a node has the least box, its box, and giving it the least.
//! - `attach`, `cell_for`: a cell appended to a node of its level, and the cell that names a node.
//! - `laws`: how many nodes, levels and pending cells a whole tree has at most.
//!
//! Stands on `rt_tree_node` and `rt_tree_choice`. Definitions: `specs/Insertion.antt`, `Turns.antt` and `Placement.antt`
//! (what calls come to), `NewRow.antt`, `Rise.antt`, `Steps.antt` and `Way.antt` (their parts, and the way up),
//! `Path.antt` (the way down that best children lead), `Rules.antt` (which cells leave, and how a node is split).
#![tactic(auto)]

mod attaching;
mod descent;
mod fit;
mod grow;
mod insert;
mod laws;
mod overflow;
mod place;
mod reinsertion;
mod rise;
mod split;

pub use attaching::attach;
pub use descent::choose_node;
pub use fit::{box_above, cell_for, has_least_box, refit};
pub use insert::{insert_row, push_row};
pub use laws::{levels_are_few, nodes_are_few, pending_cells_are_few, room_is_enough};
pub use place::{place_last, settle};
