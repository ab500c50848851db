//! Packing a tree: all of its rows at once.
//!
//! - `enter` gives each row's id an entry, and says which row is the first that has the id of an earlier one.
//! - `pack` makes the tree. The cells of a level are put into an order and cut into runs, and each run is the cells of a node:
//!   as many as it can have, unless too few were left for the level's last node. The cells that name these nodes are those
//!   of the next level, until the root can have them all. So there is at most one node for each half capacity of rows, beside
//!   the root.
//!
//! The order is that of Leutenegger, Lopez and Edgington (STR: a simple and efficient algorithm for R-tree packing, ICDE
//! 1997): sorted along the first axis and cut into slabs, and each slab along the next. No contract says so: of the
//! order only that no cell comes or goes is proved.
//!
//! Stands on `rt_tree_node`, on `rt_tree` (one without rows is filled), and on `rt_tree_place` (cells attached, and laws).
//! Definitions: `specs/Packing.antt` (what packing comes to) and `Steps.antt` (its steps).
#![tactic(auto)]

mod entries;
mod fault;
mod filling;
mod level;
mod looks;
mod node;
mod packing;
mod root;
mod scratch;
mod sorting;
mod splitting;
mod tile;

pub use entries::enter;
pub use fault::PackFault;
pub use filling::fill;
pub use node::pack_node;
pub use packing::pack;
pub use root::lift_root;
