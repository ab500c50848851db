//! What a map program asks of a tree beyond rows and windows.
//!
//! - `from_rows` makes a tree of a list of rows, packed all at once.
//! - `from_shadow` makes a tree of a shadow: that very tree if its nodes stand in preorder, which is tested and not proved, or
//!   else one of its rows.
//! - `to_bytes` writes a tree in a compact form, and `from_bytes` makes a tree with given bytes.
//! - `nearest` lists the rows whose boxes are nearest to a point, `within` those of them within a distance, and
//!   `nearest_to` the rows nearest to a box.
//! - `join` lists the pairs of rows, one of each of two trees, whose boxes touch, and `join_self` those of one tree.
//!
//! A shadow says what shapes its nodes have, and so do bytes. The rows are packed into nodes of these shapes (`restore`), and
//! the tree is compared with the shadow or the bytes. With two axes a row takes 24 bytes, and a node two and 24 for the cell
//! that names it.
//!
//! Stands on `rt_tree`, `rt_tree_pack`, `rt_tree_nearest` and `rt_tree_join`. Tables need none of it, so the shell doesn't wait
//! for its proof. Definitions: `specs/Packing.antt` (a tree of a list of rows), `Restoring.antt` (a tree of a shadow),
//! `TreeBytes.antt`, `Join.antt`, `Levels.antt` and `LevelSteps.antt` (rows packed into given shapes), and
//! `specs/Nearest.antt` of `rt_tree_nearest`.
#![tactic(auto)]

mod bytes;
mod bytes_fault;
mod nearby;
mod packing;
mod pairs;
mod reading;
mod restore;
mod restore_fault;
mod restore_level;
mod shadows;
mod shape;
mod writing;

pub use bytes::{from_bytes, to_bytes};
pub use bytes_fault::BytesFault;
pub use nearby::{nearest, nearest_to, within};
pub use packing::from_rows;
pub use pairs::{join, join_self};
pub use restore_fault::RestoreFault;
pub use rt_tree_join::Pair;
pub use rt_tree_pack::PackFault;
pub use shadows::from_shadow;
