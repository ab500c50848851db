//! Which child of a node a new box goes into (Beckmann, Kriegel, Schneider, Seeger 1990, section 4.1). It is proved to be
//! the choice of the paper, ties settled, and takes no memory.
//!
//! - `choose_subtree`: the position of the cell that a new box goes into.
//!
//! Boxes are those of a node's cells, in the order of the cells, and positions in that list count
//! from 0.
//!
//! Stands on `rt_box`. Definitions: `specs/Subtree.antt`, and `Keys.antt` of `rt_box`. `Costs.antt` is for proofs here.
#![tactic(auto)]

mod holder;
mod plane;
mod subtree;

pub use subtree::choose_subtree;
