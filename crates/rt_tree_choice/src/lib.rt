//! Two choices of the R*-tree (Beckmann, Kriegel, Schneider, Seeger 1990): which two groups an overfull node is cut into,
//! and which cells leave it to be inserted again. Each is proved to be the choice of the paper, ties settled; none takes
//! memory.
//!
//! - `choose_split`: the `Cut` of an overfull node's cells (section 4.2); `sorted_positions` gives the
//!   order along an axis that the cut speaks of.
//! - `farthest`: the positions of the cells that leave an overfull node to be inserted again (section 4.3).
//! - `laws`: each order that the choices cite is sorted, and no other is.
//!
//! Boxes are those of a node's cells, in the order of the cells, and positions in that list count
//! from 0.
//!
//! Stands on `rt_box`. Definitions: `specs/Split.antt`, `Reinsertion.antt`, and what they cite, `Sorting.antt` and
//! `Hull.antt`; `Laws.antt` (the laws). The other files of `specs/` are for proofs here.
#![tactic(auto)]

mod hulls;
pub mod laws;
mod numbers;
mod reinsertion;
mod sort;
mod split;

pub use reinsertion::farthest;
pub use sort::sorted_positions;
pub use split::{Cut, choose_split};
