//! The rows of a tree that are nearest to a point or to a box.
//!
//! - `nearest`: of all rows, sorted by the squared distance from the point to their boxes and then by id, the first `k`.
//! - `within`: the same of the rows within a distance of the point.
//! - `nearest_to`: the same by the squared distance between the rows' boxes and a box.
//!
//! What is nearest is looked at first, and what is farther than `k` rows seen is left out, so a search for few rows goes
//! into few nodes. A near leaf gives a first limit, and most often the first rows kept (`narrow`). A window around the limit
//! tells most cells that are beyond it without their distances (`query`).
//!
//! They ask for a whole tree without pending cells, and take memory for what they return, for at most `k` rows that they
//! keep, for as many of the near leaf, and for a heap of the nodes that they have seen.
//!
//! Stands on `rt_tree_node` and `rt_tree_walk`. Definitions: `specs/Nearest.antt` (distances, the order, the answers),
//! `Candidates.antt` (what a search keeps).
#![tactic(auto)]

mod browse;
mod candidate;
mod distance;
mod keep;
mod narrow;
mod nearby;
mod query;

pub use nearby::{nearest, nearest_to, within};
