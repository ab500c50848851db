//! R*-trees joined: the pairs of rows whose boxes touch.
//!
//! - `join`: the pairs of rows, one of each of two trees, each once, in no stated order. A common point is enough for two boxes
//!   to touch, be it on an edge.
//! - `join_self`: the pairs of two different rows of one tree, each once, the lower id on the left. A node opened against itself
//!   gives each pair of its children once, so it takes about half the time of a join of the tree with itself.
//!
//! Both trees are gone through together, from the roots down (Brinkhoff, Kriegel, Seeger 1993, "Efficient processing of
//! spatial joins using R-trees"): a pair of nodes is opened only if their boxes touch, and of the cells of either only
//! those are looked at that touch the other's box. The cells aren't sorted and swept along an axis: a node has so few that
//! a window tells of all of them at once which touch a box.
//!
//! They ask for whole trees without pending cells, and take memory for what they return and for lists of nodes and of pairs
//! of nodes.
//!
//! Stands on `rt_tree_node` and `rt_tree_walk`. Definitions: `specs/Join.antt` (touching boxes, the
//! pairs), `Due.antt` (the pairs of nodes that are due), `Itself.antt` (the nodes to be joined with themselves).
#![tactic(auto)]

mod due;
mod itself;
mod joining;
mod touching;

pub use itself::join_self;
pub use joining::{Pair, join};
