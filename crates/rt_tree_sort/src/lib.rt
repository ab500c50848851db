//! Rows by rising id: `sort_by_id` sorts what a search found, and `sort_ids` ids alone.
//!
//! It is a crate of its own, so that it is proved beside the tree, and not before the tables that use it.
//!
//! Stands on `rt_tree_walk`, for its rows. Definitions: `specs/Buckets.antt` (how rows are dealt to buckets),
//! `Digits.antt` (how ids are dealt by their digits).
#![tactic(auto)]

mod ids;
mod sort;

pub use ids::sort_ids;
pub use sort::sort_by_id;
