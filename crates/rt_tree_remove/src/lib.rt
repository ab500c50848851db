//! Removal of a row from an R*-tree (Guttman 1984, section 3.3): the cell leaves its leaf, underfull nodes are eliminated from
//! there up and their cells are placed again, and an inner root with one child gives way to it.
//!
//! - `find_row`: where a row lies, as a `Location`.
//! - `remove_found`: the row there leaves a whole tree, which is whole again. If the row's leaf was the root or had cells to
//!   spare, no other row moves.
//! - `replace_found`: the row there gets another box, by a removal and an insertion.
//!
//! Stands on `rt_tree_place` and `rt_tree_node`. Definitions: `specs/Removal.antt` and `Replacement.antt` (what they come
//! to), `Steps.antt`, `Above.antt`.
#![tactic(auto)]

mod child;
mod climb;
mod condense;
mod fit;
mod give_way;
mod location;
mod place;
mod remove;
mod replace;
mod take;

pub use location::{Location, find_row};
pub use remove::remove_found;
pub use replace::replace_found;
