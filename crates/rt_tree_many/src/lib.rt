//! Many rows, windows or points in one call on a tree.
//!
//! - `insert_rows` inserts all rows of a list, in their order, or none. It tells the first row whose id is taken.
//! - `search_many` lists the ids that each of several windows finds, `nearest_many` those nearest to each of several points:
//!   one list, and where the ids of each begin. `count_many` counts what each window finds.
//! - `row_at` is the row at a place of the order in which `Tree::ids` tells the ids. Walked in parts, that order has each row
//!   once.
//! - `order_by_region` puts points in the order of the regions that they lie in. Windows that are asked in such an order find
//!   nodes at hand, since those near each other go into the same ones.
//!
//! Each answer is what as many calls of the tree would give. Windows are asked in an order that the caller names, and answered
//! in their own. Lists are kept between windows, so they grow only a few times.
//!
//! Stands on `rt_tree`. Definitions: `specs/Insertion.antt` (which row is refused, rows inserted in turn), `specs/Parts.antt`
//! (one list of several answers), `specs/Answers.antt` (answers noted beside their questions).
#![tactic(auto)]

mod fault;
mod insertion;
mod order;
mod parts;
mod regions;
mod searching;
mod spans;

pub use fault::RowsFault;
pub use insertion::insert_rows;
pub use order::row_at;
pub use parts::FoundMany;
pub use regions::order_by_region;
pub use searching::{count_many, nearest_many, search_many};
