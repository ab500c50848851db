//! A look at a tree from outside.
//!
//! - `Shadow`: a tree seen from outside, a list of nodes and a list of row entries.
//! - `check`: lists the problems of a shadow under nine conditions, C1 to C9.
//!
//! A shadow is its lists; a number or an id that is listed already is answered `Twice`, and changes nothing.
//! `check` answers exactly the problems there are, each once, by condition and then in the order of the lists.
//!
//! Stands on `rt_box`. Definitions: `specs/Shadow.antt` (the lists), `Conditions.antt` (the nine conditions and the
//! list of problems). The other files of `specs/` are for proofs here.
#![tactic(auto)]

mod checker;
mod conditions;
mod fits;
mod index;
mod node;
mod problem;
mod shadow;
mod tally;

pub use checker::check;
pub use node::{NodeRow, RawCell, RowEntry};
pub use problem::{Condition, Problem};
pub use shadow::{Shadow, ShadowFault};
pub use sqlite_items::Items;
