//! What SQL statements are made of, as data, whatever text spells it.
//!
//! - Edits, conditions and columns, in `statement`, `Name` and `Value` are plain data. Lists in them
//!   are `Items`, which contracts see as lists. Comparisons are those of `rt_box`, passed on.
//! - `Refusal` has the number and the words that each refusal prints, those of tables and views too.
//!
//! Definitions: `specs/Name.antt` (when two names are one), `Value.antt` (when two values are the same),
//! `Refusal.antt` (numbers and words).
#![tactic(auto)]

pub mod name;
pub mod refusal;
pub mod statement;
pub mod value;

pub use name::Name;
pub use refusal::Refusal;
pub use rt_box::Operator;
pub use sqlite_items::Items;
pub use statement::{ColumnDef, Compare, Cond, Edit, Rule, Source, Test};
pub use value::{Blob, Text, Value};
