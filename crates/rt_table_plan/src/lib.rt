//! What a statement does to the rows of a table, planned before anything is changed.
//!
//! - `Plan` is the list of the steps that an INSERT, UPDATE or DELETE takes, in the order in which they are to be taken.
//!   `Plan::new` gives it, or the refusal of the whole statement. It looks at a schema and a store, and knows no table, so
//!   tables stand on plans.
//!
//! A plan is exactly the steps of the definition, or the refusal that is due, or `OutOfMemory`.
//!
//! Stands on `rt_table_row`, whose `specs/Edits.antt` says what a statement does, and `rt_table_store`. Definitions:
//! `specs/Plans.antt`, `Drafts.antt`, `Counts.antt`.
#![tactic(auto)]

mod count;
mod delete;
mod draft;
mod insert;
mod plan;
mod update;

pub use plan::Plan;
