//! SQL statements and dot lines as data: what a piece of a script asks for.
//!
//! - `Stmt` is one of them, made of the parts of `rt_sql_statement`.
//!
//! It stands apart from the parts, so that a new statement leaves the crates of tables as they are: they know edits and
//! conditions, and no statement.
//!
//! Stands on `rt_sql_statement`. It has no definitions: a statement is its own.
#![tactic(auto)]

pub mod request;

pub use request::Stmt;
