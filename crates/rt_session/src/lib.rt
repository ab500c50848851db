//! The tables of a script's run, and the answer to each statement.
//!
//! - `Session`: the tables under their names. `step` carries a statement out, or refuses it, and a
//!   refusal leaves the tables as they were.
//! - `Reply`, `Changes`: what a statement answers (`rt_reply`).
//!
//! If no memory is left, any statement may be refused, and that refusal too leaves the tables.
//!
//! Stands on `rt_table` and `rt_reply`. Definitions: `specs/Session.antt` (the answer to each statement),
//! `Selecting.antt`. `rt_laws` says what holds of every session.
#![tactic(auto)]

mod select;
mod session;
mod tables;

pub use rt_reply::{Changes, Reply};
pub use session::Session;
