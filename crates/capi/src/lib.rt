//! The calls of a C program.
//!
//! Each call answers the number of a `Code`. No call ends the process, and one that refuses leaves the handle as it was.
//! `bindings/c/juicedelta.h` declares the calls for C.
//!
//! This crate has the exports alone, and `rt_calls` has what they do. The exports stand in `tree`, `script`, `handle`, `words`
//! and `version`, in `packing` and `insertion` (many rows come in a call), `places` (the rows from a place on, and the box
//! around all), `near` (the rows near a point or a box), `many` (many windows or points in a call), `pairs` (the pairs of rows
//! that touch), `bytes` (a tree as bytes), `live` (rows and windows edited) and `changes` (what is read of live windows). A call
//! that writes takes the object out of the handle, works on it, and puts it back. A call that reads takes the handle's words
//! and a pass, and gives the pass back in an `Answer`.
//!
//! Stands on `rt_calls`, which has all definitions: `specs/Calls.antt` (what a call does to what a handle holds, or reads of
//! it), `Codes.antt` (the numbers of codes), and one for the exports of each module, as its page says.
#![tactic(auto)]

mod bytes;
mod changes;
mod handle;
mod insertion;
mod live;
mod many;
mod near;
mod packing;
mod pairs;
mod places;
mod script;
mod tree;
mod version;
mod words;
