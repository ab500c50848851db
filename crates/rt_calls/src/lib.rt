//! What the calls of a C program do.
//!
//! An export of `capi` can't be generic, so it looks which tree an object is, and hands it to a generic function of this crate.
//! Each function answers a `Code`, and one that refuses leaves the object as it was. `edit` changes a tree, `query` reads one,
//! `dump` writes its text, and `load` makes a tree of a dump. A call that reads gets the tree by `lending`, which of live
//! windows lends the tree of their rows, and gives the caller's pass back in an `Answer`. A pass has no bytes, so on x86-64 C
//! reads an `Answer` as its code in one register.
//!
//! `tree`, `script`, `handle` and `words` have what the exports of those names call. So have `packing` and `insertion` (many
//! rows come in a call), `places` (the rows from a place on, and the box around all), `near` (the rows near a point or a box),
//! `many` (many windows or points in a call), `pairs` (the pairs of rows that touch), `bytes` (a tree as bytes), `live` (rows
//! and windows edited) and `changes` (what is read of live windows). `numbers` holds the boxes and rows as C has them,
//! `relation` how a box may lie to a window, `window` a window of the tree for each relation, `buffer` the copies into the
//! caller's buffers, `keys` the keys of the hashes, and `code` what a call answers.
//!
//! Stands on `rt_handle`, `rt_tree_many`, `rt_map` and `rt_live`, and in proofs on `rt_table_store`. Definitions:
//! `specs/Codes.antt` (the numbers and words of codes), `Calls.antt` (what a call does to what a handle holds, or reads of
//! it), `Answers.antt` (how the pass comes back), `Trees.antt` and `Scripts.antt` (what a call does to a tree and to a script
//! shell), `Packing.antt`, `Insertion.antt`, `Places.antt`, `Near.antt`, `Many.antt`, `Pairs.antt`, `Bytes.antt` and `Live.antt`
//! (what the functions of those modules do; those of `changes` stand in `Live.antt`), `Relations.antt` (each relation is defined
//! once, there, by the points of boxes), `Numbers.antt` (boxes and rows as C has them), `Buffers.antt`, and `Words.antt`.
//! `Loading.antt` and `Windows.antt` are for proofs here.
#![tactic(auto)]

mod answer;
mod buffer;
pub mod bytes;
pub mod changes;
mod code;
mod dump;
mod edit;
mod handle;
pub mod insertion;
mod keys;
mod lending;
pub mod live;
mod load;
pub mod many;
pub mod near;
mod numbers;
pub mod packing;
pub mod pairs;
pub mod places;
pub mod query;
mod relation;
pub mod script;
pub mod tree;
mod window;
mod words;

pub use answer::{Answer, PairAnswer, hand_back, hand_back_both};
pub use buffer::copy_to;
pub use code::Code;
pub use dump::{dump_line, dump_plane, dump_space};
pub use edit::clear;
pub use handle::{close, fill};
pub use keys::Keys;
pub use lending::{AnyTree, LentTree, tree_in};
pub use load::load_dump;
