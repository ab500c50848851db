//! Handles by which a program in another language holds an object between calls.
//!
//! A `Handle` holds an `Object` or nothing, and takes two words. A call that writes takes the object out, works on it, and
//! puts it back, so all that uses a handle is proved as other code is. A call that reads takes the same two words as plain
//! data, `Words`, and beside them a `Pass` of no bytes: it opens the pass, and reads the object through the `Lease`. So
//! several threads may read one object side by side. Raw pointers stand in this crate alone.
//!
//! The caller in the other language sees to it that no call that writes overlaps a call that reads on one handle. It orders
//! writers and readers by a lock, a join or an atomic, and gives each thread buffers of its own. That C gives each handle to
//! one call at a time is read so: what a call that reads is given is the pass, of which each call has its own, and the words are
//! data that no one writes meanwhile.
//!
//! Stands on `rt_tree`, `rt_live` and `rt_shell`. Definitions: `specs/Owned.antt` (what memory a handle owns), `Lent.antt` (what
//! a pass owns, and what is lent by it), `Passes.antt` (what a call that reads is given, and hands back).
#![tactic(auto)]

mod handle;
mod loose;
mod object;
mod pass;
mod words;

pub use handle::Handle;
pub use object::{AnyLive, HeldLive, HeldTree, Object, Script};
pub use pass::{Lease, Pass};
pub use words::Words;
