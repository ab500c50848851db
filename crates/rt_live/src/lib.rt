//! Live windows: rows that move, windows over them, and each move told to just those windows that see it.
//!
//! - `Live` holds rows and windows, each an id and a box. A window sees the rows that touch it: a common point is enough,
//!   be it on an edge.
//! - `insert`, `remove` and `replace` edit a row; `watch`, `unwatch` and `shift` a window. After each, `changes` lists what
//!   windows are told: which rows left, came, or moved inside, by rising window and then by rising id.
//! - An edit that is refused leaves the rows, the windows and the last changes as they were.
//! - An edit of a row looks at the windows around its old box and its new one, an edit of a window at the rows there. Where the
//!   two boxes are close, the box around both is searched once.
//! - `reserve` makes room for rows, windows and changes: edits within these bounds can't fail for want of memory.
//! - `copies_follow` is the theorem: a copy of what a window sees, which follows the changes, is what the window sees.
//!
//! Stands on `rt_tree`, whose rows are also the windows, and on `rt_tree_sort`. Definitions: `specs/Rows.antt` (rows and
//! windows as plain lists), `Changes.antt` (what is told), `Live.antt` (what each edit makes of rows and windows),
//! `Faults.antt` (when an edit is refused), `Room.antt` (what an edit looks at, and room for it), `Following.antt` (a copy that
//! follows).
#![tactic(auto)]

ghost use Rattle.rt_live.specs.Following.{CopiesFollow};

mod change;
mod fault;
mod finding;
mod hull;
mod live;
mod near;
mod nodes;
mod plan;
mod setting;
mod strips;
mod touching;

pub use change::{Change, Kind};
pub use fault::Fault;
pub use live::Live;

/// A law: whatever edits come, the copy of each window that follows the changes is what the window sees. The call does
/// nothing.
pub fn copies_follow()
    ensures { CopiesFollow }
{}
