//! How the bytes of a script are cut into pieces.
//!
//! - `Cutter` is fed a script in whatever parts its reads give, and hands out its statements and dot
//!   lines one by one. It holds one of them at a time, at most 65,536 bytes.
//! - `Piece` is such a statement or dot line, and `Ending` says how it ended.
//! - `text::is_white` is the white space that parts them, and tokens too.
//! - `laws`: each text is cut in one way.
//!
//! For every text and every way of feeding it, a piece is ready exactly if one has ended. Only `Cutter::new` takes
//! memory.
//!
//! Stands on nothing but std. Definitions: `specs/Pieces.antt` (the pieces of a whole text),
//! `Text.antt` (white space, quotes and comments), `Cutter.antt` (where a cutter stands), `Room.antt` (its
//! memory).
#![tactic(auto)]

mod cutter;
pub mod laws;
mod piece;
pub mod text;

pub use cutter::Cutter;
pub use piece::{Ending, Piece};
