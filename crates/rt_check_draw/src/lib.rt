//! A picture of a tree: a shadow as an SVG.
//!
//! `run_draw` reads a dump whole, and writes the picture of its tree, or the first fault of the text.
//! `draw` makes the picture of a shadow alone. Their contracts name the whole text: a head, a line for
//! each cell of the levels that are drawn, a legend, and the tree's problems in red. `laws` says that
//! the text is well-formed XML, that no cell is drawn twice, that the scale keeps the order of coordinates, and
//! that each box lies in the frame.
//!
//! All lengths are whole hundredths of a pixel. The text is made whole before it is written.
//!
//! Stands on `rt_check_report`, `rt_check_dump`, `rt_check` and `rt_bytes`. Definitions: `specs/Picture.antt` (the
//! text), `Boxes.antt`, `Scale.antt` (where a box stands), `Axes.antt`, `Levels.antt` (which levels are drawn, and what is
//! said of each), `Legend.antt`, `Problems.antt`, `DrawRun.antt` (what a run does to its reader and its writer),
//! `Markup.antt` (what well-formed is), `Text.antt` (texts that grow), `Laws.antt`.
#![tactic(auto)]

mod boxes;
mod choice;
mod drawing;
pub mod laws;
mod legend;
mod levels;
mod picture;
mod problems;
mod scale;
mod text;

pub use choice::{Axes, Choice};
pub use drawing::run_draw;
pub use picture::draw;
