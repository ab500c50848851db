//! Boxes of one to three axes, windows over them, and the capacity of a tree's nodes.
//!
//! - `Rect` is a box with 32-bit coordinates. Its measures (area, margin, overlap, union, enlargement,
//!   distance of centres) are those of the R*-tree, exact over whole numbers: nothing wraps, and each
//!   states the bound that sums of it need.
//! - `hull_of` is the least box around some boxes.
//! - `Window` holds what a search asks of each coordinate. It admits a box exactly if all of its comparisons hold,
//!   except `<>`, which it leaves out. Its `reach` admits the boxes into which an admitted box fits, and its `core` those
//!   into which only admitted boxes fit. The window `around` a box admits the boxes that hold it.
//! - `Capacity` is the greatest number of cells in a node, with the two numbers that follow from it. `MOST_CELLS` is the
//!   most that an overfull node has.
//! - `laws` states what searching and splitting rest on, over the definitions that the contracts cite.
//!
//! No call takes memory, and none refuses but the two constructors that are themselves the test.
//!
//! Stands on nothing but std. Definitions: `specs/Interval.antt`, `Rect.antt`, `Boxes.antt` and `Hull.antt` (boxes and
//! measures), `Window.antt`, `Operators.antt` (comparisons), `Bits.antt` (what the bits of a number tell), `Keys.antt` (what
//! the tree's choices compare by), `Capacity.antt`, `Laws.antt`.
#![tactic(auto)]

mod capacity;
mod hull;
mod interval;
pub mod laws;
mod operator;
mod rect;
mod window;

pub use capacity::{Capacity, MOST_CELLS};
pub use hull::hull_of;
pub use interval::Interval;
pub use operator::Operator;
pub use rect::Rect;
pub use window::Window;
