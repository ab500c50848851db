//! What of a tree is drawn.

ghost use Rattle.std.specs.Prelude.{◌≡◌};
ghost use Rattle.rt_check_draw.specs.Axes.{are_within, first_of, axes_of};

/// The axes that are drawn, counted from 0.
#[derive(Clone, Copy, PartialEq, Eq, Debug)]
pub struct Axes {
    /// The axis to the right.
    pub across: usize,
    /// The axis upwards; without it the levels stand one above the other, as bars.
    pub up: Option<usize>,
}

/// What of a tree is drawn.
#[derive(Clone, Copy, PartialEq, Eq, Debug)]
pub struct Choice {
    /// The axes; without them the first to the right and, if there is one, the second upwards.
    pub axes: Option<Axes>,
    /// The lowest level.
    pub lowest: u8,
    /// The highest level.
    pub highest: u8,
    /// Whether the leaves' cells are drawn however many boxes there are.
    pub all: bool,
}

impl Axes {
    /// Whether a tree with `count` axes has these.
    fn are_within(self, count: usize) -> bool
        ensures { result ≡ are_within count self }
    {
        match self.up {
            Some(up) => self.across < count && up < count,
            None => self.across < count,
        }
    }

    /// The axes of a tree with `count` axes that are drawn unasked.
    fn first_of(count: usize) -> Axes
        ensures { result ≡ first_of count }
    {
        if count < 2 {
            Axes {
                across: 0,
                up: None,
            }
        } else {
            Axes {
                across: 0,
                up: Some(1),
            }
        }
    }
}

/// The axes that are drawn of a tree with `count` axes, if it has them.
pub(crate) fn axes_of(choice: &Choice, count: usize) -> Option<Axes>
    ensures { result ≡ axes_of choice.now count }
{
    let axes = match choice.axes {
        Some(axes) => axes,
        None => Axes::first_of(count),
    };
    if axes.are_within(count) {
        Some(axes)
    } else {
        None
    }
}
