//! Windows: what a search asks of the coordinates of a box.
//!
//! A window has two intervals for each axis, one for `lo` and one for `hi`. Rows are tested by the window itself,
//! and the boxes around them by its `reach` and its `core` (`specs/Window.antt`; `specs/Ends.antt` for one axis).

ghost use Rattle.std.specs.Prelude.{◌≡◌, ◌+◌, ◌*◌, ◌<◌, ◌≤◌, ◌↔◌, IsTrue, All, [], ◌∷◌, take, drop, length};
ghost use Rattle.rt_box.specs.declared.interval.Interval.{Interval};
ghost use Rattle.rt_box.specs.Bits.{Tells, AreLanes, IsClear};
ghost use Rattle.rt_box.specs.Ends.{in_order, AdmitsSide, AdmitsAxis, AreAround, Reaches, HasCore};
ghost use Rattle.rt_box.specs.Interval.{HasNumbers};
ghost use Rattle.rt_box.specs.Rect.{IsBox};
ghost use Rattle.rt_box.specs.Window.{IsUnlimited, IsAround, Narrows, Admits, MayHold, IsReach, IsCore};

use crate::interval::Interval;
use crate::operator::Operator;
use crate::rect::Rect;
use std::marker::Model;
use std::simd::prelude::*;

/// The numbers that a window allows the two ends of a box on one axis.
#[derive(Clone, Copy, Debug, PartialEq, Eq)]
struct Ends {
    lo: Interval,
    hi: Interval,
}

impl Ends {
    /// Whether both ends of a side are allowed. Both are compared with the least numbers first, and then with the greatest
    /// ones: two comparisons of a kind are made at once.
    #[inline]
    fn admits(&self, side: &Interval) -> bool
        ensures { IsTrue result ↔ AdmitsSide self.now side.now }
    {
        (self.lo.begins_by(side.lo) & self.hi.begins_by(side.hi))
            & (self.lo.lasts_to(side.lo) & self.hi.lasts_to(side.hi))
    }

    /// Which of four sides are admitted: a bit for each, and the first one's is the lowest. The four are compared at once.
    #[inline]
    fn admits_four(&self, a: &Interval, b: &Interval, c: &Interval, d: &Interval) -> u64
        ensures { Tells (AdmitsSide self.now) (a.now ∷ b.now ∷ c.now ∷ d.now ∷ []) result }
    {
        let front = i32x4::from_array([a.lo, a.hi, b.lo, b.hi]);
        let back = i32x4::from_array([c.lo, c.hi, d.lo, d.hi]);
        let (los, his) = front.deinterleave(back);
        let before = los.simd_lt(i32x4::splat(self.lo.lo)) | his.simd_lt(i32x4::splat(self.hi.lo));
        let behind = los.simd_gt(i32x4::splat(self.lo.hi)) | his.simd_gt(i32x4::splat(self.hi.hi));
        15 - (before | behind).to_bitmask()
    }

    /// What the ends of a side are if an interval that is admitted fits into it: the side begins no later than such
    /// an interval may, and ends no sooner.
    fn reach(self) -> Ends
        ensures { Reaches self result }
    {
        if self.lo.has_numbers() && self.hi.has_numbers() && self.lo.lo <= self.hi.hi {
            return Ends {
                lo: Interval {
                    lo: i32::MIN,
                    hi: self.lo.hi.min(self.hi.hi),
                },
                hi: Interval {
                    lo: self.lo.lo.max(self.hi.lo),
                    hi: i32::MAX,
                },
            };
        }
        Ends {
            lo: Interval::EMPTY,
            hi: Interval::EMPTY,
        }
    }

    /// What the ends of a side are if it covers an interval: it begins no later, and ends no sooner.
    fn around(inner: &Interval) -> Ends
        ensures { AreAround inner.now result }
    {
        Ends {
            lo: Interval {
                lo: i32::MIN,
                hi: inner.lo,
            },
            hi: Interval {
                lo: inner.hi,
                hi: i32::MAX,
            },
        }
    }

    /// What the ends of a side are if each interval that fits into it is admitted: either end may be any number of the
    /// side.
    fn core(self) -> Ends
        ensures { HasCore self result }
    {
        let both = self.lo.common_part(self.hi);
        Ends {
            lo: Interval {
                lo: both.lo,
                hi: i32::MAX,
            },
            hi: Interval {
                lo: i32::MIN,
                hi: both.hi,
            },
        }
    }
}

// A search tests each box of a node, and which of them pass can't be foreseen, so the test has no branches: numbers are
// compared four at once.

/// A lane for each end of the box's sides on one axis and on another, which is set if the end isn't allowed. The four numbers
/// are compared at once. `has_numbers` says that each end may be some number: they are then compared once, and else twice.
#[inline]
fn refused_ends<const D: usize>(
    axes: &[Ends; D],
    rect: &Rect<D>,
    first: usize,
    second: usize,
    has_numbers: bool,
) -> mask32x4
    requires first { first < D }
    requires second { second < D }
    requires some { IsTrue has_numbers → All HasNumbers (in_order axes.now) }
    ensures lanes { AreLanes result }
    ensures clear { IsClear result ↔ (AdmitsAxis axes.now rect.now first × AdmitsAxis axes.now rect.now second) }
{
    let (one, two) = (&axes[first], &axes[second]);
    let (side, other) = (rect.side(first), rect.side(second));
    let numbers = i32x4::from_array([side.lo, side.hi, other.lo, other.hi]);
    // The window's numbers are read as they stand, each least one before its greatest, and then taken apart: to gather them
    // one by one takes longer.
    let ends = i32x4::from_array([one.lo.lo, one.lo.hi, one.hi.lo, one.hi.hi]);
    let other_ends = i32x4::from_array([two.lo.lo, two.lo.hi, two.hi.lo, two.hi.hi]);
    let (least, greatest) = ends.deinterleave(other_ends);
    if has_numbers {
        // The circle of 32-bit numbers is turned until the least number that is allowed is the least of all. A number is then
        // allowed exactly if it isn't above the greatest one.
        let turn = least - i32x4::splat(i32::MIN);
        return (numbers - turn).simd_gt(greatest - turn);
    }
    numbers.simd_lt(least) | numbers.simd_gt(greatest)
}

/// Which of four masks have no lane set: a bit for each, and the first one's is the lowest.
#[inline]
fn tell_clear(a: mask32x4, b: mask32x4, c: mask32x4, d: mask32x4) -> u64
    requires a { AreLanes a }
    requires b { AreLanes b }
    requires c { AreLanes c }
    requires d { AreLanes d }
    ensures { Tells IsClear (a ∷ b ∷ c ∷ d ∷ []) result }
{
    // Each lane becomes a byte, and the four bytes of a mask one number, which is 0 if no lane is set. The compiler joins two
    // vectors and narrows their lanes in one instruction, since it knows that all bits of a lane are alike.
    let front = a.to_simd().shuffle(b.to_simd(), [0, 1, 2, 3, 4, 5, 6, 7]);
    let back = c.to_simd().shuffle(d.to_simd(), [0, 1, 2, 3, 4, 5, 6, 7]);
    let lanes = front.shuffle(back, [0, 1, 2, 3, 4, 5, 6, 7, 8, 9, 10, 11, 12, 13, 14, 15]);
    let bytes = lanes
        .simd_lt(i32x16::splat(0))
        .cast::<i8>()
        .select(u8x16::splat(255), u8x16::splat(0));
    u32x4::from_le_bytes(bytes)
        .simd_eq(u32x4::splat(0))
        .to_bitmask()
}

/// What a search asks of each coordinate of a box: an interval of 32-bit numbers, which may be empty.
///
/// The coordinates are those of a table's columns: `lo` and `hi` of the first axis, then of the next.
#[derive(Clone, Copy, Debug, PartialEq, Eq)]
pub struct Window<const D: usize> {
    axes: [Ends; D],
}

// Clauses see the list of the intervals, one for each coordinate.
impl<const D: usize> Model for Window<D> {
    ghost use Rattle.std.specs.Prelude.{◌≡◌, List, length};
    ghost use Rattle.rt_box.specs.declared.interval.Interval.{Interval};
    ghost use Rattle.rt_box.specs.Ends.{in_order, paired_up, paired_up-in_order};

    ghost Value = { List Interval };

    ghost view = { λ w. in_order w.axes };

    ghost invariant = { λ w. length w.axes ≡ D };

    ghost inverse = { λ v. record { axes = paired_up v } };

    ghost use Rattle.std.proofs.Common.{ap};

    ghost inverse_ok = { λ w _. ap (λ e. record { axes = e }) (paired_up-in_order w.axes) };
}

impl<const D: usize> Window<D> {
    /// The window that admits every box.
    pub fn all() -> Window<D>
        ensures { IsUnlimited D result }
    {
        Window {
            axes: [Ends {
                lo: Interval::ALL,
                hi: Interval::ALL,
            }; D],
        }
    }

    /// The window that admits the boxes that hold this one.
    #[inline]
    pub fn around(rect: &Rect<D>) -> Window<D>
        ensures { IsAround D rect.now result }
    {
        rect.facts();
        let mut axes = [Ends {
            lo: Interval::ALL,
            hi: Interval::ALL,
        }; D];
        for axis in 0..D {
            axes[axis] = Ends::around(rect.side(axis));
        }
        Window { axes }
    }

    /// Takes the numbers from a coordinate of which the comparison with `value` doesn't hold; `<>` takes
    /// none, since it would leave a gap.
    pub fn narrow(&mut self, coordinate: usize, op: Operator, value: i64)
        requires { coordinate < 2 * D }
        ensures { Narrows self.old self.new coordinate op value }
    {
        let axis = coordinate / 2;
        let ends = self.axes[axis];
        self.axes[axis] = if coordinate % 2 == 0 {
            Ends {
                lo: ends.lo.narrowed(op, value),
                hi: ends.hi,
            }
        } else {
            Ends {
                lo: ends.lo,
                hi: ends.hi.narrowed(op, value),
            }
        };
    }

    /// Whether each coordinate of the box is in its interval.
    #[inline]
    pub fn admits(&self, rect: &Rect<D>) -> bool
        ensures { IsTrue result ↔ Admits self.now rect.now }
    {
        let last = rect.axes() - 1;
        if last == 0 {
            let (ends, side) = (&self.axes[0], rect.side(0));
            return ends.admits(side);
        }
        !self.refused(rect, false).any()
    }

    /// Whether each coordinate may be some number. If not, no box is admitted.
    #[inline]
    fn has_numbers(&self) -> bool
        ensures { IsTrue result ↔ All HasNumbers self.now }
    {
        self.axes
            .iter()
            .all(|ends| ends.lo.has_numbers() & ends.hi.has_numbers())
    }

    /// Four lanes, for a box of several axes: it is admitted if none is set. `has_numbers` says that each coordinate may be some
    /// number: the lanes are then made in fewer steps.
    #[inline]
    fn refused(&self, rect: &Rect<D>, has_numbers: bool) -> mask32x4
        requires several { 2 ≤ D }
        requires some { IsTrue has_numbers → All HasNumbers self.now }
        ensures lanes { AreLanes result }
        ensures clear { IsClear result ↔ Admits self.now rect.now }
    {
        let last = rect.axes() - 1;
        // The first two axes, and the last two: the four numbers of neighbours stand side by side, so that they are loaded at
        // once. Three axes have the second in both pairs. Two axes have the same pair twice, and the compiler keeps one of
        // them.
        refused_ends(&self.axes, rect, 0, 1, has_numbers)
            | refused_ends(&self.axes, rect, last - 1, last, has_numbers)
    }

    /// Which of the four boxes from a position on are admitted.
    #[inline]
    fn tell_four(&self, rects: &[Rect<D>], at: usize) -> u64
        requires within { at + 4 ≤ length rects.now }
        requires some { All HasNumbers self.now }
        ensures told { Tells (Admits self.now) (take 4 (drop at rects.now)) result }
        ensures boxes { All (IsBox D) (take 4 (drop at rects.now)) }
    {
        let (a, b, c, d) = (&rects[at], &rects[at + 1], &rects[at + 2], &rects[at + 3]);
        a.facts();
        b.facts();
        c.facts();
        d.facts();
        if D == 1 {
            let ends = &self.axes[0];
            return ends.admits_four(a.side(0), b.side(0), c.side(0), d.side(0));
        }
        tell_clear(
            self.refused(a, true),
            self.refused(b, true),
            self.refused(c, true),
            self.refused(d, true),
        )
    }

    /// Tests the boxes four at a time, the first ones first. Answers how many were tested, and which of these are admitted.
    #[inline]
    fn tell_fours(&self, rects: &[Rect<D>]) -> (usize, u64)
        requires few { length rects.now ≤ 64 }
        requires some { All HasNumbers self.now }
        ensures most { length rects.now < result.0 + 4 }
        ensures within { result.0 ≤ length rects.now }
        ensures told { Tells (Admits self.now) (take result.0 rects.now) result.1 }
        ensures boxes { All (IsBox D) (take result.0 rects.now) }
    {
        let (mut at, mut bits) = (0, 0);
        while rects.len() - at >= 4 {
            bits += self.tell_four(rects, at) << at;
            at += 4;
        }
        (at, bits)
    }

    /// Which of the boxes are admitted, one by one: too few of them are left to be tested together.
    fn tell_each(&self, rects: &[Rect<D>]) -> u64
        requires { length rects.now ≤ 64 }
        ensures told { Tells (Admits self.now) rects.now result }
        ensures boxes { All (IsBox D) rects.now }
    {
        let (mut at, mut bits) = (rects.len(), 0);
        while at > 0 {
            at -= 1;
            let rect = &rects[at];
            rect.facts();
            bits = 2 * bits + u64::from(self.admits(rect));
        }
        bits
    }

    /// Which of at most 64 boxes are admitted: a bit for each, and the first one's is the lowest.
    #[inline]
    pub fn admitted(&self, rects: &[Rect<D>]) -> u64
        requires { length rects.now ≤ 64 }
        ensures told { Tells (Admits self.now) rects.now result }
        ensures boxes { All (IsBox D) rects.now }
    {
        // Four boxes are tested at once only if each coordinate may be some number. A window of which one may not admits no
        // box, and is rare.
        if rects.len() < 4 || !self.has_numbers() {
            return self.tell_each(rects);
        }
        // Up to three boxes are left. How many can't be guessed, so the last four are tested together, some a second time: a
        // loop would take longer. The first boxes are read while their count is still on its way.
        let (_, bits) = self.tell_fours(rects);
        let last = rects.len() - 4;
        bits % (1 << last) + (self.tell_four(rects, last) << last)
    }

    /// Whether a box that this window admits may lie in the box. A search that asks it of many boxes makes the `reach`
    /// once.
    pub fn may_hold(&self, rect: &Rect<D>) -> bool
        ensures { IsTrue result ↔ MayHold D self.now rect.now }
    {
        rect.facts();
        self.reach().admits(rect)
    }

    /// The window that admits the boxes in which one may lie that this window admits. A search that goes down a tree
    /// makes it once.
    pub fn reach(&self) -> Window<D>
        ensures { IsReach D self.now result }
    {
        let mut axes = self.axes;
        for axis in 0..D {
            axes[axis] = axes[axis].reach();
        }
        Window { axes }
    }

    /// The window that admits the boxes in which each one is admitted by this window. What lies in such a box needs no
    /// test.
    pub fn core(&self) -> Window<D>
        ensures { IsCore D self.now result }
    {
        let mut axes = self.axes;
        for axis in 0..D {
            axes[axis] = axes[axis].core();
        }
        Window { axes }
    }
}
