//! Boxes of one to three axes, and their measures.
//!
//! Measures are exact whole numbers. The contract of each gives its formula, which `specs/Rect.antt` defines, and
//! a bound by which callers show that their sums don't wrap.

ghost use Rattle.std.specs.Prelude.{◌≡◌, ◌+◌, ◌*◌, ◌^◌, ◌<◌, ◌≤◌, ◌↔◌, ◌≤ℤ◌, IsTrue, IsSome, IfSome, slice_index_or};
ghost use Rattle.std.specs.List.{AllZip};
ghost use Rattle.rt_box.specs.Interval.{Covers};
ghost use Rattle.rt_box.specs.Rect.{IsBox, los, his, area, margin, overlap, union_box, Holds, centre_distance};

use crate::interval::Interval;
use std::default::MadeWith;
use std::marker::Model;

/// The area of two sides. In 64 bits the product is one instruction, in 128 bits several.
#[inline]
fn product(first: u32, second: u32) -> u128
    ensures value { result ≡ first * second }
    ensures bound { result ≤ 2 ^ 64 }
{
    u128::from(u64::from(first) * u64::from(second))
}

/// Whether the ends before were inside, and neither of the inner ones goes past the outer interval's. All are compared:
/// which of them goes past is by chance, so a branch for each would mostly be guessed wrong.
#[inline]
fn are_inside(before: bool, outer: &Interval, inner: &Interval) -> bool
    ensures { IsTrue result ↔ (IsTrue before × Covers outer.now inner.now) }
{
    before & (outer.lo <= inner.lo) & (inner.hi <= outer.hi)
}

/// A box of `D` axes, from one to three: on each an interval of 32-bit numbers whose `lo` is not above
/// its `hi`. The measures are those of the R*-tree (Beckmann, Kriegel, Schneider, Seeger 1990), as whole
/// numbers.
#[derive(Clone, Copy, Debug, PartialEq, Eq)]
pub struct Rect<const D: usize> {
    sides: [Interval; D],
}

// Clauses see the list of the intervals, one for each axis.
impl<const D: usize> Model for Rect<D> {
    ghost use Rattle.std.specs.Prelude.{List};
    ghost use Rattle.rt_box.specs.declared.interval.Interval.{Interval};
    ghost use Rattle.rt_box.specs.Rect.{IsBox};

    ghost Value = { List Interval };

    ghost view = { λ r. r.sides };

    ghost invariant = { λ r. IsBox D r.sides };

    ghost inverse = { λ b. record { sides = b } };
}

// No box is a default one, so an array of boxes is filled with copies of one that is at hand.
impl<const D: usize> MadeWith<Rect<D>> for Rect<D> {
    fn made_with(rect: Rect<D>) -> Rect<D> {
        rect
    }
}

impl<const D: usize> Rect<D> {
    /// The box from `lo` to `hi` on each axis, or `None` if some `lo` is above its `hi`.
    pub fn new(lo: [i32; D], hi: [i32; D]) -> Option<Rect<D>>
        requires some { 1 ≤ D }
        requires few { D ≤ 3 }
        ensures valid { IsSome result ↔ AllZip ◌≤ℤ◌ lo.entry hi.entry }
        ensures lo { IfSome result (λ r. los r ≡ lo.entry) }
        ensures hi { IfSome result (λ r. his r ≡ hi.entry) }
    {
        let mut sides = [Interval::ALL; D];
        for axis in 0..D {
            if lo[axis] > hi[axis] {
                return None;
            }
            sides[axis] = Interval {
                lo: lo[axis],
                hi: hi[axis],
            };
        }
        Some(Rect { sides })
    }

    /// A law: it has one to three axes, and on each an interval whose `lo` is not above its `hi`. The call does nothing.
    #[inline]
    pub fn facts(&self)
        ensures { IsBox D self.now }
    {
        let _ = &self.sides;
    }

    /// The number of axes.
    pub fn axes(&self) -> usize
        ensures value { result ≡ D }
        ensures is_box { IsBox D self.now }
    {
        let sides = &self.sides;
        sides.len()
    }

    /// The interval on an axis.
    #[inline]
    pub fn range(&self, axis: usize) -> Interval
        requires { axis < D }
        ensures value { result ≡ slice_index_or self.now axis result }
        ensures ordered { result.lo ≤ℤ result.hi }
        ensures is_box { IsBox D self.now }
    {
        self.sides[axis]
    }

    /// The interval on an axis, in place.
    #[inline]
    pub(crate) fn side(&self, axis: usize) -> &Interval
        requires { axis < D }
        ensures value { result.now ≡ slice_index_or self.now axis result.now }
        ensures is_box { IsBox D self.now }
    {
        &self.sides[axis]
    }

    /// The least number on each axis.
    pub fn lo(&self) -> [i32; D]
        ensures { result ≡ los self.now }
    {
        let mut lo = [0; D];
        for axis in 0..self.axes() {
            lo[axis] = self.range(axis).lo;
        }
        lo
    }

    /// The greatest number on each axis.
    pub fn hi(&self) -> [i32; D]
        ensures { result ≡ his self.now }
    {
        let mut hi = [0; D];
        for axis in 0..self.axes() {
            hi[axis] = self.range(axis).hi;
        }
        hi
    }

    /// The product of the sides.
    #[inline]
    pub fn area(&self) -> u128
        ensures value { result ≡ area self.now }
        ensures bound { result ≤ 2 ^ 96 }
    {
        if self.axes() == 2 {
            return product(
                self.range(0).ordered_length(),
                self.range(1).ordered_length(),
            );
        }
        let mut area: u128 = 1;
        for axis in 0..self.axes() {
            area *= u128::from(self.range(axis).ordered_length());
        }
        area
    }

    /// The sum of the sides.
    pub fn margin(&self) -> u64
        ensures value { result ≡ margin self.now }
        ensures bound { result ≤ 2 ^ 34 }
    {
        let mut margin: u64 = 0;
        for axis in 0..self.axes() {
            margin += u64::from(self.range(axis).ordered_length());
        }
        margin
    }

    /// The area that both boxes have in common: 0 if they only touch, or don't meet.
    #[inline]
    pub fn overlap(&self, other: &Rect<D>) -> u128
        ensures value { result ≡ overlap self.now other.now }
        ensures bound { result ≤ 2 ^ 96 }
    {
        if self.axes() == 2 {
            let first = self.range(0).common_part(other.range(0));
            let second = self.range(1).common_part(other.range(1));
            return product(first.length(), second.length());
        }
        let mut area: u128 = 1;
        for axis in 0..self.axes() {
            area *= u128::from(self.range(axis).common_part(other.range(axis)).length());
        }
        area
    }

    /// The least box that holds both.
    #[inline]
    pub fn union(&self, other: &Rect<D>) -> Rect<D>
        ensures { result ≡ union_box self.now other.now }
    {
        let mut sides = self.sides;
        for axis in 0..D {
            sides[axis] = sides[axis].cover(other.sides[axis]);
        }
        Rect { sides }
    }

    /// Whether all of `inner` lies in this box; a common edge is in it.
    #[inline]
    pub fn contains(&self, inner: &Rect<D>) -> bool
        ensures { IsTrue result ↔ Holds self.now inner.now }
    {
        let (outer_sides, inner_sides) = (&self.sides, &inner.sides);
        let mut inside = true;
        for axis in 0..D {
            inside = are_inside(inside, &outer_sides[axis], &inner_sides[axis]);
        }
        inside
    }

    /// By how much the area grows if this box is widened to hold `other` too.
    #[inline]
    pub fn enlargement(&self, other: &Rect<D>) -> u128
        ensures value { result + area self.now ≡ area (union_box self.now other.now) }
        ensures bound { result ≤ 2 ^ 96 }
    {
        self.facts();
        other.facts();
        self.union(other).area() - self.area()
    }

    /// The squared distance of the doubled centres.
    pub fn centre_distance(&self, other: &Rect<D>) -> u128
        ensures value { result ≡ centre_distance self.now other.now }
        ensures bound { result ≤ 2 ^ 68 }
    {
        let mut distance: u128 = 0;
        for axis in 0..self.axes() {
            distance += self.range(axis).apart(other.range(axis));
        }
        distance
    }
}
