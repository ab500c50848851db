//! Intervals of 32-bit numbers: what a box covers on an axis, or what a window allows a coordinate.
//!
//! Both ends belong to an interval, and one whose `lo` is above its `hi` is empty. Lengths and distances have
//! types that hold every result, so nothing wraps (`specs/Interval.antt`).

ghost use Rattle.std.specs.Prelude.{◌≡◌, ◌^◌, ◌≤◌, ◌↔◌, ℤ, ◌≤ℤ◌, IsTrue};
ghost use Rattle.rt_box.specs.Interval.{Includes, Covers, side, common_part, cover, apart};
ghost use Rattle.rt_box.specs.Operators.{Keeps};

use crate::operator::Operator;

/// The whole numbers from `lo` to `hi`, with both ends; none if `lo` is above `hi`.
#[derive(Clone, Copy, Debug, PartialEq, Eq)]
pub struct Interval {
    /// The least number.
    pub lo: i32,
    /// The greatest number.
    pub hi: i32,
}

impl Interval {
    /// All 32-bit numbers.
    pub(crate) const ALL: Interval = Interval {
        lo: i32::MIN,
        hi: i32::MAX,
    };

    /// No numbers. Any `lo` above its `hi` would do.
    pub(crate) const EMPTY: Interval = Interval { lo: 1, hi: 0 };

    /// Whether there is a number in it.
    pub(crate) fn has_numbers(self) -> bool
        ensures { IsTrue result ↔ (self.lo ≤ℤ self.hi) }
    {
        self.lo <= self.hi
    }

    /// `hi` less `lo`, or 0 if `lo` is above `hi`.
    pub(crate) fn length(self) -> u32
        ensures { result ≡ side self }
    {
        if self.lo < self.hi {
            self.hi.abs_diff(self.lo)
        } else {
            0
        }
    }

    /// `hi` less `lo`, in fewer steps than `length`. The interval has a number.
    pub(crate) fn ordered_length(self) -> u32
        requires { self.lo ≤ℤ self.hi }
        ensures { result ≡ side self }
    {
        (i64::from(self.hi) - i64::from(self.lo)) as u32
    }

    /// What both have in common; empty if they don't meet.
    pub(crate) fn common_part(self, other: Interval) -> Interval
        ensures { result ≡ common_part self other }
    {
        Interval {
            lo: self.lo.max(other.lo),
            hi: self.hi.min(other.hi),
        }
    }

    /// The shortest interval that covers both.
    pub(crate) fn cover(self, other: Interval) -> Interval
        ensures { result ≡ cover self other }
    {
        Interval {
            lo: self.lo.min(other.lo),
            hi: self.hi.max(other.hi),
        }
    }

    /// The squared distance of the doubled middles.
    pub(crate) fn apart(self, other: Interval) -> u128
        ensures value { result ≡ apart self other }
        ensures bound { result ≤ 2 ^ 66 }
    {
        let middle = i64::from(self.lo) + i64::from(self.hi);
        let other_middle = i64::from(other.lo) + i64::from(other.hi);
        let distance = u128::from(middle.abs_diff(other_middle));
        distance * distance
    }

    /// Whether the number isn't below it.
    pub(crate) fn begins_by(&self, number: i32) -> bool
        ensures { IsTrue result ↔ (self.now.lo ≤ℤ number) }
    {
        self.lo <= number
    }

    /// Whether the number isn't above it.
    pub(crate) fn lasts_to(&self, number: i32) -> bool
        ensures { IsTrue result ↔ (number ≤ℤ self.now.hi) }
    {
        number <= self.hi
    }

    /// The numbers of this interval up to `value`.
    fn at_most(self, value: i64) -> Interval
        ensures { (z : ℤ) → Includes result z ↔ (Includes self z × (z ≤ℤ value)) }
    {
        match i32::try_from(value) {
            Ok(bound) => Interval {
                lo: self.lo,
                hi: self.hi.min(bound),
            },
            Err(_) if value < 0 => Interval::EMPTY,
            Err(_) => self,
        }
    }

    /// The numbers of this interval from `value` on.
    fn at_least(self, value: i64) -> Interval
        ensures { (z : ℤ) → Includes result z ↔ (Includes self z × (value ≤ℤ z)) }
    {
        match i32::try_from(value) {
            Ok(bound) => Interval {
                lo: self.lo.max(bound),
                hi: self.hi,
            },
            Err(_) if value < 0 => self,
            Err(_) => Interval::EMPTY,
        }
    }

    /// The numbers of this interval of which a comparison with `value` holds, or all of them for `<>`.
    pub(crate) fn narrowed(self, op: Operator, value: i64) -> Interval
        ensures { (z : ℤ) → Includes result z ↔ (Includes self z × Keeps op z value) }
    {
        match op {
            Operator::Eq => self.at_least(value).at_most(value),
            Operator::Ne => self,
            Operator::Lt => match value.checked_sub(1) {
                Some(bound) => self.at_most(bound),
                None => Interval::EMPTY, // no number is below the least
            },
            Operator::Le => self.at_most(value),
            Operator::Gt => match value.checked_add(1) {
                Some(bound) => self.at_least(bound),
                None => Interval::EMPTY, // no number is above the greatest
            },
            Operator::Ge => self.at_least(value),
        }
    }
}
