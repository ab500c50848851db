//! Where a number stands in a set of numbers.
//!
//! Numbers mostly count up from 0 or 1: those of nodes do, and ids that an INSERT without an id gave. So a look-up first tries
//! the places in which such a number stands, and hashes a number only if it isn't there.

ghost use Rattle.std.specs.Prelude.{◌≡◌, Some, IfSome, true, position, is_some, slice_get};
ghost use Rattle.std.specs.List.{list_any};
ghost use Rattle.std.specs.Ordering.{int_eq};
ghost use Rattle.indexmap.specs.IndexSet.{IsUnique};

use indexmap::IndexSet;
use std::hash::RandomState;

/// A law: no number stands twice in a set. The call does nothing.
pub(crate) fn are_distinct(numbers: &IndexSet<i64, RandomState>)
    ensures { IsUnique int_eq numbers.now }
{
    // The contract of `len` says so.
    let _ = numbers.len();
}

fn is_same(own: &i64, other: &i64) -> bool
    ensures { result ≡ int_eq own.now other.now }
{
    own == other
}

/// Whether the number stands at this index of the set.
fn stands_at(numbers: &IndexSet<i64, RandomState>, index: usize, number: &i64) -> bool
    ensures { result ≡ true → slice_get numbers.now.keys index ≡ Some number.now }
{
    match numbers.get_index(index) {
        Some(own) => is_same(own, number),
        None => false,
    }
}

/// The index, if the number stands there.
fn found_at(numbers: &IndexSet<i64, RandomState>, index: usize, number: &i64) -> Option<usize>
    ensures index { IfSome result (λ at. Some at ≡ position (int_eq number.now) numbers.now.keys) }
    ensures found { IfSome result (λ at. true ≡ list_any (int_eq number.now) numbers.now.keys) }
{
    are_distinct(numbers);
    if stands_at(numbers, index, number) {
        return Some(index);
    }
    None
}

/// The index of a number in a set.
pub(crate) fn index_of(numbers: &IndexSet<i64, RandomState>, number: &i64) -> Option<usize>
    ensures index { result ≡ position (int_eq number.now) numbers.now.keys }
    ensures found { is_some result ≡ list_any (int_eq number.now) numbers.now.keys }
{
    let place = number.unsigned_abs() as usize;
    for index in [place.wrapping_sub(1), place] {
        if let Some(at) = found_at(numbers, index, number) {
            return Some(at);
        }
    }
    numbers.get_index_of(number)
}
