//! What the values of a new row have to be.
//!
//! INSERT and UPDATE both make their rows here, so types, ranges and the order of minimum and maximum are tested
//! in one place. Nothing is converted (`specs/NewRows.antt`).

ghost use Rattle.std.specs.Prelude.{◌≡◌, ◌*◌, ◌+◌, ◌≤◌, ◌<◌, ◌++◌, IfOk, pos, true, map, length, Some, None, if◌then◌else◌, slice_index_or};
ghost use Rattle.std.specs.List.{list_all};
ghost use Rattle.rt_table_row.specs.NewRows.{is_id, is_integer, id_in, number_in, fits_bits, box_of, is_ordered, row_from, row_with};
ghost use Rattle.rt_table_row.specs.Answers.{GivesAs};
ghost use Rattle.rt_table_row.specs.Entries.{row_of};

use crate::entry::{Entry, push_copies};
use arrayvec::ArrayVec;
use rt_box::Rect;
use rt_sql_statement::{Items, Refusal, Value};
use std::alloc::{AllocError, Global};

/// Two for each of at most three axes.
pub(crate) const MOST_COORDINATES: usize = 6;

fn is_id(value: &Value) -> bool
    ensures { result ≡ is_id value.now }
{
    matches!(value, Value::Null | Value::Int(_))
}

/// Whether the value is an integer.
pub(crate) fn is_integer(value: &Value) -> bool
    ensures { result ≡ is_integer value.now }
{
    matches!(value, Value::Int(_))
}

/// The id that the value gives; none if it is no integer.
pub(crate) fn id_in(value: &Value) -> Option<i64>
    ensures { result ≡ id_in value.now }
{
    match value {
        Value::Int(number) => Some(*number),
        _ => None,
    }
}

/// The value's number; 0 if it is no integer.
pub(crate) fn number_in(value: &Value) -> i64
    ensures { result ≡ number_in value.now }
{
    match value {
        Value::Int(number) => *number,
        _ => 0,
    }
}

fn are_integers(values: &[Value]) -> bool
    ensures { result ≡ list_all is_integer values.now }
{
    values.iter().all(is_integer)
}

/// The number of each value.
fn numbers_in(values: &[Value]) -> ArrayVec<i64, MOST_COORDINATES>
    requires { length values.now ≤ 6 }
    ensures { result.items ≡ map number_in values.now }
{
    let mut numbers = ArrayVec::new();
    for value in values {
        numbers.push(number_in(value));
    }
    numbers
}

/// Whether the number has 32 bits.
fn is_short(number: &i64) -> bool
    ensures { result ≡ fits_bits 31 number.now }
{
    i32::try_from(*number).is_ok()
}

fn are_short(numbers: &[i64]) -> bool
    ensures { result ≡ list_all (fits_bits 31) numbers.now }
{
    numbers.iter().all(is_short)
}

/// The number at that place.
fn coordinate(numbers: &[i64], place: usize) -> i32
    requires within { place < length numbers.now }
    requires short { list_all (fits_bits 31) numbers.now ≡ true }
    ensures { result ≡ slice_index_or numbers.now place (pos 0) }
{
    numbers[place] as i32
}

/// The box from each axis' minimum to its maximum; none if a minimum is above its maximum.
fn rect_of<const D: usize>(numbers: &[i64]) -> Option<Rect<D>>
    requires some { 1 ≤ D }
    requires few { D ≤ 3 }
    requires long { length numbers.now ≡ 2 * D }
    requires short { list_all (fits_bits 31) numbers.now ≡ true }
    ensures { let b = box_of numbers.now in result ≡ (if is_ordered b then Some b else None) }
{
    let mut lo = [0; D];
    let mut hi = [0; D];
    for axis in 0..D {
        lo[axis] = coordinate(numbers, 2 * axis);
        hi[axis] = coordinate(numbers, 2 * axis + 1);
    }
    Rect::new(lo, hi)
}

/// A copy of each auxiliary value.
fn copies(alloc: Global, auxiliary: &[Value]) -> Result<Items<Value>, AllocError>
    ensures { IfOk result (λ values. values ≡ auxiliary.now) }
{
    let mut values = Vec::new(alloc);
    push_copies(alloc, &mut values, auxiliary)?;
    Ok(Items::from_vec(values))
}

impl<const D: usize> Entry<D> {
    /// The row of that id, with these coordinates and auxiliary values.
    pub(crate) fn from_numbers(
        id: Option<i64>,
        coordinates: &[i64],
        auxiliary: Items<Value>,
    ) -> Result<Entry<D>, Refusal>
        requires some { 1 ≤ D }
        requires few { D ≤ 3 }
        requires long { length coordinates.now ≡ 2 * D }
        ensures { GivesAs row_of (row_with id coordinates.now auxiliary) result }
    {
        if !are_short(coordinates) {
            return Err(Refusal::IntegerOutOfRange);
        }
        let Some(rect) = rect_of(coordinates) else {
            return Err(Refusal::MinimumAboveMaximum);
        };
        match id {
            Some(id) => Ok(Entry {
                id,
                rect,
                auxiliary,
            }),
            None => Err(Refusal::NoIdLeft),
        }
    }

    /// The row of that id, with the coordinates that follow the first of these values.
    fn with(id: Option<i64>, plain: &[Value], auxiliary: Items<Value>) -> Result<Entry<D>, Refusal>
        requires some { 1 ≤ D }
        requires few { D ≤ 3 }
        requires long { length plain.now ≡ 1 + 2 * D }
        ensures { GivesAs row_of (row_from D id (plain.now ++ auxiliary)) result }
    {
        if !is_id(&plain[0]) || !are_integers(&plain[1..]) {
            return Err(Refusal::WrongType);
        }
        let coordinates = numbers_in(&plain[1..]);
        Entry::from_numbers(id, coordinates.as_slice(), auxiliary)
    }

    /// The row of that id that the values are: an id or NULL, the coordinates, and then the auxiliary values. Of the first
    /// value only the type is tested.
    ///
    /// # Errors
    ///
    /// The first of these that holds: `WrongType` if the first value or a coordinate is of another type,
    /// `IntegerOutOfRange` if a coordinate has more than 32 bits, `MinimumAboveMaximum`, `NoIdLeft` if there is no id; or
    /// `OutOfMemory` if no memory is left.
    pub fn new(id: Option<i64>, mut values: Vec<Value>) -> Result<Entry<D>, Refusal>
        requires some { 1 ≤ D }
        requires few { D ≤ 3 }
        requires long { 1 + 2 * D ≤ length values.items }
        ensures { GivesAs row_of (row_from D id values.items) result }
    {
        let auxiliary = values.split_off(1 + 2 * D)?;
        Entry::with(id, &values, Items::from_vec(auxiliary))
    }

    /// The same of values that stay where they are: of these only the auxiliary ones are copied.
    ///
    /// # Errors
    ///
    /// Those of `new`.
    pub fn from_slice(alloc: Global, id: Option<i64>, values: &[Value]) -> Result<Entry<D>, Refusal>
        requires some { 1 ≤ D }
        requires few { D ≤ 3 }
        requires long { 1 + 2 * D ≤ length values.now }
        ensures { GivesAs row_of (row_from D id values.now) result }
    {
        let (plain, auxiliary) = values.split_at(1 + 2 * D);
        let auxiliary = copies(alloc, auxiliary)?;
        Entry::with(id, plain, auxiliary)
    }
}
