//! A row as a table keeps it.
//!
//! The id and the box are numbers, and the auxiliary values stand apart. `RowView` and `ListedRow` borrow those
//! values; `try_clone` copies one (`specs/Entries.antt`).

ghost use Rattle.std.specs.Prelude.{◌≡◌, ◌+◌, ◌*◌, ◌<◌, ◌≤◌, ◌∷◌, ◌++◌, length, map, slice_index_or, IfOk, OnOk, OnErr, vec_len, vec_capacity};
ghost use Rattle.rt_sql_statement.specs.declared.value.Value.TheVariants.{Null, Int};
ghost use Rattle.rt_table_row.specs.Entries.{field_value};
ghost use Rattle.rt_table_row.specs.RowLists.{IsPrefix};
ghost use Rattle.rt_box.specs.Rect.{coordinates};

use rt_box::Rect;
use rt_sql_statement::{Items, Value};
use std::alloc::{AllocError, Global};

/// A row of a table with `D` axes, from one to three: its id, its box, and the values of its
/// auxiliary columns.
#[derive(Debug, Drop)]
pub struct Entry<const D: usize> {
    /// The id.
    pub id: i64,
    /// The box.
    pub rect: Rect<D>,
    /// The auxiliary values, in the order of their columns.
    pub auxiliary: Items<Value>,
}

/// A value of a row, looked at where it stands.
pub enum Field<'a> {
    /// The id, or a coordinate.
    Number(i64),
    /// An auxiliary value.
    Auxiliary(&'a Value),
    /// The row has no such column.
    Missing,
}

impl Field<'_> {
    /// A copy of the value; NULL if there is no column.
    pub fn try_clone(self, alloc: Global) -> Result<Value, AllocError>
        ensures { IfOk result (λ value. value ≡ field_value self.entry) }
    {
        Ok(match self {
            Field::Number(number) => Value::Int(number),
            Field::Auxiliary(value) => value.try_clone(alloc)?,
            Field::Missing => Value::Null,
        })
    }
}

/// A coordinate, in the order of the columns: `lo` and `hi` of the first axis, then of the next.
fn coordinate<const D: usize>(rect: &Rect<D>, place: usize) -> i32
    requires { place < 2 * D }
    ensures { result ≡ slice_index_or (coordinates rect.now) place result }
{
    let range = rect.range(place / 2);
    if place % 2 == 0 { range.lo } else { range.hi }
}

/// The auxiliary value at that place among them.
fn auxiliary_at(auxiliary: &[Value], place: usize) -> Field<'_>
    ensures { field_value result ≡ slice_index_or auxiliary.now place Null }
{
    if place >= auxiliary.len() {
        return Field::Missing;
    }
    Field::Auxiliary(&auxiliary[place])
}

/// A law: two boxes have as many axes. The call does nothing.
fn have_as_many_axes<const D: usize>(left: &Rect<D>, right: &Rect<D>)
    ensures { length left.now ≡ length right.now }
{
    // The contract of `axes` says how many each has.
    let _ = (left.axes(), right.axes());
}

/// Appends the coordinates, for which there is room.
fn push_coordinates<const D: usize>(numbers: &mut Vec<i64>, rect: &Rect<D>)
    requires { vec_len numbers.old + 2 * D ≤ vec_capacity numbers.old }
    ensures { numbers.new.items ≡ numbers.old.items ++ coordinates rect.now }
{
    for axis in 0..rect.axes() {
        let range = rect.range(axis);
        numbers.push_reserved(i64::from(range.lo));
        numbers.push_reserved(i64::from(range.hi));
    }
}

/// Appends the id and the coordinates.
pub(crate) fn push_numbers<const D: usize>(
    numbers: &mut Vec<i64>,
    id: i64,
    rect: &Rect<D>,
) -> Result<(), AllocError>
    ensures ok { OnOk result (numbers.new.items ≡ numbers.old.items ++ id ∷ coordinates rect.now) }
    ensures refused { OnErr result (numbers.new.items ≡ numbers.old.items) }
    ensures longer { length numbers.old.items ≤ length numbers.new.items }
{
    numbers.reserve(1 + 2 * rect.axes())?;
    numbers.push_reserved(id);
    push_coordinates(numbers, rect);
    Ok(())
}

/// Appends a copy of each auxiliary value.
#[inline]
pub(crate) fn push_copies(
    alloc: Global,
    values: &mut Vec<Value>,
    auxiliary: &[Value],
) -> Result<(), AllocError>
    ensures ok { OnOk result (values.new.items ≡ values.old.items ++ auxiliary.now) }
    ensures kept { IsPrefix values.old.items values.new.items }
    ensures longer { length values.old.items ≤ length values.new.items }
{
    for value in auxiliary {
        values.push(value.try_clone(alloc)?)?;
    }
    Ok(())
}

impl<const D: usize> Entry<D> {
    ghost use Rattle.rt_table_row.specs.Entries.{row_of, view_row};

    /// The row, looked at where it stands.
    pub fn view(&self) -> RowView<'_, D>
        ensures { view_row result ≡ row_of self.now }
    {
        RowView {
            id: self.id,
            rect: self.rect,
            auxiliary: self.auxiliary.as_slice(),
        }
    }
}

/// A row looked at where it stands: nothing of it is copied but its id and its box. A table may keep
/// boxes and auxiliary values apart.
#[derive(Clone, Copy)]
pub struct RowView<'a, const D: usize> {
    /// The id.
    pub id: i64,
    /// The box.
    pub rect: Rect<D>,
    /// The auxiliary values, in the order of their columns.
    pub auxiliary: &'a [Value],
}

impl<'a, const D: usize> RowView<'a, D> {
    ghost use Rattle.rt_table_row.specs.Rows.{values_of};
    ghost use Rattle.rt_table_row.specs.Entries.{view_row};
    ghost use Rattle.rt_table_row.specs.Views.{same_row};

    /// Whether both rows have the same values, column by column. Nothing is copied.
    pub fn is_same(&self, other: &RowView<'_, D>) -> bool
        ensures { result ≡ same_row (view_row self.now) (view_row other.now) }
    {
        have_as_many_axes(&self.rect, &other.rect);
        self.id == other.id && self.rect == other.rect && self.auxiliary == other.auxiliary
    }

    /// The value of the column at that place.
    pub fn value_at(&self, place: usize) -> Field<'a>
        ensures { field_value result ≡ slice_index_or (values_of (view_row self.now)) place Null }
    {
        let axes = self.rect.axes();
        if place == 0 {
            return Field::Number(self.id);
        }
        if place <= 2 * axes {
            return Field::Number(i64::from(coordinate(&self.rect, place - 1)));
        }
        auxiliary_at(self.auxiliary, place - 1 - 2 * axes)
    }
}

/// A row looked at where it stands in a list: numbers first, and then auxiliary values.
#[derive(Clone, Copy)]
pub struct ListedRow<'a> {
    /// The values of the first columns, which stand as numbers; there may be none.
    pub numbers: &'a [i64],
    /// The values of the other columns.
    pub auxiliary: &'a [Value],
}

impl<'a> ListedRow<'a> {
    ghost use Rattle.rt_table_row.specs.Entries.{listed_values};

    /// The value of the column at that place.
    pub fn value_at(&self, place: usize) -> Field<'a>
        ensures { field_value result ≡ slice_index_or (listed_values self.now) place Null }
    {
        if place < self.numbers.len() {
            return Field::Number(self.numbers[place]);
        }
        auxiliary_at(self.auxiliary, place - self.numbers.len())
    }
}

/// One change of the rows of a table.
#[derive(Debug, Drop)]
pub enum Step<const D: usize> {
    /// The row of that id goes.
    Leaves(i64),
    /// A row comes, whose id no row has.
    Comes(Entry<D>),
    /// A row stands in the place of the one of that id; the id may change.
    Becomes(i64, Entry<D>),
}
