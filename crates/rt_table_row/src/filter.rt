//! Which rows a condition picks.
//!
//! A test looks at the column at a place: the id stands at 0, then come the coordinates, and then the auxiliary
//! values. Places are looked up once, so no name is compared for a row (`specs/Filters.antt`).

ghost use Rattle.std.specs.Prelude.{◌≡◌, zip, true, false, IfSome, IfNone, MatchResult};
ghost use Rattle.std.specs.List.{list_all, list_any};
ghost use Rattle.std.specs.Ordering.{int_eq};
ghost use Rattle.rt_table_row.specs.Conditions.{column_of, has_columns, holds};
ghost use Rattle.rt_table_row.specs.Filters.{value_passes, passes_at, fixes_id, FixesId, is_by_id, places_at, ArePlaces, HavePlaces, IsFilterOf, IsUnknown};
ghost use Rattle.rt_table_row.specs.Windows.{is_said};
ghost use Rattle.rt_table_row.specs.Entries.{view_row, field_value};
ghost use Rattle.rt_table_row.specs.Rows.{TableRow};
ghost use Rattle.rt_sql_statement.specs.declared.value.Value.TheVariants.{Int};

use crate::entry::{Field, RowView};
use crate::schema::Schema;
use crate::values::{compares, is_null, keeps};
use crate::window::{is_said, window_of};
use rt_box::Window;
use rt_sql_statement::{Compare, Cond, Name, Operator, Refusal, Test, Value};
use std::alloc::Global;
use std::marker::Model;
use std::slice;

fn column_of(test: &Test) -> &Name
    ensures { result.now ≡ column_of test.now }
{
    match test {
        Test::Compare(compare) => &compare.column,
        Test::IsNull(name) => name,
        Test::IsNotNull(name) => name,
    }
}

fn value_passes(value: &Value, test: &Test) -> bool
    ensures { result ≡ value_passes value.now test.now }
{
    match test {
        Test::Compare(compare) => compares(compare.op, value, &compare.value),
        Test::IsNull(_) => is_null(value),
        Test::IsNotNull(_) => !is_null(value),
    }
}

/// Most tests compare a number with a number: then no types are looked at.
fn number_passes(number: i64, test: &Test) -> bool
    ensures { result ≡ value_passes (Int number) test.now }
{
    match test {
        Test::Compare(
            Compare {
                op,
                value: Value::Int(other),
                ..
            },
        ) => keeps(*op, number.cmp(other)),
        Test::Compare(_) | Test::IsNull(_) | Test::IsNotNull(_) => {
            value_passes(&Value::Int(number), test)
        }
    }
}

fn field_passes(field: Field<'_>, test: &Test) -> bool
    ensures { result ≡ value_passes (field_value field.entry) test.now }
{
    match field {
        Field::Number(number) => number_passes(number, test),
        Field::Auxiliary(value) => value_passes(value, test),
        Field::Missing => value_passes(&Value::Null, test),
    }
}

fn passes_at<const D: usize>(row: &RowView<'_, D>, test: &Test, place: usize) -> bool
    ensures { result ≡ passes_at (view_row row.now) (test.now, place) }
{
    field_passes(row.value_at(place), test)
}

fn passes_all<const D: usize>(row: &RowView<'_, D>, tests: &[Test], places: &[usize]) -> bool
    ensures { result ≡ list_all (passes_at (view_row row.now)) (zip tests.now places.now) }
{
    tests.iter().zip(places).all(
        |pair: (&Test, &usize)| -> bool
            ensures { result ≡ passes_at (view_row row.entry.now) (pair.entry.0.now, pair.entry.1.now) }
        { passes_at(row, pair.0, *pair.1) },
    )
}

/// The id that the test asks for: a row passes exactly if it has it. The id's column stands first.
fn id_at(test: &Test, place: usize) -> Option<i64>
    ensures exact { IfSome result (λ id. (row : TableRow) → passes_at row (test.now, place) ≡ int_eq row.id id) }
    ensures fixed { IfSome result (λ id. (row : TableRow) → passes_at row (test.now, place) ≡ true → row.id ≡ id) }
    ensures none { IfNone result (fixes_id (test.now, place) ≡ false) }
{
    if place != 0 {
        return None;
    }
    match test {
        Test::Compare(
            Compare {
                op: Operator::Eq,
                value: Value::Int(id),
                ..
            },
        ) => Some(*id),
        Test::Compare(_) | Test::IsNull(_) | Test::IsNotNull(_) => None,
    }
}

/// The id that each row has that passes all of the tests.
fn id_among(tests: &[Test], places: &[usize]) -> Option<i64>
    ensures fixed { IfSome result (FixesId tests.now places.now) }
    ensures none { IfNone result (list_any fixes_id (zip tests.now places.now) ≡ false) }
{
    for (test, place) in tests.iter().zip(places) {
        if let Some(id) = id_at(test, *place) {
            return Some(id);
        }
    }
    None
}

/// Whether a window of `coordinates` coordinates says all that each of the tests asks.
fn are_said(coordinates: usize, tests: &[Test], places: &[usize]) -> bool
    ensures { result ≡ list_all (is_said coordinates) (zip tests.now places.now) }
{
    tests.iter().zip(places).all(
        |pair: (&Test, &usize)| -> bool
            ensures { result ≡ is_said coordinates (pair.entry.0.now, pair.entry.1.now) }
        { is_said(coordinates, pair.0, *pair.1) },
    )
}

/// The places of the columns that a condition's tests look at. The place of a single test, as in `id = 7`, takes no memory
/// beside its own.
#[derive(Debug, Drop)]
enum TestPlaces {
    One(usize),
    Many(Vec<usize>),
}

impl TestPlaces {
    ghost use Rattle.rt_table_row.specs.Filters.{places_at};

    fn as_slice(&self) -> &[usize]
        ensures { result.now ≡ places_at self.now }
    {
        match self {
            TestPlaces::One(place) => slice::from_ref(place),
            TestPlaces::Many(places) => places.as_slice(),
        }
    }
}

/// The places, in a list.
fn list_of(alloc: Global, schema: &Schema, cond: &[Test]) -> Result<Vec<usize>, Refusal>
    ensures { MatchResult result (λ p. ArePlaces schema.now.names cond.now p.items) (IsUnknown schema.now cond.now) }
{
    let mut places = Vec::with_capacity(alloc, cond.len())?;
    for test in cond {
        match schema.place_of(column_of(test)) {
            Some(place) => places.push(place)?,
            None => return Err(Refusal::NoSuchColumn),
        }
    }
    Ok(places)
}

/// The places of the columns that the tests look at.
fn places_of(alloc: Global, schema: &Schema, cond: &[Test]) -> Result<TestPlaces, Refusal>
    ensures { MatchResult result (HavePlaces schema.now cond.now) (IsUnknown schema.now cond.now) }
{
    if let [test] = cond {
        return match schema.place_of(column_of(test)) {
            Some(place) => Ok(TestPlaces::One(place)),
            None => Err(Refusal::NoSuchColumn),
        };
    }
    Ok(TestPlaces::Many(list_of(alloc, schema, cond)?))
}

/// A condition whose columns were looked up once, so that no name is compared for a row.
#[derive(Debug)]
pub struct Filter {
    cond: Cond,
    places: TestPlaces,
}

// By hand, since a derived drop is written out, field by field, in each place in which such a value ends.
impl Drop for Filter {
    fn drop(self) {
        let Filter { cond: _, places: _ } = self;
    }
}

impl Model for Filter {
    ghost use Rattle.rt_table_row.specs.Filters.{Placed, places_at};

    ghost Value = { Placed };

    ghost view = { λ filter. record { cond = filter.cond; places = places_at filter.places } };
}

impl Filter {
    ghost use Rattle.std.specs.Prelude.{◌≤◌, ◌*◌};
    ghost use Rattle.rt_table_row.specs.Filters.{admits, IsFilterOf, IsUnknown};
    ghost use Rattle.rt_table_row.specs.Windows.{IsWindowAt, is_said, SaysAll};

    /// The condition over a table of these columns.
    ///
    /// # Errors
    ///
    /// `NoSuchColumn` if a test looks at a column that the table hasn't; `OutOfMemory` if no memory is left.
    pub fn new(alloc: Global, schema: &Schema, cond: Cond) -> Result<Filter, Refusal>
        ensures { MatchResult result (IsFilterOf schema.now cond) (IsUnknown schema.now cond) }
    {
        let places = places_of(alloc, schema, cond.as_slice())?;
        Ok(Filter { cond, places })
    }

    /// Whether the condition holds of a row. Nothing is copied.
    pub fn holds<const D: usize>(&self, row: &RowView<'_, D>) -> bool
        ensures { result ≡ admits self.now (view_row row.now) }
    {
        passes_all(row, self.cond.as_slice(), self.places.as_slice())
    }

    /// The window of the condition: what its tests ask of the coordinates of a row's box. A test by `<>` asks nothing.
    pub fn window<const D: usize>(&self) -> Window<D>
        requires { D ≤ 3 }
        ensures { IsWindowAt D self.now result }
    {
        window_of(self.cond.as_slice(), self.places.as_slice())
    }

    /// Whether its window says all that the condition asks: each test is one of a coordinate, and none is by `<>`. Then
    /// the condition holds of each row whose box the window admits.
    pub fn is_said<const D: usize>(&self) -> bool
        requires { D ≤ 3 }
        ensures exact { result ≡ list_all (is_said (2 * D)) (zip self.now.cond self.now.places) }
        ensures all { result ≡ true → SaysAll D self.now }
    {
        are_said(2 * D, self.cond.as_slice(), self.places.as_slice())
    }

    /// The id of each row that the condition picks, if a test compares the id with an integer by `=`; `None` only if no
    /// test does.
    pub fn id(&self) -> Option<i64>
        ensures fixed { IfSome result (λ id. (row : TableRow) → admits self.now row ≡ true → row.id ≡ id) }
        ensures none { IfNone result (list_any fixes_id (zip self.now.cond self.now.places) ≡ false) }
    {
        id_among(self.cond.as_slice(), self.places.as_slice())
    }
}

/// The id that is all a condition over these columns asks for, if its only test compares the id with an integer by `=`.
/// The condition then holds of the row that has the id, and of no other.
pub fn lone_id(schema: &Schema, cond: &Cond) -> Option<i64>
    ensures known { IfSome result (λ _. has_columns schema.now cond.now ≡ true) }
    ensures exact { IfSome result (λ id. (row : TableRow) → holds schema.now cond.now row ≡ int_eq row.id id) }
    ensures none { IfNone result (is_by_id schema.now cond.now ≡ false) }
{
    let [test] = cond.as_slice() else {
        return None;
    };
    let place = schema.place_of(column_of(test))?;
    id_at(test, place)
}
