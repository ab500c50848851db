//! What an UPDATE sets.
//!
//! Each column has a `Reading`, which gives its new value; a column that isn't set reads itself. Each refusal is looked
//! for over all columns before the next (`update_row` in `specs/Edits.antt`; `specs/Settings.antt`).

ghost use Rattle.std.specs.Prelude.{◌≡◌, ◌≤◌, ◌+◌, ◌*◌, [], true, false, length, map, IfOk, MatchResult};
ghost use Rattle.std.specs.List.{list_all, list_any};
ghost use Rattle.rt_sql_statement.specs.declared.value.Value.TheVariants.{Null};
ghost use Rattle.rt_table_row.specs.Rows.{values_of};
ghost use Rattle.rt_table_row.specs.Entries.{row_of, view_row, field_value};
ghost use Rattle.rt_table_row.specs.NewRows.{is_integer, number_in, id_value, coordinate_values};
ghost use Rattle.rt_table_row.specs.Columns.{are_distinct, has_name};
ghost use Rattle.rt_table_row.specs.Settings.{read, reads_integer, reading_fits, new_row, set_names, reading_of, AreReadings, IsUnknownSet, column_readings};
ghost use Rattle.rt_sql_statement.specs.Name.{same_name};
ghost use Rattle.rt_table_row.specs.Answers.{GivesAs};

use crate::entry::{Entry, Field, RowView};
use crate::new_row::{MOST_COORDINATES, is_integer, number_in};
use crate::schema::{FEW_NAMES, Schema, are_listed_once, place_of};
use arrayvec::ArrayVec;
use rt_sql_statement::{Items, Name, Refusal, Source, Value};
use std::alloc::{AllocError, Global};
use std::marker::Model;

/// What gives a column its new value. The column that is read is looked up.
#[derive(Debug)]
enum Reading {
    Literal(Value),
    Column(usize),
    Plus(usize, i64),
    Minus(usize, i64),
}

// By hand, since a derived drop is written out, field by field, wherever such a value ends.
impl Drop for Reading {
    fn drop(self) {
        match self {
            Reading::Literal(_) => {}
            Reading::Column(_) => {}
            Reading::Plus(_, _) => {}
            Reading::Minus(_, _) => {}
        }
    }
}

/// The columns that are set, in their order.
fn names_of(alloc: Global, sets: &[(Name, Source)]) -> Result<Vec<Name>, AllocError>
    ensures { IfOk result (λ names. names.items ≡ set_names sets.now) }
{
    let mut names = Vec::with_capacity(alloc, sets.len())?;
    for set in sets {
        names.push(set.0.try_clone(alloc)?)?;
    }
    Ok(names)
}

/// Whether a set is of that column.
fn is_set(sets: &[(Name, Source)], name: &Name) -> bool
    ensures { result ≡ list_any (λ set. same_name name.now set.0) sets.now }
{
    sets.iter().any(|set| name.is_same(&set.0))
}

/// Whether the name is among those of the sets: `is_set`, told of a list of names. That `any` goes through the sets is proved
/// there, for itself.
fn is_among(sets: &[(Name, Source)], name: &Name) -> bool
    ensures { result ≡ has_name (set_names sets.now) name.now }
{
    is_set(sets, name)
}

/// Whether no two of a few sets are of one column. No name is copied.
fn are_few_distinct(sets: &[(Name, Source)]) -> bool
    ensures { result ≡ are_distinct (set_names sets.now) }
{
    let mut rest = sets;
    while let Some((set, later)) = rest.split_first() {
        if is_among(later, &set.0) {
            return false;
        }
        rest = later;
    }
    true
}

/// Whether no two sets are of one column.
fn are_set_once(alloc: Global, sets: &[(Name, Source)]) -> Result<bool, AllocError>
    ensures { IfOk result (λ distinct. distinct ≡ are_distinct (set_names sets.now)) }
{
    if sets.len() <= FEW_NAMES {
        return Ok(are_few_distinct(sets));
    }
    let names = names_of(alloc, sets)?;
    are_listed_once(alloc, names.as_slice())
}

/// What a set gives; none if it reads a column that the table hasn't.
fn reading_of(
    alloc: Global,
    columns: &[Name],
    source: &Source,
) -> Result<Option<Reading>, AllocError>
    ensures { IfOk result (λ reading. reading ≡ reading_of columns.now source.now) }
{
    Ok(match source {
        Source::Literal(value) => Some(Reading::Literal(value.try_clone(alloc)?)),
        Source::Column(name) => place_of(columns, name).map(Reading::Column),
        Source::Plus(name, number) => {
            place_of(columns, name).map(|place| Reading::Plus(place, *number))
        }
        Source::Minus(name, number) => {
            place_of(columns, name).map(|place| Reading::Minus(place, *number))
        }
    })
}

/// If no column is set, each reads itself. No two have one name, so a column's own place is that of its name.
fn own_readings(alloc: Global, columns: &[Name]) -> Result<Vec<Reading>, AllocError>
    requires { are_distinct columns.now ≡ true }
    ensures { IfOk result (λ readings. AreReadings columns.now [] readings.items) }
{
    let mut readings = Vec::with_capacity(alloc, columns.len())?;
    for place in 0..columns.len() {
        readings.push(Reading::Column(place))?;
    }
    Ok(readings)
}

/// What gives each column its new value. Each name in the sets is looked up once.
fn readings_of(
    alloc: Global,
    columns: &[Name],
    sets: &[(Name, Source)],
) -> Result<Vec<Reading>, Refusal>
    requires columns { are_distinct columns.now ≡ true }
    requires sets { are_distinct (set_names sets.now) ≡ true }
    ensures { MatchResult result (λ r. AreReadings columns.now sets.now r.items) (IsUnknownSet columns.now sets.now) }
{
    let mut readings = own_readings(alloc, columns)?;
    for set in sets {
        let Some(place) = place_of(columns, &set.0) else {
            return Err(Refusal::NoSuchColumn);
        };
        let Some(reading) = reading_of(alloc, columns, &set.1)? else {
            return Err(Refusal::NoSuchColumn);
        };
        readings[place] = reading;
    }
    Ok(readings)
}

fn is_field_integer(field: Field<'_>) -> bool
    ensures { result ≡ is_integer (field_value field.entry) }
{
    match field {
        Field::Number(_) => true,
        Field::Auxiliary(value) => is_integer(value),
        Field::Missing => false,
    }
}

fn field_number(field: Field<'_>) -> i64
    ensures { result ≡ number_in (field_value field.entry) }
{
    match field {
        Field::Number(number) => number,
        Field::Auxiliary(value) => number_in(value),
        Field::Missing => 0,
    }
}

fn reads_integer<const D: usize>(row: &RowView<'_, D>, reading: &Reading) -> bool
    ensures { result ≡ reads_integer (values_of (view_row row.now)) reading.now }
{
    match reading {
        Reading::Literal(_) | Reading::Column(_) => true,
        Reading::Plus(place, _) | Reading::Minus(place, _) => {
            is_field_integer(row.value_at(*place))
        }
    }
}

fn reading_fits<const D: usize>(row: &RowView<'_, D>, reading: &Reading) -> bool
    ensures { result ≡ reading_fits (values_of (view_row row.now)) reading.now }
{
    match reading {
        Reading::Literal(_) | Reading::Column(_) => true,
        Reading::Plus(place, number) => {
            field_number(row.value_at(*place))
                .checked_add(*number)
                .is_some()
        }
        Reading::Minus(place, number) => {
            field_number(row.value_at(*place))
                .checked_sub(*number)
                .is_some()
        }
    }
}

/// The number that is read, of an integer.
#[inline(always)]
fn number_read<const D: usize>(row: &RowView<'_, D>, reading: &Reading) -> i64
    requires { reading_fits (values_of (view_row row.now)) reading.now ≡ true }
    ensures { result ≡ number_in (read (values_of (view_row row.now)) reading.now) }
{
    match reading {
        Reading::Literal(value) => number_in(value),
        Reading::Column(place) => field_number(row.value_at(*place)),
        Reading::Plus(place, number) => field_number(row.value_at(*place)) + *number,
        Reading::Minus(place, number) => field_number(row.value_at(*place)) - *number,
    }
}

fn read<const D: usize>(
    alloc: Global,
    row: &RowView<'_, D>,
    reading: &Reading,
) -> Result<Value, AllocError>
    requires { reading_fits (values_of (view_row row.now)) reading.now ≡ true }
    ensures { IfOk result (λ value. value ≡ read (values_of (view_row row.now)) reading.now) }
{
    match reading {
        Reading::Literal(value) => value.try_clone(alloc),
        Reading::Column(place) => row.value_at(*place).try_clone(alloc),
        Reading::Plus(..) | Reading::Minus(..) => Ok(Value::Int(number_read(row, reading))),
    }
}

/// Whether an integer is read, whatever its size.
fn gives_integer<const D: usize>(row: &RowView<'_, D>, reading: &Reading) -> bool
    ensures { result ≡ is_integer (read (values_of (view_row row.now)) reading.now) }
{
    match reading {
        Reading::Literal(value) => is_integer(value),
        Reading::Column(place) => is_field_integer(row.value_at(*place)),
        Reading::Plus(..) | Reading::Minus(..) => true,
    }
}

fn are_summable<const D: usize>(row: &RowView<'_, D>, readings: &[Reading]) -> bool
    ensures { result ≡ list_all (reads_integer (values_of (view_row row.now))) readings.now }
{
    readings.iter().all(
        |reading: &Reading| -> bool
            ensures { result ≡ reads_integer (values_of (view_row row.entry.now)) reading.now }
        { reads_integer(row, reading) },
    )
}

fn do_sums_fit<const D: usize>(row: &RowView<'_, D>, readings: &[Reading]) -> bool
    ensures { result ≡ list_all (reading_fits (values_of (view_row row.now))) readings.now }
{
    readings.iter().all(
        |reading: &Reading| -> bool
            ensures { result ≡ reading_fits (values_of (view_row row.entry.now)) reading.now }
        { reading_fits(row, reading) },
    )
}

fn are_integers<const D: usize>(row: &RowView<'_, D>, readings: &[Reading]) -> bool
    ensures { result ≡ list_all (λ reading. is_integer (read (values_of (view_row row.now)) reading)) readings.now }
{
    readings.iter().all(
        |reading: &Reading| -> bool
            ensures { result ≡ is_integer (read (values_of (view_row row.entry.now)) reading.now) }
        { gives_integer(row, reading) },
    )
}

fn all_read<const D: usize>(
    alloc: Global,
    row: &RowView<'_, D>,
    readings: &[Reading],
) -> Result<Vec<Value>, AllocError>
    requires { list_all (reading_fits (values_of (view_row row.now))) readings.now ≡ true }
    ensures { IfOk result (λ values. values.items ≡ map (read (values_of (view_row row.now))) readings.now) }
{
    let mut values = Vec::with_capacity(alloc, readings.len())?;
    for reading in readings {
        values.push(read(alloc, row, reading)?)?;
    }
    Ok(values)
}

/// The numbers that are read.
fn numbers_read<const D: usize>(
    row: &RowView<'_, D>,
    readings: &[Reading],
) -> ArrayVec<i64, MOST_COORDINATES>
    requires few { length readings.now ≤ 6 }
    requires fit { list_all (reading_fits (values_of (view_row row.now))) readings.now ≡ true }
    ensures { result.items ≡ map (λ reading. number_in (read (values_of (view_row row.now)) reading)) readings.now }
{
    let mut numbers = ArrayVec::new();
    for reading in readings {
        numbers.push(number_read(row, reading));
    }
    numbers
}

/// What a row becomes.
fn entry_of<const D: usize>(
    alloc: Global,
    row: &RowView<'_, D>,
    readings: &[Reading],
) -> Result<Entry<D>, Refusal>
    requires some { 1 ≤ D }
    requires few { D ≤ 3 }
    requires long { 1 + 2 * D ≤ length readings.now }
    ensures { GivesAs row_of (new_row D (column_readings readings.now) (values_of (view_row row.now))) result }
{
    if !are_summable(row, readings) {
        return Err(Refusal::WrongType);
    }
    let (plain, auxiliary) = readings.split_at(1 + 2 * D);
    if !are_integers(row, plain) {
        return Err(Refusal::WrongType);
    }
    if !do_sums_fit(row, readings) {
        return Err(Refusal::IntegerOutOfRange);
    }
    let id = number_read(row, &plain[0]);
    let coordinates = numbers_read(row, &plain[1..]);
    let auxiliary = all_read(alloc, row, auxiliary)?;
    Entry::from_numbers(Some(id), coordinates.as_slice(), Items::from_vec(auxiliary))
}

/// What an UPDATE sets, with its columns looked up once, so that no name is compared for a row.
#[derive(Debug, Drop)]
pub struct Settings {
    /// One for each column, in their order.
    readings: Vec<Reading>,
}

impl Model for Settings {
    ghost use Rattle.rt_table_row.specs.Settings.{ColumnReadings, column_readings};

    ghost Value = { ColumnReadings };

    ghost view = { λ settings. column_readings settings.readings.items };
}

impl Settings {
    ghost use Rattle.rt_table_row.specs.Settings.{IsSettingsOf, IsBadSettings};

    /// The sets over a table of these columns.
    ///
    /// # Errors
    ///
    /// `BadColumnList` if two sets are of one column; else `NoSuchColumn` if a set is of a column that the table hasn't, or
    /// reads one; `OutOfMemory` if no memory is left.
    pub fn new(alloc: Global, schema: &Schema, sets: &[(Name, Source)]) -> Result<Settings, Refusal>
        ensures { MatchResult result (IsSettingsOf schema.now sets.now) (IsBadSettings schema.now sets.now) }
    {
        if !are_set_once(alloc, sets)? {
            return Err(Refusal::BadColumnList);
        }
        // No two columns have one name.
        schema.facts();
        let readings = readings_of(alloc, schema.names(), sets)?;
        Ok(Settings { readings })
    }

    /// What a row becomes. Sums are of whole numbers.
    ///
    /// # Errors
    ///
    /// The first of these that holds: `WrongType` if a sum is of no integer, or an id or a coordinate is none;
    /// `IntegerOutOfRange` if a sum has more than 64 bits, or a coordinate more than 32; `MinimumAboveMaximum`; or
    /// `OutOfMemory` if no memory is left.
    #[inline(always)]
    pub fn new_entry<const D: usize>(
        &self,
        alloc: Global,
        row: &RowView<'_, D>,
    ) -> Result<Entry<D>, Refusal>
        requires some { 1 ≤ D }
        requires few { D ≤ 3 }
        requires long { 1 + 2 * D ≤ length self.now.fills }
        ensures { GivesAs row_of (new_row D self.now (values_of (view_row row.now))) result }
    {
        entry_of(alloc, row, self.readings.as_slice())
    }
}
