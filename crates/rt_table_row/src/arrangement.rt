//! The columns that an INSERT lists.
//!
//! For each column of the table an arrangement has the place of its value in a list. A column that isn't listed
//! gets NULL (`specs/Arrangements.antt`).

ghost use Rattle.std.specs.Prelude.{◌≡◌, ◌==◌, ◌≤◌, ◌+◌, ◌*◌, true, length, map, IfOk};
ghost use Rattle.std.specs.List.{list_all};
ghost use Rattle.std.specs.Option.{option_copied};
ghost use Rattle.rt_table_row.specs.Columns.{place_of, has_name};
ghost use Rattle.rt_table_row.specs.Arrangements.{value_at, own_places};
ghost use Rattle.rt_table_row.specs.Answers.{GivesAs};
ghost use Rattle.rt_table_row.specs.NewRows.{id_in, given_id, row_from};
ghost use Rattle.rt_table_row.specs.Entries.{row_of};

use crate::entry::Entry;
use crate::new_row::id_in;
use crate::schema::{Schema, are_listed_once, has_name, place_of};
use rt_sql_statement::{Items, Name, Refusal, Value};
use std::alloc::{AllocError, Global};
use std::marker::Model;

/// Whether each of the names is among the columns.
fn are_known(columns: &[Name], names: &[Name]) -> bool
    ensures { result ≡ list_all (has_name columns.now) names.now }
{
    names.iter().all(
        |name: &Name| -> bool
            ensures { result ≡ has_name columns.entry.now name.now }
        { has_name(columns, name) },
    )
}

/// For each column its place among the names.
fn places_of(
    alloc: Global,
    columns: &[Name],
    names: &[Name],
) -> Result<Vec<Option<usize>>, AllocError>
    ensures { IfOk result (λ places. places.items ≡ map (place_of names.now) columns.now) }
{
    let mut places = Vec::with_capacity(alloc, columns.len())?;
    for column in columns {
        places.push(place_of(names, column))?;
    }
    Ok(places)
}

/// A copy of the value at that place.
fn copy_at(alloc: Global, values: &[Value], place: Option<usize>) -> Result<Value, AllocError>
    ensures { IfOk result (λ value. value ≡ value_at values.now place) }
{
    match place {
        Some(place) if place < values.len() => values[place].try_clone(alloc),
        _ => Ok(Value::Null),
    }
}

/// The id at that place; none if no integer stands there.
fn id_at(values: &[Value], place: Option<usize>) -> Option<i64>
    ensures { result ≡ id_in (value_at values.now place) }
{
    match place {
        Some(place) if place < values.len() => id_in(&values[place]),
        _ => None,
    }
}

/// Where the values of the columns stand in a list.
#[derive(Debug, Drop)]
enum Places {
    /// In the order of the columns, of which this is the number.
    Own(usize),
    /// At these places, or nowhere.
    Listed(Vec<Option<usize>>),
}

/// The columns that an INSERT lists, looked up once, so that no name is compared for a row.
#[derive(Debug)]
pub struct Arrangement {
    width: usize,
    places: Places,
}

// By hand, since a derived drop is written out, field by field, wherever such a value ends.
impl Drop for Arrangement {
    fn drop(self) {
        let Arrangement {
            width: _,
            places: _,
        } = self;
    }
}

impl Model for Arrangement {
    ghost use Rattle.rt_table_row.specs.Arrangements.{ColumnPlaces};

    ghost Value = { ColumnPlaces };

    ghost use Rattle.rt_table_row.specs.Arrangements.{places_in};

    ghost view = { λ arrangement. record { width = arrangement.width; places = places_in arrangement.places } };
}

impl Arrangement {
    ghost use Rattle.std.specs.Prelude.{MatchResult};
    ghost use Rattle.rt_table_row.specs.Arrangements.{IsArrangementOf, IsBadList, row_values};

    /// The arrangement of values for the columns of these names.
    ///
    /// # Errors
    ///
    /// `BadColumnList` if two names are one; else `NoSuchColumn` if the table hasn't one of them; `OutOfMemory` if no memory
    /// is left.
    pub fn new(alloc: Global, schema: &Schema, names: &[Name]) -> Result<Arrangement, Refusal>
        ensures { MatchResult result (IsArrangementOf schema.now names.now) (IsBadList schema.now names.now) }
    {
        if !are_listed_once(alloc, names)? {
            return Err(Refusal::BadColumnList);
        }
        if !are_known(schema.names(), names) {
            return Err(Refusal::NoSuchColumn);
        }
        let places = places_of(alloc, schema.names(), names)?;
        Ok(Arrangement {
            width: names.len(),
            places: Places::Listed(places),
        })
    }

    /// The arrangement of values for all columns in their order. No names are compared.
    pub fn whole(schema: &Schema) -> Arrangement
        ensures { IsArrangementOf schema.now schema.now.names result }
    {
        // No two columns have one name.
        schema.facts();
        let width = schema.len();
        Arrangement {
            width,
            places: Places::Own(width),
        }
    }

    /// Whether each list has a value for each name.
    pub fn fits(&self, lists: &[Items<Value>]) -> bool
        ensures { result ≡ list_all (λ values. length values == self.now.width) lists.now }
    {
        are_wide(lists, self.width)
    }

    /// The id that the values give; none if it is NULL or isn't listed.
    pub fn given_id(&self, list: &[Value]) -> Option<i64>
        requires { 1 ≤ length self.now.places }
        ensures { result ≡ given_id (row_values self.now list.now) }
    {
        match &self.places {
            Places::Own(_) => id_at(list, Some(0)),
            Places::Listed(places) => id_at(list, places[0]),
        }
    }

    /// The row of that id that the values are in the order of the table's columns; a column that isn't listed gets NULL.
    /// Of values that stand in that order only the auxiliary ones are copied.
    ///
    /// # Errors
    ///
    /// Those of `Entry::new`.
    pub fn new_entry<const D: usize>(
        &self,
        alloc: Global,
        id: Option<i64>,
        list: &[Value],
    ) -> Result<Entry<D>, Refusal>
        requires some { 1 ≤ D }
        requires few { D ≤ 3 }
        requires long { 1 + 2 * D ≤ length self.now.places }
        ensures { GivesAs row_of (row_from D id (row_values self.now list.now)) result }
    {
        match &self.places {
            Places::Own(count) => {
                own_places_facts(*count);
                own_entry(alloc, *count, id, list)
            }
            Places::Listed(places) => {
                let values = row_values(alloc, places.as_slice(), list)?;
                Entry::new(id, values)
            }
        }
    }
}

/// A law: `count` columns have `count` places. The call does nothing.
fn own_places_facts(count: usize)
    ensures { length (own_places count) ≡ count }
{}

/// The row of that id, of values in the order of the columns.
fn own_entry<const D: usize>(
    alloc: Global,
    count: usize,
    id: Option<i64>,
    list: &[Value],
) -> Result<Entry<D>, Refusal>
    requires some { 1 ≤ D }
    requires few { D ≤ 3 }
    requires long { 1 + 2 * D ≤ count }
    ensures { GivesAs row_of (row_from D id (map (value_at list.now) (own_places count))) result }
{
    if list.len() == count {
        return Entry::from_slice(alloc, id, list);
    }
    let values = in_order(alloc, count, list)?;
    Entry::new(id, values)
}

/// The first `count` values of a list; NULL past its end.
fn in_order(alloc: Global, count: usize, list: &[Value]) -> Result<Vec<Value>, AllocError>
    ensures value { IfOk result (λ values. values.items ≡ map (value_at list.now) (own_places count)) }
    ensures each { IfOk result (λ values. length values.items ≡ count) }
{
    let mut values = Vec::with_capacity(alloc, count)?;
    for place in 0..count {
        values.push(copy_at(alloc, list, Some(place))?)?;
    }
    Ok(values)
}

fn are_wide(lists: &[Items<Value>], width: usize) -> bool
    ensures { result ≡ list_all (λ values. length values == width) lists.now }
{
    lists.iter().all(|values| values.len() == width)
}

fn row_values(
    alloc: Global,
    places: &[Option<usize>],
    list: &[Value],
) -> Result<Vec<Value>, AllocError>
    ensures { IfOk result (λ values. values.items ≡ map (value_at list.now) places.now) }
{
    let mut values = Vec::with_capacity(alloc, places.len())?;
    for place in places {
        values.push(copy_at(alloc, list, *place)?)?;
    }
    Ok(values)
}
