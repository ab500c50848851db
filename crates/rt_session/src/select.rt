//! What a SELECT shows of a table.
//!
//! Column names are looked up before the table is searched. Where the id is all that is shown, ids are picked and no rows.

ghost use Rattle.std.specs.Prelude.{◌≡◌, [], ◌∷◌, true, IfOk, IfErr};
ghost use Rattle.rt_session.specs.Session.{is_by_id, select_reply};
ghost use Rattle.rt_session.specs.Selecting.{ArePlaces, IsMissing};
ghost use Rattle.rt_session.specs.Steps.{ShowsRows};

use rt_reply::{Rows, Shown};
use rt_sql_statement::{Cond, Items, Name, Refusal};
use rt_table::{AnyTable, Nodes};
use rt_table_row::Schema;
use std::alloc::Global;

/// Whether rows by rising id are in the order that is asked for.
fn is_by_id(schema: &Schema, order: &Option<Name>) -> bool
    ensures { result ≡ is_by_id schema.now order.now }
{
    let Some(name) = order else {
        return true;
    };
    match schema.names().first() {
        Some(id) => name.is_same(id),
        None => false,
    }
}

/// Where the columns of these names stand.
fn places_of(alloc: Global, schema: &Schema, names: &[Name]) -> Result<Vec<usize>, Refusal>
    ensures ok { IfOk result (λ places. ArePlaces schema.now.names names.now places.items) }
    ensures err { IfErr result (IsMissing schema.now.names names.now) }
{
    let mut places = Vec::with_capacity(alloc, names.len())?;
    for name in names {
        let Some(place) = schema.place_of(name) else {
            return Err(Refusal::NoSuchColumn);
        };
        places.push(place)?;
    }
    Ok(places)
}

/// Whether these are the id's column, and no other.
fn is_id_alone(places: &[usize]) -> bool
    ensures { result ≡ true → places.now ≡ 0 ∷ [] }
{
    match places.split_first() {
        Some((first, rest)) => *first == 0 && rest.is_empty(),
        None => false,
    }
}

/// The rows that a condition picks, by rising id: all of their columns, or those listed.
pub(crate) fn select(
    alloc: Global,
    table: &AnyTable,
    columns: &Option<Items<Name>>,
    cond: Cond,
    order: &Option<Name>,
) -> Result<Shown, Refusal>
    ensures { ShowsRows (select_reply columns.now cond order.now table.now.lists) result }
{
    if !is_by_id(table.schema(), order) {
        return Err(Refusal::NoSuchColumn);
    }
    let Some(names) = columns else {
        let found = table.select(cond, Nodes::Uncounted)?;
        return Ok(Shown {
            rows: found.rows,
            columns: None,
        });
    };
    let places = places_of(alloc, table.schema(), names.as_slice())?;
    if is_id_alone(places.as_slice()) {
        let ids = table.select_ids(cond)?;
        return Ok(Shown {
            rows: Rows::Ids(ids),
            columns: None,
        });
    }
    let found = table.select(cond, Nodes::Uncounted)?;
    Ok(Shown {
        rows: found.rows,
        columns: Some(places),
    })
}
