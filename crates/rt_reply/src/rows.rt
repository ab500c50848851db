//! The rows of an answer, whatever their number of axes.
//!
//! If ids and boxes are all of a row, they stay as the search found them, so nothing is copied. If only ids are shown, rows
//! are ids alone. Contracts see a list of rows of values (`specs/Rows.antt`).

ghost use Rattle.std.specs.Prelude.{◌≡◌, ◌<◌, [], length, slice_index_or};
ghost use Rattle.rt_sql_statement.specs.declared.value.Value.TheVariants.{Null};
ghost use Rattle.rt_table_row.specs.Entries.{field_value};
ghost use Rattle.rt_reply.specs.Rows.{box_values, id_values};

use rt_table_row::{Field, RowList, RowView};
use rt_tree_walk::Row;

/// Rows of a table of `D` axes.
#[derive(Drop)]
pub enum RowsOf<const D: usize> {
    /// Ids and boxes, which are all of these rows.
    Boxes(Vec<Row<D>>),
    /// Their values.
    Listed(RowList),
}

/// Rows, of each its values, column by column.
#[derive(Drop)]
pub enum Rows {
    /// Ids and boxes of one axis, which are all of these rows.
    One(Vec<Row<1>>),
    /// Those of two axes.
    Two(Vec<Row<2>>),
    /// Those of three axes.
    Three(Vec<Row<3>>),
    /// Values of rows.
    Listed(RowList),
    /// Ids, each of which is all that is kept of a row.
    Ids(Vec<i64>),
}

/// The column at that place of a row of which only the id is kept.
#[inline]
pub fn id_value_at(id: i64, place: usize) -> Field<'static>
    ensures { field_value result ≡ slice_index_or (id_values id) place Null }
{
    if place == 0 {
        return Field::Number(id);
    }
    Field::Missing
}

/// The value of the column at that place, of a row that has no auxiliary values.
#[inline]
pub fn box_value_at<const D: usize>(row: &Row<D>, place: usize) -> Field<'_>
    ensures { field_value result ≡ slice_index_or (box_values row.now) place Null }
{
    // There are one to three axes.
    row.rect.facts();
    let row = RowView {
        id: row.id,
        rect: row.rect,
        auxiliary: &[],
    };
    row.value_at(place)
}

impl Rows {
    ghost use Rattle.rt_reply.specs.Rows.{values_of_rows, values_in};

    /// Rows of one axis.
    pub fn one(rows: RowsOf<1>) -> Rows
        ensures { values_in result ≡ values_of_rows rows }
    {
        match rows {
            RowsOf::Boxes(rows) => Rows::One(rows),
            RowsOf::Listed(rows) => Rows::Listed(rows),
        }
    }

    /// Rows of two axes.
    pub fn two(rows: RowsOf<2>) -> Rows
        ensures { values_in result ≡ values_of_rows rows }
    {
        match rows {
            RowsOf::Boxes(rows) => Rows::Two(rows),
            RowsOf::Listed(rows) => Rows::Listed(rows),
        }
    }

    /// Rows of three axes.
    pub fn three(rows: RowsOf<3>) -> Rows
        ensures { values_in result ≡ values_of_rows rows }
    {
        match rows {
            RowsOf::Boxes(rows) => Rows::Three(rows),
            RowsOf::Listed(rows) => Rows::Listed(rows),
        }
    }

    /// How many rows there are.
    pub fn len(&self) -> usize
        ensures { result ≡ length (values_in self.now) }
    {
        match self {
            Rows::One(rows) => rows.len(),
            Rows::Two(rows) => rows.len(),
            Rows::Three(rows) => rows.len(),
            Rows::Listed(rows) => rows.len(),
            Rows::Ids(ids) => ids.len(),
        }
    }

    /// The value of the column at that place of the row at that place.
    #[inline]
    pub fn value_at(&self, at: usize, place: usize) -> Field<'_>
        requires { at < length (values_in self.now) }
        ensures { field_value result ≡ slice_index_or (slice_index_or (values_in self.now) at []) place Null }
    {
        match self {
            Rows::One(rows) => box_value_at(&rows[at], place),
            Rows::Two(rows) => box_value_at(&rows[at], place),
            Rows::Three(rows) => box_value_at(&rows[at], place),
            Rows::Listed(rows) => rows.row(at).value_at(place),
            Rows::Ids(ids) => id_value_at(ids[at], place),
        }
    }
}
