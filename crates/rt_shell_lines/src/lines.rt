//! The lines of rows put together, so that they are written at once.
//!
//! A row without auxiliary values has a line of few bytes, so some of them always fit. Of other rows a call returns
//! `None` if the room is used up, or if a value takes more than a copy. `reply` then writes that row value by value.

ghost use Rattle.std.specs.Prelude.{◌≡◌, ◌+◌, ◌*◌, ◌<◌, ◌≤◌, ◌++◌, ◌∷◌, ℕ, List, [], IfSome, codes, drop, length};
ghost use Rattle.std.specs.Fmt.{signed_decimal};
ghost use Rattle.std.specs.List.{flat_map};
ghost use Rattle.rt_sql.specs.Token.{double};
ghost use Rattle.rt_table_row.specs.Entries.{listed_values, field_value};
ghost use Rattle.rt_reply.specs.Rows.{box_values, id_values, values_in};
ghost use Rattle.rt_shell_lines.specs.Lines.{value_text, row_line, columns_line, row_at, column_at, column_text, after_bars, between_bars, rows_between, lines_of_ids, columns_between, columns_of_boxes};

use crate::value::first_quote;
use itoa::write_digits;
use rt_reply::{Rows, box_value_at};
use rt_sql_statement::Value;
use rt_table_row::{Field, ListedRow, RowList};
use rt_tree_walk::Row;
use std::marker::Model;

/// The most bytes of lines that are put together; a longer line is written value by value.
const MOST_BYTES: usize = 2048;

/// The most bytes of a text in a line that is put together.
const MOST_TEXT: usize = 128;

/// The most digits of an integer of 64 bits.
const MOST_DIGITS: usize = 20;

/// The most bytes of a coordinate of 32 bits: a bar, a sign and ten digits.
const MOST_COORDINATE: usize = 12;

/// The most bytes of the line of a row without auxiliary values: six coordinates, an id, and the line's end.
const MOST_BOX_LINE: usize = 93;

/// How many such lines always fit.
pub(crate) const BOXES_AT_ONCE: usize = 22;

/// The most bytes of the line of an id: a sign, nineteen digits, and the line's end.
const MOST_ID_LINE: usize = 21;

/// How many such lines always fit.
pub(crate) const IDS_AT_ONCE: usize = 97;

/// The most bytes of a number, and of a bar before it.
const MOST_NUMBER: usize = 21;

/// Puts a number so that it ends there, and answers where it starts.
#[inline]
fn put_number(bytes: &mut [u8], end: usize, number: i64) -> usize
    requires room { length (signed_decimal number) ≤ end }
    requires within { end ≤ length bytes.old }
    ensures put { drop result bytes.new ≡ signed_decimal number ++ drop end bytes.old }
    ensures long { result + length (signed_decimal number) ≡ end }
{
    let start = write_digits(number.unsigned_abs(), bytes, end);
    if number >= 0 {
        return start;
    }
    bytes[start - 1] = b'-';
    start - 1
}

/// Puts a coordinate behind a bar, so that it ends there, and answers where the bar is.
#[inline]
fn put_coordinate(bytes: &mut [u8], end: usize, number: i32) -> usize
    requires room { MOST_COORDINATE ≤ end }
    requires within { end ≤ length bytes.old }
    ensures put { drop result bytes.new ≡ (codes "|" ++ signed_decimal number) ++ drop end bytes.old }
    ensures few { end ≤ result + MOST_COORDINATE }
    ensures start { result ≤ end }
{
    let start = put_number(bytes, end, i64::from(number));
    bytes[start - 1] = b'|';
    start - 1
}

/// Puts the line of a row without auxiliary values, so that it ends there, and answers where it starts.
#[inline]
fn put_box<const D: usize>(bytes: &mut [u8], end: usize, row: &Row<D>) -> usize
    requires room { MOST_BOX_LINE ≤ end }
    requires within { end ≤ length bytes.old }
    ensures put { drop result bytes.new ≡ row_line (box_values row.now) ++ drop end bytes.old }
    ensures few { end ≤ result + MOST_BOX_LINE }
    ensures start { result ≤ end }
{
    let mut start = end - 1;
    bytes[start] = b'\n';
    let mut axis = row.rect.axes();
    while axis > 0 {
        axis -= 1;
        let range = row.rect.range(axis);
        start = put_coordinate(bytes, start, range.hi);
        start = put_coordinate(bytes, start, range.lo);
    }
    put_number(bytes, start, row.id)
}

/// Puts the lines of rows without auxiliary values, so that they end there, and answers where they start.
fn put_boxes<const D: usize>(bytes: &mut [u8], end: usize, rows: &[Row<D>]) -> usize
    requires room { MOST_BOX_LINE * length rows.now ≤ end }
    requires within { end ≤ length bytes.old }
    ensures put { drop result bytes.new ≡ flat_map (λ row. row_line (box_values row)) rows.now ++ drop end bytes.old }
    ensures start { result ≤ end }
{
    let mut start = end;
    let mut rest = rows;
    while let Some((last, before)) = rest.split_last() {
        start = put_box(bytes, start, last);
        rest = before;
    }
    start
}

/// Puts the line of an id, so that it ends there, and answers where it starts.
#[inline]
fn put_id(bytes: &mut [u8], end: usize, id: &i64) -> usize
    requires room { MOST_ID_LINE ≤ end }
    requires within { end ≤ length bytes.old }
    ensures put { drop result bytes.new ≡ row_line (id_values id.now) ++ drop end bytes.old }
    ensures few { end ≤ result + MOST_ID_LINE }
    ensures start { result ≤ end }
{
    bytes[end - 1] = b'\n';
    put_number(bytes, end - 1, *id)
}

/// Puts the lines of ids, so that they end there, and answers where they start.
fn put_ids(bytes: &mut [u8], end: usize, ids: &[i64]) -> usize
    requires room { MOST_ID_LINE * length ids.now ≤ end }
    requires within { end ≤ length bytes.old }
    ensures put { drop result bytes.new ≡ lines_of_ids ids.now ++ drop end bytes.old }
    ensures start { result ≤ end }
{
    let mut start = end;
    let mut rest = ids;
    while let Some((last, before)) = rest.split_last() {
        start = put_id(bytes, start, last);
        rest = before;
    }
    start
}

/// Puts the column at a place of a row without auxiliary values, so that it ends there, and answers where it starts; `None`
/// if it is no number.
#[inline(always)]
fn put_column<const D: usize>(
    bytes: &mut [u8],
    end: usize,
    row: &Row<D>,
    place: usize,
) -> Option<usize>
    requires room { MOST_DIGITS ≤ end }
    requires within { end ≤ length bytes.old }
    ensures put { IfSome result (λ start.
        drop start bytes.new ≡ column_text (box_values row.now) place ++ drop end bytes.old) }
    ensures few { IfSome result (λ start. end ≤ start + MOST_DIGITS) }
    ensures start { IfSome result (λ start. start ≤ end) }
{
    match box_value_at(row, place) {
        Field::Number(number) => Some(put_number(bytes, end, number)),
        Field::Auxiliary(_) => None,
        Field::Missing => None,
    }
}

/// Puts columns of a row without auxiliary values, each behind a bar, so that they end there, and answers where they start;
/// `None` if one is no number.
#[inline]
fn put_columns_after_bars<const D: usize>(
    bytes: &mut [u8],
    end: usize,
    row: &Row<D>,
    places: &[usize],
) -> Option<usize>
    requires room { MOST_NUMBER * length places.now ≤ end }
    requires within { end ≤ length bytes.old }
    ensures put { IfSome result (λ start.
        drop start bytes.new ≡ after_bars (column_text (box_values row.now)) places.now ++ drop end bytes.old) }
    ensures few { IfSome result (λ start. end ≤ start + MOST_NUMBER * length places.now) }
    ensures start { IfSome result (λ start. start ≤ end) }
{
    let mut start = end;
    let mut rest = places;
    while let Some((last, before)) = rest.split_last() {
        start = put_column(bytes, start, row, *last)? - 1;
        bytes[start] = b'|';
        rest = before;
    }
    Some(start)
}

/// Puts the line of columns of a row without auxiliary values, so that it ends there, and answers where it starts; `None` if
/// one is no number.
#[inline]
fn put_columns_line<const D: usize>(
    bytes: &mut [u8],
    end: usize,
    row: &Row<D>,
    places: &[usize],
) -> Option<usize>
    requires room { MOST_NUMBER * length places.now < end }
    requires within { end ≤ length bytes.old }
    ensures put { IfSome result (λ start.
        drop start bytes.new ≡ columns_line places.now (box_values row.now) ++ drop end bytes.old) }
    ensures start { IfSome result (λ start. start ≤ end) }
{
    bytes[end - 1] = b'\n';
    let Some((first, rest)) = places.split_first() else {
        return Some(end - 1);
    };
    let start = put_columns_after_bars(bytes, end - 1, row, rest)?;
    put_column(bytes, start, row, *first)
}

/// The last part of some lines. They are put together from their end to their beginning: of a number's digits the last is
/// found first, so that each is put where it stays.
#[derive(Drop)]
pub(crate) struct Lines {
    bytes: [u8; MOST_BYTES],
    start: usize,
}

// Clauses see the bytes from the start on.
impl Model for Lines {
    ghost Value = { List ℕ };

    ghost view = { λ lines. drop lines.start lines.bytes };

    ghost invariant = { λ lines. (lines.start ≤ 2048) × (length lines.bytes ≡ 2048) };
}

impl Lines {
    /// Nothing yet.
    pub(crate) fn new() -> Lines
        ensures { result ≡ [] }
    {
        Lines {
            bytes: [0; MOST_BYTES],
            start: MOST_BYTES,
        }
    }

    /// Drops the bytes put so far.
    pub(crate) fn clear(&mut self)
        ensures { self.new ≡ [] }
    {
        self.start = MOST_BYTES;
    }

    /// The bytes put so far.
    pub(crate) fn as_slice(&self) -> &[u8]
        ensures { result.now ≡ self.now }
    {
        &self.bytes[self.start..]
    }

    /// The lines of rows without auxiliary values, in the place of what was put so far.
    pub(crate) fn set_boxes<const D: usize>(&mut self, rows: &[Row<D>])
        requires { length rows.now ≤ BOXES_AT_ONCE }
        ensures { self.new ≡ flat_map (λ row. row_line (box_values row)) rows.now }
    {
        self.start = put_boxes(&mut self.bytes, MOST_BYTES, rows);
    }

    /// The lines of ids, in the place of what was put so far.
    pub(crate) fn set_ids(&mut self, ids: &[i64])
        requires { length ids.now ≤ IDS_AT_ONCE }
        ensures { self.new ≡ lines_of_ids ids.now }
    {
        self.start = put_ids(&mut self.bytes, MOST_BYTES, ids);
    }

    /// Puts the bytes before the rest, if there is room for them.
    fn put(&mut self, bytes: &[u8]) -> Option<()>
        ensures { IfSome result (λ _. self.new ≡ bytes.now ++ self.old) }
    {
        let start = self.start.checked_sub(bytes.len())?;
        self.bytes[start..self.start].copy_from_slice(bytes);
        self.start = start;
        Some(())
    }

    /// Puts a byte before the rest, if there is room for it.
    #[inline]
    fn put_byte(&mut self, byte: u8) -> Option<()>
        ensures { IfSome result (λ _. self.new ≡ byte ∷ self.old) }
    {
        let start = self.start.checked_sub(1)?;
        self.bytes[start] = byte;
        self.start = start;
        Some(())
    }

    /// Puts a number, if there is room for any.
    #[inline]
    fn put_integer(&mut self, number: i64) -> Option<()>
        ensures { IfSome result (λ _. self.new ≡ signed_decimal number ++ self.old) }
    {
        if self.start < MOST_DIGITS {
            return None;
        }
        self.start = write_digits(number.unsigned_abs(), &mut self.bytes, self.start);
        if number < 0 {
            self.put_byte(b'-')?;
        }
        Some(())
    }

    /// Puts a text in quotes, if it is short and has none inside.
    fn put_text(&mut self, text: &[u8]) -> Option<()>
        ensures { IfSome result (λ _. self.new ≡ (codes "'" ++ double 39 text.now ++ codes "'") ++ self.old) }
    {
        if text.len() > MOST_TEXT || first_quote(text).is_some() {
            return None;
        }
        self.put_byte(b'\'')?;
        self.put(text)?;
        self.put_byte(b'\'')?;
        Some(())
    }

    /// Puts a value, if there is room for it and it takes no more than a copy.
    #[inline]
    fn put_value(&mut self, value: &Value) -> Option<()>
        ensures { IfSome result (λ _. self.new ≡ value_text value.now ++ self.old) }
    {
        match value {
            Value::Null => self.put(b"NULL"),
            Value::Int(number) => self.put_integer(*number),
            Value::Text(text) => self.put_text(text.as_str().as_bytes()),
            Value::Blob(_) => None,
        }
    }

    /// Puts a value that is looked at, if there is room for it and it takes no more than a copy.
    #[inline]
    fn put_field(&mut self, field: Field<'_>) -> Option<()>
        ensures { IfSome result (λ _. self.new ≡ value_text (field_value field.entry) ++ self.old) }
    {
        match field {
            Field::Number(number) => self.put_integer(number),
            Field::Auxiliary(value) => self.put_value(value),
            Field::Missing => self.put(b"NULL"),
        }
    }

    /// Puts the columns of a row that follow a first one, each behind a bar.
    fn put_more_columns(&mut self, rows: &Rows, at: usize, places: &[usize]) -> Option<()>
        requires { at < length (values_in rows.now) }
        ensures { IfSome result (λ _. self.new ≡ after_bars (column_at rows.now at) places.now ++ self.old) }
    {
        let mut rest = places;
        while let Some((last, before)) = rest.split_last() {
            self.put_field(rows.value_at(at, *last))?;
            self.put_byte(b'|')?;
            rest = before;
        }
        Some(())
    }

    /// Puts the columns of a row with bars between them.
    fn put_each_column(&mut self, rows: &Rows, at: usize, places: &[usize]) -> Option<()>
        requires { at < length (values_in rows.now) }
        ensures { IfSome result (λ _. self.new ≡ between_bars (column_at rows.now at) places.now ++ self.old) }
    {
        if let Some((first, rest)) = places.split_first() {
            self.put_more_columns(rows, at, rest)?;
            self.put_field(rows.value_at(at, *first))?;
        }
        Some(())
    }

    /// Puts the line of the columns of a row, if there is room for it and no value takes more than a copy.
    pub(crate) fn put_columns(&mut self, rows: &Rows, at: usize, places: &[usize]) -> Option<()>
        requires { at < length (values_in rows.now) }
        ensures { IfSome result (λ _. self.new ≡ columns_line places.now (row_at rows.now at) ++ self.old) }
    {
        self.put_byte(b'\n')?;
        self.put_each_column(rows, at, places)?;
        Some(())
    }

    /// Puts the line of columns of a row without auxiliary values, if there is room for it.
    #[inline]
    fn put_box_columns<const D: usize>(&mut self, row: &Row<D>, places: &[usize]) -> Option<()>
        ensures { IfSome result (λ _. self.new ≡ columns_line places.now (box_values row.now) ++ self.old) }
    {
        if self.start <= MOST_NUMBER.saturating_mul(places.len()) {
            return None;
        }
        self.start = put_columns_line(&mut self.bytes, self.start, row, places)?;
        Some(())
    }

    /// Puts the lines of columns of rows without auxiliary values, if there is room for them.
    fn put_columns_of_boxes<const D: usize>(
        &mut self,
        rows: &[Row<D>],
        places: &[usize],
    ) -> Option<()>
        ensures { IfSome result (λ _. self.new ≡ columns_of_boxes places.now rows.now ++ self.old) }
    {
        let mut rest = rows;
        while let Some((last, before)) = rest.split_last() {
            self.put_box_columns(last, places)?;
            rest = before;
        }
        Some(())
    }

    /// Puts the lines of the columns of the rows from one place to another, if there is room for them and no value takes more
    /// than a copy.
    pub(crate) fn put_columns_between(
        &mut self,
        rows: &Rows,
        places: &[usize],
        from: usize,
        to: usize,
    ) -> Option<()>
        requires some { from ≤ to }
        requires within { to ≤ length (values_in rows.now) }
        ensures { IfSome result (λ _. self.new ≡ columns_between places.now from to rows.now ++ self.old) }
    {
        match rows {
            Rows::One(boxes) => self.put_columns_of_boxes(&boxes[from..to], places),
            Rows::Two(boxes) => self.put_columns_of_boxes(&boxes[from..to], places),
            Rows::Three(boxes) => self.put_columns_of_boxes(&boxes[from..to], places),
            Rows::Listed(_) => self.put_listed_columns(rows, places, from, to),
            Rows::Ids(_) => self.put_listed_columns(rows, places, from, to),
        }
    }

    /// Puts the lines of the columns of the rows from one place to another, if there is room for them and no value takes more
    /// than a copy: whatever the rows are.
    fn put_listed_columns(
        &mut self,
        rows: &Rows,
        places: &[usize],
        from: usize,
        to: usize,
    ) -> Option<()>
        requires { to ≤ length (values_in rows.now) }
        ensures { IfSome result (λ _. self.new ≡ columns_between places.now from to rows.now ++ self.old) }
    {
        let mut at = to;
        while at > from {
            at -= 1;
            self.put_columns(rows, at, places)?;
        }
        Some(())
    }

    /// Puts values that follow a first one, each behind a bar.
    fn put_more(&mut self, values: &[Value]) -> Option<()>
        ensures { IfSome result (λ _. self.new ≡ after_bars value_text values.now ++ self.old) }
    {
        let mut rest = values;
        while let Some((last, before)) = rest.split_last() {
            self.put_value(last)?;
            self.put_byte(b'|')?;
            rest = before;
        }
        Some(())
    }

    /// Puts numbers that follow a first one, each behind a bar.
    fn put_more_numbers(&mut self, numbers: &[i64]) -> Option<()>
        ensures { IfSome result (λ _. self.new ≡ after_bars signed_decimal numbers.now ++ self.old) }
    {
        let mut rest = numbers;
        while let Some((last, before)) = rest.split_last() {
            self.put_integer(*last)?;
            self.put_byte(b'|')?;
            rest = before;
        }
        Some(())
    }

    /// Puts values with bars between them.
    fn put_values(&mut self, values: &[Value]) -> Option<()>
        ensures { IfSome result (λ _. self.new ≡ between_bars value_text values.now ++ self.old) }
    {
        if let Some((first, rest)) = values.split_first() {
            self.put_more(rest)?;
            self.put_value(first)?;
        }
        Some(())
    }

    /// Puts the values of a row with bars between them, numbers first.
    fn put_listed(&mut self, row: &ListedRow<'_>) -> Option<()>
        ensures { IfSome result (λ _. self.new ≡ between_bars value_text (listed_values row.now) ++ self.old) }
    {
        let Some((first, rest)) = row.numbers.split_first() else {
            return self.put_values(row.auxiliary);
        };
        self.put_more(row.auxiliary)?;
        self.put_more_numbers(rest)?;
        self.put_integer(*first)?;
        Some(())
    }

    /// Puts the line of a row, if there is room for it and no value takes more than a copy.
    pub(crate) fn put_row(&mut self, row: &ListedRow<'_>) -> Option<()>
        ensures { IfSome result (λ _. self.new ≡ row_line (listed_values row.now) ++ self.old) }
    {
        self.put_byte(b'\n')?;
        self.put_listed(row)?;
        Some(())
    }

    /// Puts the lines of the rows from one place to another, if there is room for them and no value takes more than a copy.
    pub(crate) fn put_rows(&mut self, rows: &RowList, from: usize, to: usize) -> Option<()>
        requires { to ≤ length rows.now }
        ensures { IfSome result (λ _. self.new ≡ rows_between from to rows.now ++ self.old) }
    {
        let mut at = to;
        while at > from {
            at -= 1;
            self.put_row(&rows.row(at))?;
        }
        Some(())
    }
}
