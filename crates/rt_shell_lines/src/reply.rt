//! What is printed of an answer. Printing takes no memory, so no line is ever cut off by a want of it.
//!
//! Rows are written in two ways with the same bytes: short ones are put together by `lines` and written some at a
//! time, as are all without auxiliary values, and others value by value. `specs/Lines.antt` names the bytes.

ghost use Rattle.std.specs.Prelude.{◌≡◌, ◌<◌, ◌≤◌, ◌++◌, if◌then◌else◌, codes, length, max, IfOk};
ghost use Rattle.std.specs.Fmt.{signed_decimal};
ghost use Rattle.std.specs.List.{flat_map};
ghost use Rattle.rt_bytes.specs.Devices.{WritesTo};
ghost use Rattle.rt_table_row.specs.Entries.{listed_values, field_value};
ghost use Rattle.rt_reply.specs.Rows.{values_in};
ghost use Rattle.rt_reply.specs.Changes.{change_seen};
ghost use Rattle.rt_shell_lines.specs.Lines.{value_text, row_line, columns_line, row_at, column_at, after_bars, between_bars, listed_after_bars, lines_of_boxes, lines_of_ids, lines_of_columns, change_line, reply_lines, refusal_line};
ghost use Rattle.rt_shell_lines.specs.Writing.{WritesNext, WritesColumns};

use crate::lines::{BOXES_AT_ONCE, IDS_AT_ONCE, Lines};
use crate::value::{write_integer, write_value};
use itoa::Buffer;
use rt_bytes::{ByteWriter, WriteFault, write_parts, write_whole};
use rt_check_dump::write_dump;
use rt_check_report::write_verdict;
use rt_reply::{Change, Changes, Reply, Rows, Shown};
use rt_sql_statement::{Refusal, Value};
use rt_table_row::{Field, ListedRow, RowList};
use rt_tree_walk::Row;

/// The most rows whose lines are put together before it is known that they fit.
const ROWS_AT_ONCE: usize = 8;

/// The most columns that are put together so, if they are numbers: as many mostly fit.
const COLUMNS_AT_ONCE: usize = 96;

/// Writes the lines of a reply: a line for each row that it shows, or for each change; the verdict on
/// a tree, or its dump. After a fault a prefix of them is written.
///
/// A row's line is its values with bars between them, each as SQLite's `quote()` writes it:
/// `7|-1|4|'it''s'|X'0AFF'|NULL`. The line of a change is `+V ROW` if the row came into the view
/// V, and `-V ROW` if it left it. A verdict is `ok`, or a line for each problem.
pub fn write_reply<W: ByteWriter>(reply: &Reply, writer: &mut W) -> Result<(), WriteFault>
    ensures { WritesTo W.ByteWriter writer.old writer.new result (reply_lines reply.now) }
{
    match reply {
        Reply::Nothing => Ok(()),
        Reply::Rows(shown) => write_shown(shown, writer),
        Reply::Changes(changes) => write_changes(changes, writer),
        Reply::Verdict(problems) => write_verdict(problems.as_slice(), writer),
        Reply::Dump(dump) => write_dump(dump.tree(), writer),
    }
}

fn write_shown<W: ByteWriter>(shown: &Shown, writer: &mut W) -> Result<(), WriteFault>
    ensures { WritesTo W.ByteWriter writer.old writer.new result (flat_map row_line shown.now) }
{
    match &shown.columns {
        None => write_rows(&shown.rows, writer),
        Some(places) => write_columns(&shown.rows, places.as_slice(), writer),
    }
}

/// How many rows are put together at most after as many as that, or fewer, did fit or didn't.
fn most_at_once(most: usize, did_fit: bool) -> usize
    requires { 1 ≤ most }
    ensures some { 1 ≤ result }
    ensures few { result ≤ max most ROWS_AT_ONCE }
{
    if did_fit {
        return most;
    }
    ROWS_AT_ONCE.max(most / 2)
}

/// Writes the lines of the columns at these places, some rows at a time.
fn write_columns<W: ByteWriter>(
    rows: &Rows,
    places: &[usize],
    writer: &mut W,
) -> Result<(), WriteFault>
    ensures { WritesTo W.ByteWriter writer.old writer.new result (lines_of_columns places.now rows.now) }
{
    let mut lines = Lines::new();
    let mut most = ROWS_AT_ONCE.max(COLUMNS_AT_ONCE / places.len().max(1));
    let (mut from, mut at_once) = (0, most);
    while from < rows.len() {
        let to = from + at_once.min(rows.len() - from);
        let next = write_next_columns(&mut lines, rows, places, from, to, writer)?;
        most = most_at_once(most, next == to);
        // Twice as many as were short enough last time.
        at_once = most.min(2 * (next - from));
        from = next;
    }
    Ok(())
}

/// Writes the lines of the columns of the rows from one place to another at once if they are short, else that of the
/// first row; answers where the rows behind them begin.
fn write_next_columns<W: ByteWriter>(
    lines: &mut Lines,
    rows: &Rows,
    places: &[usize],
    from: usize,
    to: usize,
    writer: &mut W,
) -> Result<usize, WriteFault>
    requires some { from < to }
    requires within { to ≤ length (values_in rows.now) }
    ensures next { IfOk result (λ next. (from < next) × (next ≤ to)) }
    ensures written { WritesColumns W.ByteWriter writer.old writer.new result places.now from rows.now }
{
    lines.clear();
    match lines.put_columns_between(rows, places, from, to) {
        Some(()) => {
            write_whole(writer, lines.as_slice())?;
            Ok(to)
        }
        None => {
            write_columns_of(lines, rows, from, places, writer)?;
            Ok(from + 1)
        }
    }
}

/// Writes the line of a row's columns, which is put together in `lines` if it is short.
fn write_columns_of<W: ByteWriter>(
    lines: &mut Lines,
    rows: &Rows,
    at: usize,
    places: &[usize],
    writer: &mut W,
) -> Result<(), WriteFault>
    requires { at < length (values_in rows.now) }
    ensures { WritesTo W.ByteWriter writer.old writer.new result (columns_line places.now (row_at rows.now at)) }
{
    lines.clear();
    match lines.put_columns(rows, at, places) {
        Some(()) => write_whole(writer, lines.as_slice()),
        None => write_long_columns(rows, at, places, writer),
    }
}

/// Writes the line of a row's columns value by value.
fn write_long_columns<W: ByteWriter>(
    rows: &Rows,
    at: usize,
    places: &[usize],
    writer: &mut W,
) -> Result<(), WriteFault>
    requires { at < length (values_in rows.now) }
    ensures { WritesTo W.ByteWriter writer.old writer.new result (columns_line places.now (row_at rows.now at)) }
{
    write_each_column(rows, at, places, writer)?;
    write_line_end(writer)
}

fn write_each_column<W: ByteWriter>(
    rows: &Rows,
    at: usize,
    places: &[usize],
    writer: &mut W,
) -> Result<(), WriteFault>
    requires { at < length (values_in rows.now) }
    ensures { WritesTo W.ByteWriter writer.old writer.new result (between_bars (column_at rows.now at) places.now) }
{
    let Some((first, rest)) = places.split_first() else {
        return Ok(());
    };
    write_field(rows.value_at(at, *first), writer)?;
    write_more_columns(rows, at, rest, writer)
}

/// Writes the columns that follow a first one.
fn write_more_columns<W: ByteWriter>(
    rows: &Rows,
    at: usize,
    places: &[usize],
    writer: &mut W,
) -> Result<(), WriteFault>
    requires { at < length (values_in rows.now) }
    ensures { WritesTo W.ByteWriter writer.old writer.new result (after_bars (column_at rows.now at) places.now) }
{
    for place in places {
        write_column_after_bar(rows, at, *place, writer)?;
    }
    Ok(())
}

fn write_line_end<W: ByteWriter>(writer: &mut W) -> Result<(), WriteFault>
    ensures { WritesTo W.ByteWriter writer.old writer.new result (codes "\n") }
{
    write_whole(writer, b"\n")
}

fn write_column_after_bar<W: ByteWriter>(
    rows: &Rows,
    at: usize,
    place: usize,
    writer: &mut W,
) -> Result<(), WriteFault>
    requires { at < length (values_in rows.now) }
    ensures { WritesTo W.ByteWriter writer.old writer.new result (codes "|" ++ column_at rows.now at place) }
{
    write_bar(writer)?;
    write_field(rows.value_at(at, place), writer)
}

fn write_field<W: ByteWriter>(field: Field<'_>, writer: &mut W) -> Result<(), WriteFault>
    ensures { WritesTo W.ByteWriter writer.old writer.new result (value_text (field_value field.entry)) }
{
    match field {
        Field::Number(number) => write_integer(&number, writer),
        Field::Auxiliary(value) => write_value(value, writer),
        Field::Missing => write_whole(writer, b"NULL"),
    }
}

fn write_rows<W: ByteWriter>(rows: &Rows, writer: &mut W) -> Result<(), WriteFault>
    ensures { WritesTo W.ByteWriter writer.old writer.new result (flat_map row_line (values_in rows.now)) }
{
    match rows {
        Rows::One(rows) => write_boxes(rows.as_slice(), writer),
        Rows::Two(rows) => write_boxes(rows.as_slice(), writer),
        Rows::Three(rows) => write_boxes(rows.as_slice(), writer),
        Rows::Listed(rows) => write_list(rows, writer),
        Rows::Ids(ids) => write_ids(ids.as_slice(), writer),
    }
}

/// Writes the lines of rows without auxiliary values, as many at a time as always fit.
fn write_boxes<W: ByteWriter, const D: usize>(
    rows: &[Row<D>],
    writer: &mut W,
) -> Result<(), WriteFault>
    ensures { WritesTo W.ByteWriter writer.old writer.new result (lines_of_boxes rows.now) }
{
    // One place for all lines, since making it costs as much as filling it.
    let mut lines = Lines::new();
    let mut rest = rows;
    while !rest.is_empty() {
        let (few, later) = rest.split_at(rest.len().min(BOXES_AT_ONCE));
        lines.set_boxes(few);
        write_whole(writer, lines.as_slice())?;
        rest = later;
    }
    Ok(())
}

/// Writes the lines of ids, as many at a time as always fit.
fn write_ids<W: ByteWriter>(ids: &[i64], writer: &mut W) -> Result<(), WriteFault>
    ensures { WritesTo W.ByteWriter writer.old writer.new result (lines_of_ids ids.now) }
{
    let mut lines = Lines::new();
    let mut rest = ids;
    while !rest.is_empty() {
        let (few, later) = rest.split_at(rest.len().min(IDS_AT_ONCE));
        lines.set_ids(few);
        write_whole(writer, lines.as_slice())?;
        rest = later;
    }
    Ok(())
}

fn write_list<W: ByteWriter>(rows: &RowList, writer: &mut W) -> Result<(), WriteFault>
    ensures { WritesTo W.ByteWriter writer.old writer.new result (flat_map row_line rows.now) }
{
    let mut lines = Lines::new();
    let (mut from, mut at_once) = (0, ROWS_AT_ONCE);
    while from < rows.len() {
        let to = from + at_once.min(rows.len() - from);
        let next = write_next(&mut lines, rows, from, to, writer)?;
        // Twice as many as were short enough last time.
        at_once = ROWS_AT_ONCE.min(2 * (next - from));
        from = next;
    }
    Ok(())
}

/// Writes the lines of the rows from one place to another at once if they are short, else that of the first; answers
/// where the rows behind them begin.
fn write_next<W: ByteWriter>(
    lines: &mut Lines,
    rows: &RowList,
    from: usize,
    to: usize,
    writer: &mut W,
) -> Result<usize, WriteFault>
    requires some { from < to }
    requires within { to ≤ length rows.now }
    ensures next { IfOk result (λ next. (from < next) × (next ≤ to)) }
    ensures written { WritesNext W.ByteWriter writer.old writer.new result row_line from rows.now }
{
    lines.clear();
    match lines.put_rows(rows, from, to) {
        Some(()) => {
            write_whole(writer, lines.as_slice())?;
            Ok(to)
        }
        None => {
            write_row(lines, &rows.row(from), writer)?;
            Ok(from + 1)
        }
    }
}

fn write_changes<W: ByteWriter>(changes: &Changes, writer: &mut W) -> Result<(), WriteFault>
    ensures { WritesTo W.ByteWriter writer.old writer.new result (flat_map change_line changes.now) }
{
    // Most edits change no view, and no place for lines is made for nothing.
    if changes.is_empty() {
        return Ok(());
    }
    let mut lines = Lines::new();
    for at in 0..changes.len() {
        let change = changes.get(at);
        write_change(&mut lines, &change, writer)?;
    }
    Ok(())
}

fn sign<'a>(change: &Change<'a>) -> &'a [u8]
    ensures { result.now ≡ (if change.now.came then codes "+" else codes "-") }
{
    if change.came { b"+" } else { b"-" }
}

fn write_change<W: ByteWriter>(
    lines: &mut Lines,
    change: &Change<'_>,
    writer: &mut W,
) -> Result<(), WriteFault>
    ensures { WritesTo W.ByteWriter writer.old writer.new result (change_line (change_seen change.now)) }
{
    let parts: [&[u8]; 3] = [sign(change), change.view.as_str().as_bytes(), b" "];
    write_parts(writer, &parts)?;
    write_row(lines, &change.row, writer)
}

/// Writes a row's line, which is put together in `lines` if it is short.
fn write_row<W: ByteWriter>(
    lines: &mut Lines,
    row: &ListedRow<'_>,
    writer: &mut W,
) -> Result<(), WriteFault>
    ensures { WritesTo W.ByteWriter writer.old writer.new result (row_line (listed_values row.now)) }
{
    lines.clear();
    match lines.put_row(row) {
        Some(()) => write_whole(writer, lines.as_slice()),
        None => write_long_row(row, writer),
    }
}

/// Writes a row's line value by value.
fn write_long_row<W: ByteWriter>(row: &ListedRow<'_>, writer: &mut W) -> Result<(), WriteFault>
    ensures { WritesTo W.ByteWriter writer.old writer.new result (row_line (listed_values row.now)) }
{
    write_listed(row, writer)?;
    write_line_end(writer)
}

fn write_listed<W: ByteWriter>(row: &ListedRow<'_>, writer: &mut W) -> Result<(), WriteFault>
    ensures { WritesTo W.ByteWriter writer.old writer.new result (between_bars value_text (listed_values row.now)) }
{
    let Some((first, rest)) = row.numbers.split_first() else {
        return write_values(row.auxiliary, writer);
    };
    write_integer(first, writer)?;
    write_more_listed(rest, row.auxiliary, writer)
}

/// Writes the numbers that follow a first one, and the values behind them.
fn write_more_listed<W: ByteWriter>(
    numbers: &[i64],
    values: &[Value],
    writer: &mut W,
) -> Result<(), WriteFault>
    ensures { WritesTo W.ByteWriter writer.old writer.new result (listed_after_bars numbers.now values.now) }
{
    write_more_numbers(numbers, writer)?;
    write_more_values(values, writer)
}

/// Writes the numbers that follow a first one.
fn write_more_numbers<W: ByteWriter>(numbers: &[i64], writer: &mut W) -> Result<(), WriteFault>
    ensures { WritesTo W.ByteWriter writer.old writer.new result (after_bars signed_decimal numbers.now) }
{
    for number in numbers {
        write_number_after_bar(number, writer)?;
    }
    Ok(())
}

fn write_bar<W: ByteWriter>(writer: &mut W) -> Result<(), WriteFault>
    ensures { WritesTo W.ByteWriter writer.old writer.new result (codes "|") }
{
    write_whole(writer, b"|")
}

fn write_number_after_bar<W: ByteWriter>(number: &i64, writer: &mut W) -> Result<(), WriteFault>
    ensures { WritesTo W.ByteWriter writer.old writer.new result (codes "|" ++ signed_decimal number.now) }
{
    write_bar(writer)?;
    write_integer(number, writer)
}

fn write_values<W: ByteWriter>(values: &[Value], writer: &mut W) -> Result<(), WriteFault>
    ensures { WritesTo W.ByteWriter writer.old writer.new result (between_bars value_text values.now) }
{
    let Some((first, rest)) = values.split_first() else {
        return Ok(());
    };
    write_value(first, writer)?;
    write_more_values(rest, writer)
}

/// Writes the values that follow a first one.
fn write_more_values<W: ByteWriter>(values: &[Value], writer: &mut W) -> Result<(), WriteFault>
    ensures { WritesTo W.ByteWriter writer.old writer.new result (after_bars value_text values.now) }
{
    for value in values {
        write_after_bar(value, writer)?;
    }
    Ok(())
}

fn write_after_bar<W: ByteWriter>(value: &Value, writer: &mut W) -> Result<(), WriteFault>
    ensures { WritesTo W.ByteWriter writer.old writer.new result (codes "|" ++ value_text value.now) }
{
    write_bar(writer)?;
    write_value(value, writer)
}

/// Writes the line of a refusal, `refused NUMBER CODE: WORDS`, with the number of its piece. After a
/// fault a prefix of it is written.
pub fn write_refusal<W: ByteWriter>(
    number: &u64,
    refusal: Refusal,
    writer: &mut W,
) -> Result<(), WriteFault>
    ensures { WritesTo W.ByteWriter writer.old writer.new result (refusal_line number.now refusal) }
{
    let (mut piece, mut code) = (Buffer::new(), Buffer::new());
    let parts: [&[u8]; 7] = [
        b"refused ",
        piece.format(*number).as_bytes(),
        b" ",
        code.format(refusal.code()).as_bytes(),
        b": ",
        refusal.text().as_bytes(),
        b"\n",
    ];
    write_parts(writer, &parts)
}
