//! What the texts of statements are: statements, what `Debug` prints of them, and columns.
//!
//! A statement is dropped by few functions, and once in each: what it may hold makes each drop long to prove.

use rt_sql::{Refusal, Stmt, parse};
use rt_sql_cut::{Ending, Piece};
use rt_table_row::Schema;
use std::alloc::Global;
use std::test::Fail;

/// What `Debug` prints of the statement that a piece is.
pub(crate) fn debug_text(alloc: Global, text: &[u8], ending: Ending) -> Result<String, Refusal> {
    let statement = parse(alloc, &Piece::new(text, ending))?;
    format!(in alloc; "{statement:?}").map_err(Refusal::from)
}

/// The statement of a text; a text that is none fails the test.
pub(crate) fn statement(alloc: Global, text: &str) -> Result<Stmt, Fail> {
    let answer = parse(alloc, &Piece::new(text.as_bytes(), Ending::Whole));
    Ok(answer.map_err(|_| "no statement")?)
}

/// The columns that a CREATE names.
pub(crate) fn schema(alloc: Global, create: &str) -> Result<Schema, Fail> {
    let Stmt::Create { columns, .. } = statement(alloc, create)? else {
        return Err(Fail::from("no CREATE"));
    };
    Ok(Schema::new(alloc, columns.as_slice()).map_err(|_| "no columns")?)
}
