//! Refusals, with the numbers and the words that are printed.
//!
//! The refusals of all crates stand here, so that each has a number of its own (`specs/Refusal.antt`).

ghost use Rattle.std.specs.Prelude.{◌≡◌};
ghost use Rattle.rt_sql_statement.specs.Refusal.{code_of, text_of};

use std::alloc::{AllocError, AllocFailed};
use std::error::Error;
use std::fmt;

/// Why a piece of a script was refused.
#[derive(Clone, Copy, PartialEq, Eq, Debug)]
pub enum Refusal {
    /// The piece spells no statement.
    SyntaxError,
    /// The input ends inside a statement.
    IncompleteInput,
    /// The piece has more than 65,536 bytes.
    StatementTooLong,
    /// The piece isn't UTF-8, or has a zero byte.
    NotUtf8,
    /// No table has that name.
    NoSuchTable,
    /// A table has that name already.
    TableAlreadyExists,
    /// A list of columns makes no table, or names one twice.
    BadColumnList,
    /// No column of the table has that name.
    NoSuchColumn,
    /// A row doesn't have a value for each column.
    WrongNumberOfValues,
    /// A value isn't of its column's type.
    WrongType,
    /// An integer is outside its column's range, or outside 64 bits.
    IntegerOutOfRange,
    /// Another row has that id.
    IdAlreadyTaken,
    /// A row's minimum is above its maximum.
    MinimumAboveMaximum,
    /// The table can hold no more rows.
    TableFull,
    /// The greatest id is taken, so there is none for a row without one.
    NoIdLeft,
    /// No view has that name.
    NoSuchView,
    /// A view has that name already.
    ViewAlreadyExists,
    /// A view shows rows of the table.
    TableIsWatched,
    /// No more tables or views can be held.
    TooManyTablesOrViews,
    /// No memory is left.
    OutOfMemory,
    /// No dot line begins with that word.
    UnknownCommand,
}

impl Refusal {
    /// The number that is printed with it, from 1 to 21.
    pub fn code(self) -> u8
        ensures { result ≡ code_of self }
    {
        match self {
            Refusal::SyntaxError => 1,
            Refusal::IncompleteInput => 2,
            Refusal::StatementTooLong => 3,
            Refusal::NotUtf8 => 4,
            Refusal::NoSuchTable => 5,
            Refusal::TableAlreadyExists => 6,
            Refusal::BadColumnList => 7,
            Refusal::NoSuchColumn => 8,
            Refusal::WrongNumberOfValues => 9,
            Refusal::WrongType => 10,
            Refusal::IntegerOutOfRange => 11,
            Refusal::IdAlreadyTaken => 12,
            Refusal::MinimumAboveMaximum => 13,
            Refusal::TableFull => 14,
            Refusal::NoIdLeft => 15,
            Refusal::NoSuchView => 16,
            Refusal::ViewAlreadyExists => 17,
            Refusal::TableIsWatched => 18,
            Refusal::TooManyTablesOrViews => 19,
            Refusal::OutOfMemory => 20,
            Refusal::UnknownCommand => 21,
        }
    }

    /// The words that are printed with it.
    pub fn text(self) -> &'static str
        ensures { result.now ≡ text_of self }
    {
        match self {
            Refusal::SyntaxError => "syntax error",
            Refusal::IncompleteInput => "incomplete input",
            Refusal::StatementTooLong => "statement too long",
            Refusal::NotUtf8 => "not UTF-8 text",
            Refusal::NoSuchTable => "no such table",
            Refusal::TableAlreadyExists => "table already exists",
            Refusal::BadColumnList => "bad column list",
            Refusal::NoSuchColumn => "no such column",
            Refusal::WrongNumberOfValues => "wrong number of values",
            Refusal::WrongType => "wrong type",
            Refusal::IntegerOutOfRange => "integer out of range",
            Refusal::IdAlreadyTaken => "id already taken",
            Refusal::MinimumAboveMaximum => "minimum above maximum",
            Refusal::TableFull => "table full",
            Refusal::NoIdLeft => "no id left",
            Refusal::NoSuchView => "no such view",
            Refusal::ViewAlreadyExists => "view already exists",
            Refusal::TableIsWatched => "table is watched",
            Refusal::TooManyTablesOrViews => "too many tables or views",
            Refusal::OutOfMemory => "out of memory",
            Refusal::UnknownCommand => "unknown command",
        }
    }
}

impl fmt::Display for Refusal {
    ghost use Rattle.std.specs.Prelude.{Some};

    ghost output = { λ refusal. Some (text_of refusal) };

    fn fmt<W: fmt::Write>(&self, f: &mut fmt::Formatter<W>) -> fmt::Result {
        f.write_str(self.text())
    }
}

impl Error for Refusal {}

impl From<AllocError> for Refusal {
    ghost use Rattle.rt_sql_statement.specs.declared.refusal.Refusal.TheVariants.{OutOfMemory};

    ghost from_gives = { λ _ refusal. refusal ≡ OutOfMemory };

    fn from(_: AllocError) -> Refusal {
        Refusal::OutOfMemory
    }
}

impl<T: Drop> From<AllocFailed<T>> for Refusal {
    ghost use Rattle.rt_sql_statement.specs.declared.refusal.Refusal.TheVariants.{OutOfMemory};

    ghost from_gives = { λ _ refusal. refusal ≡ OutOfMemory };

    fn from(_: AllocFailed<T>) -> Refusal {
        Refusal::OutOfMemory
    }
}
