//! What statements are made of.
//!
//! The parts borrow no text. Their names are as they were written: no table and no column is looked up yet.

use crate::name::Name;
use crate::value::Value;
use rt_box::Operator;
use sqlite_items::Items;

/// What an INSERT does with a row whose id is taken.
#[derive(Clone, Copy, PartialEq, Eq, Debug)]
pub enum Rule {
    /// Refuses the statement.
    Abort,
    /// Puts the new row in the place of the old one.
    Replace,
    /// Passes over the new row, and also over one whose minimum is above its maximum.
    Ignore,
}

/// A column compared with a value.
#[derive(Debug, Drop)]
pub struct Compare {
    /// The column, on the left side.
    pub column: Name,
    /// The comparison.
    pub op: Operator,
    /// The value, on the right side.
    pub value: Value,
}

/// One part of a condition.
#[derive(Debug)]
pub enum Test {
    /// The comparison holds.
    Compare(Compare),
    /// The column holds NULL.
    IsNull(Name),
    /// The column holds another value than NULL.
    IsNotNull(Name),
}

// By hand, since a derived drop is written out, field by field, wherever such a value ends.
impl Drop for Test {
    fn drop(self) {
        match self {
            Test::Compare(_) => {}
            Test::IsNull(_) => {}
            Test::IsNotNull(_) => {}
        }
    }
}

/// The tests that a row has to pass, all of them.
pub type Cond = Items<Test>;

/// What an UPDATE gives a column.
#[derive(Debug)]
pub enum Source {
    /// This value.
    Literal(Value),
    /// What that column held before.
    Column(Name),
    /// What that column held before, plus the integer.
    Plus(Name, i64),
    /// What that column held before, less the integer.
    Minus(Name, i64),
}

// By hand, since a derived drop is written out, field by field, wherever such a value ends.
impl Drop for Source {
    fn drop(self) {
        match self {
            Source::Literal(_) => {}
            Source::Column(_) => {}
            Source::Plus(_, _) => {}
            Source::Minus(_, _) => {}
        }
    }
}

/// A column of a CREATE; an auxiliary one is marked by `+`.
#[derive(Debug)]
pub struct ColumnDef {
    /// The column's name.
    pub name: Name,
    /// Whether the column is auxiliary.
    pub auxiliary: bool,
}

// By hand, since a derived drop is written out, field by field, wherever such a value ends.
impl Drop for ColumnDef {
    fn drop(self) {
        let ColumnDef {
            name: _,
            auxiliary: _,
        } = self;
    }
}

/// What a statement does to the rows of its table. An INSERT without a list of columns names them all.
#[derive(Debug, Drop)]
pub enum Edit {
    /// `INSERT` or `REPLACE`: a row for each list of values.
    Insert {
        /// What becomes of a row whose id is taken.
        rule: Rule,
        /// The columns that are listed, or `None` for all.
        columns: Option<Items<Name>>,
        /// The values of each row, in the order of these columns.
        rows: Items<Items<Value>>,
    },
    /// `UPDATE`: the rows that the condition picks change.
    Update {
        /// The columns that are set, and what each is given.
        sets: Items<(Name, Source)>,
        /// Which rows change.
        cond: Cond,
    },
    /// `DELETE`: the rows that the condition picks go.
    Delete {
        /// Which rows go.
        cond: Cond,
    },
}
