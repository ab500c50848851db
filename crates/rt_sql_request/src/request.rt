//! Statements, whole.
//!
//! A statement owns its parts and borrows no text. Its names are as they were written: no table and no column is
//! looked up yet.

use rt_sql_statement::{ColumnDef, Cond, Edit, Items, Name};

/// What a piece of a script asks for.
#[derive(Debug, Drop)]
pub enum Stmt {
    /// `CREATE VIRTUAL TABLE`; with `if_absent` a table of that name is no refusal.
    Create {
        /// The table's name.
        table: Name,
        /// Whether `IF NOT EXISTS` is written.
        if_absent: bool,
        /// The columns, in their order.
        columns: Items<ColumnDef>,
    },
    /// `DROP TABLE`; with `if_there` a missing table is no refusal.
    Drop {
        /// The table's name.
        table: Name,
        /// Whether `IF EXISTS` is written.
        if_there: bool,
    },
    /// `INSERT`, `REPLACE`, `UPDATE` or `DELETE`.
    Edit {
        /// The table whose rows change.
        table: Name,
        /// What is done to them.
        edit: Edit,
    },
    /// `SELECT`: shows the rows that the condition picks.
    Select {
        /// The columns that are listed, or `None` for all.
        columns: Option<Items<Name>>,
        /// The table whose rows are shown.
        table: Name,
        /// Which rows are shown.
        cond: Cond,
        /// The column of `ORDER BY`, if that is written.
        order: Option<Name>,
    },
    /// `SELECT rtreecheck('table')`: checks a table's tree.
    Check {
        /// The table whose tree is checked.
        table: Name,
    },
    /// `.watch`: names a view of the rows that the condition picks.
    Watch {
        /// The view's name.
        view: Name,
        /// The table whose rows it shows.
        table: Name,
        /// Which rows it shows.
        cond: Cond,
    },
    /// `.unwatch`: forgets a view.
    Unwatch {
        /// The view's name.
        view: Name,
    },
    /// `.view`: shows the rows of a view.
    View {
        /// The view's name.
        view: Name,
    },
    /// `.nodes`: shows a table's tree.
    Nodes {
        /// The table whose tree is shown.
        table: Name,
    },
}
