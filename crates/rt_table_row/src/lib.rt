//! The rows of a table, and what columns, conditions and statements mean for them.
//!
//! - `Schema` is what a CREATE makes of its columns; names are compared without ASCII case.
//! - `Entry` is a row as a table keeps it, and `RowView` a row looked at where it stands. `value_at` looks at
//!   one of its values, and `values` copies them all, column by column.
//! - `RowList` is rows whose numbers stand in one list, and whose auxiliary values in another; `ListedRow` is one of
//!   them, looked at where it stands.
//! - `Step` is one change of the rows of a table.
//! - An `Entry` of a new row is made of its id and its values. `Arrangement` has the columns that an INSERT lists, and
//!   `Settings` what an UPDATE sets. Both look their columns up once.
//! - `Filter` is a condition whose columns were looked up once; `holds` says of which rows it holds, and
//!   compares no name and copies nothing. `window` is what it asks of the coordinates of a row's box, and `id`
//!   the id that it fixes. `lone_id` is the id that is all a condition asks for.
//! - `compares` holds two values against one another: nothing is converted, and NULL is never equal.
//!
//! What inserting, deleting, updating and watching do to the rows of a table is defined in `specs/` over plain
//! lists; the crates above carry them out.
//!
//! Stands on `rt_sql_statement` (statements, values, refusals), `rt_box` and `arrayvec`. Definitions:
//!
//! - of SQL: `specs/Values.antt` (how values compare), `Columns.antt`, `Rows.antt` (a row, and the rows of a table),
//!   `Conditions.antt` (which rows a condition picks), `Windows.antt` (what it asks of boxes), `NewRows.antt` (what the
//!   values of a new row have to be), `Edits.antt` (what statements do to rows), `Views.antt`, `Tables.antt`;
//!   `Worked.antt` holds them against worked examples;
//! - of what stands for them here: `Entries.antt` (the row that an `Entry` or a view of it is), `RowLists.antt`,
//!   `Arrangements.antt`, `Settings.antt` and `Filters.antt` (columns looked up for an INSERT, an UPDATE and a condition),
//!   `Answers.antt` (answers for which memory may run out).
#![tactic(auto)]

mod arrangement;
mod entry;
mod filter;
mod new_row;
mod row_list;
mod schema;
mod settings;
mod values;
mod window;

pub use arrangement::Arrangement;
pub use entry::{Entry, Field, ListedRow, RowView, Step};
pub use filter::{Filter, lone_id};
pub use row_list::RowList;
pub use schema::Schema;
pub use settings::Settings;
pub use values::compares;
