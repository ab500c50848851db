//! Tables under their names, and where one of a name stands.
//!
//! A statement may name a view without its table, so a view's name is looked for in all tables.

ghost use Rattle.std.specs.Prelude.{◌≡◌, position, nat_le, sum_by, length};
ghost use Rattle.rt_sql_statement.specs.Name.{same_name};
ghost use Rattle.rt_table_row.specs.Tables.{has_view};

use rt_sql_statement::Name;
use rt_table::AnyTable;

/// A table under its name.
pub(crate) struct Named {
    pub(crate) name: Name,
    pub(crate) table: AnyTable,
}

// By hand, since a derived drop is written out, field by field, wherever such a value ends.
impl Drop for Named {
    fn drop(self) {
        let Named { name: _, table: _ } = self;
    }
}

/// Where the table of that name stands. There are few tables, so each is looked at.
pub(crate) fn place_of(tables: &[Named], name: &Name) -> Option<usize>
    ensures { result ≡ position (λ n. same_name name.now n.name) tables.now }
{
    tables.iter().position(|named| name.is_same(&named.name))
}

/// Where the table stands that has the view of that name.
pub(crate) fn place_of_view(tables: &[Named], name: &Name) -> Option<usize>
    ensures { result ≡ position (λ n. has_view n.table.lists name.now) tables.now }
{
    tables.iter().position(|named| named.table.has_view(name))
}

/// Whether the tables have `many` views in all, or more.
pub(crate) fn have_views(tables: &[Named], many: usize) -> bool
    ensures { result ≡ nat_le many (sum_by (λ n. length n.table.lists.views) tables.now) }
{
    let mut missing = many;
    for named in tables {
        let views = named.table.view_count();
        if views >= missing {
            return true;
        }
        missing -= views;
    }
    missing == 0
}
