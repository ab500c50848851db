//! Where answers stand in a list of ids.

ghost use Rattle.std.specs.Prelude.{◌≡◌, ◌++◌, length, map, IfOk, OnOk};

use rt_tree::Row;
use std::alloc::{AllocError, Global};

/// Where an answer stands in a list of ids.
#[derive(Clone, Copy, Debug)]
pub(crate) struct Span {
    /// The place of its first id.
    pub(crate) start: usize,
    /// The place behind its last id.
    pub(crate) end: usize,
}

/// Adds the ids of rows to a list, and tells where they stand.
pub(crate) fn add_ids<const D: usize>(
    ids: &mut Vec<i64>,
    rows: &[Row<D>],
) -> Result<Span, AllocError>
    ensures ids { OnOk result (ids.new.items ≡ ids.old.items ++ map (λ r. r.id) rows.now) }
    ensures start { IfOk result (λ span. span.start ≡ length ids.old.items) }
    ensures end { IfOk result (λ span. span.end ≡ length ids.new.items) }
{
    let start = ids.len();
    ids.reserve(rows.len())?;
    for row in rows {
        ids.push(row.id)?;
    }
    Ok(Span {
        start,
        end: ids.len(),
    })
}
