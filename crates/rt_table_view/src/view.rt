//! Views, and the rows that a condition picks.
//!
//! A view keeps ids and no rows. They are the ids of exactly the rows that its condition picks (`IsKept` in
//! `specs/Watching.antt`). Its rows are looked up, sorted, and answered as those are that a search finds.

ghost use Rattle.std.specs.Prelude.{◌≡◌, ℤ, All, map, IfOk, IfErr};
ghost use Rattle.std.specs.Ordering.{int_eq};
ghost use Rattle.indexmap.specs.IndexSet.{IsUnique};
ghost use Rattle.rt_table_row.specs.Rows.{values_of};
ghost use Rattle.rt_table_row.specs.Filters.{admits, IsUnknown};
ghost use Rattle.rt_table_store.specs.Trees.{leaf_row};
ghost use Rattle.rt_table_store.specs.Picking.{Stands, picked_rows, VisitsBy};
ghost use Rattle.rt_table_store.specs.declared.select.Nodes.TheVariants.{Counted};
ghost use Rattle.rt_reply.specs.Rows.{values_of_rows};
ghost use Rattle.rt_table_view.specs.Watching.{view_of, is_listed, shown_rows, rows_found, rows_named, KeepsIds, IsKept, ShowsPicked};

use indexmap::IndexSet;
use rt_reply::RowsOf;
use rt_sql_statement::{Cond, Name, Refusal};
use rt_table_row::{Filter, RowList, Schema};
use rt_table_store::{Nodes, Store};
use rt_tree::{Found, Row};
use rt_tree_sort::sort_by_id;
use std::alloc::{AllocError, Global};
use std::hash::RandomState;

/// An id that comes into a view, or leaves it.
#[derive(Clone, Copy)]
pub struct Shift {
    /// The id.
    pub id: i64,
    /// Whether it comes; else it leaves.
    pub is_in: bool,
}

/// A view: its name, the condition that its rows meet, their ids, and which ids the next plan shifts.
pub struct Watched {
    /// The name, as it was written when the view was named.
    pub name: Name,
    /// The condition that its rows meet.
    pub filter: Filter,
    /// The ids of its rows.
    pub ids: IndexSet<i64, RandomState>,
    /// The ids that come and leave with the plan that is carried out next.
    pub shifts: Vec<Shift>,
}

// By hand, since a derived drop is written out, field by field, wherever such a value ends.
impl Drop for Watched {
    fn drop(self) {
        let Watched {
            name: _,
            filter: _,
            ids: _,
            shifts: _,
        } = self;
    }
}

/// The set of the ids of these rows.
fn id_set<const D: usize>(
    alloc: Global,
    keys: RandomState,
    rows: &[Row<D>],
) -> Result<IndexSet<i64, RandomState>, AllocError>
    ensures { IfOk result (λ set. (q : ℤ) → is_listed set.keys q ≡ is_listed (map (λ r. r.id) rows.now) q) }
{
    let mut set = IndexSet::with_hasher(alloc, keys);
    for row in rows {
        set.insert(row.id)?;
    }
    Ok(set)
}

/// The whole rows of these boxes.
fn whole_rows<const D: usize>(
    alloc: Global,
    store: &Store<D>,
    found: &[Row<D>],
) -> Result<RowList, AllocError>
    requires { All (Stands store.now.rows) found.now }
    ensures { IfOk result (λ lists. lists ≡ map values_of (rows_found store.now.rows found.now)) }
{
    // There are one to three axes.
    store.facts();
    let numbers = found.len().saturating_mul(1 + 2 * D);
    let mut rows = RowList::with_capacity(alloc, found.len(), numbers, 0)?;
    for row in found {
        rows.push(alloc, &store.view(row))?;
    }
    Ok(rows)
}

/// Rows that were found, as they are answered. If no row has auxiliary values, ids and boxes are all of them.
fn answered<const D: usize>(
    alloc: Global,
    store: &Store<D>,
    found: Vec<Row<D>>,
) -> Result<RowsOf<D>, AllocError>
    requires { All (Stands store.now.rows) found.items }
    ensures { IfOk result (ShowsPicked store.now.rows found.entry.items) }
{
    // The rows rise by id.
    store.facts();
    if !store.has_auxiliary() {
        return Ok(RowsOf::Boxes(found));
    }
    let rows = whole_rows(alloc, store, found.as_slice())?;
    Ok(RowsOf::Listed(rows))
}

/// The rows of which the filter holds, by rising id, and the number of nodes that its window reaches, if they are counted.
pub fn select<const D: usize>(
    alloc: Global,
    store: &Store<D>,
    condition: &Filter,
    nodes: Nodes,
) -> Result<Found<RowsOf<D>>, AllocError>
    ensures rows { IfOk result (λ found. values_of_rows found.rows ≡ shown_rows condition.now store.now.rows) }
    ensures visited { IfOk result (λ found. nodes ≡ Counted → VisitsBy condition.now store.now.tree found.visited) }
{
    store.facts();
    let found = store.select(alloc, condition, nodes)?;
    let visited = found.visited;
    let rows = answered(alloc, store, found.rows)?;
    Ok(Found { rows, visited })
}

/// The boxes of the rows of these ids; an id that no row has is passed over.
fn boxes_at<const D: usize>(
    alloc: Global,
    store: &Store<D>,
    ids: &[i64],
) -> Result<Vec<Row<D>>, AllocError>
    ensures { IfOk result (λ rows. rows.items ≡ map leaf_row (rows_named store.now.rows ids.now)) }
{
    store.facts();
    let mut rows = Vec::with_capacity(alloc, ids.len())?;
    for id in ids {
        let Some(row) = store.get(id) else {
            continue;
        };
        rows.push(Row {
            id: row.id,
            rect: row.rect,
        })?;
    }
    Ok(rows)
}

/// A law: a set has each id once. The call does nothing.
fn are_once(ids: &IndexSet<i64, RandomState>)
    ensures { IsUnique int_eq ids.now }
{
    // The contract of `len` says so.
    let _ = ids.len();
}

/// The boxes of the rows that a view shows, by rising id.
fn shown_boxes<const D: usize>(
    alloc: Global,
    store: &Store<D>,
    view: &Watched,
) -> Result<Vec<Row<D>>, AllocError>
    requires { KeepsIds (admits view.now.filter) store.now.rows view.now.ids.keys }
    ensures { IfOk result (λ rows. rows.items ≡ picked_rows view.now.filter store.now.rows) }
{
    // The rows rise by id.
    store.facts();
    are_once(&view.ids);
    let mut rows = boxes_at(alloc, store, view.ids.as_slice())?;
    sort_by_id(&mut rows);
    Ok(rows)
}

/// The rows that a view shows, by rising id: they are looked up by its ids.
pub fn rows_of<const D: usize>(
    alloc: Global,
    store: &Store<D>,
    view: &Watched,
) -> Result<RowsOf<D>, AllocError>
    requires { KeepsIds (admits view.now.filter) store.now.rows view.now.ids.keys }
    ensures { IfOk result (λ rows. values_of_rows rows ≡ shown_rows view.now.filter store.now.rows) }
{
    store.facts();
    let found = shown_boxes(alloc, store, view)?;
    let rows = answered(alloc, store, found)?;
    Ok(rows)
}

/// A view of the rows as they are now.
pub fn watch<const D: usize>(
    alloc: Global,
    keys: RandomState,
    columns: &Schema,
    store: &Store<D>,
    name: Name,
    cond: Cond,
) -> Result<Watched, Refusal>
    ensures view { IfOk result (λ watched. view_of watched ≡ record { name = name; cond = cond }) }
    ensures kept { IfOk result (IsKept columns.now store.now.rows) }
    ensures err { IfErr result (IsUnknown columns.now cond) }
{
    let filter = Filter::new(alloc, columns, cond)?;
    store.facts();
    let found = store.select(alloc, &filter, Nodes::Uncounted)?;
    let ids = id_set(alloc, keys, found.rows.as_slice())?;
    Ok(Watched {
        name,
        filter,
        ids,
        shifts: Vec::new(alloc),
    })
}
