//! The rows that a condition picks.
//!
//! An id that the condition fixes is looked up. Otherwise the tree is searched by the condition's window, and what the
//! window doesn't say is tested row by row.

ghost use Rattle.std.specs.Prelude.{◌≡◌, ◌≤◌, All, true, map, IfOk, IfSome};
ghost use Rattle.std.specs.Option.{option_to_list};
ghost use Rattle.rt_box.specs.Rect.{IsBox};
ghost use Rattle.rt_box.specs.Window.{Admits};
ghost use Rattle.rt_tree.specs.Search.{FindsIn};
ghost use Rattle.rt_table_row.specs.Rows.{TableRow};
ghost use Rattle.rt_table_row.specs.Filters.{admits};
ghost use Rattle.rt_table_row.specs.Windows.{IsWindowAt};
ghost use Rattle.rt_table_store.specs.Visiting.{Visits};
ghost use Rattle.rt_table_store.specs.Picking.{Stands, ArePicked, passing_rows, picked_rows, picked_ids, HasFreeWindow, VisitsBy, VisitsFreely};
ghost use Rattle.rt_table_store.specs.declared.select.Nodes.TheVariants.{Counted};

use crate::store::Store;
use rt_box::Window;
use rt_table_row::Filter;
use rt_tree::{Found, Row, Tree};
use rt_tree_sort::{sort_by_id, sort_ids};
use std::alloc::{AllocError, Global};

/// How many rows a list has room for at first, if a window has limits.
const LIKELY_ROWS: usize = 32;

/// Whether the nodes that a search reaches are counted.
///
/// An id that the condition fixes is looked up. The count that is promised is that of the condition's window, so if nodes are
/// counted and the window has limits, the tree is searched.
#[derive(Clone, Copy, Debug)]
pub enum Nodes {
    /// `visited` is the number of nodes that the window reaches.
    Counted,
    /// Nothing is said of `visited`.
    Uncounted,
}

/// The id that a condition fixes, if it is looked up.
fn looked_up_id<const D: usize>(condition: &Filter, nodes: Nodes) -> Option<i64>
    requires { D ≤ 3 }
    ensures fixed { IfSome result (λ id. (row : TableRow) → admits condition.now row ≡ true → row.id ≡ id) }
    ensures window { IfSome result (λ _. nodes ≡ Counted → HasFreeWindow D condition.now) }
{
    let id = condition.id()?;
    match nodes {
        Nodes::Uncounted => Some(id),
        Nodes::Counted => {
            if condition.window::<D>() == Window::all() {
                return Some(id);
            }
            None
        }
    }
}

/// Whether it is known that the condition holds of each row with a box: its window has no limits, and says all that it asks.
fn picks_all<const D: usize>(condition: &Filter) -> bool
    requires { D ≤ 3 }
    ensures { result ≡ true → ((row : TableRow) → IsBox D row.box → admits condition.now row ≡ true) }
{
    condition.is_said::<D>() && condition.window::<D>() == Window::all()
}

/// Searches a tree. A window without limits admits all rows, so that the list has room for them from the start.
#[tactic(auto, using(crate::proofs::Found::finds_alone))]
fn search<const D: usize>(
    alloc: Global,
    tree: &Tree<D>,
    window: &Window<D>,
) -> Result<Found<Vec<Row<D>>>, AllocError>
    ensures { IfOk result (λ found. FindsIn tree.now.lists window.now found.rows.items found.visited) }
{
    let room = if *window == Window::all() {
        tree.len()
    } else {
        LIKELY_ROWS
    };
    let mut rows = Vec::with_capacity(alloc, room)?;
    let mut reached = Vec::new(alloc);
    let visited = tree.search_into(window, &mut rows, &mut reached)?;
    Ok(Found { rows, visited })
}

/// The ids of these rows.
fn ids_of<const D: usize>(alloc: Global, rows: &[Row<D>]) -> Result<Vec<i64>, AllocError>
    ensures { IfOk result (λ ids. ids.items ≡ map (λ row. row.id) rows.now) }
{
    let mut ids = Vec::with_capacity(alloc, rows.len())?;
    for row in rows {
        ids.push(row.id)?;
    }
    Ok(ids)
}

impl<const D: usize> Store<D> {
    /// Of rows that stand in the table those of which the condition holds.
    fn passing_rows(
        &self,
        alloc: Global,
        condition: &Filter,
        rows: &[Row<D>],
    ) -> Result<Vec<Row<D>>, AllocError>
        requires few { D ≤ 3 }
        requires stand { All (Stands self.now.rows) rows.now }
        ensures { IfOk result (λ kept. kept.items ≡ passing_rows condition.now self.now.rows rows.now) }
    {
        let mut kept = Vec::with_capacity(alloc, rows.len())?;
        for row in rows {
            if !condition.holds(&self.view(row)) {
                continue;
            }
            kept.push(*row)?;
        }
        Ok(kept)
    }

    /// Of rows that a window of the condition admits those of which the condition holds. If the window says all that it
    /// asks, no row is looked at again.
    fn tested_rows(
        &self,
        alloc: Global,
        condition: &Filter,
        window: &Window<D>,
        rows: Vec<Row<D>>,
    ) -> Result<Vec<Row<D>>, AllocError>
        requires few { D ≤ 3 }
        requires window { IsWindowAt D condition.now window.now }
        requires stand { All (Stands self.now.rows) rows.items }
        requires admitted { All (λ row. Admits window.now row.rect) rows.items }
        ensures { IfOk result (λ kept. kept.items ≡ passing_rows condition.now self.now.rows rows.entry.items) }
    {
        if condition.is_said::<D>() {
            return Ok(rows);
        }
        self.passing_rows(alloc, condition, &rows)
    }

    /// Searches by a window of the condition: the rows of which it holds, in the order of the tree.
    fn found_by_window(
        &self,
        alloc: Global,
        condition: &Filter,
        window: &Window<D>,
    ) -> Result<Found<Vec<Row<D>>>, AllocError>
        requires { IsWindowAt D condition.now window.now }
        ensures rows { IfOk result (λ found. ArePicked condition.now self.now.rows found.rows.items) }
        ensures visited { IfOk result (λ found. Visits self.now.tree window.now found.visited) }
    {
        // The rows rise by id and are those of the tree, whose cells have boxes.
        self.facts();
        self.tree.has_boxes();
        let Found {
            rows: found,
            visited,
        } = search(alloc, &self.tree, window)?;
        let rows = self.tested_rows(alloc, condition, window, found)?;
        Ok(Found { rows, visited })
    }

    /// Searches by a window of the condition, and sorts the rows of which it holds.
    fn select_by_window(
        &self,
        alloc: Global,
        condition: &Filter,
        window: &Window<D>,
    ) -> Result<Found<Vec<Row<D>>>, AllocError>
        requires { IsWindowAt D condition.now window.now }
        ensures rows { IfOk result (λ found. found.rows.items ≡ picked_rows condition.now self.now.rows) }
        ensures visited { IfOk result (λ found. Visits self.now.tree window.now found.visited) }
    {
        // The rows rise by id.
        self.facts();
        let Found {
            rows: found,
            visited,
        } = self.found_by_window(alloc, condition, window)?;
        let mut rows = found;
        sort_by_id(&mut rows);
        Ok(Found { rows, visited })
    }

    /// Searches by a window of the condition, and sorts the ids of the rows of which it holds.
    fn ids_by_window(
        &self,
        alloc: Global,
        condition: &Filter,
        window: &Window<D>,
    ) -> Result<Vec<i64>, AllocError>
        requires { IsWindowAt D condition.now window.now }
        ensures { IfOk result (λ ids. ids.items ≡ picked_ids condition.now self.now.rows) }
    {
        // The rows rise by id.
        self.facts();
        let found = self.found_by_window(alloc, condition, window)?;
        let ids = ids_of(alloc, found.rows.as_slice())?;
        let sorted = sort_ids(alloc, ids)?;
        Ok(sorted)
    }

    /// The row of an id that the condition fixes, if the condition holds of it: no other row passes. It takes no memory.
    pub fn passing_row(&self, condition: &Filter, id: &i64) -> Option<Row<D>>
        requires { (row : TableRow) → admits condition.now row ≡ true → row.id ≡ id.now }
        ensures { option_to_list result ≡ picked_rows condition.now self.now.rows }
    {
        self.facts();
        let Some(view) = self.get(id) else {
            return None;
        };
        if !condition.holds(&view) {
            return None;
        }
        Some(Row {
            id: view.id,
            rect: view.rect,
        })
    }

    /// Looks up the id that the condition fixes, and counts each node: a window without limits reaches them all.
    fn select_by_id(
        &self,
        alloc: Global,
        condition: &Filter,
        id: &i64,
    ) -> Result<Found<Vec<Row<D>>>, AllocError>
        requires { (row : TableRow) → admits condition.now row ≡ true → row.id ≡ id.now }
        ensures rows { IfOk result (λ found. found.rows.items ≡ picked_rows condition.now self.now.rows) }
        ensures visited { IfOk result (λ found. VisitsFreely self.now.tree found.visited) }
    {
        // The tree is in shape, and its cells have boxes.
        self.facts();
        self.tree.has_boxes();
        let mut rows = Vec::new(alloc);
        if let Some(row) = self.passing_row(condition, id) {
            rows.push(row)?;
        }
        Ok(Found {
            rows,
            visited: self.tree.node_count() as u64,
        })
    }

    /// The rows of which the condition holds, by rising id, and the number of nodes that its window reaches, if they are
    /// counted.
    ///
    /// # Errors
    ///
    /// `AllocError` if no memory is left.
    pub fn select(
        &self,
        alloc: Global,
        condition: &Filter,
        nodes: Nodes,
    ) -> Result<Found<Vec<Row<D>>>, AllocError>
        ensures rows { IfOk result (λ found. found.rows.items ≡ picked_rows condition.now self.now.rows) }
        ensures visited { IfOk result (λ found. nodes ≡ Counted → VisitsBy condition.now self.now.tree found.visited) }
    {
        // There are one to three axes.
        self.facts();
        if let Some(id) = looked_up_id::<D>(condition, nodes) {
            return self.select_by_id(alloc, condition, &id);
        }
        let window = condition.window();
        self.select_by_window(alloc, condition, &window)
    }

    /// The ids of all rows, where the condition holds of each of them: no node is visited.
    fn all_ids(&self, alloc: Global, condition: &Filter) -> Result<Vec<i64>, AllocError>
        requires { (row : TableRow) → IsBox D row.box → admits condition.now row ≡ true }
        ensures { IfOk result (λ ids. ids.items ≡ picked_ids condition.now self.now.rows) }
    {
        // The rows rise by id and are those of the tree, whose cells have boxes.
        self.facts();
        self.tree.has_boxes();
        let ids = Vec::from_slice(alloc, self.tree.ids())?;
        let sorted = sort_ids(alloc, ids)?;
        Ok(sorted)
    }

    /// The ids of the rows of which the condition holds, by rising id. They are sorted without their rows.
    ///
    /// # Errors
    ///
    /// `AllocError` if no memory is left.
    pub fn select_ids(&self, alloc: Global, condition: &Filter) -> Result<Vec<i64>, AllocError>
        ensures { IfOk result (λ ids. ids.items ≡ picked_ids condition.now self.now.rows) }
    {
        // There are one to three axes.
        self.facts();
        if let Some(id) = condition.id() {
            let found = self.select_by_id(alloc, condition, &id)?;
            let ids = ids_of(alloc, found.rows.as_slice())?;
            return Ok(ids);
        }
        if picks_all::<D>(condition) {
            return self.all_ids(alloc, condition);
        }
        let window = condition.window();
        self.ids_by_window(alloc, condition, &window)
    }
}
