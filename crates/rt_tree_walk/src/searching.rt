//! Searches: the rows whose boxes a window admits.
//!
//! The list of the nodes reached takes the place of recursion. A search goes through it from the root on and appends
//! children, so it meets the nodes level by level, and many can be looked at ahead. Rows are tested by the window, and
//! children by its reach. Tests without branches are there for speed alone, and so are `ahead` and the mark of a node
//! (`specs/Search.antt`).

ghost use Rattle.std.specs.Prelude.{◌≡◌, ◌+◌, ◌^◌, ◌≤◌, ◌<◌, ◌++◌, [], true, false, All, length, map, List, IsOk, IfOk, OnOk, OnErr, vec_len, vec_capacity};
ghost use Rattle.rt_box.specs.declared.interval.Interval.{Interval};
ghost use Rattle.slab.specs.Slab.{ContainsKey};
ghost use Rattle.rt_box.specs.Capacity.{most_cells};
ghost use Rattle.rt_box.specs.Window.{Admits, AdmitsWithin, IsReach};
ghost use Rattle.rt_tree_node.specs.Whole.{IsWhole};
ghost use Rattle.rt_tree_node.specs.Places.{key_of};
ghost use Rattle.rt_tree_walk.specs.Search.{row_of, Finds, FindsAfter, StaysInFront, HasRoomToFind};
ghost use Rattle.rt_tree_walk.specs.Visits.{picked, picked_keys, IsQuery, MarkHolds, TakesRows, Marks, AppendsKeys, ReachesChildren, MarksChildren, GoesInto, LacksRows, LacksNodes, LacksRoom};

use crate::ahead::{LookAhead, Need};
use rt_box::{Rect, Window};
use rt_tree_node::{Arena, Cell, Key, Node, node_at, slab_facts};
use std::alloc::{AllocError, Global};
use std::mem;

/// How many rows a search has room for before it finds the first one.
const FIRST_ROOM: usize = 32;

/// How many nodes a search's list has room for at first: more than a node has children. They take a kilobyte, and the
/// allocator has larger pieces of memory less quickly at hand.
pub(crate) const REACHED_ROOM: usize = 64;

/// How many found rows make it likely that many more follow: from then on a search takes the rows of a leaf as suits many.
const MANY_ROWS: usize = 16;

/// How many children make it likely that some lie inside the window: a search for rows tests only that many.
const MANY_CHILDREN: usize = 8;

/// A row that a search found.
#[derive(Clone, Copy, Debug)]
pub struct Row<const D: usize> {
    /// The row's box.
    pub rect: Rect<D>,
    /// The row's id.
    pub id: i64,
}

/// What a search found.
#[derive(Drop)]
pub struct Found<R> {
    /// The rows found.
    pub rows: R,
    /// The number of nodes that the search went into.
    pub visited: u64,
}

/// What a search tests boxes by: rows by its window, children by the window's reach, and by its core whether a child's rows
/// need no test. Both are made once.
#[derive(Drop)]
pub(crate) struct Query<const D: usize> {
    pub(crate) window: Window<D>,
    reach: Window<D>,
    core: Window<D>,
    need: Need,
}

impl<const D: usize> Query<D> {
    /// The query by a window.
    pub(crate) fn new(window: &Window<D>, need: Need) -> Query<D>
        ensures window { result.window ≡ window.now }
        ensures query { IsQuery result }
    {
        Query {
            window: *window,
            reach: window.reach(),
            core: window.core(),
            need,
        }
    }
}

/// A node that a search reaches, and goes into when its turn comes. It tells nothing to others: they keep a list of such nodes
/// for a search.
#[derive(Clone, Copy, Debug)]
pub struct Reached {
    pub(crate) key: Key,
    /// Whether it is known that the window admits each box that lies in the node's.
    pub(crate) is_inside: bool,
}

impl Reached {
    /// The root, of which nothing is known.
    pub(crate) fn root<const D: usize>(tree: &Arena<D>) -> Reached
        ensures { result ≡ record { key = tree.now.root; is_inside = false } }
    {
        Reached {
            key: tree.root,
            is_inside: false,
        }
    }
}

/// The row of a leaf's cell.
#[inline]
fn row_of<const D: usize>(cell: &Cell<D>) -> Row<D>
    ensures { result ≡ row_of cell.now }
{
    Row {
        rect: cell.rect,
        id: cell.number,
    }
}

/// The boxes of a node's cells. Their count is read from the numbers, since it lies beside the first box there: that of the
/// boxes lies on a cache line of its own.
#[inline]
pub(crate) fn boxes_of<const D: usize>(node: &Node<D>) -> &[Rect<D>]
    ensures value { result.now ≡ map (λ c. c.rect) node.now.cells }
    ensures few { length node.now.cells ≤ most_cells }
{
    &node.boxes()[..node.len()]
}

// Which cells of a node a window admits can't be foreseen. So all are tested first, with no branch; then each bit that is
// set leads to a cell.

/// Takes the rows of those cells of a leaf whose bits are set.
fn push_rows<const D: usize>(
    rows: &mut Vec<Row<D>>,
    leaf: &Node<D>,
    bits: u64,
) -> Result<(), AllocError>
    requires { bits < 2 ^ length leaf.now.cells }
    ensures ok { OnOk result (rows.new.items ≡ rows.old.items ++ map row_of (picked leaf.now.cells bits)) }
    ensures err { OnErr result (rows.new.items ≡ rows.old.items) }
    ensures full { OnErr result (vec_capacity rows.old < vec_len rows.old + length (picked leaf.now.cells bits)) }
    ensures capacity { vec_capacity rows.old ≤ vec_capacity rows.new }
{
    leaf.facts();
    rows.reserve(bits.count_ones() as usize)?;
    // While nothing else names the list, its end stays in a register.
    let alloc = *rows.allocator();
    let mut list = mem::replace(rows, Vec::new(alloc));
    let mut rest = bits;
    while rest != 0 {
        let at = rest.trailing_zeros() as usize;
        list.push_reserved(row_of(&leaf.cell(at)));
        rest &= rest - 1;
    }
    *rows = list;
    Ok(())
}

// Each way to take a leaf's rows is a function by itself, so that its loop has all registers.

/// Takes the rows of a leaf that the window admits. It suits leaves of which it admits few.
#[inline(never)]
fn take_few<const D: usize>(
    rows: &mut Vec<Row<D>>,
    leaf: &Node<D>,
    window: &Window<D>,
) -> Result<(), AllocError>
    ensures ok { OnOk result (TakesRows window.now leaf.now.cells rows.old.items rows.new.items) }
    ensures err { OnErr result (rows.new.items ≡ rows.old.items) }
    ensures full { OnErr result (LacksRows window.now leaf.now.cells rows.old) }
    ensures capacity { vec_capacity rows.old ≤ vec_capacity rows.new }
{
    let bits = window.admitted(boxes_of(leaf));
    push_rows(rows, leaf, bits)
}

/// Takes the rows of a leaf that the window admits, into a list that has room for all of them. It suits leaves of which it
/// admits many: each row is appended at once, and taken back if the window refuses it.
#[inline(never)]
fn take_many<const D: usize>(rows: &mut Vec<Row<D>>, leaf: &Node<D>, window: &Window<D>)
    requires room { vec_len rows.old + length leaf.now.cells ≤ vec_capacity rows.old }
    ensures rows { TakesRows window.now leaf.now.cells rows.old.items rows.new.items }
    ensures capacity { vec_capacity rows.old ≤ vec_capacity rows.new }
{
    let alloc = *rows.allocator();
    let mut list = mem::replace(rows, Vec::new(alloc));
    let (boxes, window) = (leaf.boxes(), *window);
    for at in 0..leaf.len() {
        let rect = &boxes[at];
        rect.facts();
        let admitted = window.admits(rect);
        list.push_reserved(row_of(&leaf.cell(at)));
        if !admitted {
            let _ = list.take_last();
        }
    }
    *rows = list;
}

/// Takes all rows of a leaf.
#[inline(never)]
fn take_all<const D: usize>(rows: &mut Vec<Row<D>>, leaf: &Node<D>) -> Result<(), AllocError>
    ensures ok { OnOk result (rows.new.items ≡ rows.old.items ++ map row_of leaf.now.cells) }
    ensures err { OnErr result (rows.new.items ≡ rows.old.items) }
    ensures full { OnErr result (vec_capacity rows.old < vec_len rows.old + length leaf.now.cells) }
    ensures capacity { vec_capacity rows.old ≤ vec_capacity rows.new }
{
    rows.reserve(leaf.len())?;
    let alloc = *rows.allocator();
    let mut list = mem::replace(rows, Vec::new(alloc));
    for at in 0..leaf.len() {
        let cell = leaf.cell(at);
        list.push_reserved(row_of(&cell));
    }
    *rows = list;
    Ok(())
}

/// Takes the rows of a leaf that the window admits. A search whose list holds many is likely to find many more. It asks for no
/// more room than what it finds needs.
fn take_rows<const D: usize>(
    rows: &mut Vec<Row<D>>,
    leaf: &Node<D>,
    window: &Window<D>,
) -> Result<(), AllocError>
    ensures ok { OnOk result (TakesRows window.now leaf.now.cells rows.old.items rows.new.items) }
    ensures err { OnErr result (rows.new.items ≡ rows.old.items) }
    ensures full { OnErr result (LacksRows window.now leaf.now.cells rows.old) }
    ensures capacity { vec_capacity rows.old ≤ vec_capacity rows.new }
{
    if rows.len() < MANY_ROWS || rows.capacity() - rows.len() < leaf.len() {
        return take_few(rows, leaf, window);
    }
    take_many(rows, leaf, window);
    Ok(())
}

/// Whether the window is known to admit each box that lies in this one. If `asks` isn't set, nothing is known.
#[inline]
fn is_inside<const D: usize>(query: &Query<D>, rect: &Rect<D>, asks: bool) -> bool
    requires { IsQuery query.now }
    ensures { result ≡ true → AdmitsWithin D query.now.window rect.now }
{
    rect.facts();
    asks && query.core.admits(rect)
}

/// Takes the children that those cells of a node name whose bits are set, and marks the ones that are known to lie inside the
/// window.
fn push_children<const D: usize>(
    reached: &mut Vec<Reached>,
    node: &Node<D>,
    bits: u64,
    query: &Query<D>,
) -> Result<(), AllocError>
    requires query { IsQuery query.now }
    requires within { bits < 2 ^ length node.now.cells }
    ensures keys { OnOk result (AppendsKeys (picked_keys node.now.cells bits) reached.old reached.new) }
    ensures marks { OnOk result (Marks query.now.window node.now.cells reached.old.items reached.new.items) }
    ensures full { OnErr result (vec_capacity reached.old < vec_len reached.old + length (picked node.now.cells bits)) }
    ensures capacity { vec_capacity reached.old ≤ vec_capacity reached.new }
{
    node.facts();
    let count = bits.count_ones() as usize;
    reached.reserve(count)?;
    let alloc = *reached.allocator();
    let mut list = mem::replace(reached, Vec::new(alloc));
    // On one axis most leaves that the window meets lie inside it. A count gains much by each child that does.
    let asks = D == 1 || count >= MANY_CHILDREN || matches!(query.need, Need::Count);
    let mut rest = bits;
    while rest != 0 {
        let cell = node.cell(rest.trailing_zeros() as usize);
        list.push_reserved(Reached {
            key: cell.key(),
            is_inside: is_inside(query, &cell.rect, asks),
        });
        rest &= rest - 1;
    }
    *reached = list;
    Ok(())
}

/// Takes the children in which a box may lie that the window admits.
#[inline]
pub(crate) fn take_children<const D: usize>(
    reached: &mut Vec<Reached>,
    node: &Node<D>,
    query: &Query<D>,
) -> Result<(), AllocError>
    requires { IsQuery query.now }
    ensures children { OnOk result (ReachesChildren query.now node.now.cells reached.old reached.new) }
    ensures marks { OnOk result (Marks query.now.window node.now.cells reached.old.items reached.new.items) }
    ensures full { OnErr result (LacksNodes query.now node.now.cells reached.old) }
    ensures capacity { vec_capacity reached.old ≤ vec_capacity reached.new }
{
    let bits = query.reach.admitted(boxes_of(node));
    push_children(reached, node, bits, query)
}

// By itself, so that the numbers of a window are read as vectors in place: those of two windows don't fit into the
// registers of the search's loop.

/// Goes into a node: takes a leaf's rows, or another node's children. The rows of a marked leaf need no test.
#[inline(never)]
fn visit<const D: usize>(
    rows: &mut Vec<Row<D>>,
    reached: &mut Vec<Reached>,
    tree: &Arena<D>,
    next: Reached,
    query: &Query<D>,
) -> Result<(), AllocError>
    requires present { ContainsKey tree.now.nodes next.key }
    requires few { D ≤ 3 }
    requires query { IsQuery query.now }
    requires mark { MarkHolds tree.now.nodes query.now.window next }
    ensures ok { OnOk result (GoesInto tree.now query.now next rows.old rows.new reached.old reached.new) }
    ensures marks { OnOk result (MarksChildren tree.now query.now next reached.old reached.new) }
    ensures err { OnErr result (rows.new.items ≡ rows.old.items) }
    ensures full { OnErr result (LacksRoom tree.now query.now next rows.old reached.old) }
    ensures rows_capacity { vec_capacity rows.old ≤ vec_capacity rows.new }
    ensures nodes_capacity { vec_capacity reached.old ≤ vec_capacity reached.new }
{
    let node = node_at(&tree.nodes, next.key);
    if node.level() > 0 {
        return take_children(reached, node, query);
    }
    if next.is_inside {
        return take_all(rows, node);
    }
    take_rows(rows, node, &query.window)
}

/// Appends the rows whose boxes the window admits, and returns the number of nodes that the search went into. What `reached`
/// held is dropped. Both lists keep their memory, so searches that share them ask for some only a few times.
///
/// The search goes into the root, and from a node into each child in whose box one may lie that the
/// window admits.
///
/// # Errors
///
/// `AllocError` if no memory is left for the rows found, or for the nodes reached: 16 bytes a node. Some of the rows that were
/// found may then stand in the list. If `rows` has room for the rows found, and `reached` for the nodes of the tree, the search
/// doesn't fail.
pub fn search_into<const D: usize>(
    tree: &Arena<D>,
    window: &Window<D>,
    rows: &mut Vec<Row<D>>,
    reached: &mut Vec<Reached>,
) -> Result<u64, AllocError>
    requires whole { IsWhole tree.now }
    requires settled { tree.now.pending.items ≡ [] }
    requires few { D ≤ 3 }
    ensures ok { IfOk result (λ visited. FindsAfter tree.now window.now rows.old.items rows.new.items visited) }
    ensures err { OnErr result (StaysInFront rows.old.items rows.new.items) }
    ensures succeeds { HasRoomToFind tree.now window.now rows.old reached.old → IsOk result }
    ensures rows_capacity { vec_capacity rows.old ≤ vec_capacity rows.new }
    ensures nodes_capacity { vec_capacity reached.old ≤ vec_capacity reached.new }
{
    slab_facts(&tree.nodes);
    reached.clear();
    reached.reserve(tree.nodes.len().min(REACHED_ROOM))?;
    reached.push(Reached::root(tree))?;
    let (query, mut ahead) = (
        Query::new(window, Need::Rows),
        LookAhead::new(tree, Need::Rows),
    );
    let mut visited = 0;
    while visited < reached.len() {
        ahead.look(tree, reached.as_slice(), visited);
        let next = reached[visited];
        visit(rows, reached, tree, next, &query)?;
        visited += 1;
    }
    Ok(visited as u64)
}

/// Finds the rows whose boxes the window admits, each once, in no stated order: `search_into` lists of its own.
///
/// # Errors
///
/// `AllocError` if no memory is left for the rows found, or for the list of the nodes reached: 16 bytes a node.
pub fn search<const D: usize>(
    alloc: Global,
    tree: &Arena<D>,
    window: &Window<D>,
) -> Result<Found<Vec<Row<D>>>, AllocError>
    requires whole { IsWhole tree.now }
    requires settled { tree.now.pending.items ≡ [] }
    requires few { D ≤ 3 }
    ensures { IfOk result (λ found. Finds tree.now window.now found.rows.items found.visited) }
{
    let mut rows = Vec::with_capacity(alloc, FIRST_ROOM)?;
    let mut reached = Vec::new(alloc);
    let visited = search_into(tree, window, &mut rows, &mut reached)?;
    Ok(Found { rows, visited })
}
