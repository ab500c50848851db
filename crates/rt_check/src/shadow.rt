//! A tree seen from outside.
//!
//! Two sets tell at which place of its list a number or an id stands, so a look-up goes through no list. Contracts
//! see the lists alone (`specs/Shadow.antt`).

ghost use Rattle.std.specs.Prelude.{◌≡◌, ◌≤◌, ◌↔◌, [], ◌∷◌, ◌++◌, Contains, position, IsErrOf, OnOk, OnErr};
ghost use Rattle.std.specs.Option.{option_copied};
ghost use Rattle.std.specs.List.{IsDistinct};
ghost use Rattle.std.specs.Ordering.{int_eq};

use crate::index::index_of;
use crate::node::{NodeRow, RawCell, RowEntry};
use indexmap::IndexSet;
use rt_box::Capacity;
use sqlite_items::at as item_at;
use std::alloc::{AllocError, Global};
use std::hash::RandomState;
use std::marker::Model;
use thiserror::Error;

/// A tree seen from outside: a capacity, the root's number, nodes with distinct numbers and row
/// entries with distinct ids, each in the order in which they were added.
pub struct Shadow<const D: usize> {
    capacity: Capacity,
    root: i64,
    nodes: Vec<NodeRow<D>>,
    rows: Vec<RowEntry>,
    numbers: IndexSet<i64, RandomState>,
    ids: IndexSet<i64, RandomState>,
}

impl<const D: usize> Model for Shadow<D> {
    ghost use Rattle.rt_check.specs.Shadow.{ShadowLists};

    ghost Value = { ShadowLists D };

    ghost use Rattle.rt_check.specs.ShadowInside.{lists_of, IsWhole};

    ghost view = { lists_of };

    ghost invariant = { IsWhole };
}

// By hand, since a derived drop is written out, field by field, wherever a shadow ends.
impl<const D: usize> Drop for Shadow<D> {
    fn drop(self) {
        let Shadow {
            capacity: _,
            root: _,
            nodes: _,
            rows: _,
            numbers: _,
            ids: _,
        } = self;
    }
}

/// Why a node or a row entry isn't added.
#[derive(Clone, Copy, PartialEq, Eq, Debug, Error)]
pub enum ShadowFault {
    /// That number or id is listed.
    #[error("listed twice")]
    Twice,
    /// No memory is left.
    #[error("out of memory")]
    Memory,
}

impl<const D: usize> Shadow<D> {
    ghost use Rattle.rt_check.specs.Shadow.{numbers_of, ids_of, with_cell};
    ghost use Rattle.rt_check.specs.Conditions.{node_of, entry_of};

    /// Nothing is listed yet. Look-ups hash by `keys`, which are to be random if others choose the
    /// numbers and ids.
    pub fn new(alloc: Global, keys: RandomState, capacity: Capacity, root: i64) -> Shadow<D>
        requires some { 1 ≤ D }
        requires few { D ≤ 3 }
        ensures { result ≡ record { capacity = capacity; root = root; nodes = []; rows = [] } }
    {
        Shadow {
            capacity,
            root,
            nodes: Vec::new(alloc),
            rows: Vec::new(alloc),
            numbers: IndexSet::with_hasher(alloc, keys),
            ids: IndexSet::with_hasher(alloc, keys),
        }
    }

    /// The greatest number of cells of a node.
    pub fn capacity(&self) -> Capacity
        ensures { result ≡ self.now.capacity }
    {
        self.capacity
    }

    /// The root's number.
    pub fn root(&self) -> i64
        ensures { result ≡ self.now.root }
    {
        self.root
    }

    /// The nodes, in the order in which they were added.
    pub fn nodes(&self) -> &[NodeRow<D>]
        ensures value { result.now ≡ self.now.nodes }
        ensures distinct { IsDistinct int_eq (numbers_of self.now.nodes) }
        ensures axes { (1 ≤ D) × (D ≤ 3) }
    {
        self.nodes.as_slice()
    }

    /// The row entries, in the order in which they were added.
    pub fn rows(&self) -> &[RowEntry]
        ensures value { result.now ≡ self.now.rows }
        ensures distinct { IsDistinct int_eq (ids_of self.now.rows) }
    {
        self.rows.as_slice()
    }

    /// Lists a node. After a fault nothing has changed.
    pub fn add_node(&mut self, node: NodeRow<D>) -> Result<(), ShadowFault>
        ensures ok { OnOk result (self.new ≡ record self.old { nodes = self.old.nodes ++ node.entry ∷ [] }) }
        ensures twice { IsErrOf result ShadowFault.Twice ↔ Contains (numbers_of self.old.nodes) node.entry.number }
        ensures err { OnErr result (self.new ≡ self.old) }
    {
        if self.numbers.contains(&node.number) {
            return Err(ShadowFault::Twice);
        }
        if self.numbers.reserve(1).is_err() || self.nodes.reserve(1).is_err() {
            return Err(ShadowFault::Memory);
        }
        // There is room for one more, so that neither finds no memory.
        let _ = self.numbers.insert(node.number);
        let _ = self.nodes.push(node);
        Ok(())
    }

    /// Lists a row entry. After a fault nothing has changed.
    pub fn add_row(&mut self, row: RowEntry) -> Result<(), ShadowFault>
        ensures ok { OnOk result (self.new ≡ record self.old { rows = self.old.rows ++ row ∷ [] }) }
        ensures twice { IsErrOf result ShadowFault.Twice ↔ Contains (ids_of self.old.rows) row.id }
        ensures err { OnErr result (self.new ≡ self.old) }
    {
        if self.ids.contains(&row.id) {
            return Err(ShadowFault::Twice);
        }
        if self.ids.reserve(1).is_err() || self.rows.reserve(1).is_err() {
            return Err(ShadowFault::Memory);
        }
        // There is room for one more, so that neither finds no memory.
        let _ = self.ids.insert(row.id);
        let _ = self.rows.push(row);
        Ok(())
    }

    /// Gives the last node one cell more; if no node is listed, nothing changes. After an
    /// `AllocError` nothing has changed.
    pub fn add_cell(&mut self, cell: RawCell<D>) -> Result<(), AllocError>
        ensures ok { OnOk result (self.new ≡ with_cell self.old cell.entry) }
        ensures err { OnErr result (self.new ≡ self.old) }
    {
        let count = self.nodes.len();
        if count == 0 {
            return Ok(());
        }
        let node = &mut self.nodes[count - 1];
        node.cells.push(cell)
    }

    /// The nodes' numbers, in the order of the nodes.
    pub(crate) fn numbers(&self) -> &IndexSet<i64, RandomState>
        ensures { result.now.keys ≡ numbers_of self.now.nodes }
    {
        &self.numbers
    }

    /// The ids of the row entries, in their order.
    pub(crate) fn ids(&self) -> &IndexSet<i64, RandomState>
        ensures { result.now.keys ≡ ids_of self.now.rows }
    {
        &self.ids
    }

    /// The place in the list of nodes of the node of that number, counted from 0.
    pub(crate) fn place_of(&self, number: i64) -> Option<usize>
        ensures { result ≡ position (int_eq number) (numbers_of self.now.nodes) }
    {
        index_of(&self.numbers, &number)
    }

    /// The node of that number, if it is listed.
    pub fn node(&self, number: i64) -> Option<&NodeRow<D>>
        ensures { option_copied result ≡ node_of self.now.nodes number }
    {
        match index_of(&self.numbers, &number) {
            Some(at) => item_at(self.nodes.as_slice(), at),
            None => None,
        }
    }

    /// The row entry of that id, if it is listed.
    pub fn row(&self, id: i64) -> Option<&RowEntry>
        ensures { option_copied result ≡ entry_of self.now.rows id }
    {
        match index_of(&self.ids, &id) {
            Some(at) => item_at(self.rows.as_slice(), at),
            None => None,
        }
    }
}
