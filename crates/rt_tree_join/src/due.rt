//! The pairs of nodes that are due, and how a node is opened.

ghost use Rattle.std.specs.Prelude.{◌≡◌, ◌<◌, ◌≤◌, ◌-◌, ◌++◌, length, map, MatchOption, OnOk};
ghost use Rattle.std.specs.List.{filter};
ghost use Rattle.rt_tree_node.specs.Places.{cells_at, hull_at};
ghost use Rattle.rt_tree_node.specs.Whole.{IsWhole};
ghost use Rattle.rt_tree_join.specs.Join.{touch};
ghost use Rattle.rt_tree_join.specs.Due.{due_of, subtree_of, opened_from, IsRoot};

use crate::touching::touching_cells;
use rt_box::Rect;
use rt_tree_node::{Arena, Cell, Key, Node, hull_at, key_of, node_at};
use std::alloc::AllocError;
use std::mem;

/// A node with all that is below it.
#[derive(Clone, Copy)]
pub(crate) struct Subtree<const D: usize> {
    pub(crate) key: Key,
    /// The node's level, from 0 at the leaves.
    pub(crate) level: u8,
    /// A box that holds those of all rows below it.
    pub(crate) rect: Rect<D>,
}

/// Two nodes, one of each tree, of whose rows the pairs are due.
#[derive(Clone, Copy)]
pub(crate) struct Due<const D: usize> {
    pub(crate) left: Subtree<D>,
    pub(crate) right: Subtree<D>,
}

/// One of the two trees.
#[derive(Clone, Copy)]
pub(crate) enum Side {
    Left,
    Right,
}

impl<const D: usize> Subtree<D> {
    /// The child that a cell names.
    #[inline]
    pub(crate) fn child(cell: &Cell<D>, level: u8) -> Subtree<D>
        ensures { result ≡ subtree_of level cell.now }
    {
        Subtree {
            key: key_of(cell.number),
            level,
            rect: cell.rect,
        }
    }

    /// The whole tree, or `None` if it has no rows.
    pub(crate) fn root(tree: &Arena<D>) -> Option<Subtree<D>>
        requires whole { IsWhole tree.now }
        requires few { D ≤ 3 }
        ensures { IsRoot tree.now result }
    {
        let node = node_at(&tree.nodes, tree.root);
        if node.len() == 0 {
            return None;
        }
        Some(Subtree {
            key: tree.root,
            level: tree.level,
            rect: hull_at(&tree.nodes, tree.root),
        })
    }
}

impl<const D: usize> Due<D> {
    /// A node of one tree, and one of the other.
    #[inline]
    pub(crate) fn of(side: Side, node: &Subtree<D>, other: &Subtree<D>) -> Due<D>
        ensures { result ≡ due_of side node.now other.now }
    {
        match side {
            Side::Left => Due {
                left: *node,
                right: *other,
            },
            Side::Right => Due {
                left: *other,
                right: *node,
            },
        }
    }
}

/// Opens a node of one tree against one of the other: each child from a place on is due with that one whose box touches its
/// box.
pub(crate) fn open<const D: usize>(
    due: &mut Vec<Due<D>>,
    side: Side,
    node: &Node<D>,
    from: usize,
    other: &Subtree<D>,
) -> Result<(), AllocError>
    requires high { 0 < node.now.level }
    requires within { from ≤ length node.now.cells }
    ensures { OnOk result (due.new.items ≡ due.old.items ++ opened_from side node.now from other.now) }
{
    let bits = touching_cells(node, from, &other.rect);
    let level = node.level() - 1;
    due.reserve(bits.count_ones() as usize)?;
    let alloc = *due.allocator();
    let mut list = mem::replace(due, Vec::new(alloc));
    let mut rest = bits;
    while rest != 0 {
        let cell = node.cell(from + rest.trailing_zeros() as usize);
        list.push_reserved(Due::of(side, &Subtree::child(&cell, level), other));
        rest &= rest - 1;
    }
    *due = list;
    Ok(())
}
