//! The nodes of a tree in preorder, and their numbers.
//!
//! A stack of keys takes the place of recursion. Children are pushed in reverse, so that the first cell's is listed first.
//! A node's number is its place in the list, from 1 on (`specs/Preorder.antt`).

ghost use Rattle.std.specs.Prelude.{◌≡◌, ◌<◌, ◌≤◌, ◌^◌, ◌++◌, [], ◌∷◌, All, length, map, reverse, IfOk, OnOk};
ghost use Rattle.slab.specs.Slab.{ContainsKey};
ghost use Rattle.rt_tree_node.specs.Places.{key_of};
ghost use Rattle.rt_tree_node.specs.Whole.{IsWhole};
ghost use Rattle.rt_tree_walk.specs.Preorder.{child_keys, tree_keys};
ghost use Rattle.rt_tree_outside.specs.Outside.{HasNumbers};

use rt_tree_node::{Arena, Key, Node, node_at};
use std::alloc::{AllocError, Global};

/// Appends the keys of a node's children, the last cell's first.
fn push_children<const D: usize>(keys: &mut Vec<Key>, node: &Node<D>) -> Result<(), AllocError>
    ensures { OnOk result (keys.new.items ≡ keys.old.items ++ reverse (map key_of node.now.cells)) }
{
    let count = node.len();
    for back in 0..count {
        keys.push(node.cell(count - 1 - back).key())?;
    }
    Ok(())
}

/// Lists the node next, and notes its children as due.
fn list_next<const D: usize>(
    order: &mut Vec<Key>,
    keys: &mut Vec<Key>,
    tree: &Arena<D>,
    key: Key,
) -> Result<(), AllocError>
    requires present { ContainsKey tree.now.nodes key }
    requires few { D ≤ 3 }
    ensures order { OnOk result (order.new.items ≡ order.old.items ++ key ∷ []) }
    ensures keys { OnOk result (keys.new.items ≡ keys.old.items ++ reverse (child_keys tree.now.nodes key)) }
{
    order.push(key)?;
    let node = node_at(&tree.nodes, key);
    if node.level() == 0 {
        return Ok(());
    }
    push_children(keys, node)
}

/// The keys of the nodes in preorder.
pub fn preorder<const D: usize>(alloc: Global, tree: &Arena<D>) -> Result<Vec<Key>, AllocError>
    requires whole { IsWhole tree.now }
    requires settled { tree.now.pending.items ≡ [] }
    requires few { D ≤ 3 }
    ensures { IfOk result (λ order. order.items ≡ tree_keys tree.now) }
{
    let mut order = Vec::new(alloc);
    let mut keys = Vec::new(alloc);
    keys.push(tree.root)?;
    while let Some(key) = keys.pop() {
        list_next(&mut order, &mut keys, tree, key)?;
    }
    Ok(order)
}

/// Notes for each listed key its place in the list, counted from 1. Keys are below `bound`.
pub fn number_keys(alloc: Global, order: &[Key], bound: usize) -> Result<Vec<usize>, AllocError>
    requires within { All (λ key. key < bound) order.now }
    requires few { length order.now < 2 ^ 63 }
    ensures len { IfOk result (λ numbers. length numbers.items ≡ bound) }
    ensures small { IfOk result (λ numbers. All (λ n. n < 2 ^ 63) numbers.items) }
    ensures noted { IfOk result (λ numbers. HasNumbers order.now numbers.items) }
{
    let mut numbers = vec![in alloc; 0; bound]?;
    let count = order.len();
    for back in 0..count {
        let at = count - 1 - back;
        numbers[order[at].index()] = at + 1;
    }
    Ok(numbers)
}
