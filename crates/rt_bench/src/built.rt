//! Times of a choice on nodes and new boxes of a tree that was built row by row.
//!
//! `choices` times nodes of drawn boxes. The nodes here are those that insertions left, filled and overlapping as
//! in a table.

use crate::rows::{SHAPES, Shape, rect_of};
use rt_box::{Capacity, Rect};
use rt_check::Shadow;
use rt_tree::{MOST_ROWS_OF_A_TREE, Tree};
use rt_tree_subtree::choose_subtree;
use std::alloc::{AllocError, Global};
use std::hash::RandomState;
use std::io;
use std::rt::Clock;
use std::time::Instant;

const ROWS: u64 = 100_000;

/// The tree that insertions of the rows leave.
fn tree_of(
    alloc: Global,
    keys: RandomState,
    capacity: Capacity,
    shape: Shape,
) -> Result<Tree<2>, AllocError> {
    let mut tree = Tree::new(alloc, keys, capacity)?;
    for row in 1..=ROWS {
        let Some(rect) = rect_of(shape, row) else {
            continue;
        };
        let id = row as i64;
        tree.reserve(1)?;
        if tree.get(&id).is_none() && tree.len() < MOST_ROWS_OF_A_TREE {
            let _ = tree.insert(&id, &rect);
        }
    }
    Ok(tree)
}

/// A node above the leaves: its level, its cells' boxes, and the numbers of its children.
#[derive(Drop)]
struct Above {
    level: u8,
    boxes: Vec<Rect<2>>,
    children: Vec<i64>,
}

/// The nodes above the leaves, each at its number less one; leaves have no cells there.
fn nodes_above(alloc: Global, shadow: &Shadow<2>) -> Result<Vec<Above>, AllocError> {
    let mut nodes = Vec::new(alloc);
    for node in shadow.nodes() {
        let (mut boxes, mut children) = (Vec::new(alloc), Vec::new(alloc));
        for cell in node.cells.as_slice() {
            let Some(rect) = Rect::new(cell.lo, cell.hi) else {
                continue;
            };
            if node.level > 0 {
                boxes.push(rect)?;
                children.push(cell.number)?;
            }
        }
        nodes.push(Above {
            level: node.level,
            boxes,
            children,
        })?;
    }
    Ok(nodes)
}

/// The place of the node above the leaves that a new box is led to.
fn node_for(nodes: &[Above], rect: &Rect<2>) -> Option<usize> {
    let mut number = 1i64;
    for _ in 0..20 {
        let place = usize::try_from(number.wrapping_sub(1)).ok()?;
        let node = nodes.get(place)?;
        if node.level <= 1 {
            return Some(place);
        }
        number = *node.children.get(choice(node, false, rect)?)?;
    }
    None
}

/// The child that the box goes into.
fn choice(node: &Above, above_leaves: bool, rect: &Rect<2>) -> Option<usize> {
    let boxes = node.boxes.as_slice();
    if boxes.is_empty() || boxes.len() > 52 {
        return None;
    }
    Some(choose_subtree(boxes, above_leaves, rect))
}

/// The nanoseconds of a choice above the leaves, over the boxes of rows that would come next.
fn time_choices<R: Clock>(
    rt: &R,
    alloc: Global,
    nodes: &[Above],
    shape: Shape,
) -> io::Result<(u128, u64)> {
    let mut due = Vec::new(alloc);
    for next in 1..=20_000 {
        let Some(rect) = rect_of(shape, ROWS + next) else {
            continue;
        };
        if let Some(place) = node_for(nodes, &rect) {
            due.push((place, rect))?;
        }
    }
    let mut sum = 0u64;
    let start = Instant::now(rt)?;
    for (place, rect) in due.iter() {
        let Some(node) = nodes.get(*place) else {
            continue;
        };
        let at = choice(node, true, rect).unwrap_or(0);
        sum = sum.wrapping_add(at as u64);
    }
    let time = start.elapsed(rt)?.as_nanos();
    Ok((time / (due.len() as u128).max(1), sum))
}

/// The tree of rows of that shape, as it is seen from outside.
fn shadow_of(rt: &HostRuntime, capacity: Capacity, shape: Shape) -> io::Result<Shadow<2>> {
    let (keys, other_keys) = (RandomState::new(rt)?, RandomState::new(rt)?);
    let tree = tree_of(rt.alloc(), keys, capacity, shape)?;
    Ok(tree.shadow(rt.alloc(), other_keys)?)
}

/// The nanoseconds of a choice above the leaves in a tree of 100,000 rows, and the sum of what was chosen.
fn time_built(rt: &HostRuntime, capacity: Capacity, shape: Shape) -> io::Result<(u128, u64)> {
    let shadow = shadow_of(rt, capacity, shape)?;
    let nodes = nodes_above(rt.alloc(), &shadow)?;
    time_choices(rt, rt.alloc(), nodes.as_slice(), shape)
}

/// Prints what a choice took in the tree of rows of that shape, and the sum of what was chosen.
fn tell(rt: &HostRuntime, shape: &str, timed: (u128, u64)) -> io::Result<()> {
    let (time, sum) = timed;
    println!(rt; "a built tree, {shape}: choice above leaves {time} ns ({sum})")
}

/// Prints the nanoseconds of a choice above the leaves in trees of 100,000 rows, for the boxes that come next.
pub fn report(rt: &HostRuntime) -> io::Result<()> {
    let Some(capacity) = Capacity::new(51) else {
        return Ok(());
    };
    for (shape, name) in SHAPES {
        let timed = time_built(rt, capacity, shape)?;
        tell(rt, name, timed)?;
    }
    Ok(())
}
