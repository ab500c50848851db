//! The root at the end of a placement.
//!
//! A split needs a parent for the new node. So an overfull root first becomes the child of a new root, and is then
//! split like any other node (`specs/Rise.antt`).

ghost use Rattle.std.specs.Prelude.{◌+◌, ◌^◌, ◌<◌, ◌≤◌, length};
ghost use Rattle.slab.specs.Slab.{HasRoomFor};
ghost use Rattle.rt_tree_node.specs.Places.{cells_at};
ghost use Rattle.rt_tree_place.specs.Steps.{IsRising};
ghost use Rattle.rt_tree_place.specs.Rise.{Raises, Grows};

use crate::attaching::attach;
use crate::fit::{cell_for, refit};
use crate::split::divide;
use rt_tree_node::{Arena, Node, Pending, Work, add_node, hull_at, node_at, slab_facts};

/// Makes a new root with one cell, which names the old one.
fn raise<const D: usize>(tree: &mut Arena<D>)
    requires few { D ≤ 3 }
    requires rising { IsRising tree.old tree.old.root }
    requires full { tree.old.capacity < length (cells_at tree.old.nodes tree.old.root) }
    requires room { HasRoomFor tree.old.nodes 1 }
    requires keys { tree.old.nodes.capacity ≤ 2 ^ 62 }
    requires height { tree.old.level ≤ 30 }
    ensures { Raises tree.old tree.new }
{
    slab_facts(&tree.nodes);
    let hull = hull_at(&tree.nodes, tree.root);
    let cell = cell_for(tree.root, &hull);
    let level = tree.level + 1;
    let root = add_node(&mut tree.nodes, Node::new(level, None, &hull));
    tree.root = root;
    tree.level = level;
    attach(tree, root, &Pending { level, cell });
}

/// The overflow of the root: it is split, and the nodes of the two groups become the children of a new root (Beckmann,
/// Kriegel, Schneider, Seeger 1990, section 4.3).
pub(crate) fn grow<const D: usize>(tree: &mut Arena<D>, work: &mut Work)
    requires few { D ≤ 3 }
    requires rising { IsRising tree.old tree.old.root }
    requires room { HasRoomFor tree.old.nodes 2 }
    requires keys { tree.old.nodes.capacity ≤ 2 ^ 62 }
    requires height { tree.old.level ≤ 30 }
    requires splits { work.old.splits + 1 < 2 ^ 32 }
    ensures { Grows tree.old tree.new work.old work.new }
{
    let key = tree.root;
    if node_at(&tree.nodes, key).len() <= tree.capacity.greatest() {
        return;
    }
    raise(tree);
    let root = tree.root;
    divide(tree, key, root);
    refit(&mut tree.nodes, key, root);
    work.splits += 1;
}
