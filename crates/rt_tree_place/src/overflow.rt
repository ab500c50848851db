//! What becomes of an overfull node below the root.
//!
//! It gives up cells if its level isn't marked yet, which marks it, and is split otherwise. So no level gives up
//! cells twice while the marks last (`Treats` in `specs/Steps.antt`).

ghost use Rattle.std.specs.Prelude.{◌≡◌, ◌+◌, ◌^◌, ◌<◌, ◌≤◌, length, vec_len, vec_capacity};
ghost use Rattle.slab.specs.Slab.{HasRoomFor};
ghost use Rattle.rt_box.specs.Capacity.{least_fill};
ghost use Rattle.rt_tree_node.specs.Places.{cells_at};
ghost use Rattle.rt_tree_place.specs.Steps.{HasRoomToGiveUp, IsPair, Relieves, Treats};

use crate::reinsertion::reinsert;
use crate::split::divide;
use rt_tree_node::{Arena, Key, Work, node_at};

/// OverflowTreatment of a node below the root, if it is overfull: cells leave it to be inserted again if no node of its
/// level has given up cells yet, and the level is marked; else the node is split (Beckmann, Kriegel, Schneider, Seeger
/// 1990, section 4.3). The levels below `marks` are the marked ones.
pub(crate) fn relieve<const D: usize>(
    tree: &mut Arena<D>,
    key: Key,
    parent: Key,
    marks: &mut u8,
    work: &mut Work,
)
    requires few { D ≤ 3 }
    requires pair { IsPair tree.old key parent }
    requires filled { least_fill tree.old.capacity ≤ length (cells_at tree.old.nodes key) }
    requires most { length (cells_at tree.old.nodes key) ≤ tree.old.capacity + 1 }
    requires room { HasRoomFor tree.old.nodes 1 }
    requires keys { tree.old.nodes.capacity ≤ 2 ^ 62 }
    requires height { tree.old.level ≤ 30 }
    requires pending_room { HasRoomToGiveUp tree.old key }
    requires splits { work.old.splits + 1 < 2 ^ 32 }
    requires reinsertions { work.old.reinsertions + 1 < 2 ^ 32 }
    ensures relieves { Relieves tree.old tree.new key parent }
    ensures treats { Treats tree.old tree.new key parent marks.old marks.new work.old work.new }
{
    let node = node_at(&tree.nodes, key);
    let (level, len) = (node.level(), node.len());
    if len <= tree.capacity.greatest() {
        return;
    }
    if level < *marks {
        divide(tree, key, parent);
        work.splits += 1;
        return;
    }
    reinsert(tree, key);
    *marks = level + 1;
    work.reinsertions += 1;
}
