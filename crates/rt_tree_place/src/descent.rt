//! The way down, from the root to a node of a level.
//!
//! Each step takes the best child for the box, and overlap counts only if the children are leaves (`LeadsTo` in
//! `specs/Path.antt` of `rt_tree_node`).

ghost use Rattle.std.specs.Prelude.{◌≡◌, ℕ, ◌-◌, ◌≤◌, List, Some, length};
ghost use Rattle.slab.specs.Slab.{ContainsKey};
ghost use Rattle.rt_tree_node.specs.Places.{cells_at, level_at};
ghost use Rattle.rt_tree_place.specs.Path.{LeadsTo};
ghost use Rattle.rt_tree_place.specs.Steps.{IsPassable, IsBestAt};
ghost use Rattle.rt_tree_place.specs.Way.{LeadsUp};

use rt_box::Rect;
use rt_tree_node::{Key, Nodes, node_at, slab_facts};
use rt_tree_subtree::choose_subtree;

/// The child that the box goes into.
fn best_child<const D: usize>(nodes: &Nodes<D>, key: Key, above_leaves: bool, rect: &Rect<D>) -> Key
    requires present { ContainsKey nodes.now key }
    requires some { 1 ≤ length (cells_at nodes.now key) }
    ensures { IsBestAt nodes.now key above_leaves rect.now result }
{
    slab_facts(nodes);
    let node = node_at(nodes, key);
    let at = choose_subtree(node.boxes(), above_leaves, rect);
    let cell = node.cell(at);
    cell.key()
}

/// The node of a level that best children lead the box to, from the root down (Beckmann, Kriegel, Schneider, Seeger
/// 1990, section 4.1).
pub fn choose_node<const D: usize>(
    nodes: &Nodes<D>,
    root: Key,
    level: u8,
    target: u8,
    rect: &Rect<D>,
) -> Key
    requires passable { IsPassable nodes.now root level }
    requires below { target ≤ level }
    ensures level { level_at nodes.now result ≡ Some target }
    ensures way { (steps : ℕ) × LeadsUp nodes.now root steps result }
    ensures path { (path : List ℕ) × LeadsTo nodes.now target (level - target) root rect.now result path }
{
    rect.facts();
    let mut key = root;
    let mut height = level;
    while height > target {
        key = best_child(nodes, key, height == 1, rect);
        height -= 1;
    }
    key
}
