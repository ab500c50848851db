//! The root, which is there from the start.

ghost use Rattle.std.specs.Prelude.{◌<◌, ◌≤◌};
ghost use Rattle.slab.specs.Slab.{ContainsKey};
ghost use Rattle.rt_tree_pack.specs.Steps.{LiftsRoot};

use rt_box::Rect;
use rt_tree_node::{Arena, Node, put_node};

/// Makes the root, which has no cells, a level higher. `rect` may be any box.
pub fn lift_root<const D: usize>(tree: &mut Arena<D>, rect: &Rect<D>)
    requires few { D ≤ 3 }
    requires present { ContainsKey tree.old.nodes tree.old.root }
    requires height { tree.old.level < 255 }
    ensures { LiftsRoot tree.old tree.new }
{
    tree.level += 1;
    let root = Node::new(tree.level, None, rect);
    put_node(&mut tree.nodes, tree.root, root);
}
