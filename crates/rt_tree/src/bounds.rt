//! The box around all rows.

ghost use Rattle.std.specs.Prelude.{◌≡◌, ◌≤◌, [], true, length, MatchOption};
ghost use Rattle.rt_tree_node.specs.Places.{cells_at, hull_at};
ghost use Rattle.rt_tree_node.specs.Whole.{IsWhole};
ghost use Rattle.rt_tree.specs.BoundsInside.{IsRootBox, AdmitsRoot};

use rt_box::{Rect, Window};
use rt_tree_node::{Arena, hull_at, node_at};

/// The least box around the root's cells, or `None` if it has none.
pub(crate) fn root_box<const D: usize>(arena: &Arena<D>) -> Option<Rect<D>>
    requires whole { IsWhole arena.now }
    requires few { D ≤ 3 }
    ensures { IsRootBox arena.now result }
{
    let root = node_at(&arena.nodes, arena.root);
    if root.len() == 0 {
        return None;
    }
    Some(hull_at(&arena.nodes, arena.root))
}

/// Whether the window is known to admit each row's box. It looks at the root's cells alone: most windows refuse the first
/// one already.
pub(crate) fn admits_root<const D: usize>(arena: &Arena<D>, window: &Window<D>) -> bool
    requires whole { IsWhole arena.now }
    requires few { D ≤ 3 }
    ensures { result ≡ true → AdmitsRoot arena.now window.now }
{
    let core = window.core();
    let root = node_at(&arena.nodes, arena.root);
    if root.len() == 0 || !core.admits(&root.cell(0).rect) {
        return false;
    }
    let hull = hull_at(&arena.nodes, arena.root);
    core.admits(&hull)
}
