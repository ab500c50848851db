//! The root at the end of a removal.
//!
//! An inner root with one cell gives way to its child, once no cell is pending. One turn is enough, since the child is filled
//! (`GivesWay` in `specs/Steps.antt`).

ghost use Rattle.std.specs.Prelude.{◌≡◌, ◌<◌, ℤ, [], length, unsigned_abs, slice_index_or};
ghost use Rattle.rt_tree_node.specs.Whole.{IsWhole};
ghost use Rattle.rt_tree_remove.specs.Steps.{GivesWay};

use rt_tree_node::{Arena, Key, key_of, node_at, remove_node, set_parent};

/// The key in the first of these numbers.
fn first_key(numbers: &[i64]) -> Key
    requires { 0 < length numbers.now }
    ensures { (d : ℤ) → result ≡ unsigned_abs (slice_index_or numbers.now 0 d) }
{
    key_of(numbers[0])
}

/// Makes the only child of an inner root the root.
pub(crate) fn give_way<const D: usize>(tree: &mut Arena<D>)
    requires whole { IsWhole tree.old }
    requires idle { tree.old.pending.items ≡ [] }
    ensures { GivesWay tree.old tree.new }
{
    if tree.level == 0 {
        return;
    }
    let root = node_at(&tree.nodes, tree.root);
    if root.len() > 1 {
        return;
    }
    let child = first_key(root.numbers());
    remove_node(&mut tree.nodes, tree.root);
    set_parent(&mut tree.nodes, child, None);
    tree.root = child;
    tree.level -= 1;
}
