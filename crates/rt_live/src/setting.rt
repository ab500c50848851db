//! A box set in a tree: the room for it first, and then the step that can't fail.

ghost use Rattle.std.specs.Prelude.{◌≡◌, ◌+◌, ◌<◌, ◌≤◌, None, length, IsSome, IsOk, OnOk};
ghost use Rattle.rt_tree_node.specs.Whole.{most_rows_of_a_tree};
ghost use Rattle.rt_tree.specs.Lists.{box_of};
ghost use Rattle.rt_live.specs.Rows.{rows_by_id, with_box};
ghost use Rattle.rt_live.specs.Room.{used};

use rt_box::Rect;
use rt_tree::Tree;
use std::alloc::AllocError;

/// Makes room for a box, if there is one.
pub(crate) fn make_room<const D: usize>(
    tree: &mut Tree<D>,
    is: &Option<Rect<D>>,
) -> Result<(), AllocError>
    ensures lists { tree.new.lists ≡ tree.old.lists }
    ensures room { OnOk result (IsSome is.now → 1 ≤ tree.new.spare) }
    ensures succeeds { (IsSome is.now → 1 ≤ tree.old.spare) → IsOk result }
    ensures keeps { tree.old.spare ≤ tree.new.spare }
{
    if is.is_some() {
        tree.reserve(1)?;
    }
    Ok(())
}

/// Gives an id that box, or none. It takes no memory.
pub(crate) fn set_box<const D: usize>(
    tree: &mut Tree<D>,
    id: &i64,
    was: &Option<Rect<D>>,
    is: &Option<Rect<D>>,
)
    requires was { box_of tree.old.lists id.now ≡ was.now }
    requires few { was.now ≡ None → length tree.old.lists.rows < most_rows_of_a_tree }
    requires room { IsSome is.now → 1 ≤ tree.old.spare }
    ensures rows { rows_by_id tree.new.lists ≡ with_box (rows_by_id tree.old.lists) id.now is.now }
    ensures spare { tree.old.spare ≤ tree.new.spare + used is.now }
    ensures capacity { tree.new.lists.capacity ≡ tree.old.lists.capacity }
{
    match (was, is) {
        (None, None) => {}
        (None, Some(rect)) => {
            let _ = tree.insert(id, rect);
        }
        (Some(_), Some(rect)) => tree.replace(id, rect),
        (Some(_), None) => {
            let _ = tree.remove(id);
        }
    }
}
