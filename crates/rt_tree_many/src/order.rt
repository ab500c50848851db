//! Rows by their place in the order of the tree's ids.

ghost use Rattle.std.specs.Prelude.{◌≡◌, ◌<◌, Some, IsSome, length, slice_get};
ghost use Rattle.rt_tree.specs.Lists.{box_of};

use rt_tree::{Row, Tree};

/// The row with that id, which the tree has.
fn row_with<const D: usize>(tree: &Tree<D>, id: &i64) -> Row<D>
    requires { IsSome (box_of tree.now.lists id.now) }
    ensures id { result.id ≡ id.now }
    ensures rect { box_of tree.now.lists id.now ≡ Some result.rect }
{
    let rect = tree.get(id).unwrap();
    Row { id: *id, rect }
}

/// The row whose id stands at that place of `Tree::ids`. One look-up.
pub fn row_at<const D: usize>(tree: &Tree<D>, place: usize) -> Row<D>
    requires { place < length tree.now.ids }
    ensures id { slice_get tree.now.ids place ≡ Some result.id }
    ensures rect { box_of tree.now.lists result.id ≡ Some result.rect }
{
    row_with(tree, &tree.ids()[place])
}
