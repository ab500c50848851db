//! The cells that leave an overfull node, to be inserted again.
//!
//! Pending cells are taken from the end of their list. So the cells are appended in reverse, and the nearest one is placed
//! first (`ReInserts` in `specs/Rules.antt`).

ghost use Rattle.std.specs.Prelude.{◌≡◌, ℕ, ◌+◌, ◌<◌, ◌≤◌, All, length, ◌++◌, ◌≢◌, slice_index_or, vec_len, vec_capacity, Some};
ghost use Rattle.std.specs.List.{range_with_len};
ghost use Rattle.std.specs.List.Sorted.{IsPermutation};
ghost use Rattle.rt_box.specs.Capacity.{most_cells};
ghost use Rattle.rt_tree_node.specs.Places.{cells_at};
ghost use Rattle.rt_tree_place.specs.Rules.{AreDistinctBelow, IsRisingList, given_up};
ghost use Rattle.rt_tree_place.specs.Steps.{GivesUp};
ghost use Rattle.rt_tree_node.specs.Node.{NodeCells};
ghost use Rattle.slab.specs.Slab.{get, ContainsKey};

use arrayvec::ArrayVec;
use rt_box::MOST_CELLS;
use rt_tree_choice::farthest;
use rt_tree_node::{Arena, Key, Node, Pending, add_cells, take_cells};

/// The numbers from 0 up to `len`.
fn all_positions(len: usize) -> ArrayVec<usize, MOST_CELLS>
    requires { len ≤ most_cells }
    ensures { result.items ≡ range_with_len 0 len }
{
    let mut positions = ArrayVec::new();
    for position in 0..len {
        positions.push(position);
    }
    positions
}

/// The index of the number in the list, or the length if it isn't there.
fn index_of(list: &[usize], number: usize) -> usize
    ensures within { result ≤ length list.now }
    ensures found { result < length list.now → slice_index_or list.now result 0 ≡ number }
    ensures first { (k : ℕ) → k < result → slice_index_or list.now k 0 ≢ number }
{
    for (at, other) in list.iter().enumerate() {
        if *other == number {
            return at;
        }
    }
    list.len()
}

/// The positions below `len` except these, rising.
pub(crate) fn others(positions: &[usize], len: usize) -> ArrayVec<usize, MOST_CELLS>
    requires few { len ≤ most_cells }
    requires distinct { AreDistinctBelow len positions.now }
    ensures parted { IsPermutation (range_with_len 0 len) (positions.now ++ result.items) }
    ensures rising { IsRisingList result.items }
{
    let mut left = all_positions(len);
    for position in positions {
        let at = index_of(left.as_slice(), *position);
        left.remove(at);
    }
    left
}

/// Makes the cells at the positions pending, so that the one at the first position is placed first.
pub(crate) fn push_given_up<const D: usize>(
    pending: &mut Vec<Pending<D>>,
    from: &Node<D>,
    positions: &[usize],
)
    requires within { All (λ p. p < length from.now.cells) positions.now }
    requires room { vec_len pending.old + length positions.now ≤ vec_capacity pending.old }
    ensures items { pending.new.items ≡ pending.old.items ++ given_up from.now positions.now }
    ensures room { vec_capacity pending.new ≡ vec_capacity pending.old }
{
    let level = from.level();
    for back in 0..positions.len() {
        let at = positions[positions.len() - 1 - back];
        let cell = from.cell(at);
        pending.push_reserved(Pending { level, cell });
    }
}

/// ReInsert: the cells of an overfull node whose centres are farthest from the node's leave it and are then pending, so that
/// the nearest is placed first (Beckmann, Kriegel, Schneider, Seeger 1990, section 4.3).
pub(crate) fn reinsert<const D: usize>(tree: &mut Arena<D>, key: Key)
    requires few { D ≤ 3 }
    requires present { ContainsKey tree.old.nodes key }
    requires full { length (cells_at tree.old.nodes key) ≡ tree.old.capacity + 1 }
    requires room { vec_len tree.old.pending + 15 ≤ vec_capacity tree.old.pending }
    ensures { (n : NodeCells D) → get tree.old.nodes key ≡ Some n → GivesUp tree.old tree.new key n }
{
    tree.capacity.facts();
    let old = take_cells(&mut tree.nodes, key);
    let far = farthest(old.boxes(), tree.capacity);
    let near = others(far.as_slice(), old.len());
    add_cells(&mut tree.nodes, key, &old, near.as_slice());
    push_given_up(&mut tree.pending, &old, far.as_slice());
}
