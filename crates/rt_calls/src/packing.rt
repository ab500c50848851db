//! A tree made of rows.

ghost use Rattle.std.specs.Prelude.{◌≡◌, ◌*◌, ◌≤◌, length, MatchOption};
ghost use Rattle.rt_box.specs.Capacity.{IsCapacity};
ghost use Rattle.rt_tree_node.specs.Whole.{most_rows_of_a_tree};
ghost use Rattle.rt_calls.specs.Numbers.{AreAllOrdered};
ghost use Rattle.rt_calls.specs.Packing.{Packs, PacksAny, KeepsPlace};

use crate::code::Code;
use crate::keys::Keys;
use crate::numbers::{are_matched, first_bad, rows_from};
use rt_box::Capacity;
use rt_handle::{HeldTree, Object};
use rt_map::{PackFault, from_rows};
use rt_tree::MOST_ROWS_OF_A_TREE;
use std::alloc::Global;
use std::hash::RandomState;

/// A tree of rows whose boxes are known to be such.
fn pack_ordered<const D: usize>(
    alloc: Global,
    capacity: Capacity,
    keys: &Keys,
    ids: &[i64],
    boxes: &[i32],
    at: &mut u64,
) -> Result<HeldTree<D>, Code>
    requires some { 1 ≤ D }
    requires few { D ≤ 3 }
    requires matched { length boxes.now ≡ length ids.now * (2 * D) }
    requires ordered { AreAllOrdered D (length ids.now) boxes.now }
    requires most { length ids.now ≤ most_rows_of_a_tree }
    ensures packed { Packs capacity ids.now boxes.now at.new result }
    ensures kept { KeepsPlace at.old at.new result }
{
    capacity.facts();
    let Ok(keys) = RandomState::new(keys) else {
        return Err(Code::OutOfMemory);
    };
    let Ok(rows) = rows_from(alloc, ids, boxes) else {
        return Err(Code::OutOfMemory);
    };
    match from_rows(alloc, keys, capacity, &rows) {
        Ok(tree) => Ok(HeldTree {
            tree,
            keys,
            capacity,
        }),
        Err(PackFault::Repeated { at: place }) => {
            *at = place as u64;
            Err(Code::IdTaken)
        }
        Err(PackFault::TooMany) => Err(Code::TreeFull),
        Err(PackFault::Memory) => Err(Code::OutOfMemory),
    }
}

/// The capacity with that number of cells, if there is one.
pub(crate) fn capacity_of(capacity: u32) -> Option<Capacity>
    ensures { MatchOption result (¬ IsCapacity capacity) (λ made. made ≡ capacity) }
{
    let Ok(greatest) = u8::try_from(capacity) else {
        return None;
    };
    Capacity::new(greatest)
}

/// A tree of rows.
fn pack<const D: usize>(
    alloc: Global,
    capacity: u32,
    keys: &Keys,
    ids: &[i64],
    boxes: &[i32],
    at: &mut u64,
) -> Result<HeldTree<D>, Code>
    requires some { 1 ≤ D }
    requires few { D ≤ 3 }
    ensures packed { Packs capacity ids.now boxes.now at.new result }
    ensures kept { KeepsPlace at.old at.new result }
{
    let Some(capacity) = capacity_of(capacity) else {
        return Err(Code::BadCapacity);
    };
    if !are_matched::<D>(ids, boxes) {
        return Err(Code::BadLength);
    }
    if let Some(place) = first_bad::<D>(boxes, ids.len()) {
        *at = place as u64;
        return Err(Code::BadBox);
    }
    if ids.len() > MOST_ROWS_OF_A_TREE {
        return Err(Code::TreeFull);
    }
    pack_ordered(alloc, capacity, keys, ids, boxes, at)
}

/// A tree of that many axes with these rows.
pub fn pack_any(
    alloc: Global,
    axes: u32,
    capacity: u32,
    keys: &Keys,
    ids: &[i64],
    boxes: &[i32],
    at: &mut u64,
) -> Result<Object, Code>
    ensures packed { PacksAny axes capacity ids.now boxes.now at.new result }
    ensures kept { KeepsPlace at.old at.new result }
{
    match axes {
        1 => Ok(Object::Line(pack(alloc, capacity, keys, ids, boxes, at)?)),
        2 => Ok(Object::Plane(pack(alloc, capacity, keys, ids, boxes, at)?)),
        3 => Ok(Object::Space(pack(alloc, capacity, keys, ids, boxes, at)?)),
        _ => Err(Code::BadAxes),
    }
}
