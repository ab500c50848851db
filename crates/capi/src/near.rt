//! The rows near a point or a box.

ghost use Rattle.std.specs.Prelude.{◌≡◌, ◌≢◌, pos};
ghost use Rattle.rt_handle.specs.Passes.{IsOf, IsSame};
ghost use Rattle.rt_calls.specs.Calls.{OfTree};
ghost use Rattle.rt_calls.specs.Near.{FindsWithinRows, FindsRowsNearTo};

use rt_calls::near::{nearest_to_in, within};
use rt_calls::{Answer, AnyTree, hand_back, tree_in};
use rt_handle::{Pass, Words};
use std::alloc::Global;

/// The rows within a distance of a point.
#[unsafe(no_mangle)]
pub extern "C" fn juicedelta_tree_within(
    alloc: Global,
    handle: &Words,
    pass: Pass,
    point: &[i32],
    distance: u64,
    ids: &mut [i64],
    boxes: &mut [i32],
    total: &mut u64,
) -> Answer
    requires { IsOf pass.at pass.held handle.now }
    ensures told { OfTree pass.held (λ D. FindsWithinRows point.now distance
        ids.old ids.new boxes.old boxes.new total.old total.new) result.code }
    ensures kept { result.code ≢ pos 0 → (ids.new ≡ ids.old) × (boxes.new ≡ boxes.old) × (total.new ≡ total.old) }
    ensures pass { IsSame pass result.pass }
{
    let lease = pass.open();
    let code = match tree_in(lease.peek(handle)) {
        Ok(AnyTree::Line(lent)) => within(alloc, lent.tree, point, distance, ids, boxes, total),
        Ok(AnyTree::Plane(lent)) => within(alloc, lent.tree, point, distance, ids, boxes, total),
        Ok(AnyTree::Space(lent)) => within(alloc, lent.tree, point, distance, ids, boxes, total),
        Err(code) => code,
    };
    hand_back(code, lease)
}

/// The rows nearest to a box.
#[unsafe(no_mangle)]
pub extern "C" fn juicedelta_tree_nearest_to(
    alloc: Global,
    handle: &Words,
    pass: Pass,
    numbers: &[i32],
    ids: &mut [i64],
    boxes: &mut [i32],
    total: &mut u64,
) -> Answer
    requires { IsOf pass.at pass.held handle.now }
    ensures told { OfTree pass.held
        (λ D. FindsRowsNearTo numbers.now ids.old ids.new boxes.old boxes.new total.old total.new) result.code }
    ensures kept { result.code ≢ pos 0 → (ids.new ≡ ids.old) × (boxes.new ≡ boxes.old) × (total.new ≡ total.old) }
    ensures pass { IsSame pass result.pass }
{
    let lease = pass.open();
    let code = nearest_to_in(alloc, lease.peek(handle), numbers, ids, boxes, total);
    hand_back(code, lease)
}
