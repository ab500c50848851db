//! The rows from a place on, and the box around all rows.

ghost use Rattle.std.specs.Prelude.{◌≡◌, ◌≢◌, pos};
ghost use Rattle.rt_handle.specs.Passes.{IsOf, IsSame};
ghost use Rattle.rt_calls.specs.Calls.{OfTree};
ghost use Rattle.rt_calls.specs.Places.{TellsIds, TellsRowsInto, TellsBoundsInto};

use rt_calls::places::{bounds, ids, rows};
use rt_calls::{Answer, AnyTree, hand_back, tree_in};
use rt_handle::{Pass, Words};

/// The ids of the rows from a place on.
#[unsafe(no_mangle)]
pub extern "C" fn juicedelta_tree_ids(
    handle: &Words,
    pass: Pass,
    from: u64,
    numbers: &mut [i64],
    total: &mut u64,
) -> Answer
    requires { IsOf pass.at pass.held handle.now }
    ensures told { OfTree pass.held (λ D. TellsIds from numbers.old numbers.new total.new) result.code }
    ensures kept { result.code ≢ pos 0 → (numbers.new ≡ numbers.old) × (total.new ≡ total.old) }
    ensures pass { IsSame pass result.pass }
{
    let lease = pass.open();
    let code = match tree_in(lease.peek(handle)) {
        Ok(AnyTree::Line(lent)) => ids(lent.tree, from, numbers, total),
        Ok(AnyTree::Plane(lent)) => ids(lent.tree, from, numbers, total),
        Ok(AnyTree::Space(lent)) => ids(lent.tree, from, numbers, total),
        Err(code) => code,
    };
    hand_back(code, lease)
}

/// The rows from a place on.
#[unsafe(no_mangle)]
pub extern "C" fn juicedelta_tree_rows(
    handle: &Words,
    pass: Pass,
    from: u64,
    ids: &mut [i64],
    boxes: &mut [i32],
    total: &mut u64,
) -> Answer
    requires { IsOf pass.at pass.held handle.now }
    ensures told { OfTree pass.held
        (λ D. TellsRowsInto from ids.old ids.new boxes.old boxes.new total.new) result.code }
    ensures kept { result.code ≢ pos 0 → (ids.new ≡ ids.old) × (boxes.new ≡ boxes.old) × (total.new ≡ total.old) }
    ensures pass { IsSame pass result.pass }
{
    let lease = pass.open();
    let code = match tree_in(lease.peek(handle)) {
        Ok(AnyTree::Line(lent)) => rows(lent.tree, from, ids, boxes, total),
        Ok(AnyTree::Plane(lent)) => rows(lent.tree, from, ids, boxes, total),
        Ok(AnyTree::Space(lent)) => rows(lent.tree, from, ids, boxes, total),
        Err(code) => code,
    };
    hand_back(code, lease)
}

/// The least box around all rows.
#[unsafe(no_mangle)]
pub extern "C" fn juicedelta_tree_bounds(handle: &Words, pass: Pass, numbers: &mut [i32]) -> Answer
    requires { IsOf pass.at pass.held handle.now }
    ensures told { OfTree pass.held (λ D. TellsBoundsInto numbers.old numbers.new) result.code }
    ensures kept { result.code ≢ pos 0 → numbers.new ≡ numbers.old }
    ensures pass { IsSame pass result.pass }
{
    let lease = pass.open();
    let code = match tree_in(lease.peek(handle)) {
        Ok(AnyTree::Line(lent)) => bounds(lent.tree, numbers),
        Ok(AnyTree::Plane(lent)) => bounds(lent.tree, numbers),
        Ok(AnyTree::Space(lent)) => bounds(lent.tree, numbers),
        Err(code) => code,
    };
    hand_back(code, lease)
}
