//! What is read of live windows: the changes of the last edit, the rows that a window sees, and the windows.

ghost use Rattle.std.specs.Prelude.{◌≡◌, ◌≢◌, pos};
ghost use Rattle.rt_handle.specs.Passes.{IsOf, IsSame};
ghost use Rattle.rt_calls.specs.Live.{OfLive};
ghost use Rattle.rt_calls.specs.Live.{TellsChanges, TellsSeen, TellsWindows};

use rt_calls::changes::{changes_in, seen_in, windows_in};
use rt_calls::{Answer, hand_back};
use rt_handle::{Pass, Words};

/// The changes of the last edit.
#[unsafe(no_mangle)]
pub extern "C" fn juicedelta_live_changes(
    handle: &Words,
    pass: Pass,
    windows: &mut [i64],
    ids: &mut [i64],
    kinds: &mut [u8],
    total: &mut u64,
) -> Answer
    requires { IsOf pass.at pass.held handle.now }
    ensures told { OfLive pass.held (λ D. TellsChanges windows.old windows.new
        ids.old ids.new kinds.old kinds.new total.new) result.code }
    ensures kept { result.code ≢ pos 0 → result.code ≢ pos 8 →
        (windows.new ≡ windows.old) × (ids.new ≡ ids.old) × (kinds.new ≡ kinds.old) × (total.new ≡ total.old) }
    ensures pass { IsSame pass result.pass }
{
    let lease = pass.open();
    let code = changes_in(lease.peek(handle), windows, ids, kinds, total);
    hand_back(code, lease)
}

/// The ids of the rows that a window sees.
#[unsafe(no_mangle)]
pub extern "C" fn juicedelta_live_rows(
    handle: &Words,
    pass: Pass,
    window: i64,
    ids: &mut [i64],
    total: &mut u64,
) -> Answer
    requires { IsOf pass.at pass.held handle.now }
    ensures told { OfLive pass.held (λ D. TellsSeen window ids.old ids.new total.new) result.code }
    ensures kept { result.code ≢ pos 0 → result.code ≢ pos 8 → (ids.new ≡ ids.old) × (total.new ≡ total.old) }
    ensures pass { IsSame pass result.pass }
{
    let lease = pass.open();
    let code = seen_in(lease.peek(handle), window, ids, total);
    hand_back(code, lease)
}

/// The windows from a place on.
#[unsafe(no_mangle)]
pub extern "C" fn juicedelta_live_windows(
    handle: &Words,
    pass: Pass,
    from: u64,
    ids: &mut [i64],
    boxes: &mut [i32],
    total: &mut u64,
) -> Answer
    requires { IsOf pass.at pass.held handle.now }
    ensures told { OfLive pass.held (λ D. TellsWindows from ids.old ids.new boxes.old boxes.new total.new) result.code }
    ensures kept { result.code ≢ pos 0 → (ids.new ≡ ids.old) × (boxes.new ≡ boxes.old) × (total.new ≡ total.old) }
    ensures pass { IsSame pass result.pass }
{
    let lease = pass.open();
    let code = windows_in(lease.peek(handle), from, ids, boxes, total);
    hand_back(code, lease)
}
