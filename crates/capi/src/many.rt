//! Many windows or points in a call.

ghost use Rattle.std.specs.Prelude.{◌≡◌, ◌≢◌, pos, length};
ghost use Rattle.rt_handle.specs.Passes.{IsOf, IsSame};
ghost use Rattle.rt_calls.specs.Calls.{OfTree};
ghost use Rattle.rt_calls.specs.Many.{SearchesEach, CountsEach, OfWindows, FindsNearestMany};

use rt_calls::many::{count_each_in, nearest_each_in, search_each_in};
use rt_calls::{Answer, hand_back};
use rt_handle::{Pass, Words};
use std::alloc::Global;

/// The ids of the rows that lie so to each window.
#[unsafe(no_mangle)]
pub extern "C" fn juicedelta_tree_search_many(
    alloc: Global,
    handle: &Words,
    pass: Pass,
    relation: u32,
    windows: &[i32],
    starts: &mut [u64],
    ids: &mut [i64],
    total: &mut u64,
) -> Answer
    requires { IsOf pass.at pass.held handle.now }
    ensures told { OfTree pass.held (λ D. OfWindows relation (length starts.old) windows.now
        (SearchesEach starts.old starts.new ids.old ids.new total.old total.new)) result.code }
    ensures kept { result.code ≢ pos 0 → result.code ≢ pos 8 →
        (starts.new ≡ starts.old) × (ids.new ≡ ids.old) × (total.new ≡ total.old) }
    ensures pass { IsSame pass result.pass }
{
    let lease = pass.open();
    let code = search_each_in(
        alloc,
        lease.peek(handle),
        relation,
        windows,
        starts,
        ids,
        total,
    );
    hand_back(code, lease)
}

/// The number of rows that lie so to each window.
#[unsafe(no_mangle)]
pub extern "C" fn juicedelta_tree_count_many(
    alloc: Global,
    handle: &Words,
    pass: Pass,
    relation: u32,
    windows: &[i32],
    counts: &mut [u64],
) -> Answer
    requires { IsOf pass.at pass.held handle.now }
    ensures told { OfTree pass.held (λ D. OfWindows relation (length counts.old) windows.now
        (CountsEach counts.old counts.new)) result.code }
    ensures kept { result.code ≢ pos 0 → counts.new ≡ counts.old }
    ensures pass { IsSame pass result.pass }
{
    let lease = pass.open();
    let code = count_each_in(alloc, lease.peek(handle), relation, windows, counts);
    hand_back(code, lease)
}

/// The ids of the rows nearest to each point.
#[unsafe(no_mangle)]
pub extern "C" fn juicedelta_tree_nearest_many(
    alloc: Global,
    handle: &Words,
    pass: Pass,
    points: &[i32],
    k: u64,
    starts: &mut [u64],
    ids: &mut [i64],
    total: &mut u64,
) -> Answer
    requires { IsOf pass.at pass.held handle.now }
    ensures told { OfTree pass.held (λ D. FindsNearestMany k
        starts.old starts.new ids.old ids.new total.old total.new points.now) result.code }
    ensures kept { result.code ≢ pos 0 → result.code ≢ pos 8 →
        (starts.new ≡ starts.old) × (ids.new ≡ ids.old) × (total.new ≡ total.old) }
    ensures pass { IsSame pass result.pass }
{
    let lease = pass.open();
    let code = nearest_each_in(alloc, lease.peek(handle), points, k, starts, ids, total);
    hand_back(code, lease)
}
