//! The pairs of rows whose boxes touch.

ghost use Rattle.std.specs.Prelude.{◌≡◌, ◌≢◌, pos};
ghost use Rattle.rt_handle.specs.Passes.{IsOf, IsSame};
ghost use Rattle.rt_calls.specs.Calls.{OfTree};
ghost use Rattle.rt_calls.specs.Pairs.{OfTrees, Joins, JoinsItself};

use rt_calls::pairs::{join_held, join_self_in};
use rt_calls::{Answer, PairAnswer, hand_back, hand_back_both};
use rt_handle::{Pass, Words};
use std::alloc::Global;

/// The pairs of rows of two trees whose boxes touch.
#[unsafe(no_mangle)]
pub extern "C" fn juicedelta_tree_join(
    alloc: Global,
    one: &Words,
    one_pass: Pass,
    other: &Words,
    other_pass: Pass,
    left: &mut [i64],
    right: &mut [i64],
    total: &mut u64,
) -> PairAnswer
    requires one { IsOf one_pass.at one_pass.held one.now }
    requires other { IsOf other_pass.at other_pass.held other.now }
    ensures joined { OfTrees one_pass.held other_pass.held
        (λ D. Joins left.old left.new right.old right.new total.old total.new) result.code }
    ensures kept { result.code ≢ pos 0 → result.code ≢ pos 8 →
        (left.new ≡ left.old) × (right.new ≡ right.old) × (total.new ≡ total.old) }
    ensures one { IsSame one_pass result.one }
    ensures other { IsSame other_pass result.other }
{
    let one_lease = one_pass.open();
    let other_lease = other_pass.open();
    let code = join_held(
        alloc,
        one_lease.peek(one),
        other_lease.peek(other),
        left,
        right,
        total,
    );
    hand_back_both(code, one_lease, other_lease)
}

/// The pairs of different rows of a tree whose boxes touch.
#[unsafe(no_mangle)]
pub extern "C" fn juicedelta_tree_join_self(
    alloc: Global,
    handle: &Words,
    pass: Pass,
    left: &mut [i64],
    right: &mut [i64],
    total: &mut u64,
) -> Answer
    requires { IsOf pass.at pass.held handle.now }
    ensures told { OfTree pass.held
        (λ D. JoinsItself left.old left.new right.old right.new total.old total.new) result.code }
    ensures kept { result.code ≢ pos 0 → result.code ≢ pos 8 →
        (left.new ≡ left.old) × (right.new ≡ right.old) × (total.new ≡ total.old) }
    ensures pass { IsSame pass result.pass }
{
    let lease = pass.open();
    let code = join_self_in(alloc, lease.peek(handle), left, right, total);
    hand_back(code, lease)
}
