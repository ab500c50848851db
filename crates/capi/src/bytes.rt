//! Trees as bytes.

ghost use Rattle.std.specs.Prelude.{◌≡◌, ◌≢◌, pos};
ghost use Rattle.rt_handle.specs.Passes.{IsOf, IsSame};
ghost use Rattle.rt_calls.specs.Bytes.{WritesBytes, OpensAgain, IsOfBytes, OpensNoBytes};
ghost use Rattle.rt_calls.specs.Calls.{OfTree, Opens, IsTree};

use rt_calls::bytes::{read_any, write_bytes};
use rt_calls::{Answer, AnyTree, Code, Keys, fill, hand_back, tree_in};
use rt_handle::{Handle, Pass, Words};
use std::alloc::Global;

/// Opens the tree with these bytes.
#[unsafe(no_mangle)]
pub extern "C" fn juicedelta_tree_open_bytes(
    alloc: Global,
    handle: &mut Handle,
    axes: u32,
    bytes: &[u8],
    first_key: u64,
    second_key: u64,
) -> i32
    ensures { Opens handle.old.held handle.new.held (IsTree axes (λ D. IsOfBytes bytes.now))
        (OpensNoBytes axes bytes.now) result }
{
    if let Some(object) = handle.take(alloc) {
        handle.put(object);
        return Code::AlreadyOpen.number();
    }
    let keys = Keys {
        first: first_key,
        second: second_key,
    };
    match read_any(alloc, axes, &keys, bytes) {
        Ok(object) => fill(alloc, handle, object).number(),
        Err(code) => code.number(),
    }
}

/// The tree as bytes.
#[unsafe(no_mangle)]
pub extern "C" fn juicedelta_tree_to_bytes(
    alloc: Global,
    handle: &Words,
    pass: Pass,
    bytes: &mut [u8],
    total: &mut u64,
) -> Answer
    requires { IsOf pass.at pass.held handle.now }
    ensures told { OfTree pass.held (λ D. WritesBytes bytes.old bytes.new total.old total.new) result.code }
    ensures again { OfTree pass.held (λ D. OpensAgain) result.code }
    ensures kept { result.code ≢ pos 0 → result.code ≢ pos 8 → (bytes.new ≡ bytes.old) × (total.new ≡ total.old) }
    ensures pass { IsSame pass result.pass }
{
    let lease = pass.open();
    let code = match tree_in(lease.peek(handle)) {
        Ok(AnyTree::Line(lent)) => write_bytes(alloc, lent.tree, bytes, total),
        Ok(AnyTree::Plane(lent)) => write_bytes(alloc, lent.tree, bytes, total),
        Ok(AnyTree::Space(lent)) => write_bytes(alloc, lent.tree, bytes, total),
        Err(code) => code,
    };
    hand_back(code, lease)
}
