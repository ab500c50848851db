//! A tree made of rows.

ghost use Rattle.std.specs.Prelude.{◌≡◌, ◌≢◌, pos};
ghost use Rattle.rt_calls.specs.Calls.{Opens, IsTree};
ghost use Rattle.rt_calls.specs.Packing.{IsPacked, OpensNoRows};

use rt_calls::packing::pack_any;
use rt_calls::{Code, Keys, fill};
use rt_handle::Handle;
use std::alloc::Global;

/// Opens a tree with these rows.
#[unsafe(no_mangle)]
pub extern "C" fn juicedelta_tree_open_rows(
    alloc: Global,
    handle: &mut Handle,
    axes: u32,
    capacity: u32,
    ids: &[i64],
    boxes: &[i32],
    first_key: u64,
    second_key: u64,
    at: &mut u64,
) -> i32
    ensures opened { Opens handle.old.held handle.new.held (IsTree axes (λ D. IsPacked capacity ids.now boxes.now))
        (OpensNoRows axes capacity ids.now boxes.now at.new) result }
    ensures kept { result ≢ pos 5 → result ≢ pos 6 → at.new ≡ at.old }
{
    if let Some(object) = handle.take(alloc) {
        handle.put(object);
        return Code::AlreadyOpen.number();
    }
    let keys = Keys {
        first: first_key,
        second: second_key,
    };
    match pack_any(alloc, axes, capacity, &keys, ids, boxes, at) {
        Ok(object) => fill(alloc, handle, object).number(),
        Err(code) => code.number(),
    }
}
