//! Many rows inserted in a call.

ghost use Rattle.std.specs.Prelude.{◌≡◌, ◌≢◌, pos};
ghost use Rattle.rt_calls.specs.Calls.{OnTree};
ghost use Rattle.rt_calls.specs.Insertion.{InsertsAll};

use rt_calls::Code;
use rt_calls::insertion::insert_rows_into;
use rt_handle::Handle;
use std::alloc::Global;

/// Inserts rows, in their order, or none.
#[unsafe(no_mangle)]
pub extern "C" fn juicedelta_tree_insert_rows(
    alloc: Global,
    handle: &mut Handle,
    ids: &[i64],
    boxes: &[i32],
    at: &mut u64,
) -> i32
    ensures rows { OnTree handle.old.held handle.new.held
        (λ D old. InsertsAll ids.now boxes.now at.new old.tree) result }
    ensures kept { result ≢ pos 5 → result ≢ pos 6 → at.new ≡ at.old }
{
    let Some(mut object) = handle.take(alloc) else {
        return Code::Closed.number();
    };
    let code = insert_rows_into(alloc, &mut object, ids, boxes, at);
    handle.put(object);
    code.number()
}
