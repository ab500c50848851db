//! How a handle is closed.

ghost use Rattle.rt_calls.specs.Calls.{Closes};

use rt_calls::close;
use rt_handle::Handle;
use std::alloc::Global;

/// Frees what the handle holds.
#[unsafe(no_mangle)]
pub extern "C" fn juicedelta_close(alloc: Global, handle: &mut Handle) -> i32
    ensures { Closes handle.old.held handle.new.held result }
{
    close(alloc, handle).number()
}
