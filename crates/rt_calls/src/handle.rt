//! How an object gets into a handle, and how it is freed.

ghost use Rattle.std.specs.Prelude.{◌≡◌, None};
ghost use Rattle.rt_calls.specs.Calls.{Closes, Fills};
ghost use Rattle.rt_calls.specs.Codes.{number_of};

use crate::code::Code;
use rt_handle::{Handle, Object};
use std::alloc::Global;

/// Puts an object into a closed handle.
pub fn fill(alloc: Global, handle: &mut Handle, object: Object) -> Code
    requires { handle.old.held ≡ None }
    ensures { Fills object handle.new.held result }
{
    match Box::new(alloc, object) {
        Ok(object) => {
            handle.put(object);
            Code::Done
        }
        Err(refused) => {
            drop(refused);
            Code::OutOfMemory
        }
    }
}

/// Frees what the handle holds.
pub fn close(alloc: Global, handle: &mut Handle) -> Code
    ensures { Closes handle.old.held handle.new.held (number_of result) }
{
    match handle.take(alloc) {
        Some(object) => {
            drop(object);
            Code::Done
        }
        None => Code::Closed,
    }
}
