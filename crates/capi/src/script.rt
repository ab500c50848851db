//! Script shells.

ghost use Rattle.std.specs.Prelude.{◌≡◌, ◌≢◌, pos};
ghost use Rattle.rt_handle.specs.Passes.{IsOf, IsSame};
ghost use Rattle.rt_calls.specs.Calls.{Opens, OnScript, OfScript, IsScript};
ghost use Rattle.rt_calls.specs.Scripts.{IsNewScript, Executes, FinishesTelling, HasLength, CopiesOutput, DropsOutput};
ghost use Rattle.rt_calls.specs.Trees.{MakesNone};

use rt_bytes::Sink;
use rt_calls::script::{execute, finish_telling, measure, new_script};
use rt_calls::{Answer, Code, Keys, copy_to, fill, hand_back};
use rt_handle::{Handle, Object, Pass, Words};
use std::alloc::Global;

/// Opens a script shell.
#[unsafe(no_mangle)]
pub extern "C" fn juicedelta_script_open(
    alloc: Global,
    handle: &mut Handle,
    capacity: u32,
    first_key: u64,
    second_key: u64,
) -> i32
    ensures { Opens handle.old.held handle.new.held (IsScript (IsNewScript capacity)) (MakesNone capacity) result }
{
    if let Some(object) = handle.take(alloc) {
        handle.put(object);
        return Code::AlreadyOpen.number();
    }
    let keys = Keys {
        first: first_key,
        second: second_key,
    };
    match new_script(alloc, capacity, &keys) {
        Ok(object) => fill(alloc, handle, object).number(),
        Err(code) => code.number(),
    }
}

/// Feeds the shell the next bytes of its script.
#[unsafe(no_mangle)]
pub extern "C" fn juicedelta_script_exec(alloc: Global, handle: &mut Handle, bytes: &[u8]) -> i32
    ensures { OnScript handle.old.held handle.new.held (Executes bytes.now) result }
{
    let Some(mut object) = handle.take(alloc) else {
        return Code::Closed.number();
    };
    let code = match &mut *object {
        Object::Script(script) => execute(script, bytes),
        _ => Code::OtherKind,
    };
    handle.put(object);
    code.number()
}

/// Ends the script.
#[unsafe(no_mangle)]
pub extern "C" fn juicedelta_script_finish(
    alloc: Global,
    handle: &mut Handle,
    refused: &mut u32,
) -> i32
    ensures finished { OnScript handle.old.held handle.new.held (FinishesTelling refused.new) result }
    ensures kept { result ≢ pos 0 → refused.new ≡ refused.old }
{
    let Some(mut object) = handle.take(alloc) else {
        return Code::Closed.number();
    };
    let code = match &mut *object {
        Object::Script(script) => finish_telling(script, refused),
        _ => Code::OtherKind,
    };
    handle.put(object);
    code.number()
}

/// The length of the output.
#[unsafe(no_mangle)]
pub extern "C" fn juicedelta_script_output_length(
    handle: &Words,
    pass: Pass,
    length: &mut u64,
) -> Answer
    requires { IsOf pass.at pass.held handle.now }
    ensures counted { OfScript pass.held (HasLength length.new) result.code }
    ensures kept { result.code ≢ pos 0 → length.new ≡ length.old }
    ensures pass { IsSame pass result.pass }
{
    let lease = pass.open();
    let code = match lease.peek(handle) {
        None => Code::Closed,
        Some(Object::Script(script)) => measure(script, length),
        Some(_) => Code::OtherKind,
    };
    hand_back(code, lease)
}

/// Copies the output.
#[unsafe(no_mangle)]
pub extern "C" fn juicedelta_script_output(handle: &Words, pass: Pass, buffer: &mut [u8]) -> Answer
    requires { IsOf pass.at pass.held handle.now }
    ensures copied { OfScript pass.held (CopiesOutput buffer.old buffer.new) result.code }
    ensures kept { result.code ≢ pos 0 → buffer.new ≡ buffer.old }
    ensures pass { IsSame pass result.pass }
{
    let lease = pass.open();
    let code = match lease.peek(handle) {
        None => Code::Closed,
        Some(Object::Script(script)) => copy_to(script.output.bytes(), buffer),
        Some(_) => Code::OtherKind,
    };
    hand_back(code, lease)
}

/// Drops the output.
#[unsafe(no_mangle)]
pub extern "C" fn juicedelta_script_drop_output(alloc: Global, handle: &mut Handle) -> i32
    ensures { OnScript handle.old.held handle.new.held DropsOutput result }
{
    let Some(mut object) = handle.take(alloc) else {
        return Code::Closed.number();
    };
    let code = match &mut *object {
        Object::Script(script) => {
            script.output = Sink::new(alloc);
            Code::Done
        }
        _ => Code::OtherKind,
    };
    handle.put(object);
    code.number()
}
