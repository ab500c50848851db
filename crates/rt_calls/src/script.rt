//! Script shells.

ghost use Rattle.std.specs.Prelude.{◌≡◌, ◌≢◌};
ghost use Rattle.rt_calls.specs.declared.code.Code.TheVariants.{Done};
ghost use Rattle.rt_calls.specs.Scripts.{MakesScript, Executes, Finishes, FinishesTelling, HasLength};

use crate::code::Code;
use crate::keys::Keys;
use rt_box::Capacity;
use rt_bytes::{Sink, Status};
use rt_handle::{Object, Script};
use rt_shell::{FeedFault, Options, Shell};
use std::alloc::Global;
use std::hash::RandomState;
use std::mem::replace;

/// A shell without input so far.
pub fn new_script(alloc: Global, capacity: u32, keys: &Keys) -> Result<Object, Code>
    ensures { MakesScript capacity result }
{
    let Ok(greatest) = u8::try_from(capacity) else {
        return Err(Code::BadCapacity);
    };
    let Some(capacity) = Capacity::new(greatest) else {
        return Err(Code::BadCapacity);
    };
    let Ok(keys) = RandomState::new(keys) else {
        return Err(Code::OutOfMemory);
    };
    let options = Options {
        capacity,
        bail: false,
        echo: false,
    };
    match Shell::new(alloc, keys, &options) {
        Ok(shell) => Ok(Object::Script(Script {
            shell: Some(shell),
            output: Sink::new(alloc),
        })),
        Err(_) => Err(Code::OutOfMemory),
    }
}

/// Feeds the shell the next bytes of its script.
pub fn execute(script: &mut Script, bytes: &[u8]) -> Code
    ensures { Executes bytes.now script.old script.new result }
{
    let Some(shell) = &mut script.shell else {
        return Code::Ended;
    };
    match shell.feed(bytes, &mut script.output) {
        Ok(_) => Code::Done,
        Err(FeedFault::Write) => Code::OutOfMemory,
        Err(FeedFault::TooLong) => Code::TooLong,
    }
}

/// Ends the script.
fn finish(script: &mut Script) -> Result<Status, Code>
    ensures { Finishes script.old script.new result }
{
    let Some(shell) = replace(&mut script.shell, None) else {
        return Err(Code::Ended);
    };
    match shell.finish(&mut script.output) {
        Ok(status) => Ok(status),
        Err(_) => Err(Code::OutOfMemory),
    }
}

/// Ends the script, and tells whether any of its statements was refused.
pub fn finish_telling(script: &mut Script, refused: &mut u32) -> Code
    ensures finished { FinishesTelling refused.new script.old script.new result }
    ensures kept { result ≢ Done → refused.new ≡ refused.old }
{
    match finish(script) {
        Ok(Status::Clean) => {
            *refused = 0;
            Code::Done
        }
        Ok(Status::Refused) => {
            *refused = 1;
            Code::Done
        }
        Err(code) => code,
    }
}

/// Writes the length of the output.
pub fn measure(script: &Script, length: &mut u64) -> Code
    ensures { HasLength length.new script.now result }
{
    *length = script.output.bytes().len() as u64;
    Code::Done
}
