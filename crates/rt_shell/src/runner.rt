//! The run of a whole script.
//!
//! `specs/Run.antt` says what a run does to its reader and writer.

ghost use Rattle.std.specs.Prelude.{◌≡◌, ℕ, ◌+◌, ◌<◌, ◌^◌, true, [], length, OnOk, ◌≤◌};
ghost use Rattle.rt_shell.specs.declared.engine.Options.{Options};
ghost use Rattle.rt_shell.specs.Shell.{HasPrinted};
ghost use Rattle.rt_shell.specs.Run.{Pumps, Runs};
ghost use Rattle.rt_bytes.specs.Devices.{devices_of};

use crate::engine::{Flow, Options};
use crate::shell::Shell;
use rt_bytes::{ByteReader, ByteWriter, MOST_READS, READ_SIZE, RunFault, Status};
use std::alloc::Global;
use std::hash::RandomState;

// Reads the script to its end, or until the shell stops.
fn pump<R: ByteReader, W: ByteWriter>(
    mut shell: Shell,
    reader: &mut R,
    writer: &mut W,
) -> Result<Status, RunFault>
    ensures pumps { (options : Options) → HasPrinted options shell [] [] → Pumps options
        (devices_of R.ByteReader W.ByteWriter reader.old writer.old)
        (devices_of R.ByteReader W.ByteWriter reader.new writer.new)
        result }
    ensures reads { R.reads reader.new ≤ R.reads reader.old + 2 ^ 40 }
{
    let mut buffer = [0; READ_SIZE];
    for _turn in 0..MOST_READS {
        let count = reader.read(&mut buffer)?;
        if count == 0 {
            return Ok(shell.finish(writer)?);
        }
        match shell.feed(&buffer[..count], writer)? {
            Flow::Goes => {}
            Flow::Stops => return Ok(Status::Refused),
        }
    }
    Err(RunFault::Read)
}

/// Runs a script: reads it from the reader, and writes what its pieces print, each piece's lines before the next piece is
/// taken. A refusal is no fault: its line is printed, and the status tells of it. At the end of the input, with `bail`
/// after the first refusal, the writer is flushed once, and the run is over.
///
/// It holds a piece of the script and 4,096 bytes at a time beside the tables, and reads at most 2^40 times. The keys are
/// those of the hashes of ids; nothing that is printed depends on them.
///
/// # Errors
///
/// After a fault nothing more is read, written or flushed.
///
/// - `Memory` if the start found no memory. Nothing was read or written. If memory runs out later, a piece is refused.
/// - `Read` if a read failed, or the input hadn't ended after 2^40 reads. What was written is what the pieces print that
///   were complete before.
/// - `Write` if a write or the flush failed, or a write took no byte. What was written is a prefix of what the script
///   prints; the writer may hold back what the flush failed to pass on.
pub fn run<R: ByteReader, W: ByteWriter>(
    alloc: Global,
    keys: RandomState,
    reader: &mut R,
    writer: &mut W,
    options: &Options,
) -> Result<Status, RunFault>
    ensures runs { Runs options.now
        (devices_of R.ByteReader W.ByteWriter reader.old writer.old)
        (devices_of R.ByteReader W.ByteWriter reader.new writer.new)
        result }
    ensures reads { R.reads reader.new ≤ R.reads reader.old + 2 ^ 40 }
    ensures flushed { OnOk result (W.flushed writer.new ≡ true) }
{
    let shell = Shell::new(alloc, keys, options)?;
    let status = pump(shell, reader, writer)?;
    writer.flush()?;
    Ok(status)
}
