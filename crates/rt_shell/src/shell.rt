//! A shell that is fed its script.
//!
//! `specs/Shell.antt` says what a shell has printed of what it was fed.

ghost use Rattle.std.specs.Prelude.{◌≡◌, ◌≤◌, ◌^◌, false, is_some};
ghost use Rattle.rt_sql_cut.specs.Cutter.{ready_piece};

use crate::engine::{Engine, Flow, Options};
use rt_bytes::{ByteWriter, RunFault, Status, WriteFault};
use std::alloc::{AllocError, Global};
use std::hash::RandomState;
use thiserror::Error;

/// How many pieces the shell can count. Each has a byte at least, so a script of `n` bytes has `n` pieces at most.
const MOST_PIECES: u64 = 1 << 63;

/// Why a shell didn't take what it was fed.
#[derive(Clone, Copy, PartialEq, Eq, Debug, Error)]
pub enum FeedFault {
    /// A write failed or took no byte, now or before.
    #[error("write fault")]
    Write,
    /// The script is longer than 2^63 bytes.
    #[error("script too long")]
    TooLong,
}

impl From<WriteFault> for FeedFault {
    ghost use Rattle.std.specs.Prelude.{◌≡◌};
    ghost use Rattle.rt_shell.specs.declared.shell.FeedFault.TheVariants.{Write};

    ghost from_gives = { λ _ fault. fault ≡ Write };

    fn from(_fault: WriteFault) -> FeedFault {
        FeedFault::Write
    }
}

impl From<FeedFault> for RunFault {
    ghost use Rattle.std.specs.Prelude.{◌≡◌};
    ghost use Rattle.rt_shell.specs.Shell.{run_fault_of};

    ghost from_gives = { λ feed run. run ≡ run_fault_of feed };

    fn from(fault: FeedFault) -> RunFault {
        match fault {
            FeedFault::Write => RunFault::Write,
            FeedFault::TooLong => RunFault::Read,
        }
    }
}

/// A script shell that is fed its script, in whatever parts: what it prints doesn't depend on them.
///
/// It holds a piece of the script beside the tables. It is over after a failed write, and with bail after the first
/// refusal: then it takes and writes nothing more, and answers the same again.
#[derive(Drop)]
pub struct Shell {
    engine: Engine,
    // How the last feed went. After anything but `Ok(Flow::Goes)` the shell is over.
    flow: Result<Flow, WriteFault>,
    ghost idle: { is_some (ready_piece engine.cutter) ≡ false },
    ghost few: { engine.pieces ≤ 2 ^ 63 },
}

impl Shell {
    ghost use Rattle.std.specs.Prelude.{◌≡◌, ℕ, List, [], IfOk};
    ghost use Rattle.rt_shell.specs.Shell.{HasPrinted, FeedsTo, EndsTo, IsOver, FeedsNoMoreTo, EndsAsBeforeTo};

    /// A shell without a table that was fed nothing.
    ///
    /// The keys are those of the hashes of ids; nothing that is printed depends on them.
    ///
    /// # Errors
    ///
    /// `AllocError` if there is no memory for the longest piece. If memory runs out later, a piece is refused.
    pub fn new(alloc: Global, keys: RandomState, options: &Options) -> Result<Shell, AllocError>
        ensures { IfOk result (λ shell. HasPrinted options.now shell [] []) }
    {
        Ok(Shell {
            engine: Engine::new(alloc, keys, options)?,
            flow: Ok(Flow::Goes),
        })
    }

    /// Takes the next bytes of the script, answers the pieces that end in them, and writes what these print, each
    /// piece's lines before the next piece is taken. The writer isn't flushed.
    ///
    /// `Stops` says that with bail a piece was refused, by these bytes or before, and that the shell is over.
    ///
    /// # Errors
    ///
    /// - `Write` if a write failed or took no byte. What was written is a prefix of what the script prints. The shell is
    ///   over, and answers this to all that it is fed from then on.
    /// - `TooLong` if with these bytes the script is longer than 2^63 bytes. They aren't taken, nothing is written, and
    ///   the shell stays as it was.
    pub fn feed<W: ByteWriter>(&mut self, bytes: &[u8], writer: &mut W) -> Result<Flow, FeedFault>
        ensures feeds { FeedsTo W.ByteWriter self.old bytes.now self.new writer.old writer.new result }
        ensures over { IsOver self.old → FeedsNoMoreTo W.ByteWriter self.old self.new writer.old writer.new result }
    {
        match self.flow? {
            Flow::Goes => {}
            Flow::Stops => return Ok(Flow::Stops),
        }
        if bytes.len() as u64 > MOST_PIECES - self.engine.pieces {
            return Err(FeedFault::TooLong);
        }
        self.flow = self.engine.take_all(bytes, writer);
        Ok(self.flow?)
    }

    /// The script has ended: answers the piece that its end ends, if it does, writes what that prints, and says
    /// whether a piece was refused. The writer isn't flushed.
    ///
    /// # Errors
    ///
    /// `WriteFault` if a write failed or took no byte, now or before. What was written is a prefix of what the script
    /// prints.
    pub fn finish<W: ByteWriter>(mut self, writer: &mut W) -> Result<Status, WriteFault>
        ensures ends { EndsTo W.ByteWriter self writer.old writer.new result }
        ensures over { IsOver self → EndsAsBeforeTo W.ByteWriter self writer.old writer.new result }
    {
        match self.flow? {
            Flow::Goes => self.engine.finish(writer),
            Flow::Stops => Ok(Status::Refused),
        }
    }
}
