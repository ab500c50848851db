//! Readers and writers of bytes, whose contracts know what is left, written and counted.
//!
//! `left` and `written` are `None` if the bytes aren't known, as of a file. Contracts then speak of the counts
//! alone.

ghost use Rattle.std.specs.Prelude.{◌≡◌, ℕ, ◌<◌, ◌≤◌, Bool, true, false, List, length, IfOk, OnOk, Option};
ghost use Rattle.std.specs.Io.{ReadsAtMost, WritesAtMost};
ghost use Rattle.std.specs.Io.KnownBytes.{ReadConsumes, WriteAppends, Keeps};
ghost use Rattle.rt_bytes.specs.Bytes.{one_more, CountsErr};

use thiserror::Error;

/// A read failed.
#[derive(Clone, Copy, PartialEq, Eq, Debug, Error)]
#[error("read fault")]
pub struct ReadFault;

/// A write or a flush failed, or a write took no byte.
#[derive(Clone, Copy, PartialEq, Eq, Debug, Error)]
#[error("write fault")]
pub struct WriteFault;

/// A source of bytes.
pub trait ByteReader {
    // The bytes that reads will give from here on, if they are known (of a file they aren't).
    ghost left: { Self → Option (List ℕ) };

    // How many reads failed; the count stays at 2^64 - 1.
    ghost failures: { Self → ℕ };

    // How many reads there were; the count stays at 2^64 - 1.
    ghost reads: { Self → ℕ };

    /// Fills a prefix of `buffer` and answers its length; `Ok(0)` is the end.
    fn read(&mut self, buffer: &mut [u8]) -> Result<usize, ReadFault>
        requires some { 0 < length buffer.old }
        requires few { length buffer.old ≤ 4096 }
        ensures count { ReadsAtMost result buffer.new }
        ensures bytes { ReadConsumes (left self.old) (left self.new) result buffer.new }
        ensures failed { CountsErr (failures self.old) (failures self.new) result }
        ensures turns { reads self.new ≡ one_more (reads self.old) };
}

/// Where bytes go.
pub trait ByteWriter {
    // The bytes written so far, if they are known.
    ghost written: { Self → Option (List ℕ) };

    // How many writes and flushes failed; the count stays at 2^64 - 1.
    ghost faults: { Self → ℕ };

    // Whether a flush succeeded and no byte was written since.
    ghost flushed: { Self → Bool };

    /// Writes a prefix of `bytes` and answers its length, which is 0 only if there are no bytes. An `Err` has written
    /// nothing.
    fn write(&mut self, bytes: &[u8]) -> Result<usize, WriteFault>
        ensures count { WritesAtMost result bytes.now }
        ensures progress { IfOk result (λ n. 0 < length bytes.now → 0 < n) }
        ensures bytes { WriteAppends (written self.old) (written self.new) result bytes.now }
        ensures failed { CountsErr (faults self.old) (faults self.new) result }
        ensures held { IfOk result (λ n. 0 < n → flushed self.new ≡ false) };

    /// Passes on what the writer still holds back.
    fn flush(&mut self) -> Result<(), WriteFault>
        ensures bytes { Keeps (written self.old) (written self.new) }
        ensures failed { CountsErr (faults self.old) (faults self.new) result }
        ensures passed { OnOk result (flushed self.new ≡ true) };
}
