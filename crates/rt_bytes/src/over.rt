//! Readers and writers laid over those of std.
//!
//! They add the counts, and turn each error of std into a `ReadFault` or a `WriteFault`. A call that failed isn't
//! tried again.

ghost use Rattle.std.specs.Prelude.{◌≡◌};
ghost use Rattle.rt_bytes.specs.Bytes.{one_more};

use crate::counts::{count_one, pass_on, pass_on_write};
use crate::device::{ByteReader, ByteWriter, ReadFault, WriteFault};
use std::io::{Read, Write};

/// A reader over one of std's: what it has left is what that one has left.
///
/// ```
/// let mut reader = OverRead::new(File::open(&rt, "dump.txt")?);
/// let mut buffer = [0; READ_SIZE];
/// let count = reader.read(&mut buffer)?;
/// ```
#[derive(Drop)]
pub struct OverRead<R> {
    inner: R,
    failures: u64,
    reads: u64,
}

impl<R: Read> OverRead<R> {
    /// Nothing is read and no failure counted yet.
    pub fn new(inner: R) -> OverRead<R>
        ensures left { ⟦<OverRead<R> as ByteReader>⟧.left result ≡ R.remaining inner }
        ensures failures { ⟦<OverRead<R> as ByteReader>⟧.failures result ≡ 0 }
        ensures reads { ⟦<OverRead<R> as ByteReader>⟧.reads result ≡ 0 }
    {
        OverRead {
            inner,
            failures: 0,
            reads: 0,
        }
    }

    /// The reader below.
    pub fn into_inner(self) -> R
        ensures { R.remaining result ≡ ⟦<OverRead<R> as ByteReader>⟧.left self }
    {
        let OverRead {
            inner,
            failures: _,
            reads: _,
        } = self;
        inner
    }

    /// How many reads failed.
    pub fn failures(&self) -> u64
        ensures { result ≡ ⟦<OverRead<R> as ByteReader>⟧.failures self.now }
    {
        self.failures
    }

    /// How many reads there were.
    pub fn reads(&self) -> u64
        ensures { result ≡ ⟦<OverRead<R> as ByteReader>⟧.reads self.now }
    {
        self.reads
    }
}

impl<R: Read> ByteReader for OverRead<R> {
    ghost left = { λ r. R.remaining r.inner };

    ghost failures = { λ r. r.failures };

    ghost reads = { λ r. r.reads };

    fn read(&mut self, buffer: &mut [u8]) -> Result<usize, ReadFault> {
        count_one(&mut self.reads);
        let answer = self.inner.read(buffer);
        pass_on(&mut self.failures, answer, ReadFault)
    }
}

/// A writer over one of std's: what is written is what that one holds.
///
/// A write of bytes that took none of them is an `Err`.
///
/// ```
/// let mut writer = OverWrite::new(io::writer(&rt));
/// write_whole(&mut writer, b"ok\n")?;
/// writer.flush()?;
/// ```
#[derive(Drop)]
pub struct OverWrite<W> {
    inner: W,
    faults: u64,
    flushed: bool,
}

impl<W: Write> OverWrite<W> {
    /// No fault is counted yet.
    pub fn new(inner: W) -> OverWrite<W>
        ensures written { ⟦<OverWrite<W> as ByteWriter>⟧.written result ≡ W.contents inner }
        ensures faults { ⟦<OverWrite<W> as ByteWriter>⟧.faults result ≡ 0 }
    {
        OverWrite {
            inner,
            faults: 0,
            flushed: false,
        }
    }

    /// The writer below.
    pub fn into_inner(self) -> W
        ensures { W.contents result ≡ ⟦<OverWrite<W> as ByteWriter>⟧.written self }
    {
        let OverWrite {
            inner,
            faults: _,
            flushed: _,
        } = self;
        inner
    }

    /// How many writes and flushes failed.
    pub fn faults(&self) -> u64
        ensures { result ≡ ⟦<OverWrite<W> as ByteWriter>⟧.faults self.now }
    {
        self.faults
    }
}

impl<W: Write> ByteWriter for OverWrite<W> {
    ghost written = { λ w. W.contents w.inner };

    ghost faults = { λ w. w.faults };

    ghost flushed = { λ w. w.flushed };

    fn write(&mut self, bytes: &[u8]) -> Result<usize, WriteFault> {
        self.flushed = false;
        let answer = self.inner.write(bytes);
        pass_on_write(&mut self.faults, bytes.len(), answer, WriteFault)
    }

    fn flush(&mut self) -> Result<(), WriteFault> {
        let answer = self.inner.flush();
        self.flushed = answer.is_ok();
        pass_on(&mut self.faults, answer, WriteFault)
    }
}
