//! A reader and a writer that fail at a chosen point.
//!
//! The reader fails at one read and goes on after it.

ghost use Rattle.std.specs.Prelude.{◌≡◌, ◌+◌, ◌<◌, ◌≤◌, ◌⊎◌, true, false, min, length, IsErr, IfOk, OnOk, OnErr};
ghost use Rattle.std.specs.Io.{ReadsAtMost, WritesAtMost};
ghost use Rattle.std.specs.Io.KnownBytes.{Keeps, ReadConsumes, WriteAppends};
ghost use Rattle.rt_bytes.specs.Bytes.{one_more, CountsErr};

use rt_bytes::{ByteReader, ByteWriter, ReadFault, WriteFault};

/// A reader that fails at one of its reads; the others are those of the reader inside.
#[derive(Drop)]
pub struct FailingReader<R> {
    /// The reader inside.
    pub inner: R,
    /// How many reads come before the one that fails.
    pub before: u64,
    /// How many reads failed, those of the reader inside counted.
    pub failures: u64,
    /// How many reads there were.
    pub reads: u64,
}

impl<R: ByteReader> FailingReader<R> {
    /// Fails once, after `before` reads.
    pub fn new(inner: R, before: u64) -> FailingReader<R>
        ensures { result ≡ record { inner = inner; before = before; failures = 0; reads = 0 } }
    {
        FailingReader {
            inner,
            before,
            failures: 0,
            reads: 0,
        }
    }
}

impl<R: ByteReader> ByteReader for FailingReader<R> {
    ghost left = { λ r. R.left r.inner };

    ghost failures = { λ r. r.failures };

    ghost reads = { λ r. r.reads };

    fn read(&mut self, buffer: &mut [u8]) -> Result<usize, ReadFault>
        requires some { 0 < length buffer.old }
        requires few { length buffer.old ≤ 4096 }
        ensures count { ReadsAtMost result buffer.new }
        ensures bytes { ReadConsumes (R.left self.old.inner) (R.left self.new.inner) result buffer.new }
        ensures failed { CountsErr self.old.failures self.new.failures result }
        ensures turns { self.new.reads ≡ one_more self.old.reads }
        ensures fails { self.old.reads ≡ self.old.before → IsErr result × (self.new.inner ≡ self.old.inner) }
        ensures passes { OnErr result ((self.old.reads ≡ self.old.before)
            ⊎ (R.failures self.new.inner ≡ one_more (R.failures self.old.inner))) }
        ensures same { self.new.before ≡ self.old.before }
    {
        let is_due = self.reads == self.before;
        self.reads = self.reads.saturating_add(1);
        if !is_due && let Ok(count) = self.inner.read(buffer) {
            return Ok(count);
        }
        self.failures = self.failures.saturating_add(1);
        Err(ReadFault)
    }
}

/// A writer that fails once its room is used up, takes few bytes at a time, or is never flushed.
#[derive(Drop)]
pub struct FailingWriter<W> {
    /// The writer inside.
    pub inner: W,
    /// How many bytes more it takes.
    pub room: usize,
    /// How many bytes it takes at a time.
    pub step: usize,
    /// Whether it passes a flush on, which fails otherwise.
    pub flushes: bool,
    /// How many writes and flushes failed, those of the writer inside counted.
    pub faults: u64,
}

impl<W: ByteWriter> FailingWriter<W> {
    /// Passes everything on, until a field is changed.
    pub fn new(inner: W) -> FailingWriter<W>
        ensures { result.inner ≡ inner }
    {
        FailingWriter {
            inner,
            room: usize::MAX,
            step: usize::MAX,
            flushes: true,
            faults: 0,
        }
    }
}

impl<W: ByteWriter> ByteWriter for FailingWriter<W> {
    ghost written = { λ w. W.written w.inner };

    ghost faults = { λ w. w.faults };

    ghost flushed = { λ w. W.flushed w.inner };

    fn write(&mut self, bytes: &[u8]) -> Result<usize, WriteFault>
        ensures count { WritesAtMost result bytes.now }
        ensures progress { IfOk result (λ n. 0 < length bytes.now → 0 < n) }
        ensures bytes { WriteAppends (W.written self.old.inner) (W.written self.new.inner) result bytes.now }
        ensures failed { CountsErr self.old.faults self.new.faults result }
        ensures held { IfOk result (λ n. 0 < n → W.flushed self.new.inner ≡ false) }
        ensures room { IfOk result (λ n. self.new.room + n ≡ self.old.room) }
        ensures step { IfOk result (λ n. n ≤ self.old.step) }
    {
        if bytes.is_empty() {
            return Ok(0);
        }
        let most = bytes.len().min(self.room).min(self.step);
        if most > 0
            && let Ok(count) = self.inner.write(&bytes[..most])
        {
            self.room -= count;
            return Ok(count);
        }
        self.faults = self.faults.saturating_add(1);
        Err(WriteFault)
    }

    fn flush(&mut self) -> Result<(), WriteFault>
        ensures bytes { Keeps (W.written self.old.inner) (W.written self.new.inner) }
        ensures failed { CountsErr self.old.faults self.new.faults result }
        ensures passed { OnOk result (W.flushed self.new.inner ≡ true) }
        ensures fails { self.old.flushes ≡ false → IsErr result × (self.new.inner ≡ self.old.inner) }
    {
        if self.flushes && self.inner.flush().is_ok() {
            return Ok(());
        }
        self.faults = self.faults.saturating_add(1);
        Err(WriteFault)
    }
}
