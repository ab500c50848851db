//! A reader and a writer over memory.
//!
//! All of their bytes are known (`specs/Memory.antt`). The reader never fails, and the writer fails only for want
//! of memory.

ghost use Rattle.std.specs.Prelude.{◌≡◌, ◌<◌, true, false, [], ◌++◌, Some, length, min, IfOk, OnOk, OnErr, IsOk};
ghost use Rattle.std.specs.Io.{ReadsAtMost};
ghost use Rattle.std.specs.Io.KnownBytes.{ReadConsumes};
ghost use Rattle.rt_bytes.specs.Bytes.{one_more, CountsErr};

use crate::counts::count_one;
use crate::device::{ByteReader, ByteWriter, ReadFault, WriteFault};
use std::alloc::Global;
use std::marker::Model;

/// A reader over a slice, of which each read gives at most a chosen number of bytes.
///
/// ```
/// let mut reader = SliceReader::new(b"abc", 2);
/// let mut buffer = [0u8; 4];
/// assert_eq!(rt; reader.read(&mut buffer), Ok(2));
/// assert_eq!(rt; reader.left(), b"c".as_slice());
/// ```
#[derive(Drop)]
pub struct SliceReader<'a> {
    rest: &'a [u8],
    most: usize,
    reads: u64,
}

impl<'a> Model for SliceReader<'a> {
    ghost use Rattle.std.specs.Prelude.{◌<◌};
    ghost use Rattle.rt_bytes.specs.Memory.{Reading};

    ghost Value = { Reading };

    ghost view = { λ r. record { left = r.rest.now; most = r.most; reads = r.reads } };

    ghost invariant = { λ r. 0 < r.most };
}

impl<'a> SliceReader<'a> {
    /// Reads `bytes`, at most `most` of them at a time.
    pub fn new(bytes: &'a [u8], most: usize) -> SliceReader<'a>
        requires { 0 < most }
        ensures { result ≡ record { left = bytes.now; most = most; reads = 0 } }
    {
        SliceReader {
            rest: bytes,
            most,
            reads: 0,
        }
    }

    /// The bytes that no read has given yet.
    pub fn left(&self) -> &[u8]
        ensures { result.now ≡ self.now.left }
    {
        self.rest
    }

    /// How many reads there were.
    pub fn reads(&self) -> u64
        ensures { result ≡ self.now.reads }
    {
        self.reads
    }
}

impl<'a> ByteReader for SliceReader<'a> {
    ghost left = { λ r. Some r.left };

    ghost failures = { λ _. 0 };

    ghost reads = { λ r. r.reads };

    fn read(&mut self, buffer: &mut [u8]) -> Result<usize, ReadFault>
        ensures count { ReadsAtMost result buffer.new }
        ensures bytes { ReadConsumes (Some self.old.left) (Some self.new.left) result buffer.new }
        ensures failed { CountsErr 0 0 result }
        ensures turns { self.new.reads ≡ one_more self.old.reads }
        ensures most { self.new.most ≡ self.old.most }
        ensures given { result ≡ Ok (min (min (length buffer.old) self.old.most) (length self.old.left)) }
    {
        let count = buffer.len().min(self.most).min(self.rest.len());
        let (front, rest) = self.rest.split_at(count);
        buffer[..count].copy_from_slice(front);
        self.rest = rest;
        count_one(&mut self.reads);
        Ok(count)
    }
}

/// A writer into a `Vec`. A write for which there is no memory is a fault.
#[derive(Drop)]
pub struct Sink {
    bytes: Vec<u8>,
    faults: u64,
    flushed: bool,
}

impl Model for Sink {
    ghost use Rattle.rt_bytes.specs.Memory.{Written};

    ghost Value = { Written };

    ghost view = { λ s. record { bytes = s.bytes.items; faults = s.faults; flushed = s.flushed } };
}

impl Sink {
    /// Nothing is written yet.
    pub fn new(alloc: Global) -> Sink
        ensures { result ≡ record { bytes = []; faults = 0; flushed = false } }
    {
        Sink {
            bytes: Vec::new(alloc),
            faults: 0,
            flushed: false,
        }
    }

    /// The bytes written so far.
    pub fn bytes(&self) -> &[u8]
        ensures { result.now ≡ self.now.bytes }
    {
        self.bytes.as_slice()
    }

    /// The bytes written, without a copy.
    pub fn into_bytes(self) -> Vec<u8>
        ensures { result.items ≡ self.bytes }
    {
        let Sink {
            bytes,
            faults: _,
            flushed: _,
        } = self;
        bytes
    }

    /// How many writes found no memory.
    pub fn faults(&self) -> u64
        ensures { result ≡ self.now.faults }
    {
        self.faults
    }
}

impl ByteWriter for Sink {
    ghost written = { λ s. Some s.bytes };

    ghost faults = { λ s. s.faults };

    ghost flushed = { λ s. s.flushed };

    fn write(&mut self, bytes: &[u8]) -> Result<usize, WriteFault>
        ensures ok { OnOk result (self.new.bytes ≡ self.old.bytes ++ bytes.now) }
        ensures err { OnErr result (self.new.bytes ≡ self.old.bytes) }
        ensures count { IfOk result (λ n. n ≡ length bytes.now) }
        ensures failed { CountsErr self.old.faults self.new.faults result }
        ensures held { self.new.flushed ≡ false }
    {
        self.flushed = false;
        match self.bytes.extend_from_slice(bytes) {
            Ok(()) => Ok(bytes.len()),
            Err(_) => {
                count_one(&mut self.faults);
                Err(WriteFault)
            }
        }
    }

    fn flush(&mut self) -> Result<(), WriteFault>
        ensures ok { IsOk result }
        ensures passed { self.new ≡ record self.old { flushed = true } }
    {
        self.flushed = true;
        Ok(())
    }
}
