//! Tests of the readers and writers of `rt_bytes`, and of those of `failing` over them.
//!
//! After each call the test compares the bytes and the counts, of which the contracts speak.

use crate::failing::{FailingReader, FailingWriter};
use rt_bytes::{
    ByteReader, ByteWriter, OverRead, OverWrite, ReadFault, RunFault, Sink, SliceReader,
    WriteFault, write_parts, write_whole,
};
use std::alloc::AllocError;
use std::io::Cursor;
use std::test::Fail;

#[test]
fn a_slice_is_read_in_small_reads_of_which_one_may_fail(rt: HostRuntime) {
    let mut buffer = [0u8; 4];
    let mut reader = SliceReader::new(b"abc", 2);
    assert!(rt; (reader.read(&mut buffer), reader.left()) == (Ok(2), b"c".as_slice()));
    assert!(rt; (reader.read(&mut buffer), buffer[0]) == (Ok(1), b'c'));
    assert!(rt; (reader.read(&mut buffer), reader.reads()) == (Ok(0), 3));
    let mut reader = FailingReader::new(SliceReader::new(b"abc", 2), 1);
    assert!(rt; (reader.read(&mut buffer), reader.read(&mut buffer)) == (Ok(2), Err(ReadFault)));
    assert!(rt; (reader.read(&mut buffer), reader.failures, reader.reads) == (Ok(1), 1, 3));
}

#[test]
fn a_front_is_written_before_a_fault(rt: HostRuntime) {
    let mut writer = FailingWriter::new(Sink::new(rt.alloc()));
    writer.step = 1;
    assert!(rt; write_whole(&mut writer, b"row") == Ok(()));
    assert!(rt; write_parts(&mut writer, &[b" ", b"12", b"", b"\n"]) == Ok(()));
    assert!(rt; (writer.flush(), writer.inner.faults()) == (Ok(()), 0));
    assert!(rt; writer.inner.into_bytes().as_slice() == b"row 12\n".as_slice());
    let mut writer = FailingWriter::new(Sink::new(rt.alloc()));
    writer.room = 4;
    assert!(rt;
        (write_parts(&mut writer, &[b"row", b" 12"]), writer.faults) == (Err(WriteFault), 1)
    );
    assert!(rt; writer.inner.bytes() == b"row ".as_slice());
    let mut writer = FailingWriter::new(writer.inner);
    writer.flushes = false;
    assert!(rt; write_whole(&mut writer, b"1") == Ok(()));
    assert!(rt; (writer.flush(), writer.faults) == (Err(WriteFault), 1));
    assert!(rt; writer.inner.bytes() == b"row 1".as_slice());
}

#[test]
fn stds_readers_and_writers_are_laid_over(rt: HostRuntime) {
    let mut reader = OverRead::new(Cursor::new(b"abc".as_slice()));
    let read = reader.read(&mut [0u8; 2]);
    assert!(rt; (read, reader.reads(), reader.failures()) == (Ok(2), 1, 0));
    assert!(rt; reader.into_inner().position() == 2);
    let mut writer = OverWrite::new(Vec::<u8>::new(rt.alloc()));
    let written = write_whole(&mut writer, b"abc");
    assert!(rt; (written, writer.flush(), writer.faults()) == (Ok(()), Ok(()), 0));
    assert!(rt; writer.into_inner().as_slice() == b"abc".as_slice());
}

#[test]
fn faults_become_those_of_a_run(rt: HostRuntime) -> Result<(), Fail> {
    let (read, write, run) = (ReadFault, WriteFault, RunFault::Memory);
    assert!(rt; (RunFault::from(read), RunFault::from(write)) == (RunFault::Read, RunFault::Write));
    assert!(rt; RunFault::from(AllocError) == run);
    let words = format!(in rt.alloc(); "{read}, {write}, {run}")?;
    assert!(rt; words.as_str() == "read fault, write fault, out of memory");
    Ok(())
}
