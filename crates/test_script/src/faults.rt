//! What a run, or a dump's check, has written when a read, a write or the flush fails.
//!
//! Each script stands beside what it prints, and beside how many bytes are read and written where an answer ends.

use crate::failing::{FailingReader, FailingWriter};
use rt_box::Capacity;
use rt_bytes::{OverWrite, RunFault, Sink, SliceReader, Status};
use rt_check_report::run_check;
use rt_shell::{Options, run};
use std::hash::RandomState;
use std::process::Abort;
use std::test::Fail;

/// A script in which nothing is refused.
#[derive(Clone, Copy)]
pub(crate) struct Script {
    pub(crate) text: &'static [u8],
    prints: &'static [u8],
    /// For each piece that prints, how many bytes are read when it has ended, and how many are written then.
    answers: &'static [(usize, usize)],
    pub(crate) capacity: u8,
}

/// Two rows, shown by ascending id.
const ROWS: Script = Script {
    text: b"CREATE VIRTUAL TABLE t USING rtree_i32(id,minX,maxX); INSERT INTO t VALUES(9,5,7); INSERT INTO t VALUES(2,-1,0); SELECT * FROM t;",
    prints: b"2|-1|0\n9|5|7\n",
    answers: &[(129, 13)],
    capacity: 51,
};

/// A view whose changes are printed.
pub(crate) const VIEW: Script = Script {
    text: b"CREATE VIRTUAL TABLE t USING rtree_i32(id,minX,maxX,+n TEXT); INSERT INTO t VALUES(1,0,5,'a');\n.watch v FROM t WHERE maxX<=5\n.view v\nINSERT OR REPLACE INTO t VALUES(1,0,9,'b'); UPDATE t SET maxX=4; UPDATE t SET n=NULL WHERE id=1; DELETE FROM t;",
    prints: b"1|0|5|'a'\n-v 1|0|5|'a'\n+v 1|0|4|'b'\n-v 1|0|4|'b'\n+v 1|0|4|NULL\n-v 1|0|4|NULL\n",
    answers: &[(133, 10), (176, 23), (197, 36), (229, 63), (244, 77)],
    capacity: 51,
};

/// A tree after insertions and removals.
const TREE: Script = Script {
    text: b"CREATE VIRTUAL TABLE t USING rtree_i32(id,minX,maxX); INSERT INTO t VALUES(1,0,0); INSERT INTO t VALUES(2,1,1); INSERT INTO t VALUES(3,2,2); INSERT INTO t VALUES(4,10,10); INSERT INTO t VALUES(5,11,11); INSERT INTO t VALUES(6,12,12); INSERT INTO t VALUES(7,3,3); INSERT INTO t VALUES(8,4,4); INSERT INTO t VALUES(9,5,5); DELETE FROM t WHERE id=1; DELETE FROM t WHERE id>=4 AND id<=5;\n.nodes t\n",
    prints: DUMP,
    answers: &[(393, 198)],
    capacity: 5,
};

pub(crate) const DUMP: &[u8] =
    b"rtree 1 5 1 3 6\nnode 1 1 - 2\ncell 2 1 2\ncell 3 3 12\nnode 2 0 1 2\ncell 2 1 1\ncell 3 2 2\nnode 3 0 1 4\ncell 7 3 3\ncell 8 4 4\ncell 9 5 5\ncell 6 12 12\nrow 2 2\nrow 3 2\nrow 6 3\nrow 7 3\nrow 8 3\nrow 9 3\nend\n";

/// How the tests run a script.
pub(crate) fn options_of(capacity: u8, bail: bool) -> Result<Options, Fail> {
    let capacity = Capacity::new(capacity).ok_or("no capacity")?;
    Ok(Options {
        capacity,
        bail,
        echo: false,
    })
}

/// Each number of bytes that the writer takes is what is written.
fn expect_fronts(
    rt: &(impl Abort + AllocGlobal),
    keys: RandomState,
    script: &Script,
    options: &Options,
) {
    for room in 0..script.prints.len() {
        let mut reader = SliceReader::new(script.text, 4096);
        let mut writer = FailingWriter::new(Sink::new(rt.alloc()));
        writer.room = room;
        let outcome = run(rt.alloc(), keys, &mut reader, &mut writer, options);
        let front = &script.prints[..room];
        assert!(rt; (outcome, writer.inner.bytes()) == (Err(RunFault::Write), front));
    }
}

/// What is written once `read` bytes are read.
fn written_after(script: &Script, read: usize) -> &'static [u8] {
    let mut written = 0;
    for (needed, count) in script.answers {
        if *needed <= read {
            written = *count;
        }
    }
    &script.prints[..written.min(script.prints.len())]
}

/// Of reads of one byte each fails in turn, that of the end too.
fn expect_complete_pieces(
    rt: &(impl Abort + AllocGlobal),
    keys: RandomState,
    script: &Script,
    options: &Options,
) {
    for read in 0..=script.text.len() {
        let mut reader = FailingReader::new(SliceReader::new(script.text, 1), read as u64);
        let mut sink = Sink::new(rt.alloc());
        let outcome = run(rt.alloc(), keys, &mut reader, &mut sink, options);
        let written = written_after(script, read);
        assert!(rt; (outcome, sink.bytes()) == (Err(RunFault::Read), written));
    }
}

/// Reads and writes of one byte change nothing, and a flush that fails comes after all bytes.
fn expect_all_bytes(
    rt: &(impl Abort + AllocGlobal),
    keys: RandomState,
    script: &Script,
    options: &Options,
) {
    let mut reader = SliceReader::new(script.text, 1);
    let mut writer = FailingWriter::new(Sink::new(rt.alloc()));
    writer.step = 1;
    let outcome = run(rt.alloc(), keys, &mut reader, &mut writer, options);
    assert!(rt; (outcome, writer.inner.bytes()) == (Ok(Status::Clean), script.prints));
    let mut reader = SliceReader::new(script.text, 4096);
    let mut writer = FailingWriter::new(Sink::new(rt.alloc()));
    writer.flushes = false;
    let outcome = run(rt.alloc(), keys, &mut reader, &mut writer, options);
    assert!(rt; (outcome, writer.inner.bytes()) == (Err(RunFault::Write), script.prints));
}

#[test]
fn a_fault_leaves_what_was_complete(rt: HostRuntime) -> Result<(), Fail> {
    let keys = RandomState::new(&rt)?;
    for script in [ROWS, VIEW, TREE] {
        let options = options_of(script.capacity, false)?;
        expect_fronts(&rt, keys, &script, &options);
        expect_complete_pieces(&rt, keys, &script, &options);
        expect_all_bytes(&rt, keys, &script, &options);
    }
    Ok(())
}

/// The writer takes ten bytes and no more, without an error of its own.
#[test]
fn a_write_that_takes_no_byte_has_failed(rt: HostRuntime) -> Result<(), Fail> {
    let keys = RandomState::new(&rt)?;
    let options = options_of(ROWS.capacity, false)?;
    let mut room = [0; 10];
    let mut reader = SliceReader::new(ROWS.text, 4096);
    let mut writer = OverWrite::new(room.as_mut_slice());
    let outcome = run(rt.alloc(), keys, &mut reader, &mut writer, &options);
    let front = b"2|-1|0\n9|5".as_slice();
    assert!(rt; (outcome, room.as_slice()) == (Err(RunFault::Write), front));
    Ok(())
}

#[test]
fn a_dump_that_is_not_read_to_its_end_is_not_reported_on(rt: HostRuntime) -> Result<(), Fail> {
    let keys = RandomState::new(&rt)?;
    for read in 0..=DUMP.len() {
        let mut reader = FailingReader::new(SliceReader::new(DUMP, 1), read as u64);
        let mut sink = Sink::new(rt.alloc());
        let outcome = run_check(rt.alloc(), keys, &mut reader, &mut sink);
        assert!(rt; (outcome, sink.bytes().is_empty()) == (Err(RunFault::Read), true));
    }
    Ok(())
}

#[test]
fn a_report_that_cannot_be_written_leaves_a_front(rt: HostRuntime) -> Result<(), Fail> {
    let keys = RandomState::new(&rt)?;
    let report = b"ok\n".as_slice();
    for room in 0..report.len() {
        let mut reader = SliceReader::new(DUMP, 1);
        let mut writer = FailingWriter::new(Sink::new(rt.alloc()));
        writer.room = room;
        let outcome = run_check(rt.alloc(), keys, &mut reader, &mut writer);
        let front = &report[..room];
        assert!(rt; (outcome, writer.inner.bytes()) == (Err(RunFault::Write), front));
    }
    let mut reader = SliceReader::new(DUMP, 1);
    let mut writer = FailingWriter::new(Sink::new(rt.alloc()));
    (writer.step, writer.flushes) = (1, false);
    let outcome = run_check(rt.alloc(), keys, &mut reader, &mut writer);
    assert!(rt; (outcome, writer.inner.bytes()) == (Err(RunFault::Write), report));
    Ok(())
}
