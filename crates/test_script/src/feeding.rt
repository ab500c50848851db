//! Scripts that are fed to a shell in parts, with bail, and to a writer that fails.

use crate::failing::FailingWriter;
use crate::faults::options_of;
use rt_bytes::{Sink, Status, WriteFault};
use rt_shell::{FeedFault, Flow, Shell};
use std::hash::RandomState;
use std::process::Abort;
use std::test::Fail;

/// Its last piece is ended by the end of the script alone.
const SCRIPT: &[u8] =
    b"CREATE VIRTUAL TABLE t USING rtree_i32(id,minX,maxX);\nINSERT INTO t VALUES(9,5,7),(2,-1,0); -- two;\n.watch v FROM t WHERE maxX<=5\nSELECT id FROM t; UPDATE t SET minX=3, maxX=4 WHERE id=9; SELECT * FROM t";

const PRINTS: &[u8] = b"2\n9\n+v 9|3|4\nrefused 6 2: incomplete input\n";

/// A size of parts, with the script, whether it has bail, what each part is answered, and what is printed.
type Fed = (usize, &'static [u8], bool, Flow, &'static [u8]);

const FED: [Fed; 4] = [
    (1, SCRIPT, false, Flow::Goes, PRINTS),
    (102, SCRIPT, false, Flow::Goes, PRINTS),
    (203, SCRIPT, false, Flow::Goes, PRINTS),
    // With bail nothing follows a refusal.
    (
        27,
        b"DROP TABLE t; DROP TABLE u;DROP TABLE v;",
        true,
        Flow::Stops,
        b"refused 1 5: no such table\n",
    ),
];

/// In each script a piece is refused.
fn expect_fed(rt: &(impl Abort + AllocGlobal), keys: RandomState, fed: Fed) -> Result<(), Fail> {
    let (size, script, bail, flow, prints) = fed;
    let mut shell = Shell::new(rt.alloc(), keys, &options_of(51, bail)?)?;
    let mut sink = Sink::new(rt.alloc());
    for part in script.chunks(size.max(1)) {
        assert!(rt; shell.feed(part, &mut sink) == Ok(flow));
    }
    assert!(rt; (shell.finish(&mut sink), sink.bytes()) == (Ok(Status::Refused), prints));
    Ok(())
}

#[test]
fn scripts_are_fed_in_parts(rt: HostRuntime) -> Result<(), Fail> {
    let keys = RandomState::new(&rt)?;
    for fed in FED {
        expect_fed(&rt, keys, fed)?;
    }
    Ok(())
}

#[test]
fn nothing_is_written_after_a_failed_write(rt: HostRuntime) -> Result<(), Fail> {
    let mut shell = Shell::new(rt.alloc(), RandomState::new(&rt)?, &options_of(51, false)?)?;
    let mut writer = FailingWriter::new(Sink::new(rt.alloc()));
    writer.room = 10;
    assert!(rt; shell.feed(b"DROP TABLE t;", &mut writer) == Err(FeedFault::Write));
    assert!(rt; writer.inner.bytes() == b"refused 1 ".as_slice());
    let mut sink = Sink::new(rt.alloc());
    assert!(rt; shell.feed(b"DROP TABLE t;", &mut sink) == Err(FeedFault::Write));
    assert!(rt; (shell.finish(&mut sink), sink.bytes().is_empty()) == (Err(WriteFault), true));
    Ok(())
}
