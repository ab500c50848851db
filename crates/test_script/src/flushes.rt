//! A writer of std's that counts its flushes, and what writes to it.

use crate::faults::{DUMP, VIEW, options_of};
use rt_bytes::{OverWrite, RunFault, SliceReader, Status};
use rt_check_draw::{Choice, run_draw};
use rt_check_report::run_check;
use rt_shell::run;
use std::hash::RandomState;
use std::io::{self, Write};
use std::process::Abort;
use std::test::Fail;

/// Passes everything on to the writer inside, and counts the flushes and the writes since the last one.
#[derive(Drop)]
struct FlushCounter<W> {
    inner: W,
    /// How many flushes succeeded.
    flushes: u64,
    /// How many writes came since the last of them.
    writes_since: u64,
}

impl<W: Write> Write for FlushCounter<W> {
    ghost contents = { λ w. W.contents w.inner };

    fn write(&mut self, bytes: &[u8]) -> io::Result<usize> {
        self.writes_since = self.writes_since.saturating_add(1);
        self.inner.write(bytes)
    }

    fn flush(&mut self) -> io::Result<()> {
        self.inner.flush()?;
        self.flushes = self.flushes.saturating_add(1);
        self.writes_since = 0;
        Ok(())
    }
}

/// A writer to which nothing was written yet.
fn counting(rt: &impl AllocGlobal) -> OverWrite<FlushCounter<Vec<u8>>> {
    OverWrite::new(FlushCounter {
        inner: Vec::new(rt.alloc()),
        flushes: 0,
        writes_since: 0,
    })
}

/// The run has ended well, and the writer was flushed once, after all writes.
fn expect_flushed(
    rt: &impl Abort,
    outcome: Result<Status, RunFault>,
    writer: OverWrite<FlushCounter<Vec<u8>>>,
) {
    let counter = writer.into_inner();
    assert!(rt; (outcome, counter.inner.is_empty()) == (Ok(Status::Clean), false));
    assert!(rt; (counter.flushes, counter.writes_since) == (1, 0));
}

#[test]
fn the_end_of_a_script_a_report_and_a_picture_flushes(rt: HostRuntime) -> Result<(), Fail> {
    let keys = RandomState::new(&rt)?;
    let options = options_of(VIEW.capacity, false)?;
    let mut reader = SliceReader::new(VIEW.text, 4096);
    let mut writer = counting(&rt);
    let outcome = run(rt.alloc(), keys, &mut reader, &mut writer, &options);
    expect_flushed(&rt, outcome, writer);

    let mut reader = SliceReader::new(DUMP, 4096);
    let mut writer = counting(&rt);
    let outcome = run_check(rt.alloc(), keys, &mut reader, &mut writer);
    expect_flushed(&rt, outcome, writer);

    let choice = Choice {
        axes: None,
        lowest: 0,
        highest: u8::MAX,
        all: false,
    };
    let mut reader = SliceReader::new(DUMP, 4096);
    let mut writer = counting(&rt);
    let outcome = run_draw(rt.alloc(), keys, &choice, &mut reader, &mut writer);
    expect_flushed(&rt, outcome, writer);
    Ok(())
}
