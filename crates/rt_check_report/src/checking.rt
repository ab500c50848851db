//! The check of a dump.
//!
//! The dump is read to its end before anything is printed, so no problem is printed of a text that isn't a dump.
//! `specs/CheckRun.antt` says what a run does to its reader and its writer.

ghost use Rattle.std.specs.Prelude.{◌≡◌, ◌+◌, ◌^◌, ◌≤◌, IfOk, OnOk, Ok, Err, true};
ghost use Rattle.rt_check_report.specs.CheckRun.{GivesAll, ReportsFault, Reports, Checks};
ghost use Rattle.rt_check_report.specs.Report.{all_problems, verdict_status};
ghost use Rattle.rt_bytes.specs.Devices.{devices_of};

use crate::report::{write_bad_dump, write_verdict};
use rt_bytes::{ByteReader, ByteWriter, MOST_READS, READ_SIZE, RunFault, Status};
use rt_check::{Problem, check};
use rt_check_dump::{AnyShadow, DumpFault, read_dump};
use std::alloc::{AllocError, Global};
use std::hash::RandomState;

/// Reads all that there is.
pub fn read_all<R: ByteReader>(alloc: Global, reader: &mut R) -> Result<Vec<u8>, RunFault>
    ensures reads_all { GivesAll R.ByteReader reader.old reader.new result }
    ensures reads { R.reads reader.new ≤ R.reads reader.old + 2 ^ 40 }
{
    let mut bytes = Vec::new(alloc);
    let mut buffer = [0; READ_SIZE];
    for _turn in 0..MOST_READS {
        let count = reader.read(&mut buffer)?;
        if count == 0 {
            return Ok(bytes);
        }
        bytes.extend_from_slice(&buffer[..count])?;
    }
    Err(RunFault::Read)
}

fn problems_of(alloc: Global, shadow: &AnyShadow) -> Result<Vec<Problem>, AllocError>
    ensures { IfOk result (λ problems. problems.items ≡ all_problems shadow.now) }
{
    match shadow {
        AnyShadow::One(shadow) => check(alloc, shadow),
        AnyShadow::Two(shadow) => check(alloc, shadow),
        AnyShadow::Three(shadow) => check(alloc, shadow),
    }
}

fn status_of(problems: &[Problem]) -> Status
    ensures { result ≡ verdict_status problems.now }
{
    if problems.is_empty() {
        Status::Clean
    } else {
        Status::Refused
    }
}

/// Writes what is to be said of bytes that weren't read as a dump.
pub fn report_fault<W: ByteWriter>(fault: &DumpFault, writer: &mut W) -> Result<Status, RunFault>
    ensures { ReportsFault W.ByteWriter fault.now writer.old writer.new result }
{
    match fault {
        DumpFault::At { line, fault } => {
            write_bad_dump(line, *fault, writer)?;
            Ok(Status::Refused)
        }
        DumpFault::Memory => Err(RunFault::Memory),
    }
}

/// Writes what is to be said of the bytes of a dump.
fn report<W: ByteWriter>(
    alloc: Global,
    keys: RandomState,
    bytes: &[u8],
    writer: &mut W,
) -> Result<Status, RunFault>
    ensures { Reports W.ByteWriter bytes.now writer.old writer.new result }
{
    match read_dump(alloc, keys, bytes) {
        Ok(shadow) => {
            let problems = problems_of(alloc, &shadow);
            drop(shadow);
            let problems = problems?;
            write_verdict(&problems, writer)?;
            Ok(status_of(&problems))
        }
        Err(fault) => report_fault(&fault, writer),
    }
}

/// Checks a dump: reads it whole, and writes `ok` if it is the text of a sound tree, else a line for
/// each problem, or for its first fault. It reads at most 2^40 times, and flushes the writer once, at
/// the end. Numbers and ids are looked up by `keys`, which are to be random if others choose the
/// bytes.
///
/// ```text
/// let keys = RandomState::new(&rt)?;
/// let mut dump = OverRead::new(File::open(&rt, "shops.dump")?);
/// let mut verdict = OverWrite::new(io::writer(&rt));
/// match run_check(rt.alloc(), keys, &mut dump, &mut verdict)? {
///     Status::Clean => ExitCode::SUCCESS,
///     Status::Refused => ExitCode::from(1),
/// }
/// ```
pub fn run_check<R: ByteReader, W: ByteWriter>(
    alloc: Global,
    keys: RandomState,
    reader: &mut R,
    writer: &mut W,
) -> Result<Status, RunFault>
    ensures checks { Checks (devices_of R.ByteReader W.ByteWriter reader.old writer.old)
        (devices_of R.ByteReader W.ByteWriter reader.new writer.new) result }
    ensures reads { R.reads reader.new ≤ R.reads reader.old + 2 ^ 40 }
    ensures flushed { OnOk result (W.flushed writer.new ≡ true) }
{
    let bytes = read_all(alloc, reader)?;
    let status = report(alloc, keys, &bytes, writer)?;
    writer.flush()?;
    Ok(status)
}
