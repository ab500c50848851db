//! What is printed of a dump: a verdict, or the first fault in it. Printing takes no memory.
//!
//! The contract of each call names the bytes of its lines, by `specs/Verdict.antt` and `specs/Report.antt`.

ghost use Rattle.std.specs.List.{flat_map};
ghost use Rattle.rt_bytes.specs.Devices.{WritesTo};
ghost use Rattle.rt_check_report.specs.Report.{fault_line};
ghost use Rattle.rt_check_report.specs.Verdict.{problem_line, verdict_lines};

use itoa::Buffer;
use rt_bytes::{ByteWriter, WriteFault, write_parts, write_whole};
use rt_check::Problem;
use rt_check_dump::LineFault;

/// Writes the verdict on a tree: `ok` if it has no problem, else a line for each problem, as
/// `C6 node 1 at 2`: its condition, node and position. After a fault a prefix of that is written.
pub fn write_verdict<W: ByteWriter>(problems: &[Problem], writer: &mut W) -> Result<(), WriteFault>
    ensures { WritesTo W.ByteWriter writer.old writer.new result (verdict_lines problems.now) }
{
    if problems.is_empty() {
        return write_whole(writer, b"ok\n");
    }
    write_problems(problems, writer)
}

fn write_problems<W: ByteWriter>(problems: &[Problem], writer: &mut W) -> Result<(), WriteFault>
    ensures { WritesTo W.ByteWriter writer.old writer.new result (flat_map problem_line problems.now) }
{
    for problem in problems {
        write_problem(problem, writer)?;
    }
    Ok(())
}

fn write_problem<W: ByteWriter>(problem: &Problem, writer: &mut W) -> Result<(), WriteFault>
    ensures { WritesTo W.ByteWriter writer.old writer.new result (problem_line problem.now) }
{
    let (mut condition, mut node, mut position) = (Buffer::new(), Buffer::new(), Buffer::new());
    let parts: [&[u8]; 7] = [
        b"C",
        condition.format(problem.condition.code()).as_bytes(),
        b" node ",
        node.format(problem.node).as_bytes(),
        b" at ",
        position.format(problem.position).as_bytes(),
        b"\n",
    ];
    write_parts(writer, &parts)
}

/// Writes the first fault of a dump: the number of its line, and what is wrong there. After a fault
/// of the writer a prefix of that is written.
pub fn write_bad_dump<W: ByteWriter>(
    line: &u64,
    fault: LineFault,
    writer: &mut W,
) -> Result<(), WriteFault>
    ensures { WritesTo W.ByteWriter writer.old writer.new result (fault_line line.now fault) }
{
    let (mut number, mut code) = (Buffer::new(), Buffer::new());
    let parts: [&[u8]; 7] = [
        b"bad dump ",
        number.format(*line).as_bytes(),
        b" ",
        code.format(fault.code()).as_bytes(),
        b": ",
        fault.text().as_bytes(),
        b"\n",
    ];
    write_parts(writer, &parts)
}
