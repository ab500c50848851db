//! What is wrong with bytes that aren't a dump.
//!
//! The variants of `LineFault` stand in the order in which they are looked for. `specs/Faults.antt` defines each.
//! The codes that are printed follow another order (`specs/Codes.antt`).

ghost use Rattle.std.specs.Prelude.{◌≡◌};
ghost use Rattle.rt_check_dump.specs.Codes.{code_of, fault_text};

use std::fmt;
use thiserror::Error;

/// What is wrong with a line of a dump. If several apply, the first of them in this order is
/// answered.
#[derive(Clone, Copy, PartialEq, Eq, Debug)]
pub enum LineFault {
    /// The text ends before the line's byte 10, and the line `end` hasn't come.
    Truncated,
    /// The line is spelled as none of the five kinds, or stands after `end`.
    BadLine,
    /// The line is of another kind than the counts before it ask for.
    CountWrong,
    /// A number of the line is outside its range.
    OutOfRange,
    /// The node's number or the row's id was listed before.
    ListedTwice,
}

impl LineFault {
    /// The number by which the fault is printed, from 1 to 5.
    pub fn code(self) -> u8
        ensures { result ≡ code_of self }
    {
        match self {
            LineFault::BadLine => 1,
            LineFault::ListedTwice => 2,
            LineFault::CountWrong => 3,
            LineFault::OutOfRange => 4,
            LineFault::Truncated => 5,
        }
    }

    /// The words by which the fault is printed.
    pub fn text(self) -> &'static str
        ensures { result.now ≡ fault_text self }
    {
        match self {
            LineFault::BadLine => "bad line",
            LineFault::ListedTwice => "listed twice",
            LineFault::CountWrong => "count wrong",
            LineFault::OutOfRange => "out of range",
            LineFault::Truncated => "truncated",
        }
    }
}

impl fmt::Display for LineFault {
    ghost use Rattle.std.specs.Prelude.{Some};

    ghost output = { λ fault. Some (fault_text fault) };

    fn fmt<W: fmt::Write>(&self, f: &mut fmt::Formatter<W>) -> fmt::Result {
        f.write_str(self.text())
    }
}

/// Why bytes aren't read as a dump.
#[derive(Clone, Copy, PartialEq, Eq, Debug, Error)]
pub enum DumpFault {
    /// The first faulty line.
    #[error("line {line}: {fault}")]
    At {
        /// The line's number, counted from 1.
        line: u64,
        /// What is wrong there.
        fault: LineFault,
    },
    /// No memory is left.
    #[error("out of memory")]
    Memory,
}
