//! What a script or a dump gives, run over memory.
//!
//! `Parts` says how the reader gives the bytes. What is printed must not depend on it.

use crate::case::Command;
use rt_bytes::{ByteReader, OverRead, RunFault, Sink, SliceReader, Status};
use rt_check_draw::run_draw;
use rt_check_report::run_check;
use rt_shell::run;
use std::alloc::Global;
use std::fmt;
use std::hash::RandomState;
use std::io::{Cursor, Read};

/// How a reader gives its bytes.
#[derive(Clone, Copy)]
pub enum Parts {
    /// At most this many at a time.
    OfAtMost(usize),
    /// This many at first, and then the rest.
    CutAfter(usize),
}

impl fmt::Display for Parts {
    fn fmt<W: fmt::Write>(&self, f: &mut fmt::Formatter<W>) -> fmt::Result {
        match self {
            Parts::OfAtMost(most) => write!(f, "with reads of at most {most} bytes"),
            Parts::CutAfter(place) => write!(f, "cut after {place} bytes"),
        }
    }
}

/// What was printed, and the status.
#[derive(PartialEq, Drop)]
pub struct Outcome {
    /// All bytes that were printed.
    pub printed: Vec<u8>,
    /// `Refused` if any of the runs refused something.
    pub status: Status,
}

/// The outcome of a command, from an input that is read in these parts.
pub fn outcome_of(
    alloc: Global,
    keys: RandomState,
    command: &Command,
    input: &[u8],
    parts: Parts,
) -> Result<Outcome, RunFault> {
    let mut printed = Sink::new(alloc);
    let mut status = Status::Clean;
    if let Command::CheckFronts = command {
        for length in 0..input.len() {
            let front = &input[..length];
            let checked = print(alloc, keys, &Command::Check, front, parts, &mut printed)?;
            if checked == Status::Refused {
                status = checked;
            }
        }
    } else {
        status = print(alloc, keys, command, input, parts, &mut printed)?;
    }
    Ok(Outcome {
        printed: printed.into_bytes(),
        status,
    })
}

fn print(
    alloc: Global,
    keys: RandomState,
    command: &Command,
    input: &[u8],
    parts: Parts,
    printed: &mut Sink,
) -> Result<Status, RunFault> {
    match parts {
        Parts::OfAtMost(most) => {
            let mut reader = SliceReader::new(input, most.max(1));
            carry_out(alloc, keys, command, &mut reader, printed)
        }
        Parts::CutAfter(place) => {
            let (first, second) = input.split_at(place.min(input.len()));
            let mut reader = OverRead::new(Cursor::new(first).chain(Cursor::new(second)));
            carry_out(alloc, keys, command, &mut reader, printed)
        }
    }
}

fn carry_out<R: ByteReader>(
    alloc: Global,
    keys: RandomState,
    command: &Command,
    reader: &mut R,
    printed: &mut Sink,
) -> Result<Status, RunFault> {
    match command {
        Command::Run(options) => run(alloc, keys, reader, printed, options),
        Command::Check | Command::CheckFronts => run_check(alloc, keys, reader, printed),
        Command::Draw(choice) => run_draw(alloc, keys, choice, reader, printed),
    }
}
