//! The shell's program: `rtsh run` runs a script, and `rtsh check` says whether a dump is sound.
//!
//! - It has the command line read and the file opened (`rtsh_command`), and hands over to `rt_shell::run`,
//!   `rt_check_report::run_check` or `rt_check_draw::run_draw`, whose contracts say what is written.
//! - `rtsh_terminal` has what goes to the error output.
//! - Exit status: 0 if nothing was refused and no problem found (or help was asked for), 1 if something was,
//!   2 if the command line was refused, and 3 if a file couldn't be opened, a device failed or memory ran out.
//!
//! No contract can say what a file or a terminal gave, so only the program's safety and termination are proved.
#![tactic(auto)]

use rt_bytes::{ByteReader, ByteWriter, RunFault, Status};
use rt_check_draw::{Axes, Choice, run_draw};
use rt_check_report::run_check;
use rt_shell::{Options, run};
use rtsh_command::{Answers, DrawOptions, NoRequest, Request, RunOptions, carry_out};
use rtsh_terminal::Fault;
use std::alloc::{AllocError, Global};
use std::env;
use std::hash::RandomState;
use std::process::ExitCode;

/// How many pages of the stack are written to at the start: more than a run takes.
const PAGES: usize = 128;

/// The size of a page in bytes.
const PAGE_SIZE: usize = 4096;

fn main(rt: HostRuntime) -> ExitCode {
    let Ok(words) = words(&rt) else {
        return report(&rt, Fault::Run(RunFault::Memory));
    };
    if !grow_stack() {
        return report(&rt, Fault::Run(RunFault::Memory));
    }
    match start(&rt, words.as_slice()) {
        Ok(code) => code,
        Err(fault) => report(&rt, fault),
    }
}

/// Takes the memory of the stack, and says whether what was written there can be read. If memory is limited, the stack can't
/// grow once all is taken, and the system would end the process.
#[inline(never)]
fn grow_stack() -> bool {
    let mut pages = [[0; PAGE_SIZE]; PAGES];
    is_filled(&mut pages)
}

// Out of line, so that the caller has the pages on its stack.
#[inline(never)]
fn is_filled(pages: &mut [[u8; PAGE_SIZE]]) -> bool {
    pages.fill([1; PAGE_SIZE]);
    pages.last().is_some_and(|page| page[0] == 1)
}

/// Prints why the program failed.
fn report(rt: &HostRuntime, fault: Fault<'_>) -> ExitCode {
    let _ = eprintln!(rt; "rtsh: {fault}");
    ExitCode::from(3)
}

fn words(rt: &HostRuntime) -> Result<Vec<String>, AllocError> {
    let Ok(words) = env::args(rt) else {
        return Err(AllocError);
    };
    words.collect(rt.alloc())
}

/// Reads the command line, and carries out its request.
fn start<'a>(rt: &HostRuntime, words: &'a [String]) -> Result<ExitCode, Fault<'a>> {
    let request = match rtsh_command::read(rt, words) {
        Ok(request) => request,
        Err(NoRequest::Helped) => return Ok(ExitCode::SUCCESS),
        Err(NoRequest::Refused) => return Ok(ExitCode::from(2)),
        Err(NoRequest::OutOfMemory) => return Err(Fault::Run(RunFault::Memory)),
        Err(NoRequest::Write(reason)) => return Err(Fault::write(Some(reason))),
    };
    match carry_out::<Library>(rt, &request)? {
        Status::Clean => Ok(ExitCode::SUCCESS),
        Status::Refused => Ok(ExitCode::from(1)),
    }
}

/// The options as the shell has them.
fn options_of(options: &RunOptions) -> Options {
    Options {
        capacity: options.capacity,
        bail: options.bail,
        echo: options.echo,
    }
}

/// The options as the picture has them.
fn choice_of(options: &DrawOptions) -> Choice {
    Choice {
        axes: options.axes.map(|(across, up)| Axes { across, up }),
        lowest: options.lowest,
        highest: options.highest,
        all: options.all,
    }
}

/// Has requests answered by the library.
struct Library;

impl Answers for Library {
    fn answer<R: ByteReader, W: ByteWriter>(
        alloc: Global,
        keys: RandomState,
        reader: &mut R,
        writer: &mut W,
        request: &Request<'_>,
    ) -> Result<Status, RunFault> {
        match request {
            Request::Run(options, _) => run(alloc, keys, reader, writer, &options_of(options)),
            Request::Check(_) => run_check(alloc, keys, reader, writer),
            Request::Draw(options, _) => run_draw(alloc, keys, &choice_of(options), reader, writer),
        }
    }
}
