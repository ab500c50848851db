//! What a request reads, and what its answer is written to: a file, a pipe or a terminal.

use crate::{Request, SCRIPT_HELP};
use rt_bytes::{ByteReader, ByteWriter, OverRead, OverWrite, RunFault, Status};
use rtsh_terminal::{
    Cause, Fault, PromptReader, ReasonKeeper, TraceReader, TraceWriter, Trail, hint_at_dump,
    is_attended,
};
use std::alloc::Global;
use std::fs::{self, File, Metadata};
use std::hash::RandomState;
use std::io::{self, BufWriter, IsTerminal, Read, Write};

/// The size of the output buffer in bytes, if no person waits for the output.
const BUFFER_SIZE: usize = 65_536;

/// What answers requests.
pub trait Answers {
    /// Reads what the request asks about, and writes the answer.
    fn answer<R: ByteReader, W: ByteWriter>(
        alloc: Global,
        keys: RandomState,
        reader: &mut R,
        writer: &mut W,
        request: &Request<'_>,
    ) -> Result<Status, RunFault>;
}

/// Carries out a request: reads the file that it names, or standard input.
///
/// # Errors
///
/// Why the file can't be opened, a device failed or memory ran out.
pub fn carry_out<'a, A: Answers>(
    rt: &HostRuntime,
    request: &Request<'a>,
) -> Result<Status, Fault<'a>> {
    let file = match request {
        Request::Run(_, file) | Request::Check(file) | Request::Draw(_, file) => *file,
    };
    match file {
        None => read_input::<A>(rt, request),
        Some(name) => match File::open(rt, name) {
            Ok(file) => {
                let length = length_of(file.metadata());
                read_unattended::<A, _>(rt, file, name, length, request)
            }
            Err(reason) => Err(Fault::OpenFile(Cause { name, reason })),
        },
    }
}

/// Reads standard input, with prompts if a person types it.
fn read_input<'a, A: Answers>(
    rt: &HostRuntime,
    request: &Request<'a>,
) -> Result<Status, Fault<'a>> {
    let (reader, name) = (rt.reader(), "standard input");
    if !rt.stdin().is_terminal() {
        let length = length_of(fs::metadata(rt, "/dev/stdin"));
        return read_unattended::<A, _>(rt, reader, name, length, request);
    }
    if !is_attended(rt) {
        return read_traced::<A, _>(rt, reader, name, None, request, false);
    }
    match request {
        Request::Run(_, _) => {
            let reader = PromptReader::new(rt.alloc(), reader, rt, SCRIPT_HELP)?;
            read_traced::<A, _>(rt, reader, name, None, request, false)
        }
        Request::Check(_) | Request::Draw(_, _) => {
            hint_at_dump(rt);
            read_from::<A, _>(rt, reader, name, request, None)
        }
    }
}

/// The length of a file.
fn length_of(found: io::Result<Metadata>) -> Option<u64> {
    let found = found.ok()?;
    found.is_file().then_some(found.len())
}

/// Reads input that no person types. If the error output is a terminal, it shows the progress of a script.
fn read_unattended<'a, A: Answers, R: Read + Drop>(
    rt: &HostRuntime,
    reader: R,
    name: &'a str,
    length: Option<u64>,
    request: &Request<'a>,
) -> Result<Status, Fault<'a>> {
    let is_seen = rt.stderr().is_terminal();
    let length = length.filter(|_length| is_seen);
    read_traced::<A, _>(rt, reader, name, length, request, is_seen)
}

/// Reads a script so that the error output tells where each refused piece stands, by default or if the options ask for it.
fn read_traced<'a, A: Answers, R: Read + Drop>(
    rt: &HostRuntime,
    reader: R,
    name: &'a str,
    length: Option<u64>,
    request: &Request<'a>,
    by_default: bool,
) -> Result<Status, Fault<'a>> {
    let options = match request {
        Request::Run(options, _) if by_default || options.tells_where => options,
        _ => return read_from::<A, _>(rt, reader, name, request, None),
    };
    let trail = Trail::new(name, length, options.echo, rt.stdout().is_terminal());
    let Ok(mut reader) = TraceReader::new(rt.alloc(), reader, rt, &trail) else {
        return Err(Fault::Run(RunFault::Memory));
    };
    let answer = read_from::<A, _>(rt, &mut reader, name, request, Some(&trail));
    reader.end();
    answer
}

/// Writes each answer at once at a terminal, or if the options ask for it; otherwise answers are buffered.
fn read_from<'a, 't, A: Answers, R: Read + Drop>(
    rt: &'t HostRuntime,
    reader: R,
    name: &'a str,
    request: &Request<'a>,
    trail: Option<&'t Trail<'a>>,
) -> Result<Status, Fault<'a>> {
    let keys = match RandomState::new(rt) {
        Ok(keys) => keys,
        // The source of random bytes is a device too.
        Err(reason) => return Err(Fault::read("random bytes", Some(reason))),
    };
    let writer = io::writer(rt);
    if rt.stdout().is_terminal() || is_unbuffered(request) {
        let (answer, _writer) = read_and_trace::<A, _, _>(
            rt, keys, reader, name, writer, request, trail,
        );
        return answer;
    }
    let Ok(buffer) = BufWriter::with_capacity(rt.alloc(), BUFFER_SIZE, writer) else {
        return Err(Fault::Run(RunFault::Memory));
    };
    let (answer, buffer) = read_and_trace::<A, _, _>(
        rt, keys, reader, name, buffer, request, trail,
    );
    if let Err(fault) = &answer
        && fault.is_of_writing()
    {
        // A buffer that is dropped writes what it holds once more.
        let _ = buffer.into_parts();
    }
    answer
}

fn is_unbuffered(request: &Request<'_>) -> bool {
    matches!(request, Request::Run(options, _) if options.is_unbuffered)
}

/// Carries out the request, with a trail if there is one. Hands the writer back.
fn read_and_trace<'a, 't, A: Answers, R: Read + Drop, W: Write + Drop>(
    rt: &'t HostRuntime,
    keys: RandomState,
    reader: R,
    name: &'a str,
    writer: W,
    request: &Request<'a>,
    trail: Option<&'t Trail<'a>>,
) -> (Result<Status, Fault<'a>>, W) {
    let Some(trail) = trail else {
        return read_and_write::<A, _, _>(rt.alloc(), keys, reader, name, writer, request);
    };
    let writer = TraceWriter::new(writer, rt, trail);
    let (answer, writer) = read_and_write::<A, _, _>(
        rt.alloc(),
        keys,
        reader,
        name,
        writer,
        request,
    );
    (answer, writer.into_inner())
}

/// Carries out the request, and adds the system's reason to a fault. Hands the writer back.
fn read_and_write<'a, A: Answers, R: Read + Drop, W: Write + Drop>(
    alloc: Global,
    keys: RandomState,
    reader: R,
    name: &'a str,
    writer: W,
    request: &Request<'a>,
) -> (Result<Status, Fault<'a>>, W) {
    let mut reader = OverRead::new(ReasonKeeper::new(reader));
    let mut writer = OverWrite::new(ReasonKeeper::new(writer));
    let answer = A::answer(alloc, keys, &mut reader, &mut writer, request);
    let (writer, reason) = writer.into_inner().into_parts();
    let answer = match answer {
        Ok(status) => Ok(status),
        Err(RunFault::Read) => Err(Fault::read(name, reader.into_inner().reason())),
        Err(RunFault::Write) => Err(Fault::write(reason)),
        Err(RunFault::Memory) => Err(Fault::Run(RunFault::Memory)),
    };
    (answer, writer)
}
