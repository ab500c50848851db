//! A person at a terminal: a hint at the start, a prompt before each line, lines that only a terminal takes, and a hint after
//! a line of another shell. All of it goes to the error output. Nothing is printed unless input, output and error output are
//! all terminals.

use rt_sql::{Refusal, parse};
use rt_sql_cut::{Cutter, Piece};
use std::alloc::{AllocError, Global};
use std::io::{self, IsTerminal, Read};

const SCRIPT_HINT: &str = "rtsh: End statements with ;. Enter .help for help. Ctrl-D exits.";

const COMMAND_HINT: &str = "rtsh: Enter .help for help, or .quit to end.";

const DUMP_HINT: &str = "rtsh: End the dump with the line `end`. Ctrl-D exits.";

/// Whether a person sits at both ends, and sees the error output too.
pub fn is_attended(rt: &HostRuntime) -> bool {
    rt.stdin().is_terminal() && rt.stdout().is_terminal() && rt.stderr().is_terminal()
}

/// Says how a dump and the input are ended. A hint that can't be printed is no fault.
pub fn hint_at_dump(rt: &impl Eprint) {
    let _ = eprintln!(rt; "{DUMP_HINT}");
}

/// Where a line begins that is typed.
#[derive(Clone, Copy, PartialEq, Eq)]
enum Spot {
    /// Between pieces.
    Gap,
    /// In a statement, outside quotes and comments.
    Statement,
    /// In single quotes.
    Text,
    /// In double quotes.
    Name,
    /// In a `/*` comment.
    Comment,
    /// In a line that Ctrl-D has broken.
    Line,
}

impl Spot {
    /// The prompt there, which shows what is open.
    fn prompt(self) -> &'static str {
        match self {
            Spot::Gap => "rtsh> ",
            Spot::Statement | Spot::Line => " ...> ",
            Spot::Text => " '..> ",
            Spot::Name => " \"..> ",
            Spot::Comment => " *..> ",
        }
    }
}

/// A line that only a terminal takes, and that is no part of the script.
#[derive(Clone, Copy, PartialEq, Eq)]
enum Command {
    /// `.help`.
    Help,
    /// `.quit` or `.exit`.
    Quit,
}

/// A line without the white space around it and its `;`.
fn bare(line: &[u8]) -> &[u8] {
    let line = line.trim_ascii();
    line.strip_suffix(b";").unwrap_or(line).trim_ascii()
}

/// The command that a line is, if it is one: in small or large letters, with or without `;`.
fn command_of(line: &[u8]) -> Option<Command> {
    let line = bare(line);
    if line.eq_ignore_ascii_case(b".help") {
        return Some(Command::Help);
    }
    let quits = line.eq_ignore_ascii_case(b".quit") || line.eq_ignore_ascii_case(b".exit");
    quits.then_some(Command::Quit)
}

/// The line is a word that stands for such a command in another shell.
fn lacks_dot(line: &[u8]) -> bool {
    let line = bare(line);
    line.eq_ignore_ascii_case(b"quit")
        || line.eq_ignore_ascii_case(b"exit")
        || line.eq_ignore_ascii_case(b"help")
}

/// The piece is a dot line that the shell doesn't know.
fn is_unknown(alloc: Global, piece: &Piece<'_>) -> bool {
    piece.text().starts_with(b".") && matches!(parse(alloc, piece), Err(Refusal::UnknownCommand))
}

/// A reader of a script that is typed, which prints a prompt before each read.
#[derive(Drop)]
pub struct PromptReader<'a, R, E> {
    alloc: Global,
    inner: R,
    rt: &'a E,
    /// What `.help` prints.
    help: &'a str,
    /// Stands where the bytes so far stop.
    cutter: Cutter,
    /// The bytes since the last place between pieces. If no memory is left, some are missing, and a prompt may be wrong.
    pending: Vec<u8>,
    /// The last line was one of another shell.
    is_lost: bool,
}

impl<'a, R: Read, E: Eprint> PromptReader<'a, R, E> {
    /// Prints how a statement and the input are ended. `.help` will print that help.
    ///
    /// # Errors
    ///
    /// `AllocError` if no memory is left.
    pub fn new(
        alloc: Global,
        inner: R,
        rt: &'a E,
        help: &'a str,
    ) -> Result<PromptReader<'a, R, E>, AllocError>
    where
        R: Drop,
    {
        let cutter = Cutter::new(alloc)?;
        let _ = eprintln!(rt; "{SCRIPT_HINT}");
        Ok(PromptReader {
            alloc,
            inner,
            rt,
            help,
            cutter,
            pending: Vec::new(alloc),
            is_lost: false,
        })
    }

    /// Whether a piece would end in these bytes, if they came next.
    fn ends_in(&mut self, bytes: &[u8]) -> bool {
        self.cutter.feed(bytes);
        let ends = self.cutter.ready().is_some();
        self.cutter.clear();
        self.cutter.feed(&self.pending);
        ends
    }

    /// Where the next line begins: the bytes that would end a piece there tell.
    fn spot(&mut self) -> Spot {
        if self.ends_in(b"\n") {
            Spot::Line
        } else if self.ends_in(b".\n") {
            Spot::Gap
        } else if self.ends_in(b";") {
            Spot::Statement
        } else if self.ends_in(b"';") {
            Spot::Text
        } else if self.ends_in(b"\";") {
            Spot::Name
        } else if self.ends_in(b"*/;.\n") {
            Spot::Comment
        } else {
            Spot::Line
        }
    }

    /// Prompts, and says whether a line that only a terminal takes may come: nothing that goes before it is open.
    fn prompt(&mut self) -> bool {
        if self.is_lost {
            let _ = eprintln!(self.rt; "{COMMAND_HINT}");
            self.is_lost = false;
        }
        let spot = self.spot();
        if spot == Spot::Gap {
            self.pending.clear();
        }
        let prompt = spot.prompt();
        let _ = eprint!(self.rt; "{prompt}");
        match spot {
            Spot::Gap => true,
            Spot::Statement => self.pending.ends_with(b"\n"),
            _ => false,
        }
    }

    /// Follows the bytes that were read.
    fn follow(&mut self, bytes: &[u8]) {
        self.is_lost = self.pending.is_empty() && lacks_dot(bytes);
        let mut rest = bytes;
        // Each turn takes a byte at least.
        for _turn in 0..bytes.len() {
            let (taken, later) = rest.split_at(self.cutter.feed(rest));
            rest = later;
            let _ = self.pending.extend_from_slice(taken);
            if let Some(piece) = self.cutter.ready() {
                self.is_lost = self.is_lost || is_unknown(self.alloc, &piece);
                self.cutter.clear();
                self.pending.clear();
            }
        }
    }
}

impl<'a, R: Read, E: Eprint> Read for PromptReader<'a, R, E> {
    fn read(&mut self, buffer: &mut [u8]) -> io::Result<usize> {
        for _line in 0..u64::MAX {
            let takes_commands = self.prompt();
            let count = self.inner.read(buffer)?;
            let line = &buffer[..count];
            match command_of(line).filter(|_| takes_commands) {
                Some(Command::Quit) => return Ok(0),
                Some(Command::Help) => {
                    let _ = eprintln!(self.rt; "{}", self.help);
                }
                None => {
                    if count == 0 {
                        let _ = eprintln!(self.rt; "");
                    }
                    self.follow(line);
                    return Ok(count);
                }
            }
        }
        Ok(0)
    }
}
