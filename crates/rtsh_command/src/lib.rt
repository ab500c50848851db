//! The command line of `rtsh`, and what its requests read and write: a file, a pipe or a terminal.
//!
//! - `read` returns what the words ask for, as a `Request`. If they ask for help, or are wrong, it prints the help or what is
//!   wrong, and returns a `NoRequest`. `clap` parses the words.
//! - `carry_out` opens what the request names, and has it answered: at a terminal with prompts, each answer written at once,
//!   otherwise from a buffer into a buffer. The error output shows where refused pieces stand, if they are asked for.
//! - `Answers` is what answers a request: the program gives it, so that all of this is proved beside the shell. So what is
//!   drawn has a type of its own here, which `rtsh` converts to that of `rt_check_draw`.
//!
//! Stands on `rt_box`, `rtsh_terminal` (what a person sees) and `rt_bytes`. No contract can say what a file or a terminal
//! gave, so only safety and termination are proved.
#![tactic(auto)]

mod device;

use clap::error::ErrorKind;
use clap::{Arg, ArgAction, ArgMatches, Command, Error, value_parser};
pub use device::{Answers, carry_out};
use rt_box::Capacity;
use std::alloc::{AllocError, Global};
use std::{fs, io};

/// What the command line asks for, and the file's name; `None` is standard input.
#[derive(Drop)]
pub enum Request<'a> {
    /// `rtsh run`: run the script with these options.
    Run(RunOptions, Option<&'a str>),
    /// `rtsh check`: check the dump.
    Check(Option<&'a str>),
    /// `rtsh draw`: draw this part of the dump.
    Draw(DrawOptions, Option<&'a str>),
}

/// Why there is nothing to do for a command line.
#[derive(Clone, Copy, Debug)]
pub enum NoRequest {
    /// It asked for help or the version, which is printed.
    Helped,
    /// The command line was refused, and its fault is printed.
    Refused,
    /// No memory was left.
    OutOfMemory,
    /// The help couldn't be printed.
    Write(io::Error),
}

impl From<AllocError> for NoRequest {
    fn from(_error: AllocError) -> NoRequest {
        NoRequest::OutOfMemory
    }
}

/// How `rtsh run` runs a script.
#[derive(Clone, Copy)]
pub struct RunOptions {
    /// The greatest number of cells in a node of a table's tree.
    pub capacity: Capacity,
    /// The run ends after the first refusal.
    pub bail: bool,
    /// Each statement is printed before its answer.
    pub echo: bool,
    /// Each answer is written before the next piece is read.
    pub(crate) is_unbuffered: bool,
    /// The error output shows where each refused piece stands.
    pub(crate) tells_where: bool,
}

/// What `rtsh draw` draws of a tree.
#[derive(Clone, Copy)]
pub struct DrawOptions {
    /// The axis to the right and the one upwards, counted from 0; one alone is drawn as bars. `None`: the first ones.
    pub axes: Option<(usize, Option<usize>)>,
    /// The lowest level.
    pub lowest: u8,
    /// The highest level.
    pub highest: u8,
    /// The leaves' cells are drawn however many boxes there are.
    pub all: bool,
}

const VERSION: &str = "0.1.0";

const ABOUT: &str = "Tables of boxes, as SQLite's rtree_i32 keeps them: the shell of Juicedelta";

/// What a script may have: for `rtsh run --help`, and for `.help` at a terminal.
pub(crate) const SCRIPT_HELP: &str = "Statements may take several lines, and end with ;
  CREATE VIRTUAL TABLE [IF NOT EXISTS] T USING rtree_i32(id, min, max, ..);
  DROP TABLE [IF EXISTS] T;
  INSERT [OR IGNORE | OR REPLACE] INTO T[(COLUMN, ..)] VALUES (VALUE, ..), ..;
  UPDATE T SET COLUMN = VALUE, COLUMN = COLUMN + 1, .. [WHERE ..];
  DELETE FROM T [WHERE ..];
  SELECT * FROM T [WHERE ..];         or SELECT COLUMN, .. FROM T [WHERE ..];
  SELECT rtreecheck('T');             checks the table's tree
WHERE takes tests with AND between them: west <= 20 AND name IS NOT NULL

Dot lines end with the line
  .watch V FROM T [WHERE ..]          names a view, and prints its changes
  .view V                             prints the rows of a view
  .unwatch V                          forgets a view
  .nodes T                            prints the table's tree as a dump
A refused statement prints `refused N CODE: TEXT`, and changes nothing

Only at a terminal, alone on a line, also inside a statement
  .help                               prints this
  .quit or .exit                      ends, as Ctrl-D on an empty line does
`rlwrap rtsh run` gives history and editing";

const CHECK_HELP: &str =
    "A dump is what `.nodes TABLE` prints. Its tree is sound if nine conditions hold:

  C1  the root is listed, and has no parent
  C2  each other node has a listed parent one level up, and exactly one cell names it
  C3  a cell above the leaves names a listed node, whose parent is the cell's node
  C4  a cell's low end is at most its high end on each axis
  C5  a cell above the leaves holds the cells of the node that it names
  C6  and is the least box around them
  C7  a node has at most M cells, and at least 2M/5, rounded down; a root above the leaves has at
      least 2, and one that is a leaf any number
  C8  a leaf's cell has a row line with its id and this leaf
  C9  a row line's id is that of exactly one cell of all leaves

It prints `ok`, or a line for each problem, such as `C6 node 1 at 2`: the condition, the node, and
the position of the cell in it, from 1 on, or 0 for the node as a whole. For C9 that is the leaf
that the row line names, and the row line's position. Of a text that is no dump it prints
`bad dump LINE CODE: TEXT`.";

const DRAW_HELP: &str =
    "Each cell is a box in the colour of its node's level, and leaves, on level 0, are filled. A browser
shows the number of a box under the pointer. A tree of one axis is drawn as bars. Above 20000 boxes
the cells of leaves are left out. Problems of the tree, as `rtsh check` prints them, are red. Of a
text that is no dump it prints `bad dump LINE CODE: TEXT`.";

const STATUS_HELP: &str = "Exit status:
  0  nothing was refused, and no problem was found
  1  a statement was refused, a problem was found, the dump was bad, or its tree lacks an axis
     to be drawn
  2  the command line was refused
  3  a file couldn't be opened, a read or a write failed, or memory ran out";

/// What the words of a command line ask for. Prints the help that they ask for, or what is wrong with them.
///
/// # Errors
///
/// `Helped` if help or the version is printed, `Refused` if what is wrong is printed, `Write` if the help
/// couldn't be printed, and `OutOfMemory` if no memory is left.
pub fn read<'a>(rt: &HostRuntime, words: &'a [String]) -> Result<Request<'a>, NoRequest> {
    let parsed = program(rt.alloc())?.try_get_matches_from(words);
    let matches = match parsed {
        Ok(matches) => matches,
        Err(error) => return Err(tell(rt, words, &error)),
    };
    match request_of(&matches) {
        Some(request) => Ok(request),
        None => Err(NoRequest::Refused),
    }
}

/// Prints what is wrong with the command line, or the help that it asked for.
fn tell(rt: &HostRuntime, words: &[String], error: &Error) -> NoRequest {
    if error.kind() == ErrorKind::OutOfMemory {
        return NoRequest::OutOfMemory;
    }
    let printed = error.print(rt);
    if error.use_stderr() {
        hint_at_run(rt, words, error.kind());
        return NoRequest::Refused;
    }
    match printed {
        Ok(()) => NoRequest::Helped,
        Err(reason) => NoRequest::Write(reason),
    }
}

/// A word in the place of a command may be the path of a script.
fn hint_at_run(rt: &HostRuntime, words: &[String], kind: ErrorKind) {
    if kind == ErrorKind::InvalidSubcommand
        && let Some(word) = words.get(1)
        && let Ok(found) = fs::metadata(rt, word.as_str())
        && found.is_file()
    {
        let _ = eprintln!(rt; "\nTo run the script {word}: rtsh run {word}");
    }
}

/// The program's command.
fn program<'a>(alloc: Global) -> Result<Command<'a>, AllocError> {
    Command::new(alloc, "rtsh")
        .version(VERSION)
        .about(ABOUT)
        .after_help(STATUS_HELP)
        .subcommand_required(true)
        .arg_required_else_help(true)
        .subcommand(run(alloc)?)?
        .subcommand(check(alloc)?)?
        .subcommand(draw(alloc)?)
}

/// An option without a value, `--NAME`.
fn flag<'a>(alloc: Global, name: &'a str, help: &'a str) -> Arg<'a> {
    Arg::new(alloc, name)
        .long(name)
        .help(help)
        .action(ArgAction::SetTrue)
}

/// An option with a value, `--NAME VALUE`.
fn option<'a>(alloc: Global, name: &'a str, value: &'a str, help: &'a str) -> Arg<'a> {
    Arg::new(alloc, name)
        .long(name)
        .value_name(value)
        .help(help)
}

/// The file that a command reads.
fn file<'a>(alloc: Global, help: &'a str) -> Arg<'a> {
    Arg::new(alloc, "file").value_name("FILE").help(help)
}

fn run<'a>(alloc: Global) -> Result<Command<'a>, AllocError> {
    let capacity = option(
        alloc,
        "capacity",
        "M",
        "How many cells a node of a table's tree holds at most, from 5 to 51; it changes the dumps that .nodes prints, and no other line",
    )
    .value_parser(value_parser!(u8).range(5..=51))
    .default_value("51");
    Command::new(alloc, "run")
        .about("Runs a script, and prints what it gives")
        .after_help(SCRIPT_HELP)
        .arg(capacity)?
        .arg(flag(alloc, "bail", "Ends after the first refusal"))?
        .arg(flag(
            alloc,
            "echo",
            "Prints each statement and dot line before its answer",
        ))?
        .arg(flag(
            alloc,
            "unbuffered",
            "Writes each answer before the next statement is read, into a pipe too",
        ))?
        .arg(flag(
            alloc,
            "where",
            "Shows on the error output the line of each refused statement, and the word where its syntax fails; a terminal there shows them anyway, unless the script is typed",
        ))?
        .arg(file(
            alloc,
            "The script; without it, or with `-`, standard input is read",
        ))
}

fn check<'a>(alloc: Global) -> Result<Command<'a>, AllocError> {
    Command::new(alloc, "check")
        .about("Says of a dump of a tree whether it is sound, or what is wrong in it")
        .after_help(CHECK_HELP)
        .arg(file(
            alloc,
            "The dump; without it, or with `-`, standard input is read",
        ))
}

fn draw<'a>(alloc: Global) -> Result<Command<'a>, AllocError> {
    let axes = option(
        alloc,
        "axes",
        "AXES",
        "The axes to the right and upwards; one alone draws bars; without it 1,2, or of a tree of one axis 1",
    )
    .value_parser(["1", "2", "3", "1,2", "1,3", "2,1", "2,3", "3,1", "3,2"].as_slice());
    let levels = option(
        alloc,
        "levels",
        "LEVELS",
        "Draws the cells of these levels alone, as 0-2 or 1; leaves are on level 0",
    )
    .value_delimiter('-')
    .value_parser(value_parser!(u8));
    Command::new(alloc, "draw")
        .about("Draws the tree of a dump, as an SVG")
        .after_help(DRAW_HELP)
        .arg(axes)?
        .arg(levels)?
        .arg(flag(
            alloc,
            "all",
            "Draws the cells of leaves however many boxes there are",
        ))?
        .arg(file(
            alloc,
            "The dump; without it, or with `-`, standard input is read",
        ))
}

/// What the parsed command line asks for.
fn request_of<'a>(matches: &ArgMatches<'a>) -> Option<Request<'a>> {
    let (name, matches) = matches.subcommand()?;
    let file = matches.get_str("file").filter(|file| *file != "-");
    if name == "check" {
        return Some(Request::Check(file));
    }
    if name == "draw" {
        return Some(Request::Draw(draw_options_of(matches), file));
    }
    let capacity = Capacity::new(matches.get_one::<u8>("capacity")?)?;
    let options = RunOptions {
        capacity,
        bail: matches.get_flag("bail"),
        echo: matches.get_flag("echo"),
        is_unbuffered: matches.get_flag("unbuffered"),
        tells_where: matches.get_flag("where"),
    };
    Some(Request::Run(options, file))
}

/// The options of `rtsh draw`.
fn draw_options_of(matches: &ArgMatches<'_>) -> DrawOptions {
    let (lowest, highest) = levels_of(matches);
    DrawOptions {
        axes: matches.get_str("axes").and_then(axes_of),
        lowest,
        highest,
        all: matches.get_flag("all"),
    }
}

/// The least and the greatest of the levels that are named, or all levels.
fn levels_of(matches: &ArgMatches<'_>) -> (u8, u8) {
    let (mut lowest, mut highest) = (u8::MAX, 0);
    if let Some(levels) = matches.get_many::<u8>("levels") {
        for level in levels {
            // The parser took it, so it is a number.
            if let Ok(level) = level {
                lowest = level.min(lowest);
                highest = level.max(highest);
            }
        }
        return (lowest, highest);
    }
    (0, u8::MAX)
}

/// The axes by their numbers, as `1,3`.
fn axes_of(numbers: &str) -> Option<(usize, Option<usize>)> {
    let mut numbers = numbers.split(',');
    let across = numbers.next()?.parse::<usize>().ok()?.checked_sub(1)?;
    let up = match numbers.next() {
        Some(number) => Some(number.parse::<usize>().ok()?.checked_sub(1)?),
        None => None,
    };
    Some((across, up))
}
