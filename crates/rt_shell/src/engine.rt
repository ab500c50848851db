//! Cuts a script, and answers its pieces.
//!
//! The contract of a step holds whatever bytes follow those that it took. So no loop speaks of the script's end
//! (`Moves` in `specs/Engine.antt`).

ghost use Rattle.std.specs.Prelude.{◌≡◌, ℕ, ◌+◌, ◌-◌, ◌<◌, ◌≤◌, ◌^◌, length, None, IfOk};
ghost use Rattle.rt_shell.specs.Engine.{IsFresh, GivesAnswer, piece_lines, AnswersReadyTo, TakesAllTo, FinishesTo, flow_of};
ghost use Rattle.rt_sql_cut.specs.Cutter.{ready_piece};
ghost use Rattle.rt_bytes.specs.Devices.{WritesTo};
ghost use Rattle.rt_shell_lines.specs.Lines.{answer_lines, echo_of};

use rt_box::Capacity;
use rt_bytes::{ByteWriter, Status, WriteFault, write_parts};
use rt_reply::Reply;
use rt_session::Session;
use rt_shell_lines::{write_refusal, write_reply};
use rt_sql::parse;
use rt_sql_cut::{Cutter, Ending, Piece};
use rt_sql_statement::Refusal;
use std::alloc::{AllocError, Global};
use std::hash::RandomState;

/// How a script is run.
#[derive(Clone, Copy, PartialEq, Eq, Debug)]
pub struct Options {
    /// The capacity of the tables' nodes.
    pub capacity: Capacity,
    /// The run ends after the first refusal.
    pub bail: bool,
    /// Each piece is printed before its answer, as it stands in the script, unless it is too long.
    pub echo: bool,
}

/// Whether a run goes on.
#[derive(Clone, Copy, PartialEq, Eq, Debug)]
pub enum Flow {
    /// More of the script may come.
    Goes,
    /// With bail a piece was refused, and nothing after it is run.
    Stops,
}

/// Cuts a script, and answers its pieces.
pub struct Engine {
    alloc: Global,
    cutter: Cutter,
    session: Session,
    /// How many pieces came.
    pub pieces: u64,
    // Whether one was refused.
    refused: bool,
    options: Options,
}

// By hand, since a derived drop is written out, field by field, wherever such a value ends.
impl Drop for Engine {
    fn drop(self) {
        let Engine {
            alloc: _,
            cutter: _,
            session: _,
            pieces: _,
            refused: _,
            options: _,
        } = self;
    }
}

fn answer_to(alloc: Global, session: &mut Session, piece: &Piece<'_>) -> Result<Reply, Refusal>
    ensures { GivesAnswer session.old piece.now result session.new }
{
    let statement = parse(alloc, piece)?;
    session.step(statement)
}

/// Writes the lines of an answer to the piece of this number.
fn write_answer<W: ByteWriter>(
    number: &u64,
    answer: &Result<Reply, Refusal>,
    writer: &mut W,
) -> Result<(), WriteFault>
    ensures { WritesTo W.ByteWriter writer.old writer.new result (answer_lines number.now answer.now) }
{
    match answer {
        Ok(reply) => write_reply(reply, writer),
        Err(refusal) => write_refusal(number, *refusal, writer),
    }
}

/// Writes a piece as it stands, and a line feed, if echo asks for it and the piece's text is held.
fn write_echo<W: ByteWriter>(
    echo: bool,
    piece: &Piece<'_>,
    writer: &mut W,
) -> Result<(), WriteFault>
    ensures { WritesTo W.ByteWriter writer.old writer.new result (echo_of echo piece.now) }
{
    if !echo || piece.ending() == Ending::TooLong {
        return Ok(());
    }
    write_parts(writer, &[piece.text(), b"\n"])
}

/// Writes what the piece of this number prints: with echo itself, and then its answer.
fn write_part<W: ByteWriter>(
    echo: bool,
    number: &u64,
    piece: &Piece<'_>,
    answer: &Result<Reply, Refusal>,
    writer: &mut W,
) -> Result<(), WriteFault>
    ensures { WritesTo W.ByteWriter writer.old writer.new result (piece_lines echo number.now piece.now answer.now) }
{
    write_echo(echo, piece, writer)?;
    write_answer(number, answer, writer)
}

/// With bail a run stops at a refusal.
fn flow_after(bail: bool, answer: &Result<Reply, Refusal>) -> Flow
    ensures { result ≡ flow_of bail (Some answer.now) }
{
    if bail && answer.is_err() {
        Flow::Stops
    } else {
        Flow::Goes
    }
}

impl Engine {
    /// An engine at the start of a script.
    pub fn new(alloc: Global, keys: RandomState, options: &Options) -> Result<Engine, AllocError>
        ensures { IfOk result (λ engine. IsFresh engine options.now) }
    {
        Ok(Engine {
            alloc,
            cutter: Cutter::new(alloc)?,
            session: Session::new(alloc, keys, options.capacity),
            pieces: 0,
            refused: false,
            options: *options,
        })
    }

    // Answers the piece that the cutter has ready, if it has one, writes what it prints, and drops it.
    fn answer_ready<W: ByteWriter>(&mut self, writer: &mut W) -> Result<Flow, WriteFault>
        requires { self.old.pieces < 2 ^ 64 - 1 }
        ensures { AnswersReadyTo W.ByteWriter self.old self.new writer.old writer.new result }
    {
        let Some(piece) = self.cutter.ready() else {
            return Ok(Flow::Goes);
        };
        let answer = answer_to(self.alloc, &mut self.session, &piece);
        self.pieces += 1;
        self.refused |= answer.is_err();
        let written = write_part(self.options.echo, &self.pieces, &piece, &answer, writer);
        self.cutter.clear();
        written?;
        Ok(flow_after(self.options.bail, &answer))
    }

    /// Takes all of the bytes and answers the pieces that end in them.
    pub fn take_all<W: ByteWriter>(
        &mut self,
        bytes: &[u8],
        writer: &mut W,
    ) -> Result<Flow, WriteFault>
        requires few { self.old.pieces + length bytes.now ≤ 2 ^ 63 }
        requires idle { ready_piece self.old.cutter ≡ None }
        ensures takes { TakesAllTo W.ByteWriter self.old bytes.now self.new writer.old writer.new result }
        ensures few { self.new.pieces ≤ self.old.pieces + length bytes.now }
        ensures idle { ready_piece self.new.cutter ≡ None }
    {
        let mut rest = bytes;
        while !rest.is_empty() {
            let taken = self.cutter.feed(rest);
            rest = &rest[taken..];
            match self.answer_ready(writer)? {
                Flow::Goes => {}
                Flow::Stops => return Ok(Flow::Stops),
            }
        }
        Ok(Flow::Goes)
    }

    /// The input has ended: answers the piece that it ends, if it does.
    pub fn finish<W: ByteWriter>(&mut self, writer: &mut W) -> Result<Status, WriteFault>
        requires { self.old.pieces < 2 ^ 64 - 1 }
        ensures { FinishesTo W.ByteWriter self.old writer.old writer.new result }
    {
        self.cutter.finish();
        self.answer_ready(writer)?;
        Ok(if self.refused {
            Status::Refused
        } else {
            Status::Clean
        })
    }
}
