//! The statement that a piece spells, or why it is refused.
//!
//! A text that spells no statement with integers within 64 bits is read again with integers of any size, to find
//! its refusal (`specs/Parse.antt`).

ghost use Rattle.std.specs.Prelude.{◌≡◌, ◌≤◌, ◌⊎◌, length, Contains, IfSome, IsSome, MatchOption, None, Err};
ghost use Rattle.rt_sql.specs.Lex.{piece_tokens};
ghost use Rattle.rt_sql.specs.Number.{number_by};
ghost use Rattle.rt_sql.specs.Parse.{IsText, ParsesText, ParsesUnlessMemory};
ghost use Rattle.rt_sql.specs.Reading as reading;

use crate::grammar::{is_command, whole};
use crate::number::Numbers;
use crate::token::Token;
use crate::tokens::Tokens;
use rt_sql_cut::{Ending, Piece};
use rt_sql_request::Stmt;
use rt_sql_statement::Refusal;
use std::alloc::Global;
use std::ops::Range;

/// The text, if it is UTF-8 with no zero byte.
fn as_text(bytes: &[u8]) -> Option<&str>
    ensures { MatchOption result (¬ IsText bytes.now) (λ text. IsText bytes.now × (text.now ≡ bytes.now)) }
{
    match str::from_utf8(bytes) {
        Ok(text) if !bytes.contains(&0) => Some(text),
        _ => None,
    }
}

/// The text is a dot line whose word is no command.
#[tactic(auto, unfolding(crate::specs::Reading::unknown_in))]
fn is_unknown_command(text: &str) -> bool
    ensures { result ≡ reading.unknown_in (reading.first (piece_tokens text.now)) }
{
    match Tokens::new(text).peek() {
        Some(Token::Dot(word)) => !is_command(word.as_str()),
        _ => false,
    }
}

/// Why a text spells no statement whose integers are within 64 bits: a second reading takes
/// integers of any size.
#[cold]
#[inline(never)]
fn refusal(alloc: Global, text: &str) -> Refusal
    requires { reading.whole (number_by Numbers.Within64Bits) (piece_tokens text.now) ≡ None }
    ensures { (result ≡ Refusal.OutOfMemory) ⊎ ParsesText text.now (Err result) }
{
    if is_unknown_command(text) {
        return Refusal::UnknownCommand;
    }
    match whole(alloc, &mut Tokens::new(text), Numbers::AnySize).err() {
        None => Refusal::IntegerOutOfRange,
        Some(Refusal::OutOfMemory) => Refusal::OutOfMemory,
        Some(_) => Refusal::SyntaxError,
    }
}

#[tactic(auto, using(crate::proofs::Parses::parses_ok))]
fn parse_text(alloc: Global, text: &str) -> Result<Stmt, Refusal>
    ensures { (result ≡ Err Refusal.OutOfMemory) ⊎ ParsesText text.now result }
{
    match whole(alloc, &mut Tokens::new(text), Numbers::Within64Bits) {
        Ok(statement) => Ok(statement),
        Err(Refusal::OutOfMemory) => Err(Refusal::OutOfMemory),
        Err(_) => Err(refusal(alloc, text)),
    }
}

/// The statement that a piece of a script spells.
///
/// ```
/// let piece = Piece::new(b"DROP TABLE \"t\";", Ending::Whole);
/// match parse(alloc, &piece)? {
///     Stmt::Drop { table, if_there } => {} // `table` is the name t, and `if_there` is false
///     _ => {}
/// }
/// ```
///
/// # Errors
///
/// Refuses a piece that is too long, incomplete, no UTF-8 text without zero bytes, a dot line
/// with an unknown word, no statement, or a statement with an integer outside 64 bits; the first
/// that applies. `OutOfMemory` if no memory is left, in place of any answer.
pub fn parse(alloc: Global, piece: &Piece<'_>) -> Result<Stmt, Refusal>
    ensures { ParsesUnlessMemory piece.now result }
{
    match piece.ending() {
        Ending::TooLong => Err(Refusal::StatementTooLong),
        Ending::Incomplete => Err(Refusal::IncompleteInput),
        Ending::Whole => match as_text(piece.text()) {
            Some(text) => parse_text(alloc, text),
            None => Err(Refusal::NotUtf8),
        },
    }
}

/// The bytes of the token at which no statement goes on, or the end of the text if a token is missing there. None unless
/// `parse` refuses the piece as a `SyntaxError`, or if no memory is left.
#[cold]
pub fn refused_at(alloc: Global, piece: &Piece<'_>) -> Option<Range<usize>>
    ensures refused { IsSome result → ParsesUnlessMemory piece.now (Err Refusal.SyntaxError) }
    ensures within { IfSome result (λ at. (at.start ≤ at.end) × (at.end ≤ length piece.now.text)) }
{
    let Some(Refusal::SyntaxError) = parse(alloc, piece).err() else {
        return None;
    };
    let text = as_text(piece.text())?;
    let mut tokens = Tokens::new(text);
    match whole(alloc, &mut tokens, Numbers::AnySize).err() {
        Some(Refusal::SyntaxError) => Some(tokens.next_in(text)),
        _ => None,
    }
}
