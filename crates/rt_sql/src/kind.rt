//! What a byte is to the lexer, looked up in a table.
//!
//! `specs/Kind.antt` says it in words; the table is proved to agree.

ghost use Rattle.std.specs.Prelude.{◌≡◌};
ghost use Rattle.rt_sql.specs.Kind as spec;

use crate::kind::Kind::{Digit, Dollar, Letter, Mark, White};

/// What a byte is to the lexer.
#[derive(Clone, Copy, Debug)]
pub enum Kind {
    /// It begins a word, and goes on with one.
    Letter,
    /// It begins a number, and goes on with a word.
    Digit,
    /// It only goes on with a word.
    Dollar,
    /// White space.
    White,
    /// Anything else: signs, quotes, and what begins no token.
    Mark,
}

/// The kind of each byte, eight a line.
#[rattlefmt::skip]
static KINDS: [Kind; 256] = [
    Mark, Mark, Mark, Mark, Mark, Mark, Mark, Mark,
    Mark, White, White, Mark, White, White, Mark, Mark,
    Mark, Mark, Mark, Mark, Mark, Mark, Mark, Mark,
    Mark, Mark, Mark, Mark, Mark, Mark, Mark, Mark,
    White, Mark, Mark, Mark, Dollar, Mark, Mark, Mark,
    Mark, Mark, Mark, Mark, Mark, Mark, Mark, Mark,
    Digit, Digit, Digit, Digit, Digit, Digit, Digit, Digit,
    Digit, Digit, Mark, Mark, Mark, Mark, Mark, Mark,
    Mark, Letter, Letter, Letter, Letter, Letter, Letter, Letter,
    Letter, Letter, Letter, Letter, Letter, Letter, Letter, Letter,
    Letter, Letter, Letter, Letter, Letter, Letter, Letter, Letter,
    Letter, Letter, Letter, Mark, Mark, Mark, Mark, Letter,
    Mark, Letter, Letter, Letter, Letter, Letter, Letter, Letter,
    Letter, Letter, Letter, Letter, Letter, Letter, Letter, Letter,
    Letter, Letter, Letter, Letter, Letter, Letter, Letter, Letter,
    Letter, Letter, Letter, Mark, Mark, Mark, Mark, Mark,
    Letter, Letter, Letter, Letter, Letter, Letter, Letter, Letter,
    Letter, Letter, Letter, Letter, Letter, Letter, Letter, Letter,
    Letter, Letter, Letter, Letter, Letter, Letter, Letter, Letter,
    Letter, Letter, Letter, Letter, Letter, Letter, Letter, Letter,
    Letter, Letter, Letter, Letter, Letter, Letter, Letter, Letter,
    Letter, Letter, Letter, Letter, Letter, Letter, Letter, Letter,
    Letter, Letter, Letter, Letter, Letter, Letter, Letter, Letter,
    Letter, Letter, Letter, Letter, Letter, Letter, Letter, Letter,
    Letter, Letter, Letter, Letter, Letter, Letter, Letter, Letter,
    Letter, Letter, Letter, Letter, Letter, Letter, Letter, Letter,
    Letter, Letter, Letter, Letter, Letter, Letter, Letter, Letter,
    Letter, Letter, Letter, Letter, Letter, Letter, Letter, Letter,
    Letter, Letter, Letter, Letter, Letter, Letter, Letter, Letter,
    Letter, Letter, Letter, Letter, Letter, Letter, Letter, Letter,
    Letter, Letter, Letter, Letter, Letter, Letter, Letter, Letter,
    Letter, Letter, Letter, Letter, Letter, Letter, Letter, Letter,
];

/// The kind of a byte.
pub fn kind_of(b: u8) -> Kind
    ensures { result ≡ spec.kind_of b }
{
    KINDS[usize::from(b)]
}
