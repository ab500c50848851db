//! A piece of a script, as a cutter hands it out.
//!
//! It borrows the bytes that the cutter holds, so it is used before the cutter is fed again or cleared.

use std::marker::Model;

/// How a piece of a script ended.
#[derive(Clone, Copy, PartialEq, Eq, Debug)]
pub enum Ending {
    /// At its `;`, or at its line's end.
    Whole,
    /// The input ended before the statement's `;`.
    Incomplete,
    /// It has more than 65,536 bytes, of which none is held.
    TooLong,
}

/// A piece of a script: a statement or a dot line.
#[derive(Debug, Drop)]
pub struct Piece<'a> {
    text: &'a [u8],
    ending: Ending,
}

impl<'a> Model for Piece<'a> {
    ghost use Rattle.rt_sql_cut.specs.Pieces.{PieceText};

    ghost Value = { PieceText };

    ghost view = { λ p. record { text = p.text.now; ending = p.ending } };
}

impl<'a> Piece<'a> {
    ghost use Rattle.std.specs.Prelude.{◌≡◌};

    /// A piece with this text.
    pub fn new(text: &'a [u8], ending: Ending) -> Piece<'a>
        ensures { result ≡ record { text = text.now; ending = ending } }
    {
        Piece { text, ending }
    }

    /// Its bytes, with the `;` of a statement, and none for one that is too long.
    pub fn text(&self) -> &'a [u8]
        ensures { result.now ≡ self.now.text }
    {
        self.text
    }

    /// How it ended.
    pub fn ending(&self) -> Ending
        ensures { result ≡ self.now.ending }
    {
        self.ending
    }
}
