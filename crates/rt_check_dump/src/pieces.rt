//! The pieces of a text between the bytes that part them.
//!
//! A dump is cut into lines at line feeds, and a line into words at spaces. A text that ends with its separator
//! has an empty last piece (`specs/Pieces.antt`).

ghost use Rattle.std.specs.Prelude.{◌≡◌, ◌≤◌, ◌↔◌, ◌∷◌, [], ◌==◌, ◌+◌, IsTrue, MatchOption, length};
ghost use Rattle.std.specs.List.{position_or_len};

use std::marker::Model;

/// The pieces of a text that are still to come. Contracts see them as a list.
#[derive(Drop)]
pub(crate) struct Pieces<'a> {
    rest: Option<&'a [u8]>,
    separator: u8,
}

impl<'a> Model for Pieces<'a> {
    ghost use Rattle.std.specs.Prelude.{List, ℕ};
    ghost use Rattle.rt_check_dump.specs.Pieces.{pieces_left};

    ghost Value = { List (List ℕ) };

    ghost view = { λ p. pieces_left p.separator p.rest };
}

impl<'a> Pieces<'a> {
    ghost use Rattle.rt_check_dump.specs.Pieces.{pieces};

    /// The pieces of `text`; there is at least one, which may be empty.
    pub(crate) fn new(text: &'a [u8], separator: u8) -> Pieces<'a>
        ensures value { result ≡ pieces separator text.now }
        ensures few { length result ≤ length text.now + 1 }
    {
        Pieces {
            rest: Some(text),
            separator,
        }
    }

    /// Whether no piece is left.
    pub(crate) fn is_done(&self) -> bool
        ensures { IsTrue result ↔ (self.now ≡ []) }
    {
        match self.rest {
            Some(_) => false,
            None => true,
        }
    }

    /// Takes the next piece.
    pub(crate) fn next(&mut self) -> Option<&'a [u8]>
        ensures { MatchOption result ((self.old ≡ []) × (self.new ≡ [])) (λ piece. self.old ≡ piece.now ∷ self.new) }
    {
        let rest = self.rest?;
        let at = place_of(rest, self.separator);
        if at < rest.len() {
            self.rest = Some(&rest[at + 1..]);
            return Some(&rest[..at]);
        }
        self.rest = None;
        Some(rest)
    }
}

/// Where the byte first stands, or the text's length.
fn place_of(text: &[u8], byte: u8) -> usize
    ensures place { result ≡ position_or_len (λ b. b == byte) text.now }
    ensures within { result ≤ length text.now }
{
    for (index, b) in text.iter().enumerate() {
        if *b == byte {
            return index;
        }
    }
    text.len()
}
