//! Places in a script, and the words there, as messages name them.

use std::fmt;
use std::fmt::Write;

/// The most characters of a word that a message shows.
const MOST_SHOWN: usize = 40;

/// A line, and a character in it, from 1 on.
#[derive(Clone, Copy)]
pub(crate) struct Place {
    /// The line.
    pub(crate) line: u64,
    /// The character in it.
    pub(crate) column: u64,
}

impl Place {
    /// The first character of a script.
    pub(crate) const START: Place = Place { line: 1, column: 1 };

    /// The place after these bytes, which begin here.
    pub(crate) fn after(self, bytes: &[u8]) -> Place {
        let Place {
            mut line,
            mut column,
        } = self;
        for byte in bytes {
            if *byte == b'\n' {
                line = line.saturating_add(1);
                column = 1;
            } else if !is_continuation(*byte) {
                column = column.saturating_add(1);
            }
        }
        Place { line, column }
    }
}

impl fmt::Display for Place {
    fn fmt<W: fmt::Write>(&self, f: &mut fmt::Formatter<W>) -> fmt::Result {
        let Place { line, column } = *self;
        write!(f, "line {line}, column {column}")
    }
}

/// The byte is a character's in UTF-8, and not its first.
fn is_continuation(byte: u8) -> bool {
    byte & 0xc0 == 0x80
}

/// A word as a message shows it: its beginning if it is long, and nothing from a control character on.
#[derive(Clone, Copy)]
pub(crate) struct Word<'a> {
    text: &'a str,
}

/// The word that a text begins with, whose token has this length. Digits that letters follow are no token; they are shown
/// with these letters.
pub(crate) fn word_at(text: &[u8], length: usize) -> Option<Word<'_>> {
    let (token, rest) = text.split_at(length.min(text.len()));
    let tail = match token {
        [first, ..] if first.is_ascii_digit() => prefix_len(rest),
        _ => 0,
    };
    let end = token.len().saturating_add(tail).min(text.len());
    let text = str::from_utf8(&text[..end]).ok()?;
    Some(Word { text })
}

/// The length of the prefix that a word may hold.
fn prefix_len(bytes: &[u8]) -> usize {
    bytes
        .iter()
        .take_while(|byte| byte.is_ascii_alphanumeric() || matches!(**byte, b'_' | b'$' | 0x80..))
        .count()
}

impl<'a> fmt::Display for Word<'a> {
    fn fmt<W: fmt::Write>(&self, f: &mut fmt::Formatter<W>) -> fmt::Result {
        if self.text.is_empty() {
            return f.write_str("the end of the line");
        }
        for character in self.text.chars().take(MOST_SHOWN) {
            if character.is_control() {
                break;
            }
            f.write_char(character)?;
        }
        Ok(())
    }
}
