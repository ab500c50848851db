//! The tokens of a piece, from a place on.
//!
//! The next token is cut, and the text behind it isn't yet. So tokens take no memory. Contracts see the list of those
//! that are left (`specs/Cursor.antt`).

use crate::lexer::{dot_len, lex};
use crate::token::{Sign, Spelling, Token};
use rt_sql_statement::Refusal;
use std::marker::Model;
use std::ops::Range;

/// The tokens of a text from a place on. Each is cut as it is reached.
#[derive(Debug, Drop)]
pub struct Tokens<'a> {
    next: Option<Token<'a>>,
    /// The text after that token.
    text: &'a str,
}

impl<'a> Model for Tokens<'a> {
    ghost use Rattle.std.specs.Prelude.{List};
    ghost use Rattle.rt_sql.specs.declared.token.Token.{Token};

    ghost Value = { List Token };

    ghost use Rattle.rt_sql.specs.Cursor.{tokens_left, EndsWithText};

    ghost view = { tokens_left };

    ghost invariant = { EndsWithText };
}

impl<'a> Tokens<'a> {
    ghost use Rattle.std.specs.Prelude.{◌≡◌, ◌≤◌, length, if◌then◌else◌};
    ghost use Rattle.std.specs.Option.{option_copied};
    ghost use Rattle.rt_sql.specs.Lex.{piece_tokens, tokens_of};
    ghost use Rattle.rt_sql.specs.Reading as reading;
    ghost use Rattle.rt_sql.specs.Reading.{Reads};

    /// The tokens of a piece of a script, which is a dot line if it begins with a dot.
    #[tactic(auto, using(crate::proofs::Cursor::piece_empty, crate::proofs::Cursor::piece_other, crate::proofs::Cursor::piece_dot, crate::proofs::Cuts::cut_after_first))]
    pub fn new(piece: &'a str) -> Tokens<'a>
        ensures { result ≡ piece_tokens piece.now }
    {
        let bytes = piece.as_bytes();
        if bytes.is_empty() || bytes[0] != b'.' {
            return Tokens::of(piece);
        }
        let line = &piece[1..];
        let (word, text) = line.split_at(dot_len(line));
        Tokens {
            next: Some(Token::Dot(Spelling::new(word))),
            text,
        }
    }

    /// The tokens of a text that is no dot line.
    #[tactic(auto, using(crate::proofs::Cursor::after_one))]
    fn of(text: &'a str) -> Tokens<'a>
        ensures { result ≡ tokens_of text.now }
    {
        // Behind a token that is passed over, so that the lexer stands in `skip` alone.
        let mut tokens = Tokens {
            next: Some(Token::Bad),
            text,
        };
        tokens.skip();
        tokens
    }

    /// Passes over the next token. It is no part of its callers, so that the lexer stands in the program once.
    #[inline(never)]
    #[tactic(auto, using(crate::proofs::Cursor::rest_left))]
    pub fn skip(&mut self)
        ensures { self.new ≡ reading.rest self.old }
    {
        let (next, text) = lex(self.text);
        self.next = next;
        self.text = text;
    }

    /// The next token, which isn't taken.
    #[tactic(auto, using(crate::proofs::Cursor::first_left))]
    pub fn peek(&self) -> Option<&Token<'a>>
        ensures { option_copied result ≡ reading.first self.now }
    {
        self.next.as_ref()
    }

    /// The token after the next.
    #[tactic(auto, using(crate::proofs::Cursor::rest_left, crate::proofs::Cursor::first_lexed))]
    pub fn second(&self) -> Option<Token<'a>>
        ensures { result ≡ reading.first (reading.rest self.now) }
    {
        Tokens::of(self.text).next
    }

    /// Where the next token stands in the text that these are the tokens of, or that text's end if none is left.
    #[cold]
    #[inline(never)]
    pub fn next_in(&self, whole: &str) -> Range<usize>
        ensures { (result.start ≤ result.end) × (result.end ≤ length whole.now) }
    {
        let end = whole.len().saturating_sub(self.text.len());
        let width = self.next.as_ref().map_or(0, |token| token.width());
        end.saturating_sub(width)..end
    }

    /// The sign is the next token.
    #[tactic(auto, using(crate::proofs::Cursor::first_left), unfolding(crate::specs::Reading::sees_sign))]
    pub fn sees_sign(&self, sign: Sign) -> bool
        ensures { result ≡ reading.sees_sign sign self.now }
    {
        match &self.next {
            Some(token) => token.is_sign(sign),
            None => false,
        }
    }

    /// The word is the next token, in whatever ASCII case.
    #[tactic(auto, using(crate::proofs::Cursor::first_left), unfolding(crate::specs::Reading::sees_word))]
    pub fn sees_word(&self, word: &str) -> bool
        ensures { result ≡ reading.sees_word word.now self.now }
    {
        match &self.next {
            Some(token) => token.is_word(word),
            None => false,
        }
    }

    /// Takes the next token if it is this sign, and returns whether it was.
    pub fn eat_sign(&mut self, sign: Sign) -> bool
        ensures found { result ≡ reading.sees_sign sign self.old }
        ensures after { self.new ≡ (if reading.sees_sign sign self.old then reading.rest self.old else self.old) }
    {
        let found = self.sees_sign(sign);
        if found {
            self.skip();
        }
        found
    }

    /// Takes the next token if it is this word, in whatever ASCII case, and returns whether it was.
    pub fn eat_word(&mut self, word: &str) -> bool
        ensures found { result ≡ reading.sees_word word.now self.old }
        ensures after { self.new ≡ (if reading.sees_word word.now self.old then reading.rest self.old else self.old) }
    {
        let found = self.sees_word(word);
        if found {
            self.skip();
        }
        found
    }

    /// Takes the next token, which has to be this sign. Any other is a `SyntaxError`, and isn't taken.
    #[tactic(auto, unfolding(crate::specs::Reading::sign))]
    pub fn expect_sign(&mut self, sign: Sign) -> Result<(), Refusal>
        ensures { Reads (reading.sign sign self.old) result self.new }
    {
        if self.eat_sign(sign) {
            Ok(())
        } else {
            Err(Refusal::SyntaxError)
        }
    }

    /// Takes the next token, which has to be this word, in whatever ASCII case. Any other is a `SyntaxError`, and
    /// isn't taken.
    #[tactic(auto, unfolding(crate::specs::Reading::keyword))]
    pub fn expect_word(&mut self, word: &str) -> Result<(), Refusal>
        ensures { Reads (reading.keyword word.now self.old) result self.new }
    {
        if self.eat_word(word) {
            Ok(())
        } else {
            Err(Refusal::SyntaxError)
        }
    }
}
