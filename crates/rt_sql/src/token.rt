//! Tokens, which borrow the text of their piece.
//!
//! Digits stay text, and quotes inside stay doubled: nothing is copied before a statement is made of them.

use std::marker::Model;

/// A part of a text, as it is written there.
#[derive(Debug, Drop)]
pub struct Spelling<'a> {
    text: &'a str,
}

impl<'a> Model for Spelling<'a> {
    ghost use Rattle.std.specs.Prelude.{ℕ, List};

    ghost Value = { List ℕ };

    ghost view = { λ spelling. spelling.text.now };
}

impl<'a> Spelling<'a> {
    ghost use Rattle.std.specs.Prelude.{◌≡◌};

    /// A spelling that is this text.
    pub fn new(text: &'a str) -> Spelling<'a>
        ensures { result ≡ text.now }
    {
        Spelling { text }
    }

    /// The text, which may outlive this spelling.
    pub fn as_str(&self) -> &'a str
        ensures { result.now ≡ self.now }
    {
        self.text
    }
}

/// A sign of one character or two.
#[derive(Clone, Copy, PartialEq, Eq, Debug)]
pub enum Sign {
    /// `(`.
    LeftParenthesis,
    /// `)`.
    RightParenthesis,
    /// `,`.
    Comma,
    /// `;`.
    Semicolon,
    /// `+`.
    Plus,
    /// `-`.
    Minus,
    /// `*`.
    Star,
    /// `=`.
    Equal,
    /// `==`.
    DoubleEqual,
    /// `<>`.
    LessGreater,
    /// `!=`.
    BangEqual,
    /// `<`.
    Less,
    /// `<=`.
    LessOrEqual,
    /// `>`.
    Greater,
    /// `>=`.
    GreaterOrEqual,
}

impl Sign {
    /// How many characters it has.
    fn width(self) -> usize {
        match self {
            Sign::DoubleEqual
            | Sign::LessGreater
            | Sign::BangEqual
            | Sign::LessOrEqual
            | Sign::GreaterOrEqual => 2,
            _ => 1,
        }
    }
}

/// The least part of a statement that means something, which borrows the statement's text.
#[derive(Debug, Drop)]
pub enum Token<'a> {
    /// A word without quotes: a keyword or a name.
    Word(Spelling<'a>),
    /// A name in `"`, without the quotes round it; one inside is doubled.
    Quoted(Spelling<'a>),
    /// An integer without a sign, of any size.
    Digits(Spelling<'a>),
    /// A text in `'`, without the quotes round it; one inside is doubled.
    Text(Spelling<'a>),
    /// The hexadecimal digits of a blob.
    Blob(Spelling<'a>),
    /// A sign.
    Sign(Sign),
    /// The word of a dot line, which may be empty.
    Dot(Spelling<'a>),
    /// A character that begins no token.
    Bad,
}

impl<'a> Token<'a> {
    ghost use Rattle.std.specs.Prelude.{◌≡◌};
    ghost use Rattle.rt_sql.specs.Reading as reading;

    /// It is this sign.
    #[tactic(auto, unfolding(crate::specs::Reading::is_sign))]
    pub fn is_sign(&self, sign: Sign) -> bool
        ensures { result ≡ reading.is_sign sign self.now }
    {
        match self {
            Token::Sign(own) => *own == sign,
            _ => false,
        }
    }

    /// How many bytes it takes in its text.
    pub fn width(&self) -> usize {
        match self {
            Token::Word(spelling) | Token::Digits(spelling) => spelling.as_str().len(),
            Token::Dot(word) => word.as_str().len().saturating_add(1),
            Token::Quoted(inside) | Token::Text(inside) => inside.as_str().len().saturating_add(2),
            Token::Blob(digits) => digits.as_str().len().saturating_add(3),
            Token::Sign(sign) => sign.width(),
            Token::Bad => 1,
        }
    }

    /// It is this word, in whatever ASCII case.
    #[tactic(auto, unfolding(crate::specs::Reading::is_word))]
    pub fn is_word(&self, word: &str) -> bool
        ensures { result ≡ reading.is_word word.now self.now }
    {
        match self {
            // Most scripts write keywords in capitals, which are compared faster.
            Token::Word(own) => { own.as_str() == word || own.as_str().eq_ignore_ascii_case(word) }
            _ => false,
        }
    }
}
