//! The first token of a text, past the white space and comments before it.
//!
//! A token is as long as it can be. A character that begins no token is one of its own, `Bad`, so every text has a
//! list of tokens. `specs/Lex.antt` has this code as functions; `specs/Tokens.antt` says which tokens a text has.

ghost use Rattle.std.specs.Prelude.{◌≡◌, ◌≢◌, ◌<◌, ◌≤◌, ◌+◌, [], length, slice_index, true, false, drop, None, IfSome, ◌⊎◌};
ghost use Rattle.std.specs.Char.{is_ascii_digit};
ghost use Rattle.std.specs.List.{prefix_len};
ghost use Rattle.std.specs.Str.{IsCharBoundary};
ghost use Rattle.rt_sql_cut.specs.Text.{is_white};
ghost use Rattle.rt_sql.specs.Token as spec;
ghost use Rattle.rt_sql.specs.Class.{is_in};
ghost use Rattle.rt_sql.specs.Lex as lexing;

use crate::kind::{Kind, kind_of};
use crate::token::{Sign, Spelling, Token};

/// Kinds of characters, by their bytes.
#[derive(Clone, Copy, Debug)]
enum Class {
    /// A decimal digit.
    Digit,
    /// A hexadecimal digit.
    Hex,
    /// What a word goes on with.
    InWord,
    /// What a comment of a line goes on with.
    InLine,
}

/// A token, or none for white space and a comment, and its length in bytes.
type Lexeme<'a> = (Option<Token<'a>>, usize);

fn begins_word(b: u8) -> bool
    ensures { result ≡ spec.begins_word b }
{
    matches!(kind_of(b), Kind::Letter)
}

fn is_in_word(b: u8) -> bool
    ensures { result ≡ spec.is_in_word b }
{
    matches!(kind_of(b), Kind::Letter | Kind::Digit | Kind::Dollar)
}

#[tactic(auto, unfolding(crate::specs::Token::is_in_line))]
fn is_in(class: Class, b: u8) -> bool
    ensures { result ≡ is_in class b }
{
    match class {
        Class::Digit => b.is_ascii_digit(),
        Class::Hex => b.is_ascii_hexdigit(),
        Class::InWord => is_in_word(b),
        Class::InLine => b != b'\n',
    }
}

/// The byte at a place, and 0 past the end.
fn byte(text: &[u8], at: usize) -> u8
    ensures value { result ≡ slice_index text.now at }
    ensures within { result ≢ 0 → at < length text.now }
{
    if at < text.len() { text[at] } else { 0 }
}

/// The length of the text's prefix of that class.
fn prefix_len(class: Class, text: &[u8]) -> usize
    ensures value { result ≡ prefix_len (is_in class) text.now }
    ensures within { result ≤ length text.now }
{
    let mut end = 0;
    while end < text.len() && is_in(class, text[end]) {
        end += 1;
    }
    end
}

#[tactic(auto, using(crate::proofs::Cuts::cut_at_front, crate::proofs::Cuts::ascii_outside_word), unfolding(crate::specs::Lex::word))]
fn word(text: &str) -> Lexeme<'_>
    ensures value { result ≡ lexing.word text.now }
    ensures cut { IsCharBoundary text.now result.1 }
    ensures moves { spec.begins_word (slice_index text.now 0) ≡ true → 0 < result.1 }
{
    let end = prefix_len(Class::InWord, text.as_bytes());
    (Some(Token::Word(Spelling::new(&text[..end]))), end)
}

#[tactic(auto, using(crate::proofs::Cuts::cut_at_front, crate::proofs::Cuts::cut_after_first, crate::proofs::Cuts::ascii_outside_word, crate::proofs::Cuts::ascii_from_digit), unfolding(crate::specs::Lex::digits))]
fn digits(text: &str) -> Lexeme<'_>
    requires { is_ascii_digit (slice_index text.now 0) ≡ true }
    ensures value { result ≡ lexing.digits text.now }
    ensures cut { IsCharBoundary text.now result.1 }
    ensures moves { 0 < result.1 }
{
    let bytes = text.as_bytes();
    let end = prefix_len(Class::Digit, bytes);
    if is_in_word(byte(bytes, end)) {
        return (Some(Token::Bad), 1);
    }
    (Some(Token::Digits(Spelling::new(&text[..end]))), end)
}

/// The place of the closing quote, in a text without the opening one. A doubled quote doesn't
/// close.
#[tactic(auto, using(crate::proofs::Closings::closing_goes, crate::proofs::Closings::closing_skips))]
fn closing(quote: u8, text: &[u8]) -> Option<usize>
    ensures value { result ≡ lexing.closing quote 0 text.now }
    ensures within { IfSome result (λ end. (end < length text.now) × (slice_index text.now end ≡ quote)) }
{
    let mut at = 0;
    while at < text.len() {
        if text[at] != quote {
            at += 1;
        } else if at + 1 < text.len() && text[at + 1] == quote {
            at += 2;
        } else {
            return Some(at);
        }
    }
    None
}

#[tactic(auto, unfolding(crate::specs::Lex::long_sign))]
fn long_sign(b: u8, next: u8) -> Option<Sign>
    ensures value { result ≡ lexing.long_sign b next }
    ensures within { IfSome result (λ _. (0 < next) × (next < 128)) }
{
    match (b, next) {
        (b'=', b'=') => Some(Sign::DoubleEqual),
        (b'<', b'=') => Some(Sign::LessOrEqual),
        (b'>', b'=') => Some(Sign::GreaterOrEqual),
        (b'!', b'=') => Some(Sign::BangEqual),
        (b'<', b'>') => Some(Sign::LessGreater),
        _ => None,
    }
}

#[tactic(auto, unfolding(crate::specs::Lex::short_sign))]
fn short_sign(b: u8) -> Option<Sign>
    ensures { result ≡ lexing.short_sign b }
{
    match b {
        b'(' => Some(Sign::LeftParenthesis),
        b')' => Some(Sign::RightParenthesis),
        b',' => Some(Sign::Comma),
        b';' => Some(Sign::Semicolon),
        b'+' => Some(Sign::Plus),
        b'-' => Some(Sign::Minus),
        b'*' => Some(Sign::Star),
        b'=' => Some(Sign::Equal),
        b'<' => Some(Sign::Less),
        b'>' => Some(Sign::Greater),
        _ => None,
    }
}

#[tactic(auto, unfolding(crate::specs::Lex::sign))]
fn sign(b: u8, next: u8) -> (Option<Token<'static>>, usize)
    ensures value { result ≡ lexing.sign b next }
    ensures within { (result.1 ≡ 1) ⊎ ((result.1 ≡ 2) × (0 < next) × (next < 128)) }
{
    if let Some(sign) = long_sign(b, next) {
        return (Some(Token::Sign(sign)), 2);
    }
    match short_sign(b) {
        Some(sign) => (Some(Token::Sign(sign)), 1),
        None => (Some(Token::Bad), 1),
    }
}

/// A text in single quotes, or a name in double ones, which isn't empty.
#[tactic(auto, using(crate::proofs::Cuts::cut_past_quote, crate::proofs::Cuts::cut_after_first, crate::proofs::Cuts::cut_before), unfolding(crate::specs::Lex::in_quotes))]
fn in_quotes(quote: u8, text: &str) -> Lexeme<'_>
    requires some { 0 < length text.now }
    requires first { slice_index text.now 0 ≡ quote }
    requires ascii { quote < 128 }
    ensures value { result ≡ lexing.in_quotes quote (drop 1 text.now) }
    ensures cut { IsCharBoundary text.now result.1 }
    ensures moves { 0 < result.1 }
{
    let rest = &text[1..];
    match closing(quote, rest.as_bytes()) {
        Some(end) if quote == b'\'' => (Some(Token::Text(Spelling::new(&rest[..end]))), end + 2),
        Some(end) if end > 0 => (Some(Token::Quoted(Spelling::new(&rest[..end]))), end + 2),
        _ => (Some(Token::Bad), 1),
    }
}

/// The length of a comment up to its `*/`, given without the two bytes that begin it.
#[tactic(auto, using(crate::proofs::Cuts::cut_past_slash))]
fn block_len(rest: &str) -> usize
    ensures value { result ≡ lexing.block_len rest.now }
    ensures cut { IsCharBoundary rest.now result }
{
    let bytes = rest.as_bytes();
    for (at, b) in bytes.iter().enumerate() {
        if *b == b'*' && byte(bytes, at + 1) == b'/' {
            return at + 2;
        }
    }
    bytes.len()
}

/// A blob, or a word if the letter begins no blob.
#[tactic(auto, using(crate::proofs::Cuts::cut_past_blob, crate::proofs::Cuts::cut_before), unfolding(crate::specs::Lex::blob))]
fn blob(text: &str) -> Lexeme<'_>
    requires some { 1 < length text.now }
    requires letter { spec.begins_word (slice_index text.now 0) ≡ true }
    requires quote { slice_index text.now 1 ≡ 39 }
    ensures value { result ≡ lexing.blob (drop 2 text.now) (lexing.word text.now) }
    ensures cut { IsCharBoundary text.now result.1 }
    ensures moves { 0 < result.1 }
{
    let rest = &text[2..];
    let bytes = rest.as_bytes();
    let end = prefix_len(Class::Hex, bytes);
    if byte(bytes, end) == b'\'' && end % 2 == 0 {
        (Some(Token::Blob(Spelling::new(&rest[..end]))), end + 3)
    } else {
        word(text)
    }
}

/// The length of the comment that the text begins with.
#[tactic(auto, using(crate::proofs::Cuts::cut_after_first), unfolding(crate::specs::Lex::gap, crate::specs::Lex::line_len))]
fn comment_len(first: u8, text: &str) -> usize
    requires some { 0 < length text.now }
    requires first { first ≡ slice_index text.now 0 }
    requires comment { lexing.is_gap first (slice_index text.now 1) ≡ true }
    requires white { is_white first ≡ false }
    ensures value { lexing.gap first text.now ≡ (None, result) }
    ensures cut { IsCharBoundary text.now result }
    ensures moves { 0 < result }
{
    let rest = &text[2..];
    2 + if first == b'-' {
        prefix_len(Class::InLine, rest.as_bytes())
    } else {
        block_len(rest)
    }
}

/// A word, or a blob if a quote follows its first letter.
#[tactic(auto, using(crate::proofs::Lexemes::letter_lexeme))]
fn letter_lexeme(first: u8, text: &str) -> Lexeme<'_>
    requires some { 0 < length text.now }
    requires first { first ≡ slice_index text.now 0 }
    requires letter { spec.begins_word first ≡ true }
    ensures value { result ≡ lexing.lexeme first text.now }
    ensures cut { IsCharBoundary text.now result.1 }
    ensures moves { 0 < result.1 }
{
    if (first == b'X' || first == b'x') && byte(text.as_bytes(), 1) == b'\'' {
        blob(text)
    } else {
        word(text)
    }
}

/// These two bytes begin a comment.
fn begins_comment(b: u8, next: u8) -> bool
    ensures { result ≡ lexing.begins_comment b next }
{
    match b {
        b'-' => next == b'-',
        b'/' => next == b'*',
        _ => false,
    }
}

/// A sign, a comment, or what stands in quotes.
fn mark_lexeme(first: u8, text: &str) -> Lexeme<'_>
    requires some { 0 < length text.now }
    requires first { first ≡ slice_index text.now 0 }
    requires word { spec.begins_word first ≡ false }
    requires digit { is_ascii_digit first ≡ false }
    requires white { is_white first ≡ false }
    ensures value { result ≡ lexing.lexeme first text.now }
    ensures cut { IsCharBoundary text.now result.1 }
    ensures moves { 0 < result.1 }
{
    let next = byte(text.as_bytes(), 1);
    if begins_comment(first, next) {
        (None, comment_len(first, text))
    } else if first == b'\'' || first == b'"' {
        in_quotes(first, text)
    } else {
        sign(first, next)
    }
}

/// The token, the white space or the comment that the text begins with.
fn lexeme(first: u8, text: &str) -> Lexeme<'_>
    requires some { 0 < length text.now }
    requires first { first ≡ slice_index text.now 0 }
    ensures value { result ≡ lexing.lexeme first text.now }
    ensures cut { IsCharBoundary text.now result.1 }
    ensures moves { 0 < result.1 }
{
    match kind_of(first) {
        Kind::White => (None, 1),
        Kind::Digit => digits(text),
        Kind::Letter => letter_lexeme(first, text),
        Kind::Dollar | Kind::Mark => mark_lexeme(first, text),
    }
}

/// The first token, or none if the text has none, and the text after it.
#[inline(always)]
pub fn lex(text: &str) -> (Option<Token<'_>>, &str)
    ensures tokens { lexing.tokens_of text.now ≡ lexing.put result.0 (lexing.tokens_of result.1.now) }
    ensures end { result.0 ≡ None → result.1.now ≡ [] }
{
    let mut rest = text;
    while let [first, ..] = rest.as_bytes() {
        let (token, len) = lexeme(*first, rest);
        rest = &rest[len..];
        if token.is_some() {
            return (token, rest);
        }
    }
    (None, rest)
}

/// The length of the word that a dot line begins with after its dot, which may be empty.
#[tactic(auto, using(crate::proofs::Cuts::cut_at_front, crate::proofs::Cuts::cut_at_start, crate::proofs::Cuts::ascii_outside_word))]
pub fn dot_len(line: &str) -> usize
    ensures value { result ≡ lexing.dot_len line.now }
    ensures cut { IsCharBoundary line.now result }
{
    match line.as_bytes() {
        [first, ..] if begins_word(*first) => prefix_len(Class::InWord, line.as_bytes()),
        _ => 0,
    }
}
