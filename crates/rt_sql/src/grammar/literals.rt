//! Names and values, and lists of them.
//!
//! The first reading takes numbers of 64 bits, and a second one any size: so a number that is too large is told from tokens
//! that spell nothing.

ghost use Rattle.std.specs.Prelude.{◌≡◌, ◌<◌};
ghost use Rattle.rt_sql.specs.Number.{number_by};
ghost use Rattle.rt_sql.specs.Reading as reading;
ghost use Rattle.rt_sql.specs.Reading.{Makes, Reads};
ghost use Rattle.rt_sql.specs.Token as spec;

use crate::grammar::items::{Item, Separator, sequence};
use crate::literals::{hex_bytes, undouble};
use crate::number::{Numbers, number};
use crate::token::{Sign, Token};
use crate::tokens::Tokens;
use crate::word::is_reserved;
use rt_sql_statement::{Blob, Items, Name, Refusal, Text, Value};
use std::alloc::Global;

/// The name that this word is, which comes next, unless it is reserved.
#[tactic(auto, unfolding(crate::specs::Reading::name_in))]
fn plain_name(alloc: Global, tokens: &mut Tokens<'_>, word: &str) -> Result<Name, Refusal>
    ensures { Reads (reading.word_name word.now tokens.old) result tokens.new }
{
    if is_reserved(word) {
        return Err(Refusal::SyntaxError);
    }
    tokens.skip();
    Ok(Name::new(alloc, word)?)
}

/// A name that is written in those quotes.
fn quoted_name(alloc: Global, quote: u8, quoted: &str) -> Result<Name, Refusal>
    requires { quote < 128 }
    ensures { Makes (spec.undouble quote quoted.now) result }
{
    Ok(Name::from_string(undouble(alloc, quote, quoted)?))
}

/// A name: a word that isn't reserved, or any text in double quotes.
#[tactic(auto, unfolding(crate::specs::Reading::name, crate::specs::Reading::name_in))]
pub(crate) fn name(alloc: Global, tokens: &mut Tokens<'_>) -> Result<Name, Refusal>
    ensures { Reads (reading.name tokens.old) result tokens.new }
{
    match tokens.peek() {
        Some(Token::Word(word)) => {
            let word = word.as_str();
            plain_name(alloc, tokens, word)
        }
        Some(Token::Quoted(quoted)) => {
            let quoted = quoted.as_str();
            tokens.skip();
            quoted_name(alloc, b'"', quoted)
        }
        _ => Err(Refusal::SyntaxError),
    }
}

impl Item for Name {
    ghost use Rattle.rt_sql.specs.Reading as reading;

    ghost rule = { λ _. reading.name };

    fn read(alloc: Global, tokens: &mut Tokens<'_>, _numbers: Numbers) -> Result<Name, Refusal> {
        name(alloc, tokens)
    }
}

/// The number that digits write, with the sign that stood before them.
#[tactic(auto, unfolding(crate::specs::Reading::number, crate::specs::Reading::number_in))]
pub(crate) fn digits(
    tokens: &mut Tokens<'_>,
    numbers: Numbers,
    is_negative: bool,
) -> Result<i64, Refusal>
    ensures { Reads (reading.number (number_by numbers) is_negative tokens.old) result tokens.new }
{
    let Some(Token::Digits(digits)) = tokens.peek() else {
        return Err(Refusal::SyntaxError);
    };
    let digits = digits.as_str();
    tokens.skip();
    match number(numbers, is_negative, digits) {
        Some(number) => Ok(number),
        None => Err(Refusal::IntegerOutOfRange),
    }
}

/// An integer: digits with `+`, `-` or no sign.
#[tactic(auto, unfolding(crate::specs::Reading::integer))]
fn integer(tokens: &mut Tokens<'_>, numbers: Numbers) -> Result<i64, Refusal>
    ensures { Reads (reading.integer (number_by numbers) tokens.old) result tokens.new }
{
    let is_negative = tokens.eat_sign(Sign::Minus);
    if !is_negative {
        tokens.eat_sign(Sign::Plus);
    }
    digits(tokens, numbers, is_negative)
}

/// The text that is written in single quotes.
fn text_value(alloc: Global, quoted: &str) -> Result<Value, Refusal>
    ensures { Makes (Value.Text (spec.undouble 39 quoted.now)) result }
{
    let text = undouble(alloc, b'\'', quoted)?;
    Ok(Value::Text(Text::from_string(text)))
}

/// The blob that hexadecimal digits write.
fn blob_value(alloc: Global, digits: &str) -> Result<Value, Refusal>
    ensures { Makes (Value.Blob (spec.hex_bytes digits.now)) result }
{
    let bytes = hex_bytes(alloc, digits)?;
    Ok(Value::Blob(Blob::from_vec(bytes)))
}

/// A text or a blob.
#[tactic(auto, unfolding(crate::specs::Reading::literal, crate::specs::Reading::literal_in))]
fn literal(alloc: Global, tokens: &mut Tokens<'_>) -> Result<Value, Refusal>
    ensures { Reads (reading.literal tokens.old) result tokens.new }
{
    match tokens.peek() {
        Some(Token::Text(text)) => {
            let text = text.as_str();
            tokens.skip();
            text_value(alloc, text)
        }
        Some(Token::Blob(digits)) => {
            let digits = digits.as_str();
            tokens.skip();
            blob_value(alloc, digits)
        }
        _ => Err(Refusal::SyntaxError),
    }
}

/// Whether a text or a blob comes next.
#[tactic(auto, unfolding(crate::specs::Reading::sees_literal, crate::specs::Reading::is_literal))]
fn sees_literal(tokens: &Tokens<'_>) -> bool
    ensures { result ≡ reading.sees_literal tokens.now }
{
    matches!(tokens.peek(), Some(Token::Text(_) | Token::Blob(_)))
}

/// A text, a blob or an integer.
#[tactic(auto, unfolding(crate::specs::Reading::not_null))]
fn not_null(alloc: Global, tokens: &mut Tokens<'_>, numbers: Numbers) -> Result<Value, Refusal>
    ensures { Reads (reading.not_null (number_by numbers) tokens.old) result tokens.new }
{
    if sees_literal(tokens) {
        literal(alloc, tokens)
    } else {
        Ok(Value::Int(integer(tokens, numbers)?))
    }
}

/// Whether an integer without a sign comes next.
#[tactic(auto, unfolding(crate::specs::Reading::sees_digits))]
fn sees_digits(tokens: &Tokens<'_>) -> bool
    ensures { result ≡ reading.sees_digits tokens.now }
{
    matches!(tokens.peek(), Some(Token::Digits(_)))
}

/// A value: `NULL`, a text, a blob or an integer.
#[inline(never)]
#[tactic(auto, unfolding(crate::specs::Reading::a_value))]
fn any_value(alloc: Global, tokens: &mut Tokens<'_>, numbers: Numbers) -> Result<Value, Refusal>
    ensures { Reads (reading.a_value (number_by numbers) tokens.old) result tokens.new }
{
    if tokens.eat_word("NULL") {
        Ok(Value::Null)
    } else {
        not_null(alloc, tokens, numbers)
    }
}

/// A value, which mostly is an integer without a sign.
impl Item for Value {
    ghost use Rattle.rt_sql.specs.Reading.{a_value};

    ghost rule = { a_value };

    #[inline]
    #[tactic(auto, using(crate::proofs::Values::digits_value))]
    fn read(alloc: Global, tokens: &mut Tokens<'_>, numbers: Numbers) -> Result<Value, Refusal> {
        if sees_digits(tokens) {
            Ok(Value::Int(digits(tokens, numbers, false)?))
        } else {
            any_value(alloc, tokens, numbers)
        }
    }
}

/// A row from its first value on.
#[tactic(auto, using(crate::proofs::Shorter::value_takes))]
fn row(alloc: Global, tokens: &mut Tokens<'_>, numbers: Numbers) -> Result<Items<Value>, Refusal>
    ensures { Reads (reading.row_values (number_by numbers) tokens.old) result tokens.new }
{
    let values = sequence::<Value>(alloc, tokens, numbers, Separator::Comma)?;
    tokens.expect_sign(Sign::RightParenthesis)?;
    Ok(values)
}

/// Values in parentheses: a row.
impl Item for Items<Value> {
    ghost use Rattle.rt_sql.specs.Reading.{list};

    ghost rule = { list };

    #[tactic(auto, unfolding(crate::specs::Reading::list))]
    fn read(
        alloc: Global,
        tokens: &mut Tokens<'_>,
        numbers: Numbers,
    ) -> Result<Items<Value>, Refusal> {
        tokens.expect_sign(Sign::LeftParenthesis)?;
        row(alloc, tokens, numbers)
    }
}

/// The name of a table that a text in single quotes spells.
#[tactic(auto, unfolding(crate::specs::Reading::text, crate::specs::Reading::text_in))]
pub(crate) fn text(alloc: Global, tokens: &mut Tokens<'_>) -> Result<Name, Refusal>
    ensures { Reads (reading.text tokens.old) result tokens.new }
{
    let Some(Token::Text(text)) = tokens.peek() else {
        return Err(Refusal::SyntaxError);
    };
    let text = text.as_str();
    tokens.skip();
    quoted_name(alloc, b'\'', text)
}
