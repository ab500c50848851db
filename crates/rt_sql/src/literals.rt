//! What the inside of quotes and the digits of a blob stand for.
//!
//! Both calls make a new value: a doubled quote becomes one, and two digits become a byte (`specs/Token.antt`).

ghost use Rattle.std.specs.Prelude.{◌≡◌, ◌<◌, ◌+◌, ◌↔◌, length, slice_index, IsTrue, IfOk, IfSome, MatchOption};
ghost use Rattle.std.specs.String.{string_bytes};
ghost use Rattle.rt_sql.specs.Token as spec;

use std::alloc::{AllocError, Global};

/// At this place two quotes stand side by side.
#[inline]
fn is_pair_at(quote: u8, text: &[u8], at: usize) -> bool
    requires { at < length text.now }
    ensures { IsTrue result ↔ spec.IsPairAt quote text.now at }
{
    text[at] == quote && at + 1 < text.len() && text[at + 1] == quote
}

/// The first place of two quotes side by side.
fn pair_at(quote: u8, text: &[u8]) -> Option<usize>
    ensures value { MatchOption result (spec.undouble quote text.now ≡ text.now) (spec.UndoublesAt quote text.now) }
    ensures within { IfSome result (spec.IsPairAt quote text.now) }
{
    let mut at = 0;
    while at < text.len() {
        if is_pair_at(quote, text, at) {
            return Some(at);
        }
        at += 1;
    }
    None
}

/// The text with one quote for each two.
pub fn undouble(alloc: Global, quote: u8, text: &str) -> Result<String, AllocError>
    requires { quote < 128 }
    ensures { IfOk result (λ plain. string_bytes plain ≡ spec.undouble quote text.now) }
{
    let mut plain = String::new(alloc);
    let mut rest = text;
    while let Some(at) = pair_at(quote, rest.as_bytes()) {
        plain.push_str(&rest[..at + 1])?;
        rest = &rest[at + 2..];
    }
    plain.push_str(rest)?;
    Ok(plain)
}

fn hex_value(digit: u8) -> u8
    ensures value { result ≡ spec.hex_value digit }
    ensures within { result < 16 }
{
    match digit {
        b'0'..=b'9' => digit - b'0',
        b'a'..=b'f' => digit - b'a' + 10,
        b'A'..=b'F' => digit - b'A' + 10,
        _ => 0,
    }
}

/// The byte that the two digits from a place on write.
#[inline]
fn hex_byte(digits: &[u8], at: usize) -> u8
    requires { at + 1 < length digits.now }
    ensures { result ≡ spec.hex_byte (slice_index digits.now at) (slice_index digits.now (at + 1)) }
{
    16 * hex_value(digits[at]) + hex_value(digits[at + 1])
}

/// The bytes that pairs of hexadecimal digits write.
pub fn hex_bytes(alloc: Global, digits: &str) -> Result<Vec<u8>, AllocError>
    ensures { IfOk result (λ bytes. bytes.items ≡ spec.hex_bytes digits.now) }
{
    let digits = digits.as_bytes();
    let mut bytes = Vec::new(alloc);
    let mut at = 0;
    while digits.len() - at >= 2 {
        bytes.push(hex_byte(digits, at))?;
        at += 2;
    }
    Ok(bytes)
}
