//! What is printed of a value: the literal of SQL that SQLite's `quote()` gives.
//!
//! A text is written in parts that end after a quote, and a blob through a small buffer, so printing a value never
//! allocates.

ghost use Rattle.std.specs.Prelude.{◌≡◌, ◌*◌, ◌<◌, ◌≤◌, ◌==◌, true, length, take};
ghost use Rattle.std.specs.Fmt.{digit_glyph, signed_decimal};
ghost use Rattle.std.specs.List.{flat_map, position};
ghost use Rattle.rt_bytes.specs.Devices.{WritesTo};
ghost use Rattle.rt_sql.specs.Token.{double};
ghost use Rattle.rt_shell_lines.specs.Lines.{hex_pair, quoted_text, blob_text, value_text};

use itoa::Buffer;
use rt_bytes::{ByteWriter, WriteFault, write_parts, write_whole};
use rt_sql_statement::Value;

/// How many bytes of a blob are written at a time.
const BYTES_AT_ONCE: usize = 32;

/// Writes a value: `NULL`, an integer in decimal, a text in quotes with those inside it doubled, or
/// a blob as `X'..'` with two digits for each byte. After a fault a prefix of that is written.
pub(crate) fn write_value<W: ByteWriter>(value: &Value, writer: &mut W) -> Result<(), WriteFault>
    ensures { WritesTo W.ByteWriter writer.old writer.new result (value_text value.now) }
{
    match value {
        Value::Null => write_whole(writer, b"NULL"),
        Value::Int(number) => write_integer(number, writer),
        Value::Text(text) => write_text(text.as_str().as_bytes(), writer),
        Value::Blob(blob) => write_blob(blob.as_slice(), writer),
    }
}

/// Writes an integer in decimal. After a fault a prefix of that is written.
pub(crate) fn write_integer<W: ByteWriter>(number: &i64, writer: &mut W) -> Result<(), WriteFault>
    ensures { WritesTo W.ByteWriter writer.old writer.new result (signed_decimal number.now) }
{
    let mut buffer = Buffer::new();
    write_whole(writer, buffer.format(*number).as_bytes())
}

fn write_text<W: ByteWriter>(text: &[u8], writer: &mut W) -> Result<(), WriteFault>
    ensures { WritesTo W.ByteWriter writer.old writer.new result (quoted_text text.now) }
{
    write_whole(writer, b"'")?;
    write_doubled(text, writer)?;
    write_whole(writer, b"'")
}

/// Where the first `'` stands.
pub(crate) fn first_quote(text: &[u8]) -> Option<usize>
    ensures { result ≡ position (λ byte. byte == 39) text.now }
{
    text.iter().position(|byte| *byte == b'\'')
}

/// Writes a text with each quote twice, in parts that end after a quote.
fn write_doubled<W: ByteWriter>(text: &[u8], writer: &mut W) -> Result<(), WriteFault>
    ensures { WritesTo W.ByteWriter writer.old writer.new result (double 39 text.now) }
{
    let mut rest = text;
    while let Some(quote) = first_quote(rest) {
        let parts: [&[u8]; 2] = [&rest[..=quote], b"'"];
        write_parts(writer, &parts)?;
        rest = &rest[quote + 1..];
    }
    write_whole(writer, rest)
}

fn write_blob<W: ByteWriter>(bytes: &[u8], writer: &mut W) -> Result<(), WriteFault>
    ensures { WritesTo W.ByteWriter writer.old writer.new result (blob_text bytes.now) }
{
    write_whole(writer, b"X'")?;
    write_hex(bytes, writer)?;
    write_whole(writer, b"'")
}

/// Writes two digits for each byte, through a small buffer.
fn write_hex<W: ByteWriter>(bytes: &[u8], writer: &mut W) -> Result<(), WriteFault>
    ensures { WritesTo W.ByteWriter writer.old writer.new result (flat_map hex_pair bytes.now) }
{
    let mut rest = bytes;
    while !rest.is_empty() {
        let (front, later) = rest.split_at(rest.len().min(BYTES_AT_ONCE));
        write_few(front, writer)?;
        rest = later;
    }
    Ok(())
}

fn write_few<W: ByteWriter>(bytes: &[u8], writer: &mut W) -> Result<(), WriteFault>
    requires { length bytes.now ≤ BYTES_AT_ONCE }
    ensures { WritesTo W.ByteWriter writer.old writer.new result (flat_map hex_pair bytes.now) }
{
    let mut digits = [0; 2 * BYTES_AT_ONCE];
    put_digits(bytes, &mut digits);
    write_whole(writer, &digits[..2 * bytes.len()])
}

/// Puts the digits of the bytes at the start of the buffer.
fn put_digits(bytes: &[u8], digits: &mut [u8])
    requires { 2 * length bytes.now ≤ length digits.old }
    ensures { take (2 * length bytes.now) digits.new ≡ flat_map hex_pair bytes.now }
{
    for (place, byte) in bytes.iter().enumerate() {
        digits[2 * place] = hex_digit(*byte / 16);
        digits[2 * place + 1] = hex_digit(*byte % 16);
    }
}

/// The hexadecimal digit of that value.
fn hex_digit(value: u8) -> u8
    requires { value < 16 }
    ensures { result ≡ digit_glyph true value }
{
    if value < 10 {
        b'0' + value
    } else {
        b'A' + (value - 10)
    }
}
