//! Writes of all bytes, or of a prefix of them if the writer fails.
//!
//! A writer may take only some of the bytes at a time; these calls go on until it has taken all. They don't flush.

ghost use Rattle.std.specs.List.{flat_map};
ghost use Rattle.rt_bytes.specs.Devices.{WritesTo};

use crate::device::{ByteWriter, WriteFault};

/// Writes all of the bytes. After a fault a prefix of them is written.
///
/// ```
/// let mut sink = Sink::new(rt.alloc());
/// write_whole(&mut sink, b"row")?;
/// assert_eq!(rt; sink.bytes(), b"row".as_slice());
/// ```
pub fn write_whole<W: ByteWriter>(writer: &mut W, bytes: &[u8]) -> Result<(), WriteFault>
    ensures { WritesTo W.ByteWriter writer.old writer.new result bytes.now }
{
    let mut done = 0;
    while done < bytes.len() {
        done += writer.write(&bytes[done..])?;
    }
    Ok(())
}

/// Writes all of the parts, one after the other. After a fault a prefix of their bytes is written.
///
/// ```
/// let mut sink = Sink::new(rt.alloc());
/// write_parts(&mut sink, &[b"row", b" ", b"12"])?;
/// assert_eq!(rt; sink.bytes(), b"row 12".as_slice());
/// ```
pub fn write_parts<W: ByteWriter>(writer: &mut W, parts: &[&[u8]]) -> Result<(), WriteFault>
    ensures { WritesTo W.ByteWriter writer.old writer.new result (flat_map (λ part. part.now) parts.now) }
{
    for part in parts {
        write_whole(writer, part)?;
    }
    Ok(())
}
