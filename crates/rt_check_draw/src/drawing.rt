//! The run of `rtsh draw`: a dump in, its picture out.
//!
//! The whole text is made before any of it is written, so nothing is written if memory runs out.

ghost use Rattle.std.specs.Prelude.{◌≡◌, ◌+◌, ◌^◌, ◌≤◌, IfOk, OnOk, true};
ghost use Rattle.std.specs.Option.{option_map};
ghost use Rattle.rt_bytes.specs.Devices.{devices_of};
ghost use Rattle.rt_check_draw.specs.Picture.{any_picture};
ghost use Rattle.rt_check_draw.specs.DrawRun.{picture_or_refusal, picture_status, WritesPicture, WritesDrawing, Draws};

use crate::choice::Choice;
use crate::picture::draw;
use rt_bytes::{ByteReader, ByteWriter, RunFault, Status, write_whole};
use rt_check_dump::{AnyShadow, DumpFault, read_dump};
use rt_check_report::{read_all, report_fault};
use std::alloc::{AllocError, Global};
use std::hash::RandomState;

fn draw_any(
    alloc: Global,
    shadow: &AnyShadow,
    choice: &Choice,
) -> Result<Option<Vec<u8>>, AllocError>
    ensures { IfOk result (λ text. option_map (λ text. text.items) text ≡ any_picture choice.now shadow.now) }
{
    match shadow {
        AnyShadow::One(shadow) => draw(alloc, shadow, choice),
        AnyShadow::Two(shadow) => draw(alloc, shadow, choice),
        AnyShadow::Three(shadow) => draw(alloc, shadow, choice),
    }
}

/// The picture, or that the tree has no such axis.
fn text_of(picture: &Option<Vec<u8>>) -> &[u8]
    ensures { result.now ≡ picture_or_refusal (option_map (λ text. text.items) picture.now) }
{
    match picture {
        Some(text) => text.as_slice(),
        None => b"no such axis\n",
    }
}

fn status_of(picture: &Option<Vec<u8>>) -> Status
    ensures { result ≡ picture_status (option_map (λ text. text.items) picture.now) }
{
    match picture {
        Some(_) => Status::Clean,
        None => Status::Refused,
    }
}

fn write_picture<W: ByteWriter>(
    picture: &Option<Vec<u8>>,
    writer: &mut W,
) -> Result<Status, RunFault>
    ensures { WritesPicture W.ByteWriter (option_map (λ text. text.items) picture.now) writer.old writer.new result }
{
    write_whole(writer, text_of(picture))?;
    Ok(status_of(picture))
}

fn answer<W: ByteWriter>(
    alloc: Global,
    keys: RandomState,
    bytes: &[u8],
    choice: &Choice,
    writer: &mut W,
) -> Result<Status, RunFault>
    ensures { WritesDrawing W.ByteWriter choice.now bytes.now writer.old writer.new result }
{
    match read_dump(alloc, keys, bytes) {
        Ok(shadow) => {
            let picture = draw_any(alloc, &shadow, choice);
            drop(shadow);
            write_picture(&picture?, writer)
        }
        Err(fault) => report_fault(&fault, writer),
    }
}

/// Draws a dump: reads it whole, and writes the picture of its tree as an SVG. If the text is no dump, it writes the
/// line of its first fault; if the tree doesn't have the axes chosen, `no such axis`. Both are answered `Refused`.
/// It takes memory for the dump, the tree, its problems and the whole picture, and writes nothing if there is none.
/// It reads at most 2^40 times, and flushes the writer once, at the end. Numbers and ids are looked up by `keys`, which
/// are to be random if others choose the bytes.
pub fn run_draw<R: ByteReader, W: ByteWriter>(
    alloc: Global,
    keys: RandomState,
    choice: &Choice,
    reader: &mut R,
    writer: &mut W,
) -> Result<Status, RunFault>
    ensures draws { Draws choice.now (devices_of R.ByteReader W.ByteWriter reader.old writer.old)
        (devices_of R.ByteReader W.ByteWriter reader.new writer.new) result }
    ensures reads { R.reads reader.new ≤ R.reads reader.old + 2 ^ 40 }
    ensures flushed { OnOk result (W.flushed writer.new ≡ true) }
{
    let bytes = read_all(alloc, reader)?;
    let status = answer(alloc, keys, &bytes, choice, writer)?;
    writer.flush()?;
    Ok(status)
}
