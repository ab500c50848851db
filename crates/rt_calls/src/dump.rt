//! Dumps of trees.

ghost use Rattle.rt_calls.specs.Buffers.{GivesText};
ghost use Rattle.rt_check_dump.specs.Dump.{any_text};
ghost use Rattle.rt_calls.specs.Trees.{Dumps};

use crate::buffer::copy_to;
use crate::code::Code;
use crate::lending::LentTree;
use rt_bytes::Sink;
use rt_check_dump::{AnyShadow, write_dump};
use std::alloc::Global;

/// Writes the text of a dump to the start of the buffer, and its length in bytes to `total`.
fn dump(alloc: Global, shadow: AnyShadow, buffer: &mut [u8], total: &mut u64) -> Code
    ensures { GivesText (any_text shadow) buffer.old buffer.new total.old total.new result }
{
    let mut sink = Sink::new(alloc);
    if write_dump(&shadow, &mut sink).is_err() {
        return Code::OutOfMemory;
    }
    let text = sink.bytes();
    *total = text.len() as u64;
    copy_to(text, buffer)
}

/// Writes the dump of a tree of one axis.
pub fn dump_line(alloc: Global, lent: &LentTree<1>, buffer: &mut [u8], total: &mut u64) -> Code
    ensures { Dumps buffer.old buffer.new total.old total.new lent.now.tree.now result }
{
    let Ok(shadow) = lent.tree.shadow(alloc, lent.keys) else {
        return Code::OutOfMemory;
    };
    dump(alloc, AnyShadow::One(shadow), buffer, total)
}

/// Writes the dump of a tree of two axes.
pub fn dump_plane(alloc: Global, lent: &LentTree<2>, buffer: &mut [u8], total: &mut u64) -> Code
    ensures { Dumps buffer.old buffer.new total.old total.new lent.now.tree.now result }
{
    let Ok(shadow) = lent.tree.shadow(alloc, lent.keys) else {
        return Code::OutOfMemory;
    };
    dump(alloc, AnyShadow::Two(shadow), buffer, total)
}

/// Writes the dump of a tree of three axes.
pub fn dump_space(alloc: Global, lent: &LentTree<3>, buffer: &mut [u8], total: &mut u64) -> Code
    ensures { Dumps buffer.old buffer.new total.old total.new lent.now.tree.now result }
{
    let Ok(shadow) = lent.tree.shadow(alloc, lent.keys) else {
        return Code::OutOfMemory;
    };
    dump(alloc, AnyShadow::Three(shadow), buffer, total)
}
