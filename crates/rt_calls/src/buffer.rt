//! The caller's buffers.

ghost use Rattle.rt_calls.specs.Buffers.{Copies};

use crate::code::Code;

/// Copies items to the start of a buffer.
pub fn copy_to<T: Copy>(items: &[T], buffer: &mut [T]) -> Code
    ensures { Copies items.now buffer.old buffer.new result }
{
    if items.len() > buffer.len() {
        return Code::BufferTooSmall;
    }
    buffer[..items.len()].copy_from_slice(items);
    Code::Done
}
