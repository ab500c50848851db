//! Trees as bytes.

ghost use Rattle.std.specs.Prelude.{◌≤◌};
ghost use Rattle.rt_calls.specs.Bytes.{WritesBytes, OpensAgain, ReadsBytes, ReadsAnyBytes};

use crate::buffer::copy_to;
use crate::code::Code;
use crate::keys::Keys;
use rt_box::Capacity;
use rt_handle::{HeldTree, Object};
use rt_map::{BytesFault, from_bytes, to_bytes};
use rt_tree::Tree;
use std::alloc::Global;
use std::hash::RandomState;

/// The place of the byte that tells the most cells of a node.
const CAPACITY: usize = 5;

/// Writes the tree's bytes to the start of the buffer, and their number to `total`.
pub fn write_bytes<const D: usize>(
    alloc: Global,
    tree: &Tree<D>,
    buffer: &mut [u8],
    total: &mut u64,
) -> Code
    ensures written { WritesBytes buffer.old buffer.new total.old total.new tree.now result }
    ensures again { OpensAgain tree.now result }
{
    let Ok(bytes) = to_bytes(alloc, tree) else {
        return Code::OutOfMemory;
    };
    *total = bytes.len() as u64;
    copy_to(&bytes, buffer)
}

/// The tree with these bytes.
fn read_bytes<const D: usize>(alloc: Global, keys: &Keys, bytes: &[u8]) -> Result<HeldTree<D>, Code>
    requires some { 1 ≤ D }
    requires few { D ≤ 3 }
    ensures { ReadsBytes bytes.now result }
{
    let Ok(keys) = RandomState::new(keys) else {
        return Err(Code::OutOfMemory);
    };
    let tree = match from_bytes(alloc, keys, bytes) {
        Ok(tree) => tree,
        Err(BytesFault::Bad) => return Err(Code::BadBytes),
        Err(BytesFault::TooMany) => return Err(Code::TreeFull),
        Err(BytesFault::Memory) => return Err(Code::OutOfMemory),
    };
    if bytes.len() <= CAPACITY {
        return Err(Code::BadBytes);
    }
    match Capacity::new(bytes[CAPACITY]) {
        Some(capacity) => Ok(HeldTree {
            tree,
            keys,
            capacity,
        }),
        None => Err(Code::BadBytes),
    }
}

/// The tree of that many axes with these bytes.
pub fn read_any(alloc: Global, axes: u32, keys: &Keys, bytes: &[u8]) -> Result<Object, Code>
    ensures { ReadsAnyBytes axes bytes.now result }
{
    match axes {
        1 => Ok(Object::Line(read_bytes(alloc, keys, bytes)?)),
        2 => Ok(Object::Plane(read_bytes(alloc, keys, bytes)?)),
        3 => Ok(Object::Space(read_bytes(alloc, keys, bytes)?)),
        _ => Err(Code::BadAxes),
    }
}
