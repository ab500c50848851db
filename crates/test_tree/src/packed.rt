//! Trees that are packed at once, held against those that `faults/plain_tree.py` packs.

ghost use Rattle.std.specs.Prelude.{◌≤◌};

use crate::rows::{PLACES, cube};
use rt_box::Capacity;
use rt_bytes::Sink;
use rt_check_dump::{AnyShadow, write_dump};
use rt_map::{PackFault, from_rows};
use rt_tree::{Row, Tree};
use std::alloc::Global;
use std::hash::RandomState;
use std::test::Fail;

/// The hash of no bytes (Fowler, Noll and Vo's FNV-1a of 64 bits).
const NO_BYTES: u64 = 0xcbf2_9ce4_8422_2325;

/// The hash with the bytes of a dump after those before.
fn hashed(alloc: Global, before: u64, shadow: AnyShadow) -> u64 {
    let mut sink = Sink::new(alloc);
    // A sink out of memory holds too few bytes, which the hash then shows.
    let _ = write_dump(&shadow, &mut sink);
    let mut hash = before;
    for byte in sink.bytes() {
        hash = (hash ^ u64::from(*byte)).wrapping_mul(0x0100_0000_01b3);
    }
    hash
}

/// The tree of `count` rows, with the ids 1, 2 and so on.
fn packed<const D: usize>(
    alloc: Global,
    keys: RandomState,
    greatest: u8,
    count: i64,
) -> Result<Tree<D>, Fail>
    requires some { 1 ≤ D }
    requires few { D ≤ 3 }
{
    let capacity = Capacity::new(greatest).ok_or("no capacity")?;
    let mut rows = Vec::new(alloc);
    for id in 1..=count {
        let rect = cube(&PLACES, id, id.rem_euclid(7))?;
        rows.push(Row { id, rect })?;
    }
    Ok(
        from_rows(alloc, keys, capacity, &rows)
            .ok()
            .ok_or("no tree")?,
    )
}

// The hashes are those of the dumps of `faults/plain_tree.py`.
#[test]
fn packed_trees_are_those_of_a_second_program(rt: HostRuntime) -> Result<(), Fail> {
    let keys = RandomState::new(&rt)?;
    let (mut of_two, mut of_three) = (NO_BYTES, NO_BYTES);
    for greatest in [5, 51] {
        for count in 0..=200 {
            let tree = packed(rt.alloc(), keys, greatest, count)?;
            let shadow = AnyShadow::Two(tree.shadow(rt.alloc(), keys)?);
            of_two = hashed(rt.alloc(), of_two, shadow);
            let tree = packed(rt.alloc(), keys, greatest, count)?;
            let shadow = AnyShadow::Three(tree.shadow(rt.alloc(), keys)?);
            of_three = hashed(rt.alloc(), of_three, shadow);
        }
    }
    assert!(rt; of_two == 2_784_245_244_335_068_981, "{of_two}");
    assert!(rt; of_three == 14_541_395_652_145_977_636, "{of_three}");
    Ok(())
}

#[test]
fn the_first_repeated_id_is_named(rt: HostRuntime) -> Result<(), Fail> {
    let keys = RandomState::new(&rt)?;
    let capacity = Capacity::new(5).ok_or("no capacity")?;
    let mut rows = Vec::new(rt.alloc());
    for id in [7, 3, -1, 3, 7] {
        let rect = cube::<2>(&PLACES, id, id.rem_euclid(7))?;
        rows.push(Row { id, rect })?;
    }
    let fault = from_rows(rt.alloc(), keys, capacity, &rows).err();
    assert!(rt; fault == Some(PackFault::Repeated { at: 3 }));
    Ok(())
}
