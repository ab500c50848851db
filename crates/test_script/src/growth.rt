//! Shadows, their checks and dumps whose memory is refused: with each growth refused in turn, nothing has changed
//! after the refusal, and the same call succeeds after it. Here none is refused, so that the calls are shown to succeed;
//! `scripts/faults` refuses each.

use rt_box::Capacity;
use rt_bytes::Sink;
use rt_check::{Items, NodeRow, RawCell, RowEntry, Shadow, ShadowFault, check};
use rt_check_dump::{AnyShadow, DumpFault, read_dump, write_dump};
use std::alloc::Global;
use std::hash::RandomState;
use std::process::Abort;
use std::test::Fail;

/// A root over two leaves of three points.
const DUMP: &[u8] =
    b"rtree 1 5 1 3 6\nnode 1 1 - 2\ncell 2 0 2\ncell 3 10 12\nnode 2 0 1 3\ncell 1 0 0\ncell 2 1 1\ncell 3 2 2\nnode 3 0 1 3\ncell 4 10 10\ncell 5 11 11\ncell 6 12 12\nrow 1 2\nrow 2 2\nrow 3 2\nrow 4 3\nrow 5 3\nrow 6 3\nend\n";

/// What is added to a shadow, besides its number or id.
#[derive(Clone, Copy)]
enum Part {
    /// Of a level, and a parent.
    Node(u8, Option<i64>),
    /// Of the last node, from a number to a number.
    Cell(i32, i32),
    /// In a leaf.
    Row(i64),
}

/// The parts of that tree.
const PARTS: [(i64, Part); 17] = [
    (1, Part::Node(1, None)),
    (2, Part::Cell(0, 2)),
    (3, Part::Cell(10, 12)),
    (2, Part::Node(0, Some(1))),
    (1, Part::Cell(0, 0)),
    (2, Part::Cell(1, 1)),
    (3, Part::Cell(2, 2)),
    (3, Part::Node(0, Some(1))),
    (4, Part::Cell(10, 10)),
    (5, Part::Cell(11, 11)),
    (6, Part::Cell(12, 12)),
    (1, Part::Row(2)),
    (2, Part::Row(2)),
    (3, Part::Row(2)),
    (4, Part::Row(3)),
    (5, Part::Row(3)),
    (6, Part::Row(3)),
];

fn add(alloc: Global, shadow: &mut Shadow<1>, number: i64, part: Part) -> Result<(), ShadowFault> {
    match part {
        Part::Node(level, parent) => shadow.add_node(NodeRow {
            number,
            level,
            parent,
            cells: Items::from_vec(Vec::new(alloc)),
        }),
        Part::Cell(lo, hi) => {
            let cell = RawCell {
                number,
                lo: [lo],
                hi: [hi],
            };
            shadow.add_cell(cell).map_err(|_| ShadowFault::Memory)
        }
        Part::Row(leaf) => shadow.add_row(RowEntry { id: number, leaf }),
    }
}

/// How many nodes, cells of the last node and rows there are, and whether a node and a row have this number.
fn state(shadow: &Shadow<1>, number: i64) -> (usize, Option<usize>, usize, bool, bool) {
    let nodes = shadow.nodes();
    (
        nodes.len(),
        nodes.last().map(|node| node.cells.as_slice().len()),
        shadow.rows().len(),
        shadow.node(number).is_some(),
        shadow.row(number).is_some(),
    )
}

/// The text of a shadow, written a second time if memory is refused to the sink.
fn text_of(alloc: Global, shadow: &AnyShadow) -> Vec<u8> {
    let mut sink = Sink::new(alloc);
    if write_dump(shadow, &mut sink).is_err() {
        sink = Sink::new(alloc);
        let _ = write_dump(shadow, &mut sink);
    }
    sink.into_bytes()
}

/// Adds a part, a second time if memory is refused to the first, which leaves the shadow as it was.
fn expect_added(rt: &(impl AllocGlobal + Abort), shadow: &mut Shadow<1>, number: i64, part: Part) {
    let before = state(shadow, number);
    if let Err(fault) = add(rt.alloc(), shadow, number, part) {
        assert!(rt; (fault, state(shadow, number)) == (ShadowFault::Memory, before));
        assert!(rt; add(rt.alloc(), shadow, number, part) == Ok(()));
    }
}

/// Whether a check finds no problem, a second one if memory is refused to the first.
fn is_sound(alloc: Global, shadow: &Shadow<1>) -> bool {
    let mut problems = check(alloc, shadow);
    if problems.is_err() {
        problems = check(alloc, shadow);
    }
    problems.is_ok_and(|problems| problems.is_empty())
}

#[test]
fn a_shadow_stays_as_it_was(rt: HostRuntime) -> Result<(), Fail> {
    let capacity = Capacity::new(5).ok_or("no capacity")?;
    let mut shadow = Shadow::<1>::new(rt.alloc(), RandomState::new(&rt)?, capacity, 1);
    for (number, part) in &PARTS {
        expect_added(&rt, &mut shadow, *number, *part);
    }
    assert!(rt; is_sound(rt.alloc(), &shadow));
    assert!(rt; shadow.add_row(RowEntry { id: 6, leaf: 2 }) == Err(ShadowFault::Twice));
    assert!(rt; text_of(rt.alloc(), &AnyShadow::One(shadow)).as_slice() == DUMP);
    Ok(())
}

#[test]
fn a_dump_is_read_or_memory_is_wanting(rt: HostRuntime) -> Result<(), Fail> {
    let keys = RandomState::new(&rt)?;
    let mut read = read_dump(rt.alloc(), keys, DUMP);
    if let Err(fault) = &read {
        assert!(rt; *fault == DumpFault::Memory);
        read = read_dump(rt.alloc(), keys, DUMP);
    }
    let shadow = read.map_err(|_| "two growths were refused")?;
    assert!(rt; text_of(rt.alloc(), &shadow).as_slice() == DUMP);
    Ok(())
}
