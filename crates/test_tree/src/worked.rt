//! Worked calls of trees of points on a line, whose nodes have at most 5 cells, so each tree can be followed by hand.

use crate::rows::{insert_reserved, tree_of};
use rt_box::{Capacity, Operator, Rect, Window};
use rt_bytes::Sink;
use rt_check_dump::{AnyShadow, write_dump};
use rt_map::from_rows;
use rt_tree::{Row, Tree};
use std::alloc::Global;
use std::hash::RandomState;
use std::process::Abort;
use std::test::Fail;

const SIX_POINTS: &str =
    "rtree 1 5 1 3 6\nnode 1 1 - 2\ncell 2 0 2\ncell 3 10 12\nnode 2 0 1 3\ncell 1 0 0\ncell 2 1 1\ncell 3 2 2\nnode 3 0 1 3\ncell 4 10 10\ncell 5 11 11\ncell 6 12 12\nrow 1 2\nrow 2 2\nrow 3 2\nrow 4 3\nrow 5 3\nrow 6 3\nend\n";

const NINE_POINTS: &str =
    "rtree 1 5 1 4 9\nnode 1 1 - 3\ncell 2 0 1\ncell 3 10 12\ncell 4 2 5\nnode 2 0 1 2\ncell 1 0 0\ncell 2 1 1\nnode 3 0 1 3\ncell 4 10 10\ncell 5 11 11\ncell 6 12 12\nnode 4 0 1 4\ncell 3 2 2\ncell 7 3 3\ncell 8 4 4\ncell 9 5 5\nrow 1 2\nrow 2 2\nrow 3 4\nrow 4 3\nrow 5 3\nrow 6 3\nrow 7 4\nrow 8 4\nrow 9 4\nend\n";

const AFTER_REMOVALS: &str =
    "rtree 1 5 1 3 6\nnode 1 1 - 2\ncell 2 1 2\ncell 3 3 12\nnode 2 0 1 2\ncell 2 1 1\ncell 3 2 2\nnode 3 0 1 4\ncell 7 3 3\ncell 8 4 4\ncell 9 5 5\ncell 6 12 12\nrow 2 2\nrow 3 2\nrow 6 3\nrow 7 3\nrow 8 3\nrow 9 3\nend\n";

const NO_POINTS: &str = "rtree 1 5 1 1 0\nnode 1 0 - 0\nend\n";

const THIRTEEN_POINTS: &str =
    "rtree 1 5 1 4 13\nnode 1 1 - 3\ncell 2 0 4\ncell 3 5 9\ncell 4 10 12\nnode 2 0 1 5\ncell 13 0 0\ncell 12 1 1\ncell 11 2 2\ncell 10 3 3\ncell 9 4 4\nnode 3 0 1 5\ncell 8 5 5\ncell 7 6 6\ncell 6 7 7\ncell 5 8 8\ncell 4 9 9\nnode 4 0 1 3\ncell 3 10 10\ncell 2 11 11\ncell 1 12 12\nrow 1 4\nrow 2 4\nrow 3 4\nrow 4 3\nrow 5 3\nrow 6 3\nrow 7 3\nrow 8 3\nrow 9 2\nrow 10 2\nrow 11 2\nrow 12 2\nrow 13 2\nend\n";

/// Points in the order in which they come; the placements, splits and reinsertions of the last insertion; the tree's depth
/// and nodes; and the ids in its leaves, in preorder, or the last of them.
type Grown = (
    &'static [i32],
    (u32, u32, u32),
    (usize, usize),
    &'static [i64],
);

const GROWN: [Grown; 5] = [
    // The root splits three and three.
    (
        &[0, 1, 2, 10, 11, 12],
        (1, 1, 0),
        (2, 3),
        &[1, 2, 3, 4, 5, 6],
    ),
    // A point comes back and splits its leaf.
    (
        &[0, 1, 2, 10, 11, 12, 3, 4, 5],
        (2, 1, 1),
        (2, 4),
        &[1, 2, 4, 5, 6, 3, 7, 8, 9],
    ),
    // A point taken out goes to the other leaf.
    (
        &[0, 1, 2, 10, 11, 12, 7, 4, 13, 15],
        (2, 0, 1),
        (2, 3),
        &[1, 2, 3, 8, 7, 4, 5, 6, 9, 10],
    ),
    // Cells of two levels are inserted again. The numbers of this case and the next are those of `faults/plain_tree.py`.
    (
        &[0, 2, 1, 3, 2, 4, 3, 5, 4, 6, 5, 7, 6, 8, 7, 9, 8, 10],
        (3, 1, 2),
        (3, 11),
        &[
            1, 3, 5, 2, 7, 4, 9, 6, 11, 8, 13, 10, 15, 12, 14, 17, 16, 18,
        ],
    ),
    // Cells of three levels are inserted again.
    (
        &[
            0, 2, 1, 3, 2, 4, 3, 5, 4, 6, 5, 7, 6, 8, 7, 9, 8, 10, 9, 11, 10, 12, 11, 13, 12, 14,
            13, 15, 14, 16, 15, 17, 16, 18, 17, 19, 18, 20, 19, 21, 20, 22, 21, 23,
        ],
        (4, 2, 3),
        (4, 32),
        &[24, 29, 26, 31, 28, 33, 30],
    ),
];

/// Rows at these places, with the ids 1, 2 and so on.
fn points(alloc: Global, places: &[i32]) -> Result<Vec<Row<1>>, Fail> {
    let mut rows = Vec::new(alloc);
    let mut id = 0i64;
    for place in places {
        id = id.wrapping_add(1);
        let rect = Rect::new([*place], [*place]).ok_or("no box")?;
        rows.push(Row { id, rect })?;
    }
    Ok(rows)
}

/// The ids in the leaves, in preorder.
fn leaves(alloc: Global, keys: RandomState, tree: &Tree<1>) -> Result<Vec<i64>, Fail> {
    let shadow = tree.shadow(alloc, keys)?;
    let mut ids = Vec::new(alloc);
    for node in shadow.nodes() {
        for cell in node.cells.as_slice() {
            if node.level == 0 {
                ids.push(cell.number)?;
            }
        }
    }
    Ok(ids)
}

#[test]
fn points_split_nodes_or_come_back(rt: HostRuntime) -> Result<(), Fail> {
    let keys = RandomState::new(&rt)?;
    for (places, work, (depth, nodes), ids) in GROWN {
        let rows = points(rt.alloc(), places)?;
        let (tree, took) = tree_of(&rt, &rows)?;
        let count = rows.len();
        assert!(rt;
            (took.placements, took.splits, took.reinsertions) == work,
            "{count} points"
        );
        assert!(rt; (tree.len(), tree.depth(), tree.node_count()) == (count, depth, nodes));
        let leaves = leaves(rt.alloc(), keys, &tree)?;
        assert!(rt;
            leaves.len() == count && leaves.as_slice().ends_with(ids),
            "{count} points"
        );
        let fifth = rows.get(4).ok_or("no row")?;
        assert!(rt; (tree.get(&5), tree.get(&99)) == (Some(fifth.rect), None));
    }
    Ok(())
}

/// Points that come, if their ids are new, or else go; and the dump that the tree then has, after some of them.
const EDITS: [(i64, i32, &str); 18] = [
    (1, 0, ""),
    (2, 1, ""),
    (3, 2, ""),
    (4, 10, ""),
    (5, 11, ""),
    (6, 12, SIX_POINTS),
    (7, 3, ""),
    (8, 4, ""),
    (9, 5, NINE_POINTS),
    (1, 0, ""),
    (4, 10, ""),
    (5, 11, AFTER_REMOVALS),
    (2, 1, ""),
    (3, 2, ""),
    (6, 12, ""),
    (7, 3, ""),
    (8, 4, ""),
    (9, 5, NO_POINTS),
];

fn expect_dump(
    rt: &(impl Abort + AllocGlobal),
    keys: RandomState,
    tree: &Tree<1>,
    wanted: &str,
) -> Result<(), Fail> {
    let shadow = tree.shadow(rt.alloc(), keys)?;
    let mut sink = Sink::new(rt.alloc());
    // A sink out of memory holds too few bytes, which the comparison then shows.
    let _ = write_dump(&AnyShadow::One(shadow), &mut sink);
    assert!(rt; sink.bytes() == wanted.as_bytes(), "{wanted}");
    Ok(())
}

#[test]
fn points_that_come_and_go_leave_these_dumps(rt: HostRuntime) -> Result<(), Fail> {
    let keys = RandomState::new(&rt)?;
    let capacity = Capacity::new(5).ok_or("no capacity")?;
    let mut tree = Tree::new(rt.alloc(), keys, capacity)?;
    for (id, place, dump) in EDITS {
        let rect = Rect::new([place], [place]).ok_or("no box")?;
        if tree.get(&id).is_some() {
            assert!(rt; tree.remove(&id) == rect, "{id}");
        } else {
            tree.reserve(1)?;
            insert_reserved(&mut tree, &Row { id, rect })?;
        }
        if !dump.is_empty() {
            expect_dump(&rt, keys, &tree, dump)?;
        }
    }
    assert!(rt; (tree.len(), tree.depth(), tree.node_count()) == (0, 1, 1));
    Ok(())
}

#[test]
fn a_search_goes_into_one_of_three_leaves(rt: HostRuntime) -> Result<(), Fail> {
    let rows = points(rt.alloc(), &[0, 1, 2, 10, 11, 12, 3, 4, 5])?;
    let (tree, _) = tree_of(&rt, &rows)?;
    let mut window = Window::<1>::all();
    window.narrow(0, Operator::Ge, 10);
    let found = tree.search(rt.alloc(), &window)?;
    let mut ids = Vec::new(rt.alloc());
    for row in found.rows.iter() {
        ids.push(row.id)?;
    }
    ids.sort_unstable();
    assert!(rt; found.visited == 2 && ids.as_slice() == [4, 5, 6].as_slice());
    Ok(())
}

#[test]
fn thirteen_packed_points_make_three_leaves(rt: HostRuntime) -> Result<(), Fail> {
    let keys = RandomState::new(&rt)?;
    let capacity = Capacity::new(5).ok_or("no capacity")?;
    let rows = points(rt.alloc(), &[12, 11, 10, 9, 8, 7, 6, 5, 4, 3, 2, 1, 0])?;
    let tree = from_rows(rt.alloc(), keys, capacity, &rows)
        .ok()
        .ok_or("no tree")?;
    expect_dump(&rt, keys, &tree, THIRTEEN_POINTS)?;
    assert!(rt; (tree.len(), tree.depth(), tree.node_count()) == (13, 2, 4));
    assert!(rt; tree.get(&13) == Rect::new([0], [0]));
    Ok(())
}
