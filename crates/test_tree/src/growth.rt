//! A tree whose memory is refused: with each growth refused in turn (`rt try --test --fail-alloc`), nothing has changed
//! after the refusal, and between a `reserve` that was granted and the last insertion none is asked for.

use crate::rows::{PLACES, cube, insert_reserved};
use rt_box::{Capacity, Window};
use rt_map::nearest;
use rt_tree::{Row, Tree};
use std::hash::RandomState;
use std::process::Abort;
use std::test::Fail;

/// The tree has these rows.
fn expect_rows(rt: &impl Abort, tree: &Tree<2>, rows: i64) -> Result<(), Fail> {
    for id in 1..=rows {
        assert!(rt; tree.get(&id) == Some(cube(&PLACES, id, 3)?), "{id}");
    }
    assert!(rt; i64::try_from(tree.len()) == Ok(rows));
    Ok(())
}

/// Asks for a shadow, for rows, counts and the nearest row; a refusal changes nothing, and a list that is kept keeps its
/// prefix.
fn look(
    rt: &(impl Abort + AllocGlobal),
    keys: RandomState,
    tree: &Tree<2>,
    rows: i64,
) -> Result<(), Fail> {
    let window = Window::all();
    if let Ok(shadow) = tree.shadow(rt.alloc(), keys) {
        assert!(rt; shadow.nodes().len() == tree.node_count());
    }
    if let Ok(found) = tree.search(rt.alloc(), &window) {
        assert!(rt; found.rows.len() == tree.len());
    }
    if let Ok(count) = tree.count(rt.alloc(), &window) {
        assert!(rt; count == tree.len());
    }
    let (mut found, mut reached) = (Vec::new(rt.alloc()), Vec::new(rt.alloc()));
    for turn in 1..=2usize {
        let before = found.len();
        let is_found = tree.search_into(&window, &mut found, &mut reached).is_ok();
        assert!(rt; found.len() >= before, "{turn}");
        assert!(rt; !is_found || found.len() == before.wrapping_add(tree.len()));
    }
    if let Ok(nearest) = nearest(rt.alloc(), &tree, &[37, 53], 1) {
        // Row 1 begins there.
        let id = match nearest.first() {
            Some(row) => row.id,
            None => 0,
        };
        assert!(rt; id == i64::from(tree.contains(&1)));
    }
    expect_rows(rt, tree, rows)
}

/// Makes room for twelve more rows, again if it was refused, and inserts them.
fn insert_twelve(
    rt: &(impl Abort + AllocGlobal),
    keys: RandomState,
    tree: &mut Tree<2>,
    rows: i64,
) -> Result<(), Fail> {
    if tree.spare() < 12 && tree.reserve(12).is_err() {
        expect_rows(rt, tree, rows)?;
        tree.reserve(12)?;
    }
    for id in rows.wrapping_add(1)..=rows.wrapping_add(12) {
        let rect = cube(&PLACES, id, 3)?;
        insert_reserved(tree, &Row { id, rect })?;
    }
    look(rt, keys, tree, rows.wrapping_add(12))
}

#[test]
fn refused_growth_changes_nothing(rt: HostRuntime) -> Result<(), Fail> {
    let capacity = Capacity::new(5).ok_or("no capacity")?;
    let keys = RandomState::new(&rt)?;
    let Ok(mut tree) = Tree::new(rt.alloc(), keys, capacity) else {
        return Ok(());
    };
    insert_twelve(&rt, keys, &mut tree, 0)?;
    insert_twelve(&rt, keys, &mut tree, 12)?;
    insert_twelve(&rt, keys, &mut tree, 24)?;
    for id in (1..=36).rev() {
        // It is there, as was looked up before.
        if tree.get(&id).is_some() {
            tree.remove(&id);
        }
        expect_rows(&rt, &tree, id.wrapping_sub(1))?;
    }
    look(&rt, keys, &tree, 0)
}
