//! Rows and windows that move: a copy of what the windows see follows the changes, and is held against a join of both trees.

use crate::rows::{cube, joined};
use rt_box::{Capacity, Rect};
use rt_live::{Kind, Live};
use std::hash::RandomState;
use std::test::Fail;

/// How many edits there are.
const EDITS: i64 = 600;

/// How many ids the rows have, and how many the windows.
const IDS: i64 = 40;

/// As `PLACES`; the third axis is unused.
const PLACES: [(i64, i64); 3] = [(37, 101), (53, 97), (0, 1)];

/// A row comes, moves or goes, or a window does.
fn make_edit(live: &mut Live<2>, step: i64) -> Result<(), Fail> {
    let id = step.wrapping_mul(29).rem_euclid(IDS);
    // Some boxes are points.
    let rect = cube(&PLACES, step, step.rem_euclid(11))?;
    let goes = step.rem_euclid(7) == 0;
    if step.rem_euclid(3) == 0 {
        match (live.windows_tree().contains(&id), goes) {
            (false, _) => live.watch(&id, &rect)?,
            (true, true) => live.unwatch(&id)?,
            (true, false) => live.shift(&id, &rect)?,
        }
        return Ok(());
    }
    match (live.rows_tree().contains(&id), goes) {
        (false, _) => live.insert(&id, &rect)?,
        (true, true) => live.remove(&id)?,
        (true, false) => live.replace(&id, &rect)?,
    }
    Ok(())
}

/// The copy follows the last changes.
fn follow(copy: &mut Vec<(i64, i64)>, live: &Live<2>) -> Result<(), Fail> {
    for change in live.changes() {
        let pair = (change.window, change.id);
        match change.kind {
            Kind::Came => copy.push(pair)?,
            Kind::Left => copy.retain(|other: &(i64, i64)| -> bool { *other != pair }),
            Kind::Moved => {}
        }
    }
    Ok(())
}

#[test]
fn a_copy_that_follows_is_what_the_windows_see(rt: HostRuntime) -> Result<(), Fail> {
    let capacity = Capacity::new(5).ok_or("no capacity")?;
    let mut live = Live::new(rt.alloc(), RandomState::new(&rt)?, capacity)?;
    let mut copy = Vec::new(rt.alloc());
    for step in 0..EDITS {
        make_edit(&mut live, step)?;
        follow(&mut copy, &live)?;
        copy.sort()?;
        let seen = joined(rt.alloc(), live.windows_tree(), live.rows_tree())?;
        assert!(&rt; seen == copy, "{step}");
    }
    assert!(&rt; live.rows_tree().len() > 20 && live.windows_tree().len() > 20);
    Ok(())
}

#[test]
fn the_rows_of_a_window_stand_by_rising_id(rt: HostRuntime) -> Result<(), Fail> {
    let capacity = Capacity::new(5).ok_or("no capacity")?;
    let mut live = Live::new(rt.alloc(), RandomState::new(&rt)?, capacity)?;
    live.reserve(40, 1, 40)?;
    for step in 0..IDS {
        let rect = cube(&PLACES, step, step.rem_euclid(11))?;
        live.insert(&39_i64.wrapping_sub(step), &rect)?;
    }
    live.watch(&1, &Rect::new([0, 0], [200, 200]).ok_or("no box")?)?;
    let ids = live.rows(&1)?;
    assert!(&rt; ids.len() == 40);
    for (place, id) in ids.iter().enumerate() {
        assert!(&rt; i64::try_from(place).ok() == Some(*id));
    }
    Ok(())
}
