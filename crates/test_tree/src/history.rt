//! A worked history of edits, and what each tells: `faults/plain_live.py` finds the same in plain lists.

use rt_box::{Capacity, Rect};
use rt_live::{Change, Fault, Kind, Live};
use std::alloc::Global;
use std::hash::RandomState;
use std::process::Abort;
use std::test::Fail;

/// The kinds of edits.
#[derive(Clone, Copy)]
enum Edit {
    Insert,
    Remove,
    Replace,
    Watch,
    Unwatch,
    Shift,
}

/// An edit of a row or a window: its id, both ends of its box, if it gets one, and what is told, or why it is refused.
type Step = (Edit, i64, [i32; 2], [i32; 2], &'static str);

/// `3+7` says that window 3 is told that row 7 came, `-` that it left, and `=` that it moved inside.
const HISTORY: [Step; 30] = [
    // Windows and rows come.
    (Edit::Watch, 5, [0, 0], [10, 10], ""),
    (Edit::Insert, 1, [3, 3], [4, 4], "5+1"),
    (Edit::Watch, 2, [10, 10], [20, 20], ""),
    (Edit::Insert, 7, [10, 10], [10, 10], "2+7 5+7"),
    (Edit::Watch, 9, [-100, -100], [100, 100], "9+1 9+7"),
    (Edit::Insert, -3, [50, 50], [60, 60], "9+-3"),
    (Edit::Insert, 1, [0, 0], [1, 1], "taken"),
    (Edit::Watch, 2, [0, 0], [1, 1], "taken"),
    // Rows move.
    (Edit::Replace, 1, [5, 5], [6, 6], "5=1 9=1"),
    (Edit::Replace, 1, [5, 5], [6, 6], ""),
    (Edit::Replace, 7, [11, 11], [12, 12], "2=7 5-7 9=7"),
    (Edit::Replace, -3, [9, 9], [15, 15], "2+-3 5+-3 9=-3"),
    (Edit::Replace, 1, [-200, -200], [-190, -190], "5-1 9-1"),
    (Edit::Replace, 1, [10, 9], [30, 12], "2+1 5+1 9+1"),
    (Edit::Replace, 8, [0, 0], [0, 0], "missing"),
    (Edit::Replace, 7, [21, 21], [22, 22], "2-7 9=7"),
    // Windows shift.
    (Edit::Shift, 2, [20, 20], [30, 30], "2--3 2-1 2+7"),
    (Edit::Shift, 2, [20, 20], [30, 30], ""),
    (Edit::Shift, 5, [-10, -10], [8, 8], "5--3 5-1"),
    (Edit::Shift, 9, [9, 9], [9, 9], "9-1 9-7"),
    (Edit::Shift, 4, [0, 0], [1, 1], "missing"),
    (Edit::Shift, 5, [5, 5], [25, 25], "5+-3 5+1 5+7"),
    // Rows and windows leave.
    (Edit::Remove, -3, [0, 0], [0, 0], "5--3 9--3"),
    (Edit::Remove, -3, [0, 0], [0, 0], "missing"),
    (Edit::Unwatch, 5, [0, 0], [0, 0], "5-1 5-7"),
    (Edit::Unwatch, 5, [0, 0], [0, 0], "missing"),
    (Edit::Insert, -3, [20, 20], [20, 20], "2+-3"),
    (Edit::Remove, 1, [0, 0], [0, 0], ""),
    (Edit::Unwatch, 2, [0, 0], [0, 0], "2--3 2-7"),
    (Edit::Remove, 7, [0, 0], [0, 0], ""),
];

/// The changes as text.
fn text_of(alloc: Global, changes: &[Change]) -> Result<String, Fail> {
    let mut text = String::new(alloc);
    for change in changes {
        if !text.is_empty() {
            text.push_str(" ")?;
        }
        let sign = match change.kind {
            Kind::Left => "-",
            Kind::Came => "+",
            Kind::Moved => "=",
        };
        let part = format!(in alloc; "{}{}{}", change.window, sign, change.id)?;
        text.push_str(part.as_str())?;
    }
    Ok(text)
}

/// Carries out an edit, which is to tell this, or to be refused for this and to leave the last changes.
fn expect_told(
    rt: &(impl Abort + AllocGlobal),
    live: &mut Live<2>,
    edit: Edit,
    id: i64,
    rect: &Rect<2>,
    told: &str,
) -> Result<(), Fail> {
    let before = text_of(rt.alloc(), live.changes())?;
    let outcome = match edit {
        Edit::Insert => live.insert(&id, rect),
        Edit::Remove => live.remove(&id),
        Edit::Replace => live.replace(&id, rect),
        Edit::Watch => live.watch(&id, rect),
        Edit::Unwatch => live.unwatch(&id),
        Edit::Shift => live.shift(&id, rect),
    };
    let after = text_of(rt.alloc(), live.changes())?;
    let answer = match outcome {
        Ok(()) => after.as_str(),
        Err(Fault::Taken | Fault::WindowTaken) => "taken",
        Err(Fault::Missing | Fault::NoWindow) => "missing",
        Err(Fault::Full) => "full",
        Err(Fault::Memory) => "memory",
    };
    assert!(rt; answer == told, "{answer}, not {told}");
    assert!(rt; outcome.is_ok() || after.as_str() == before.as_str());
    Ok(())
}

#[test]
fn each_edit_tells_what_plain_lists_tell(rt: HostRuntime) -> Result<(), Fail> {
    let capacity = Capacity::new(5).ok_or("no capacity")?;
    let mut live = Live::new(rt.alloc(), RandomState::new(&rt)?, capacity)?;
    for (edit, id, lo, hi, told) in HISTORY {
        let rect = Rect::new(lo, hi).ok_or("no box")?;
        expect_told(&rt, &mut live, edit, id, &rect, told)?;
    }
    assert!(&rt; (live.rows_tree().len(), live.windows_tree().len()) == (1, 1));
    Ok(())
}
