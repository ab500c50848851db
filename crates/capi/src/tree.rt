//! The calls on trees.

ghost use Rattle.std.specs.Prelude.{◌≡◌, ◌≢◌, pos};
ghost use Rattle.rt_handle.specs.Passes.{IsOf, IsSame};
ghost use Rattle.rt_calls.specs.Calls.{Opens, OnTree, OfTree, IsTree};
ghost use Rattle.rt_calls.specs.Trees.{IsNew, MakesNoTree, IsOfDump, LoadsNone, OfBox, Inserts, Moves, Removes, Clears};
ghost use Rattle.rt_calls.specs.Trees.{TellsAxes, Counts, GetsInto, OfWindow, CountsRelated, Searches, SearchesRows, FindsNearestRows, Dumps};

use rt_calls::query::{count, get, len, nearest, search, search_rows, tell_axes};
use rt_calls::tree::{insert_into, new_object, remove_from, replace_in};
use rt_calls::{
    Answer, AnyTree, Code, Keys, clear, dump_line, dump_plane, dump_space, fill, hand_back,
    load_dump, tree_in,
};
use rt_handle::{Handle, Object, Pass, Words};
use std::alloc::Global;

/// Opens a tree.
#[unsafe(no_mangle)]
pub extern "C" fn juicedelta_tree_open(
    alloc: Global,
    handle: &mut Handle,
    axes: u32,
    capacity: u32,
    first_key: u64,
    second_key: u64,
) -> i32
    ensures { Opens handle.old.held handle.new.held
        (IsTree axes (λ D. IsNew capacity)) (MakesNoTree axes capacity) result }
{
    if let Some(object) = handle.take(alloc) {
        handle.put(object);
        return Code::AlreadyOpen.number();
    }
    let keys = Keys {
        first: first_key,
        second: second_key,
    };
    match new_object(alloc, axes, capacity, &keys) {
        Ok(object) => fill(alloc, handle, object).number(),
        Err(code) => code.number(),
    }
}

/// Opens a tree with the rows of a dump.
#[unsafe(no_mangle)]
pub extern "C" fn juicedelta_tree_open_dump(
    alloc: Global,
    handle: &mut Handle,
    axes: u32,
    text: &[u8],
    first_key: u64,
    second_key: u64,
) -> i32
    ensures { Opens handle.old.held handle.new.held (IsOfDump axes text.now) (LoadsNone axes text.now) result }
{
    if let Some(object) = handle.take(alloc) {
        handle.put(object);
        return Code::AlreadyOpen.number();
    }
    let keys = Keys {
        first: first_key,
        second: second_key,
    };
    match load_dump(alloc, axes, &keys, text) {
        Ok(object) => fill(alloc, handle, object).number(),
        Err(code) => code.number(),
    }
}

/// Inserts a row.
#[unsafe(no_mangle)]
pub extern "C" fn juicedelta_tree_insert(
    alloc: Global,
    handle: &mut Handle,
    id: i64,
    numbers: &[i32],
) -> i32
    ensures { OnTree handle.old.held handle.new.held (λ D old. OfBox numbers.now (Inserts id) old.tree) result }
{
    let Some(mut object) = handle.take(alloc) else {
        return Code::Closed.number();
    };
    let code = insert_into(&mut object, id, numbers);
    handle.put(object);
    code.number()
}

/// Gives a row another box.
#[unsafe(no_mangle)]
pub extern "C" fn juicedelta_tree_move(
    alloc: Global,
    handle: &mut Handle,
    id: i64,
    numbers: &[i32],
) -> i32
    ensures { OnTree handle.old.held handle.new.held (λ D old. OfBox numbers.now (Moves id) old.tree) result }
{
    let Some(mut object) = handle.take(alloc) else {
        return Code::Closed.number();
    };
    let code = replace_in(&mut object, id, numbers);
    handle.put(object);
    code.number()
}

/// Removes a row.
#[unsafe(no_mangle)]
pub extern "C" fn juicedelta_tree_remove(alloc: Global, handle: &mut Handle, id: i64) -> i32
    ensures { OnTree handle.old.held handle.new.held (λ D old. Removes id old.tree) result }
{
    let Some(mut object) = handle.take(alloc) else {
        return Code::Closed.number();
    };
    let code = remove_from(&mut object, id);
    handle.put(object);
    code.number()
}

/// Takes all rows out.
#[unsafe(no_mangle)]
pub extern "C" fn juicedelta_tree_clear(alloc: Global, handle: &mut Handle) -> i32
    ensures { OnTree handle.old.held handle.new.held (λ D old. Clears old.capacity old.tree) result }
{
    let Some(mut object) = handle.take(alloc) else {
        return Code::Closed.number();
    };
    let code = match &mut *object {
        Object::Line(kept) => clear(alloc, kept),
        Object::Plane(kept) => clear(alloc, kept),
        Object::Space(kept) => clear(alloc, kept),
        _ => Code::OtherKind,
    };
    handle.put(object);
    code.number()
}

/// The number of axes.
#[unsafe(no_mangle)]
pub extern "C" fn juicedelta_tree_axes(handle: &Words, pass: Pass, axes: &mut u32) -> Answer
    requires { IsOf pass.at pass.held handle.now }
    ensures told { OfTree pass.held (λ D tree. TellsAxes D axes.new) result.code }
    ensures kept { result.code ≢ pos 0 → axes.new ≡ axes.old }
    ensures pass { IsSame pass result.pass }
{
    let lease = pass.open();
    let code = match tree_in(lease.peek(handle)) {
        Ok(AnyTree::Line(lent)) => tell_axes(lent.tree, axes),
        Ok(AnyTree::Plane(lent)) => tell_axes(lent.tree, axes),
        Ok(AnyTree::Space(lent)) => tell_axes(lent.tree, axes),
        Err(code) => code,
    };
    hand_back(code, lease)
}

/// The number of rows.
#[unsafe(no_mangle)]
pub extern "C" fn juicedelta_tree_len(handle: &Words, pass: Pass, rows: &mut u64) -> Answer
    requires { IsOf pass.at pass.held handle.now }
    ensures told { OfTree pass.held (λ D. Counts rows.new) result.code }
    ensures kept { result.code ≢ pos 0 → rows.new ≡ rows.old }
    ensures pass { IsSame pass result.pass }
{
    let lease = pass.open();
    let code = match tree_in(lease.peek(handle)) {
        Ok(AnyTree::Line(lent)) => len(lent.tree, rows),
        Ok(AnyTree::Plane(lent)) => len(lent.tree, rows),
        Ok(AnyTree::Space(lent)) => len(lent.tree, rows),
        Err(code) => code,
    };
    hand_back(code, lease)
}

/// The box of a row.
#[unsafe(no_mangle)]
pub extern "C" fn juicedelta_tree_get(
    handle: &Words,
    pass: Pass,
    id: i64,
    numbers: &mut [i32],
) -> Answer
    requires { IsOf pass.at pass.held handle.now }
    ensures told { OfTree pass.held (λ D. GetsInto id numbers.old numbers.new) result.code }
    ensures kept { result.code ≢ pos 0 → numbers.new ≡ numbers.old }
    ensures pass { IsSame pass result.pass }
{
    let lease = pass.open();
    let code = match tree_in(lease.peek(handle)) {
        Ok(AnyTree::Line(lent)) => get(lent.tree, id, numbers),
        Ok(AnyTree::Plane(lent)) => get(lent.tree, id, numbers),
        Ok(AnyTree::Space(lent)) => get(lent.tree, id, numbers),
        Err(code) => code,
    };
    hand_back(code, lease)
}

/// The number of rows that lie so to a window.
#[unsafe(no_mangle)]
pub extern "C" fn juicedelta_tree_count(
    alloc: Global,
    handle: &Words,
    pass: Pass,
    relation: u32,
    window: &[i32],
    total: &mut u64,
) -> Answer
    requires { IsOf pass.at pass.held handle.now }
    ensures told { OfTree pass.held (λ D. OfWindow relation window.now (CountsRelated total.new)) result.code }
    ensures kept { result.code ≢ pos 0 → total.new ≡ total.old }
    ensures pass { IsSame pass result.pass }
{
    let lease = pass.open();
    let code = match tree_in(lease.peek(handle)) {
        Ok(AnyTree::Line(lent)) => count(alloc, lent.tree, relation, window, total),
        Ok(AnyTree::Plane(lent)) => count(alloc, lent.tree, relation, window, total),
        Ok(AnyTree::Space(lent)) => count(alloc, lent.tree, relation, window, total),
        Err(code) => code,
    };
    hand_back(code, lease)
}

/// The ids of the rows that lie so to a window.
#[unsafe(no_mangle)]
pub extern "C" fn juicedelta_tree_search(
    alloc: Global,
    handle: &Words,
    pass: Pass,
    relation: u32,
    window: &[i32],
    ids: &mut [i64],
    total: &mut u64,
) -> Answer
    requires { IsOf pass.at pass.held handle.now }
    ensures told { OfTree pass.held
        (λ D. OfWindow relation window.now (Searches ids.old ids.new total.old total.new)) result.code }
    ensures kept { result.code ≢ pos 0 → result.code ≢ pos 8 → (ids.new ≡ ids.old) × (total.new ≡ total.old) }
    ensures pass { IsSame pass result.pass }
{
    let lease = pass.open();
    let code = match tree_in(lease.peek(handle)) {
        Ok(AnyTree::Line(lent)) => search(alloc, lent.tree, relation, window, ids, total),
        Ok(AnyTree::Plane(lent)) => search(alloc, lent.tree, relation, window, ids, total),
        Ok(AnyTree::Space(lent)) => search(alloc, lent.tree, relation, window, ids, total),
        Err(code) => code,
    };
    hand_back(code, lease)
}

/// The rows that lie so to a window.
#[unsafe(no_mangle)]
pub extern "C" fn juicedelta_tree_search_rows(
    alloc: Global,
    handle: &Words,
    pass: Pass,
    relation: u32,
    window: &[i32],
    ids: &mut [i64],
    boxes: &mut [i32],
    total: &mut u64,
) -> Answer
    requires { IsOf pass.at pass.held handle.now }
    ensures told { OfTree pass.held (λ D. OfWindow relation window.now
        (SearchesRows ids.old ids.new boxes.old boxes.new total.old total.new)) result.code }
    ensures kept { result.code ≢ pos 0 → result.code ≢ pos 8 →
        (ids.new ≡ ids.old) × (boxes.new ≡ boxes.old) × (total.new ≡ total.old) }
    ensures pass { IsSame pass result.pass }
{
    let lease = pass.open();
    let code = match tree_in(lease.peek(handle)) {
        Ok(AnyTree::Line(lent)) => search_rows(
            alloc, lent.tree, relation, window, ids, boxes, total,
        ),
        Ok(AnyTree::Plane(lent)) => search_rows(
            alloc, lent.tree, relation, window, ids, boxes, total,
        ),
        Ok(AnyTree::Space(lent)) => search_rows(
            alloc, lent.tree, relation, window, ids, boxes, total,
        ),
        Err(code) => code,
    };
    hand_back(code, lease)
}

/// The rows nearest to a point.
#[unsafe(no_mangle)]
pub extern "C" fn juicedelta_tree_nearest(
    alloc: Global,
    handle: &Words,
    pass: Pass,
    point: &[i32],
    ids: &mut [i64],
    boxes: &mut [i32],
    total: &mut u64,
) -> Answer
    requires { IsOf pass.at pass.held handle.now }
    ensures told { OfTree pass.held
        (λ D. FindsNearestRows point.now ids.old ids.new boxes.old boxes.new total.old total.new) result.code }
    ensures kept { result.code ≢ pos 0 → (ids.new ≡ ids.old) × (boxes.new ≡ boxes.old) × (total.new ≡ total.old) }
    ensures pass { IsSame pass result.pass }
{
    let lease = pass.open();
    let code = match tree_in(lease.peek(handle)) {
        Ok(AnyTree::Line(lent)) => nearest(alloc, lent.tree, point, ids, boxes, total),
        Ok(AnyTree::Plane(lent)) => nearest(alloc, lent.tree, point, ids, boxes, total),
        Ok(AnyTree::Space(lent)) => nearest(alloc, lent.tree, point, ids, boxes, total),
        Err(code) => code,
    };
    hand_back(code, lease)
}

/// The dump as text.
#[unsafe(no_mangle)]
pub extern "C" fn juicedelta_tree_dump(
    alloc: Global,
    handle: &Words,
    pass: Pass,
    text: &mut [u8],
    total: &mut u64,
) -> Answer
    requires { IsOf pass.at pass.held handle.now }
    ensures told { OfTree pass.held (λ D. Dumps text.old text.new total.old total.new) result.code }
    ensures kept { result.code ≢ pos 0 → result.code ≢ pos 8 → (text.new ≡ text.old) × (total.new ≡ total.old) }
    ensures pass { IsSame pass result.pass }
{
    let lease = pass.open();
    let code = match tree_in(lease.peek(handle)) {
        Ok(AnyTree::Line(lent)) => dump_line(alloc, &lent, text, total),
        Ok(AnyTree::Plane(lent)) => dump_plane(alloc, &lent, text, total),
        Ok(AnyTree::Space(lent)) => dump_space(alloc, &lent, text, total),
        Err(code) => code,
    };
    hand_back(code, lease)
}
