//! Live windows: rows, windows over them, and what each edit tells the windows.

ghost use Rattle.std.specs.Prelude.{◌≡◌, ◌≢◌, pos};
ghost use Rattle.rt_calls.specs.Calls.{Opens};
ghost use Rattle.rt_calls.specs.Live.{IsLive, IsNewLive, OnLive, WithBox};
ghost use Rattle.rt_calls.specs.Live.{RowComes, RowMoves, RowLeaves, WindowComes, WindowMoves, WindowLeaves, Reserves};
ghost use Rattle.rt_calls.specs.Trees.{MakesNoTree};

use rt_calls::live::{
    insert_in, new_object, remove_in, replace_in, reserve_in, shift_in, unwatch_in, watch_in,
};
use rt_calls::{Code, Keys, fill};
use rt_handle::{Handle, Object};
use std::alloc::Global;

/// Opens live windows.
#[unsafe(no_mangle)]
pub extern "C" fn juicedelta_live_open(
    alloc: Global,
    handle: &mut Handle,
    axes: u32,
    capacity: u32,
    first_key: u64,
    second_key: u64,
) -> i32
    ensures { Opens handle.old.held handle.new.held (IsLive (IsNewLive axes)) (MakesNoTree axes capacity) result }
{
    if let Some(object) = handle.take(alloc) {
        handle.put(object);
        return Code::AlreadyOpen.number();
    }
    let keys = Keys {
        first: first_key,
        second: second_key,
    };
    match new_object(alloc, axes, capacity, &keys) {
        Ok(object) => fill(alloc, handle, object).number(),
        Err(code) => code.number(),
    }
}

/// Inserts a row: it comes into the windows that it touches.
#[unsafe(no_mangle)]
pub extern "C" fn juicedelta_live_insert(
    alloc: Global,
    handle: &mut Handle,
    id: i64,
    numbers: &[i32],
    changes: &mut u64,
) -> i32
    ensures edited { OnLive handle.old.held handle.new.held
        (λ D. WithBox numbers.now (RowComes id changes.new)) result }
    ensures kept { result ≢ pos 0 → changes.new ≡ changes.old }
{
    let Some(mut object) = handle.take(alloc) else {
        return Code::Closed.number();
    };
    let code = match &mut *object {
        Object::Live(live) => insert_in(live, id, numbers, changes),
        _ => Code::OtherKind,
    };
    handle.put(object);
    code.number()
}

/// Gives a row another box: it leaves windows, comes into them, or moves in them.
#[unsafe(no_mangle)]
pub extern "C" fn juicedelta_live_move(
    alloc: Global,
    handle: &mut Handle,
    id: i64,
    numbers: &[i32],
    changes: &mut u64,
) -> i32
    ensures edited { OnLive handle.old.held handle.new.held
        (λ D. WithBox numbers.now (RowMoves id changes.new)) result }
    ensures kept { result ≢ pos 0 → changes.new ≡ changes.old }
{
    let Some(mut object) = handle.take(alloc) else {
        return Code::Closed.number();
    };
    let code = match &mut *object {
        Object::Live(live) => replace_in(live, id, numbers, changes),
        _ => Code::OtherKind,
    };
    handle.put(object);
    code.number()
}

/// Removes a row: it leaves the windows that saw it.
#[unsafe(no_mangle)]
pub extern "C" fn juicedelta_live_remove(
    alloc: Global,
    handle: &mut Handle,
    id: i64,
    changes: &mut u64,
) -> i32
    ensures edited { OnLive handle.old.held handle.new.held (λ D. RowLeaves id changes.new) result }
    ensures kept { result ≢ pos 0 → changes.new ≡ changes.old }
{
    let Some(mut object) = handle.take(alloc) else {
        return Code::Closed.number();
    };
    let code = match &mut *object {
        Object::Live(live) => remove_in(live, id, changes),
        _ => Code::OtherKind,
    };
    handle.put(object);
    code.number()
}

/// Opens a window: the rows that touch it come into it.
#[unsafe(no_mangle)]
pub extern "C" fn juicedelta_live_watch(
    alloc: Global,
    handle: &mut Handle,
    window: i64,
    numbers: &[i32],
    changes: &mut u64,
) -> i32
    ensures edited { OnLive handle.old.held handle.new.held
        (λ D. WithBox numbers.now (WindowComes window changes.new)) result }
    ensures kept { result ≢ pos 0 → changes.new ≡ changes.old }
{
    let Some(mut object) = handle.take(alloc) else {
        return Code::Closed.number();
    };
    let code = match &mut *object {
        Object::Live(live) => watch_in(live, window, numbers, changes),
        _ => Code::OtherKind,
    };
    handle.put(object);
    code.number()
}

/// Gives a window another box: rows leave it and come into it.
#[unsafe(no_mangle)]
pub extern "C" fn juicedelta_live_shift(
    alloc: Global,
    handle: &mut Handle,
    window: i64,
    numbers: &[i32],
    changes: &mut u64,
) -> i32
    ensures edited { OnLive handle.old.held handle.new.held
        (λ D. WithBox numbers.now (WindowMoves window changes.new)) result }
    ensures kept { result ≢ pos 0 → changes.new ≡ changes.old }
{
    let Some(mut object) = handle.take(alloc) else {
        return Code::Closed.number();
    };
    let code = match &mut *object {
        Object::Live(live) => shift_in(live, window, numbers, changes),
        _ => Code::OtherKind,
    };
    handle.put(object);
    code.number()
}

/// Takes a window out: the rows that it saw leave it.
#[unsafe(no_mangle)]
pub extern "C" fn juicedelta_live_unwatch(
    alloc: Global,
    handle: &mut Handle,
    window: i64,
    changes: &mut u64,
) -> i32
    ensures edited { OnLive handle.old.held handle.new.held (λ D. WindowLeaves window changes.new) result }
    ensures kept { result ≢ pos 0 → changes.new ≡ changes.old }
{
    let Some(mut object) = handle.take(alloc) else {
        return Code::Closed.number();
    };
    let code = match &mut *object {
        Object::Live(live) => unwatch_in(live, window, changes),
        _ => Code::OtherKind,
    };
    handle.put(object);
    code.number()
}

/// Makes room for `rows` and `windows` more, and for edits that make `changes` changes.
#[unsafe(no_mangle)]
pub extern "C" fn juicedelta_live_reserve(
    alloc: Global,
    handle: &mut Handle,
    rows: u64,
    windows: u64,
    changes: u64,
) -> i32
    ensures { OnLive handle.old.held handle.new.held (λ D. Reserves rows windows changes) result }
{
    let Some(mut object) = handle.take(alloc) else {
        return Code::Closed.number();
    };
    let code = match &mut *object {
        Object::Live(live) => reserve_in(live, rows, windows, changes),
        _ => Code::OtherKind,
    };
    handle.put(object);
    code.number()
}
