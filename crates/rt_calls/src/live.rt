//! Live windows: rows, windows over them, and what each edit tells the windows.

ghost use Rattle.std.specs.Prelude.{◌≡◌, ◌≢◌, ◌≤◌, length};
ghost use Rattle.rt_calls.specs.Live.{MakesLive, MakesNew, OnAxes, WithBox};
ghost use Rattle.rt_calls.specs.Live.{RowComes, RowMoves, RowLeaves, WindowComes, WindowMoves, WindowLeaves, Reserves};
ghost use Rattle.rt_calls.specs.declared.code.Code.TheVariants.{Done};

use crate::code::Code;
use crate::keys::Keys;
use crate::numbers::ends;
use crate::packing::capacity_of;
use rt_box::Rect;
use rt_handle::{AnyLive, HeldLive, Object};
use rt_live::{Fault, Live};
use std::alloc::Global;
use std::hash::RandomState;

/// Rows and windows, none so far.
fn new_live<const D: usize>(alloc: Global, capacity: u32, keys: &Keys) -> Result<HeldLive<D>, Code>
    requires some { 1 ≤ D }
    requires few { D ≤ 3 }
    ensures { MakesNew capacity result }
{
    let Some(capacity) = capacity_of(capacity) else {
        return Err(Code::BadCapacity);
    };
    capacity.facts();
    let Ok(keys) = RandomState::new(keys) else {
        return Err(Code::OutOfMemory);
    };
    match Live::new(alloc, keys, capacity) {
        Ok(live) => Ok(HeldLive { live, keys }),
        Err(_) => Err(Code::OutOfMemory),
    }
}

/// Rows and windows of that many axes, none so far.
pub fn new_object(alloc: Global, axes: u32, capacity: u32, keys: &Keys) -> Result<Object, Code>
    ensures { MakesLive axes capacity result }
{
    match axes {
        1 => Ok(Object::Live(AnyLive::Line(new_live(alloc, capacity, keys)?))),
        2 => Ok(Object::Live(AnyLive::Plane(new_live(alloc, capacity, keys)?))),
        3 => Ok(Object::Live(AnyLive::Space(new_live(alloc, capacity, keys)?))),
        _ => Err(Code::BadAxes),
    }
}

/// Tells how many changes the last edit made.
fn tell<const D: usize>(live: &Live<D>, changes: &mut u64) -> Code
    ensures told { changes.new ≡ length live.now.lists.changes }
    ensures done { result ≡ Done }
{
    *changes = live.changes().len() as u64;
    Code::Done
}

/// Inserts a row with the box from `min` to `max`.
fn insert_between<const D: usize>(
    live: &mut Live<D>,
    id: i64,
    min: [i32; D],
    max: [i32; D],
    changes: &mut u64,
) -> Code
    requires some { 1 ≤ D }
    requires few { D ≤ 3 }
    ensures edited { RowComes id changes.new min.entry max.entry live.old live.new result }
    ensures kept { result ≢ Done → changes.new ≡ changes.old }
{
    let Some(rect) = Rect::new(min, max) else {
        return Code::BadBox;
    };
    match live.insert(&id, &rect) {
        Ok(()) => tell(live, changes),
        Err(Fault::Taken) => Code::IdTaken,
        Err(Fault::Full) => Code::TreeFull,
        Err(_) => Code::OutOfMemory,
    }
}

/// Inserts a row with the box of these numbers.
fn insert<const D: usize>(live: &mut Live<D>, id: i64, numbers: &[i32], changes: &mut u64) -> Code
    requires some { 1 ≤ D }
    requires few { D ≤ 3 }
    ensures edited { WithBox numbers.now (RowComes id changes.new) live.old live.new result }
    ensures kept { result ≢ Done → changes.new ≡ changes.old }
{
    match ends(numbers) {
        Some((min, max)) => insert_between(live, id, *min, *max, changes),
        None => Code::BadLength,
    }
}

/// The same of any number of axes.
pub fn insert_in(live: &mut AnyLive, id: i64, numbers: &[i32], changes: &mut u64) -> Code
    ensures edited { OnAxes live.old live.new (λ D. WithBox numbers.now (RowComes id changes.new)) result }
    ensures kept { result ≢ Done → changes.new ≡ changes.old }
{
    match live {
        AnyLive::Line(held) => insert(&mut held.live, id, numbers, changes),
        AnyLive::Plane(held) => insert(&mut held.live, id, numbers, changes),
        AnyLive::Space(held) => insert(&mut held.live, id, numbers, changes),
    }
}

/// Gives a row the box from `min` to `max`.
fn replace_between<const D: usize>(
    live: &mut Live<D>,
    id: i64,
    min: [i32; D],
    max: [i32; D],
    changes: &mut u64,
) -> Code
    requires some { 1 ≤ D }
    requires few { D ≤ 3 }
    ensures edited { RowMoves id changes.new min.entry max.entry live.old live.new result }
    ensures kept { result ≢ Done → changes.new ≡ changes.old }
{
    let Some(rect) = Rect::new(min, max) else {
        return Code::BadBox;
    };
    match live.replace(&id, &rect) {
        Ok(()) => tell(live, changes),
        Err(Fault::Missing) => Code::IdMissing,
        Err(_) => Code::OutOfMemory,
    }
}

/// Gives a row the box of these numbers.
fn replace<const D: usize>(live: &mut Live<D>, id: i64, numbers: &[i32], changes: &mut u64) -> Code
    requires some { 1 ≤ D }
    requires few { D ≤ 3 }
    ensures edited { WithBox numbers.now (RowMoves id changes.new) live.old live.new result }
    ensures kept { result ≢ Done → changes.new ≡ changes.old }
{
    match ends(numbers) {
        Some((min, max)) => replace_between(live, id, *min, *max, changes),
        None => Code::BadLength,
    }
}

/// The same of any number of axes.
pub fn replace_in(live: &mut AnyLive, id: i64, numbers: &[i32], changes: &mut u64) -> Code
    ensures edited { OnAxes live.old live.new (λ D. WithBox numbers.now (RowMoves id changes.new)) result }
    ensures kept { result ≢ Done → changes.new ≡ changes.old }
{
    match live {
        AnyLive::Line(held) => replace(&mut held.live, id, numbers, changes),
        AnyLive::Plane(held) => replace(&mut held.live, id, numbers, changes),
        AnyLive::Space(held) => replace(&mut held.live, id, numbers, changes),
    }
}

/// Removes a row.
fn remove<const D: usize>(live: &mut Live<D>, id: i64, changes: &mut u64) -> Code
    requires some { 1 ≤ D }
    requires few { D ≤ 3 }
    ensures edited { RowLeaves id changes.new live.old live.new result }
    ensures kept { result ≢ Done → changes.new ≡ changes.old }
{
    match live.remove(&id) {
        Ok(()) => tell(live, changes),
        Err(Fault::Missing) => Code::IdMissing,
        Err(_) => Code::OutOfMemory,
    }
}

/// The same of any number of axes.
pub fn remove_in(live: &mut AnyLive, id: i64, changes: &mut u64) -> Code
    ensures edited { OnAxes live.old live.new (λ D. RowLeaves id changes.new) result }
    ensures kept { result ≢ Done → changes.new ≡ changes.old }
{
    match live {
        AnyLive::Line(held) => remove(&mut held.live, id, changes),
        AnyLive::Plane(held) => remove(&mut held.live, id, changes),
        AnyLive::Space(held) => remove(&mut held.live, id, changes),
    }
}

/// Opens a window with the box from `min` to `max`.
fn watch_between<const D: usize>(
    live: &mut Live<D>,
    window: i64,
    min: [i32; D],
    max: [i32; D],
    changes: &mut u64,
) -> Code
    requires some { 1 ≤ D }
    requires few { D ≤ 3 }
    ensures edited { WindowComes window changes.new min.entry max.entry live.old live.new result }
    ensures kept { result ≢ Done → changes.new ≡ changes.old }
{
    let Some(rect) = Rect::new(min, max) else {
        return Code::BadBox;
    };
    match live.watch(&window, &rect) {
        Ok(()) => tell(live, changes),
        Err(Fault::WindowTaken) => Code::IdTaken,
        Err(Fault::Full) => Code::TreeFull,
        Err(_) => Code::OutOfMemory,
    }
}

/// Opens a window with the box of these numbers.
fn watch<const D: usize>(
    live: &mut Live<D>,
    window: i64,
    numbers: &[i32],
    changes: &mut u64,
) -> Code
    requires some { 1 ≤ D }
    requires few { D ≤ 3 }
    ensures edited { WithBox numbers.now (WindowComes window changes.new) live.old live.new result }
    ensures kept { result ≢ Done → changes.new ≡ changes.old }
{
    match ends(numbers) {
        Some((min, max)) => watch_between(live, window, *min, *max, changes),
        None => Code::BadLength,
    }
}

/// The same of any number of axes.
pub fn watch_in(live: &mut AnyLive, window: i64, numbers: &[i32], changes: &mut u64) -> Code
    ensures edited { OnAxes live.old live.new (λ D. WithBox numbers.now (WindowComes window changes.new)) result }
    ensures kept { result ≢ Done → changes.new ≡ changes.old }
{
    match live {
        AnyLive::Line(held) => watch(&mut held.live, window, numbers, changes),
        AnyLive::Plane(held) => watch(&mut held.live, window, numbers, changes),
        AnyLive::Space(held) => watch(&mut held.live, window, numbers, changes),
    }
}

/// Gives a window another box with the box from `min` to `max`.
fn shift_between<const D: usize>(
    live: &mut Live<D>,
    window: i64,
    min: [i32; D],
    max: [i32; D],
    changes: &mut u64,
) -> Code
    requires some { 1 ≤ D }
    requires few { D ≤ 3 }
    ensures edited { WindowMoves window changes.new min.entry max.entry live.old live.new result }
    ensures kept { result ≢ Done → changes.new ≡ changes.old }
{
    let Some(rect) = Rect::new(min, max) else {
        return Code::BadBox;
    };
    match live.shift(&window, &rect) {
        Ok(()) => tell(live, changes),
        Err(Fault::NoWindow) => Code::IdMissing,
        Err(_) => Code::OutOfMemory,
    }
}

/// Gives a window another box with the box of these numbers.
fn shift<const D: usize>(
    live: &mut Live<D>,
    window: i64,
    numbers: &[i32],
    changes: &mut u64,
) -> Code
    requires some { 1 ≤ D }
    requires few { D ≤ 3 }
    ensures edited { WithBox numbers.now (WindowMoves window changes.new) live.old live.new result }
    ensures kept { result ≢ Done → changes.new ≡ changes.old }
{
    match ends(numbers) {
        Some((min, max)) => shift_between(live, window, *min, *max, changes),
        None => Code::BadLength,
    }
}

/// The same of any number of axes.
pub fn shift_in(live: &mut AnyLive, window: i64, numbers: &[i32], changes: &mut u64) -> Code
    ensures edited { OnAxes live.old live.new (λ D. WithBox numbers.now (WindowMoves window changes.new)) result }
    ensures kept { result ≢ Done → changes.new ≡ changes.old }
{
    match live {
        AnyLive::Line(held) => shift(&mut held.live, window, numbers, changes),
        AnyLive::Plane(held) => shift(&mut held.live, window, numbers, changes),
        AnyLive::Space(held) => shift(&mut held.live, window, numbers, changes),
    }
}

/// Takes a window out.
fn unwatch<const D: usize>(live: &mut Live<D>, window: i64, changes: &mut u64) -> Code
    requires some { 1 ≤ D }
    requires few { D ≤ 3 }
    ensures edited { WindowLeaves window changes.new live.old live.new result }
    ensures kept { result ≢ Done → changes.new ≡ changes.old }
{
    match live.unwatch(&window) {
        Ok(()) => tell(live, changes),
        Err(Fault::NoWindow) => Code::IdMissing,
        Err(_) => Code::OutOfMemory,
    }
}

/// The same of any number of axes.
pub fn unwatch_in(live: &mut AnyLive, window: i64, changes: &mut u64) -> Code
    ensures edited { OnAxes live.old live.new (λ D. WindowLeaves window changes.new) result }
    ensures kept { result ≢ Done → changes.new ≡ changes.old }
{
    match live {
        AnyLive::Line(held) => unwatch(&mut held.live, window, changes),
        AnyLive::Plane(held) => unwatch(&mut held.live, window, changes),
        AnyLive::Space(held) => unwatch(&mut held.live, window, changes),
    }
}

/// Makes room.
fn reserve<const D: usize>(live: &mut Live<D>, rows: u64, windows: u64, changes: u64) -> Code
    ensures { Reserves rows windows changes live.old live.new result }
{
    match live.reserve(rows as usize, windows as usize, changes as usize) {
        Ok(()) => Code::Done,
        Err(_) => Code::OutOfMemory,
    }
}

/// The same of any number of axes.
pub fn reserve_in(live: &mut AnyLive, rows: u64, windows: u64, changes: u64) -> Code
    ensures { OnAxes live.old live.new (λ D. Reserves rows windows changes) result }
{
    match live {
        AnyLive::Line(held) => reserve(&mut held.live, rows, windows, changes),
        AnyLive::Plane(held) => reserve(&mut held.live, rows, windows, changes),
        AnyLive::Space(held) => reserve(&mut held.live, rows, windows, changes),
    }
}
