//! What is read of live windows: the changes of the last edit, the rows that a window sees, and the windows.

ghost use Rattle.std.specs.Prelude.{◌≡◌, ◌≢◌, ◌≤◌, length, option_map};
ghost use Rattle.rt_calls.specs.Buffers.{Copies};
ghost use Rattle.rt_calls.specs.Codes.{number_of};
ghost use Rattle.rt_calls.specs.Live.{OfAxes, OfLive, number_of_kind, windows_of, changed_ids, kinds_of, GivesChanges};
ghost use Rattle.rt_calls.specs.Live.{TellsChanges, TellsSeen, TellsWindows};
ghost use Rattle.rt_calls.specs.declared.code.Code.TheVariants.{Done, BufferTooSmall};

use crate::buffer::copy_to;
use crate::code::Code;
use crate::places::rows;
use rt_handle::{AnyLive, Object};
use rt_live::{Change, Fault, Kind, Live};

/// The number of a kind of change.
fn kind_number(kind: Kind) -> u8
    ensures { result ≡ number_of_kind kind }
{
    match kind {
        Kind::Left => 0,
        Kind::Came => 1,
        Kind::Moved => 2,
    }
}

/// Writes what the changes tell to the start of three buffers.
fn write_changes(changes: &[Change], windows: &mut [i64], ids: &mut [i64], kinds: &mut [u8])
    requires windows { length changes.now ≤ length windows.old }
    requires ids { length changes.now ≤ length ids.old }
    requires kinds { length changes.now ≤ length kinds.old }
    ensures windows { Copies (windows_of changes.now) windows.old windows.new Done }
    ensures ids { Copies (changed_ids changes.now) ids.old ids.new Done }
    ensures kinds { Copies (kinds_of changes.now) kinds.old kinds.new Done }
{
    for at in 0..changes.len() {
        windows[at] = changes[at].window;
        ids[at] = changes[at].id;
        kinds[at] = kind_number(changes[at].kind);
    }
}

/// Writes the changes to the start of three buffers of one length, and their number to `total`.
fn give_changes(
    changes: &[Change],
    windows: &mut [i64],
    ids: &mut [i64],
    kinds: &mut [u8],
    total: &mut u64,
) -> Code
    requires ids { length ids.old ≡ length windows.old }
    requires kinds { length kinds.old ≡ length windows.old }
    ensures given { GivesChanges windows.old windows.new ids.old ids.new kinds.old kinds.new total.new
        changes.now result }
    ensures kept { result ≢ Done → result ≢ BufferTooSmall →
        (windows.new ≡ windows.old) × (ids.new ≡ ids.old) × (kinds.new ≡ kinds.old) × (total.new ≡ total.old) }
{
    *total = changes.len() as u64;
    if changes.len() > windows.len() {
        return Code::BufferTooSmall;
    }
    write_changes(changes, windows, ids, kinds);
    Code::Done
}

/// Writes the changes of the last edit.
fn changes<const D: usize>(
    live: &Live<D>,
    windows: &mut [i64],
    ids: &mut [i64],
    kinds: &mut [u8],
    total: &mut u64,
) -> Code
    ensures told { TellsChanges windows.old windows.new ids.old ids.new kinds.old kinds.new total.new
        live.now.lists result }
    ensures kept { result ≢ Done → result ≢ BufferTooSmall →
        (windows.new ≡ windows.old) × (ids.new ≡ ids.old) × (kinds.new ≡ kinds.old) × (total.new ≡ total.old) }
{
    if ids.len() != windows.len() || kinds.len() != windows.len() {
        return Code::BadLength;
    }
    give_changes(live.changes(), windows, ids, kinds, total)
}

/// Writes the last changes of live windows on any number of axes.
fn changes_any(
    live: &AnyLive,
    windows: &mut [i64],
    ids: &mut [i64],
    kinds: &mut [u8],
    total: &mut u64,
) -> Code
    ensures told { OfAxes live.now (λ D. TellsChanges windows.old windows.new
        ids.old ids.new kinds.old kinds.new total.new) result }
    ensures kept { result ≢ Done → result ≢ BufferTooSmall →
        (windows.new ≡ windows.old) × (ids.new ≡ ids.old) × (kinds.new ≡ kinds.old) × (total.new ≡ total.old) }
{
    match live {
        AnyLive::Line(held) => changes(&held.live, windows, ids, kinds, total),
        AnyLive::Plane(held) => changes(&held.live, windows, ids, kinds, total),
        AnyLive::Space(held) => changes(&held.live, windows, ids, kinds, total),
    }
}

/// The same of what a handle holds.
pub fn changes_in(
    held: Option<&Object>,
    windows: &mut [i64],
    ids: &mut [i64],
    kinds: &mut [u8],
    total: &mut u64,
) -> Code
    ensures told { OfLive (option_map (λ object. object.now) held.entry)
        (λ D. TellsChanges windows.old windows.new
        ids.old ids.new kinds.old kinds.new total.new) (number_of result) }
    ensures kept { result ≢ Done → result ≢ BufferTooSmall →
        (windows.new ≡ windows.old) × (ids.new ≡ ids.old) × (kinds.new ≡ kinds.old) × (total.new ≡ total.old) }
{
    match held {
        None => Code::Closed,
        Some(Object::Live(live)) => changes_any(live, windows, ids, kinds, total),
        Some(_) => Code::OtherKind,
    }
}

/// Writes the ids of the rows that a window sees, and their number.
fn seen<const D: usize>(live: &Live<D>, window: i64, ids: &mut [i64], total: &mut u64) -> Code
    ensures told { TellsSeen window ids.old ids.new total.new live.now.lists result }
    ensures kept { result ≢ Done → result ≢ BufferTooSmall → (ids.new ≡ ids.old) × (total.new ≡ total.old) }
{
    match live.rows(&window) {
        Ok(found) => {
            *total = found.len() as u64;
            copy_to(&found, ids)
        }
        Err(Fault::NoWindow) => Code::IdMissing,
        Err(_) => Code::OutOfMemory,
    }
}

/// Writes the ids of the rows that a window sees, on any number of axes.
fn seen_any(live: &AnyLive, window: i64, ids: &mut [i64], total: &mut u64) -> Code
    ensures told { OfAxes live.now (λ D. TellsSeen window ids.old ids.new total.new) result }
    ensures kept { result ≢ Done → result ≢ BufferTooSmall → (ids.new ≡ ids.old) × (total.new ≡ total.old) }
{
    match live {
        AnyLive::Line(held) => seen(&held.live, window, ids, total),
        AnyLive::Plane(held) => seen(&held.live, window, ids, total),
        AnyLive::Space(held) => seen(&held.live, window, ids, total),
    }
}

/// The same of what a handle holds.
pub fn seen_in(held: Option<&Object>, window: i64, ids: &mut [i64], total: &mut u64) -> Code
    ensures told { OfLive (option_map (λ object. object.now) held.entry)
        (λ D. TellsSeen window ids.old ids.new total.new) (number_of result) }
    ensures kept { result ≢ Done → result ≢ BufferTooSmall → (ids.new ≡ ids.old) × (total.new ≡ total.old) }
{
    match held {
        None => Code::Closed,
        Some(Object::Live(live)) => seen_any(live, window, ids, total),
        Some(_) => Code::OtherKind,
    }
}

/// Writes the windows from the place on.
fn windows<const D: usize>(
    live: &Live<D>,
    from: u64,
    ids: &mut [i64],
    boxes: &mut [i32],
    total: &mut u64,
) -> Code
    requires some { 1 ≤ D }
    requires few { D ≤ 3 }
    ensures told { TellsWindows from ids.old ids.new boxes.old boxes.new total.new live.now.lists result }
    ensures kept { result ≢ Done → (ids.new ≡ ids.old) × (boxes.new ≡ boxes.old) × (total.new ≡ total.old) }
{
    let tree = live.windows_tree();
    tree.is_in_shape();
    rows(tree, from, ids, boxes, total)
}

/// Writes the windows from the place on, on any number of axes.
fn windows_any(
    live: &AnyLive,
    from: u64,
    ids: &mut [i64],
    boxes: &mut [i32],
    total: &mut u64,
) -> Code
    ensures told { OfAxes live.now (λ D. TellsWindows from ids.old ids.new boxes.old boxes.new total.new) result }
    ensures kept { result ≢ Done → (ids.new ≡ ids.old) × (boxes.new ≡ boxes.old) × (total.new ≡ total.old) }
{
    match live {
        AnyLive::Line(held) => windows(&held.live, from, ids, boxes, total),
        AnyLive::Plane(held) => windows(&held.live, from, ids, boxes, total),
        AnyLive::Space(held) => windows(&held.live, from, ids, boxes, total),
    }
}

/// The same of what a handle holds.
pub fn windows_in(
    held: Option<&Object>,
    from: u64,
    ids: &mut [i64],
    boxes: &mut [i32],
    total: &mut u64,
) -> Code
    ensures told { OfLive (option_map (λ object. object.now) held.entry)
        (λ D. TellsWindows from ids.old ids.new boxes.old boxes.new total.new) (number_of result) }
    ensures kept { result ≢ Done → (ids.new ≡ ids.old) × (boxes.new ≡ boxes.old) × (total.new ≡ total.old) }
{
    match held {
        None => Code::Closed,
        Some(Object::Live(live)) => windows_any(live, from, ids, boxes, total),
        Some(_) => Code::OtherKind,
    }
}
