//! Views brought up to date.
//!
//! All room was reserved before, so nothing here takes memory or fails. A view knows which ids the plan has come and
//! leave (`specs/Preparing.antt`, `specs/Watching.antt`).

ghost use Rattle.std.specs.Prelude.{◌≡◌, ◌≤◌, ◌<◌, ◌+◌, ℤ, All, map, length, if◌then◌else◌};
ghost use Rattle.std.specs.Ordering.{int_eq};
ghost use Rattle.indexmap.specs.IndexSet.{spare};
ghost use Rattle.rt_table_view.specs.Preparing.{KeepAwaited};
ghost use Rattle.rt_table_view.specs.Watching.{view_of, is_listed, IsRefreshed};

use crate::view::Watched;
use indexmap::IndexSet;
use std::alloc::Global;
use std::hash::RandomState;
use std::mem;

/// Makes the id one of the set, or not one of it.
fn set_among(ids: &mut IndexSet<i64, RandomState>, id: &i64, is_in: bool)
    requires { 0 < spare ids.old }
    ensures ids { (q : ℤ) → is_listed ids.new.keys q ≡ (if int_eq q id.now then is_in else is_listed ids.old.keys q) }
    ensures room { spare ids.old ≤ spare ids.new + 1 }
{
    if is_in {
        // There is room for one more.
        let _ = ids.insert(*id);
        return;
    }
    let _ = ids.swap_remove(id);
}

/// Carries out the shifts that a view awaits.
fn refresh(alloc: Global, view: &mut Watched)
    requires { length view.old.shifts.items ≤ spare view.old.ids }
    ensures { IsRefreshed view.old view.new }
{
    let shifts = mem::replace(&mut view.shifts, Vec::new(alloc));
    for shift in shifts.as_slice() {
        set_among(&mut view.ids, &shift.id, shift.is_in);
    }
}

/// Carries out the shifts that the views await: each view then has the ids of the rows that it shows now.
pub fn refresh_each(alloc: Global, views: &mut Vec<Watched>)
    requires { All (λ w. length w.shifts.items ≤ spare w.ids) views.old.items }
    ensures views { map view_of views.new.items ≡ map view_of views.old.items }
    ensures kept { KeepAwaited views.old.items views.new.items }
{
    for at in 0..views.len() {
        refresh(alloc, &mut views[at]);
    }
}
