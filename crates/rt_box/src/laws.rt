//! What searching and splitting rest on, as laws of the definitions that the contracts cite. Each
//! function does nothing: its contract is the law.

ghost use Rattle.rt_box.specs.Laws.{UnionIsLeast, HullIsLeast, AreaGrows, OverlapIsSymmetric, OverlapGrows, AdmittedMayBeHeld, WindowAllowsWhatIsKept, WindowAdmitsWhatIsKept};

/// The union of two boxes holds both, and each box that holds both holds it.
pub fn union_is_least()
    ensures { UnionIsLeast }
{}

/// The hull of some boxes is a box that holds each of them, and whatever holds each of them holds it.
pub fn hull_is_least()
    ensures { HullIsLeast }
{}

/// A box that holds another has no smaller area.
pub fn area_grows()
    ensures { AreaGrows }
{}

/// Two boxes overlap each other alike.
pub fn overlap_is_symmetric()
    ensures { OverlapIsSymmetric }
{}

/// A box that holds another has no smaller overlap with a third.
pub fn overlap_grows()
    ensures { OverlapGrows }
{}

/// A window that admits a box may hold within every box around it.
pub fn admitted_may_be_held()
    ensures { AdmittedMayBeHeld }
{}

/// A window that was narrowed by some comparisons allows a coordinate exactly the 32-bit numbers of which
/// all comparisons of that coordinate hold, except `<>`.
pub fn window_allows_what_is_kept()
    ensures { WindowAllowsWhatIsKept }
{}

/// A window that was narrowed by some comparisons admits exactly the boxes of whose coordinates all
/// of them hold, except `<>`.
pub fn window_admits_what_is_kept()
    ensures { WindowAdmitsWhatIsKept }
{}
