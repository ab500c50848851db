//! Changes: what a window is told of a row.

ghost use Rattle.std.specs.Prelude.{◌≡◌, ◌+◌, ◌<◌, ◌≤◌, ◌++◌, length, vec_capacity};
ghost use Rattle.rt_live.specs.Changes.{told_of_row, told_of_window, listed};

/// What a row did in a window.
#[derive(Clone, Copy, PartialEq, Eq, Debug)]
pub enum Kind {
    /// It left the window.
    Left,
    /// It came into the window.
    Came,
    /// It has another box, and is in the window as before.
    Moved,
}

/// What a window is told of a row.
#[derive(Clone, Copy, PartialEq, Eq, Debug)]
pub struct Change {
    /// The id of the window.
    pub window: i64,
    /// The id of the row.
    pub id: i64,
    /// What the row did.
    pub kind: Kind,
}

/// What a window is told of a row that was edited.
pub(crate) fn told_of_row(was_in: bool, is_in: bool) -> Option<Kind>
    ensures { result ≡ told_of_row was_in is_in }
{
    match (was_in, is_in) {
        (true, true) => Some(Kind::Moved),
        (true, false) => Some(Kind::Left),
        (false, true) => Some(Kind::Came),
        (false, false) => None,
    }
}

/// What a window that was edited is told of a row.
pub(crate) fn told_of_window(was_in: bool, is_in: bool) -> Option<Kind>
    ensures { result ≡ told_of_window was_in is_in }
{
    match (was_in, is_in) {
        (true, false) => Some(Kind::Left),
        (false, true) => Some(Kind::Came),
        _ => None,
    }
}

/// Lists what a window is told of a row, if it is told anything, in a list that has room.
#[inline]
pub(crate) fn push_told(changes: &mut Vec<Change>, window: i64, id: i64, told: Option<Kind>)
    requires room { length changes.old.items < vec_capacity changes.old }
    ensures told { changes.new.items ≡ changes.old.items ++ listed window id told }
    ensures few { length changes.new.items ≤ length changes.old.items + 1 }
    ensures capacity { vec_capacity changes.new ≡ vec_capacity changes.old }
{
    if let Some(kind) = told {
        changes.push_reserved(Change { window, id, kind });
    }
}
