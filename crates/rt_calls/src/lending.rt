//! The tree that a call reads: a tree in a handle, or one of the rows of live windows.

ghost use Rattle.std.specs.Prelude.{◌≡◌, option_map};
ghost use Rattle.rt_calls.specs.Calls.{IsTreeOfRows, Lends, LendsRows};

use crate::code::Code;
use rt_handle::{AnyLive, HeldLive, HeldTree, Object};
use rt_tree::Tree;
use std::hash::RandomState;

/// A tree to read.
#[derive(Clone, Copy)]
pub enum AnyTree<'a> {
    /// Of one axis.
    Line(LentTree<'a, 1>),
    /// Of two axes.
    Plane(LentTree<'a, 2>),
    /// Of three axes.
    Space(LentTree<'a, 3>),
}

/// A tree to read, and the keys of the hashes of its ids.
#[derive(Clone, Copy)]
pub struct LentTree<'a, const D: usize> {
    /// The tree.
    pub tree: &'a Tree<D>,
    /// The keys.
    pub keys: RandomState,
}

/// The tree of the rows of live windows.
fn lend_rows<const D: usize>(held: &HeldLive<D>) -> LentTree<'_, D>
    ensures { IsTreeOfRows held.now.live.lists.rows result.tree.now }
{
    let tree = held.live.rows_tree();
    tree.is_in_shape();
    LentTree {
        tree,
        keys: held.keys,
    }
}

/// The tree of the rows of live windows of any number of axes.
fn lend_live(live: &AnyLive) -> AnyTree<'_>
    ensures { LendsRows live.now result }
{
    match live {
        AnyLive::Line(held) => AnyTree::Line(lend_rows(held)),
        AnyLive::Plane(held) => AnyTree::Plane(lend_rows(held)),
        AnyLive::Space(held) => AnyTree::Space(lend_rows(held)),
    }
}

/// A tree, and its keys.
fn lend<const D: usize>(kept: &HeldTree<D>) -> LentTree<'_, D>
    ensures { result.tree.now ≡ kept.now.tree }
{
    LentTree {
        tree: &kept.tree,
        keys: kept.keys,
    }
}

/// The tree that a call reads of what a handle holds, or why there is none.
pub fn tree_in(held: Option<&Object>) -> Result<AnyTree<'_>, Code>
    ensures { Lends (option_map (λ object. object.now) held.entry) result }
{
    match held {
        None => Err(Code::Closed),
        Some(Object::Line(kept)) => Ok(AnyTree::Line(lend(kept))),
        Some(Object::Plane(kept)) => Ok(AnyTree::Plane(lend(kept))),
        Some(Object::Space(kept)) => Ok(AnyTree::Space(lend(kept))),
        Some(Object::Live(live)) => Ok(lend_live(live)),
        Some(Object::Script(_)) => Err(Code::OtherKind),
    }
}
