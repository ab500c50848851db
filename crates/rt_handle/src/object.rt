//! What a handle may hold.

use rt_box::Capacity;
use rt_bytes::Sink;
use rt_live::Live;
use rt_shell::Shell;
use rt_tree::Tree;
use std::hash::RandomState;

/// An object that outlives the call that made it.
pub enum Object {
    /// A script shell.
    Script(Script),
    /// A tree of one axis.
    Line(HeldTree<1>),
    /// A tree of two axes.
    Plane(HeldTree<2>),
    /// A tree of three axes.
    Space(HeldTree<3>),
    /// Live windows.
    Live(AnyLive),
}

// By hand, since a derived drop is written out, field by field, wherever such a value ends.
impl Drop for Object {
    fn drop(self) {
        match self {
            Object::Script(_) => {}
            Object::Line(_) => {}
            Object::Plane(_) => {}
            Object::Space(_) => {}
            Object::Live(_) => {}
        }
    }
}

/// A script shell, and what it printed that the caller has not dropped yet.
pub struct Script {
    /// The shell, until its script has ended.
    pub shell: Option<Shell>,
    /// The bytes that it printed.
    pub output: Sink,
}

// By hand, since a derived drop is written out, field by field, wherever such a value ends.
impl Drop for Script {
    fn drop(self) {
        let Script {
            shell: _,
            output: _,
        } = self;
    }
}

/// A tree, and what a new one in its place is made of.
pub struct HeldTree<const D: usize> {
    /// The tree.
    pub tree: Tree<D>,
    /// The keys of the hashes of its ids.
    pub keys: RandomState,
    /// The capacity of its nodes.
    pub capacity: Capacity,
}

// By hand, since a derived drop is written out, field by field, wherever such a value ends.
impl<const D: usize> Drop for HeldTree<D> {
    fn drop(self) {
        let HeldTree {
            tree: _,
            keys: _,
            capacity: _,
        } = self;
    }
}

/// Live windows of some number of axes.
pub enum AnyLive {
    /// Of one axis.
    Line(HeldLive<1>),
    /// Of two axes.
    Plane(HeldLive<2>),
    /// Of three axes.
    Space(HeldLive<3>),
}

// By hand, since a derived drop is written out, field by field, wherever such a value ends.
impl Drop for AnyLive {
    fn drop(self) {
        match self {
            AnyLive::Line(_) => {}
            AnyLive::Plane(_) => {}
            AnyLive::Space(_) => {}
        }
    }
}

/// Live windows, and the keys of the hashes of their ids.
pub struct HeldLive<const D: usize> {
    /// The rows and the windows.
    pub live: Live<D>,
    /// The keys.
    pub keys: RandomState,
}

// By hand, since a derived drop is written out, field by field, wherever such a value ends.
impl<const D: usize> Drop for HeldLive<D> {
    fn drop(self) {
        let HeldLive { live: _, keys: _ } = self;
    }
}
