//! A tree without rows, and rows inserted, moved and removed.

ghost use Rattle.std.specs.Prelude.{Some};
ghost use Rattle.rt_calls.specs.Codes.{number_of};
ghost use Rattle.rt_calls.specs.Calls.{OnTree};
ghost use Rattle.rt_calls.specs.Trees.{MakesTree, OfBox, Inserts, Moves, Removes};

use crate::code::Code;
use crate::edit::{insert, new_tree, remove, replace};
use crate::keys::Keys;
use rt_handle::Object;
use std::alloc::Global;

/// A tree of that many axes without rows.
pub fn new_object(alloc: Global, axes: u32, capacity: u32, keys: &Keys) -> Result<Object, Code>
    ensures { MakesTree axes capacity result }
{
    match axes {
        1 => Ok(Object::Line(new_tree(alloc, capacity, keys)?)),
        2 => Ok(Object::Plane(new_tree(alloc, capacity, keys)?)),
        3 => Ok(Object::Space(new_tree(alloc, capacity, keys)?)),
        _ => Err(Code::BadAxes),
    }
}

/// Inserts a row into the tree that the object is.
pub fn insert_into(object: &mut Object, id: i64, numbers: &[i32]) -> Code
    ensures { OnTree (Some object.old) (Some object.new)
        (λ D old. OfBox numbers.now (Inserts id) old.tree) (number_of result) }
{
    match object {
        Object::Line(kept) => insert(&mut kept.tree, id, numbers),
        Object::Plane(kept) => insert(&mut kept.tree, id, numbers),
        Object::Space(kept) => insert(&mut kept.tree, id, numbers),
        _ => Code::OtherKind,
    }
}

/// Gives a row of the tree that the object is another box.
pub fn replace_in(object: &mut Object, id: i64, numbers: &[i32]) -> Code
    ensures { OnTree (Some object.old) (Some object.new)
        (λ D old. OfBox numbers.now (Moves id) old.tree) (number_of result) }
{
    match object {
        Object::Line(kept) => replace(&mut kept.tree, id, numbers),
        Object::Plane(kept) => replace(&mut kept.tree, id, numbers),
        Object::Space(kept) => replace(&mut kept.tree, id, numbers),
        _ => Code::OtherKind,
    }
}

/// Removes a row from the tree that the object is.
pub fn remove_from(object: &mut Object, id: i64) -> Code
    ensures { OnTree (Some object.old) (Some object.new) (λ D old. Removes id old.tree) (number_of result) }
{
    match object {
        Object::Line(kept) => remove(&mut kept.tree, id),
        Object::Plane(kept) => remove(&mut kept.tree, id),
        Object::Space(kept) => remove(&mut kept.tree, id),
        _ => Code::OtherKind,
    }
}
