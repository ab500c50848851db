//! A tree made of a dump.

ghost use Rattle.std.specs.Prelude.{◌≡◌, ◌≤◌, ◌↔◌, IsTrue, IfOk};
ghost use Rattle.rt_check.specs.Conditions.{IsSound};
ghost use Rattle.rt_calls.specs.Trees.{axes_of, IsAxes};
ghost use Rattle.rt_calls.specs.Loading.{ReadsText, code_of_fault, Loads, LoadsAny, LoadsDump};

use crate::code::Code;
use crate::keys::Keys;
use rt_check::{Shadow, check};
use rt_check_dump::laws::dumps_are_read;
use rt_check_dump::{AnyShadow, DumpFault, read_dump};
use rt_handle::{HeldTree, Object};
use rt_map::{RestoreFault, from_shadow};
use rt_tree::Tree;
use std::alloc::{AllocError, Global};
use std::hash::RandomState;

/// The shadow of which the text is the dump.
fn read(alloc: Global, keys: RandomState, text: &[u8]) -> Result<AnyShadow, Code>
    ensures { ReadsText text.now result }
{
    dumps_are_read();
    match read_dump(alloc, keys, text) {
        Ok(shadow) => Ok(shadow),
        Err(DumpFault::At { .. }) => Err(Code::BadDump),
        Err(DumpFault::Memory) => Err(Code::OutOfMemory),
    }
}

/// Whether the checker finds no problem in the shadow.
fn is_sound<const D: usize>(alloc: Global, shadow: &Shadow<D>) -> Result<bool, AllocError>
    ensures { IfOk result (λ is. IsTrue is ↔ IsSound shadow.now) }
{
    Ok(check(alloc, shadow)?.is_empty())
}

/// The code for a shadow that makes no tree. In a sound one each row has a box, and no id stands twice.
fn fault_code(fault: RestoreFault) -> Code
    ensures { result ≡ code_of_fault fault }
{
    match fault {
        RestoreFault::NoBox | RestoreFault::Repeated => Code::BadDump,
        RestoreFault::TooMany => Code::TreeFull,
        RestoreFault::Memory => Code::OutOfMemory,
    }
}

/// A tree with the rows of the shadow.
fn load_sound<const D: usize>(
    alloc: Global,
    keys: RandomState,
    shadow: &Shadow<D>,
) -> Result<HeldTree<D>, Code>
    requires some { 1 ≤ D }
    requires few { D ≤ 3 }
    requires sound { IsSound shadow.now }
    ensures { Loads shadow.now result }
{
    match from_shadow(alloc, keys, shadow) {
        Ok(tree) => Ok(HeldTree {
            tree,
            keys,
            capacity: shadow.capacity(),
        }),
        Err(fault) => Err(fault_code(fault)),
    }
}

/// A tree with the rows of the shadow, if the checker finds no problem in the shadow.
fn load<const D: usize>(
    alloc: Global,
    keys: RandomState,
    shadow: &Shadow<D>,
) -> Result<HeldTree<D>, Code>
    requires some { 1 ≤ D }
    requires few { D ≤ 3 }
    ensures { Loads shadow.now result }
{
    match is_sound(alloc, shadow) {
        Ok(true) => load_sound(alloc, keys, shadow),
        Ok(false) => Err(Code::BadDump),
        Err(_) => Err(Code::OutOfMemory),
    }
}

/// A tree of as many axes with the rows of the shadow.
fn load_any(alloc: Global, keys: RandomState, shadow: &AnyShadow) -> Result<Object, Code>
    ensures { LoadsAny shadow.now result }
{
    match shadow {
        AnyShadow::One(shadow) => Ok(Object::Line(load(alloc, keys, shadow)?)),
        AnyShadow::Two(shadow) => Ok(Object::Plane(load(alloc, keys, shadow)?)),
        AnyShadow::Three(shadow) => Ok(Object::Space(load(alloc, keys, shadow)?)),
    }
}

/// The number of axes of the shadow.
fn shadow_axes(shadow: &AnyShadow) -> u32
    ensures axes { result ≡ axes_of shadow.now }
    ensures some { IsAxes result }
{
    match shadow {
        AnyShadow::One(_) => 1,
        AnyShadow::Two(_) => 2,
        AnyShadow::Three(_) => 3,
    }
}

/// A tree of that many axes with the rows of the shadow of which the text is the dump.
fn load_text(alloc: Global, axes: u32, keys: RandomState, text: &[u8]) -> Result<Object, Code>
    requires { IsAxes axes }
    ensures { LoadsDump axes text.now result }
{
    let shadow = read(alloc, keys, text)?;
    if shadow_axes(&shadow) != axes {
        return Err(Code::BadDump);
    }
    load_any(alloc, keys, &shadow)
}

/// A tree of that many axes with the rows of a dump.
pub fn load_dump(alloc: Global, axes: u32, keys: &Keys, text: &[u8]) -> Result<Object, Code>
    ensures { LoadsDump axes text.now result }
{
    if axes < 1 || axes > 3 {
        return Err(Code::BadAxes);
    }
    match RandomState::new(keys) {
        Ok(keys) => load_text(alloc, axes, keys, text),
        Err(_) => Err(Code::OutOfMemory),
    }
}
