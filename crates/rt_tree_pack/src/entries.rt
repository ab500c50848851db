//! Entries for the ids of rows.

ghost use Rattle.std.specs.Prelude.{◌≡◌, [], length, OnOk, IfOk, IfErr, All};
ghost use Rattle.rt_box.specs.Rect.{IsBox};
ghost use Rattle.indexmap.specs.IndexMap.{index_map_len};
ghost use Rattle.rt_tree_node.specs.Places.{numbers};
ghost use Rattle.rt_tree_pack.specs.Packing.{HasEntries, IsFaultOf};
ghost use Rattle.rt_tree_pack.specs.Steps.{Enters};

use crate::fault::PackFault;
use crate::looks::Looks;
use indexmap::IndexMap;
use rt_tree_node::{Cell, Key};
use std::alloc::AllocError;
use std::hash::RandomState;

/// Gives the id an entry that leads to that leaf, unless it has one; returns whether it had none.
fn enter_id(
    leaves: &mut IndexMap<i64, Key, RandomState>,
    id: &i64,
    leaf: Key,
) -> Result<bool, AllocError>
    ensures { IfOk result (λ is_new. Enters leaves.old leaves.new id.now leaf is_new) }
{
    match leaves.insert(*id, leaf) {
        Ok(old) => Ok(old.is_none()),
        Err(_) => Err(AllocError),
    }
}

/// Gives each row's id an entry, in the order of the rows. An entry leads to that leaf until the row lies in another.
///
/// # Errors
///
/// `Repeated` if an id stands twice, and `Memory` if no memory is left. Some of the rows may then have an entry.
pub fn enter<const D: usize>(
    leaves: &mut IndexMap<i64, Key, RandomState>,
    rows: &[Cell<D>],
    leaf: Key,
) -> Result<(), PackFault>
    requires { leaves.old.entries ≡ [] }
    ensures entries { OnOk result (HasEntries leaves.new rows.now) }
    ensures len { OnOk result (index_map_len leaves.new ≡ length rows.now) }
    ensures boxes { OnOk result (All (λ c. IsBox D c.rect) rows.now) }
    ensures repeated { IfErr result (λ fault. IsFaultOf (numbers rows.now) fault) }
{
    let mut looks = Looks::new();
    for (at, row) in rows.iter().enumerate() {
        if Looks::is_due(at) {
            looks.look_up(leaves, rows, at);
        }
        row.rect.facts();
        let is_new = enter_id(leaves, &row.number, leaf)?;
        if !is_new {
            return Err(PackFault::Repeated { at });
        }
    }
    Ok(())
}
