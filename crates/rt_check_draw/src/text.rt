//! Text that grows.

ghost use Rattle.std.specs.List.{flat_map};
ghost use Rattle.rt_check_draw.specs.Text.{Adds};

use std::alloc::AllocError;

/// Adds the parts, one after the other.
pub(crate) fn add(text: &mut Vec<u8>, parts: &[&[u8]]) -> Result<(), AllocError>
    ensures { Adds result text.old text.new (flat_map (λ part. part.now) parts.now) }
{
    for part in parts {
        text.extend_from_slice(part)?;
    }
    Ok(())
}
