//! What reading and writing dumps have to do with each other, as laws of the definitions that the contracts
//! cite. Each function changes nothing: its contract is the law. It looks at the shadows only for what their types say
//! of them.

ghost use Rattle.std.specs.Prelude.{◌≡◌, ℕ, List, Ok};
ghost use Rattle.rt_check_dump.specs.declared.dump.AnyShadow.{AnyShadow};
ghost use Rattle.rt_check_dump.specs.Dump.{any_text};
ghost use Rattle.rt_check_dump.specs.Reading.{read_text};
ghost use Rattle.rt_check_dump.specs.InRange.{IsAnyNumbered};
ghost use Rattle.rt_check_dump.specs.Faults.{DumpsAreRead, MisfitsAreFound, FaultsAreFound, IsDumpOrFaulty, OneAnswer};

use crate::dump::AnyShadow;
use crate::looks::look_at;

/// What is written of a shadow is read as that shadow, if the root, the nodes' numbers, the parents and
/// the leaves are at least 1.
pub fn written_is_read(shadow: &AnyShadow)
    requires { IsAnyNumbered shadow.now }
    ensures { read_text (any_text shadow.now) ≡ Ok shadow.now }
{
    look_at(shadow);
}

/// Shadows with the same text are the same, under the same premise.
pub fn shadows_have_their_own_texts(a: &AnyShadow, b: &AnyShadow)
    requires first { IsAnyNumbered a.now }
    requires second { IsAnyNumbered b.now }
    ensures { any_text a.now ≡ any_text b.now → a.now ≡ b.now }
{
    look_at(a);
    look_at(b);
}

/// A text that is read is, byte for byte, the text of the shadow that is read.
pub fn read_is_written()
    ensures { (text : List ℕ) (shadow : AnyShadow) → read_text text ≡ Ok shadow → any_text shadow ≡ text }
{}

/// A text is read as a shadow exactly if it is that shadow's text, with numbers that fit their types and
/// count from 1. So the premise of `written_is_read` holds of each shadow that was read.
pub fn dumps_are_read()
    ensures { DumpsAreRead }
{}

/// A line is read as faulty, by any code but `Truncated`, exactly if it is a misfit: the lines before it begin
/// some dump, and with it they begin none.
pub fn misfits_are_found()
    ensures { MisfitsAreFound }
{}

/// A line is read with one of the five faults exactly if it has that fault, by the fault's own definition.
pub fn faults_are_found()
    ensures { FaultsAreFound }
{}

/// A text is a dump or has a fault in a line; not both, and no text has two such lines or two faults.
pub fn texts_have_one_answer()
    ensures some { IsDumpOrFaulty }
    ensures one { OneAnswer }
{}
