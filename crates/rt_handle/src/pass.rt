//! How a call reads the object of a handle, beside other calls that read it.

ghost use Rattle.std.specs.Prelude.{◌≡◌, ℕ, Option, Some, IsSome, option_map};
ghost use base.Fml.{Share};
ghost use base.SetCodes.{coded_share};
ghost use denote.RawPtr.{Ptr};
ghost use Rattle.rt_handle.specs.Owned.{coded_held};
ghost use Rattle.rt_handle.specs.Lent.{object_lent, pass_owns};
ghost use Rattle.rt_handle.specs.declared.object.Object.{Object};

use crate::object::Object;
use crate::words::Words;
use std::alloc::Global;
use std::marker::Model;

/// The right to read the object of a handle, for one call. It takes no bytes: a caller in another language passes nothing
/// for it, and gets none back.
///
/// Clauses read the object as `held`. It stands at `at`, it is lent for the lifetime `life`, and the pass is the share
/// `share` of the right to have that lifetime last.
#[repr(C)]
pub struct Pass {
    alloc: Global,
    pub ghost at: { Ptr },
    pub ghost held: { Option Object } by { coded_held },
    pub ghost life: { ℕ },
    pub ghost share: { Share } by { coded_share },
}

impl Model for Pass {
    ghost also_owns = { λ p. pass_owns p.at p.held p.life p.share };
}

// Each thread reads by a pass of its own.
unsafe impl Send for Pass {}

/// A pass in use. The object is read through a reference to it.
pub struct Lease {
    alloc: Global,
    pub ghost at: { Ptr },
    pub ghost held: { Option Object } by { coded_held },
    pub ghost life: { ℕ },
    pub ghost share: { Share } by { coded_share },
}

impl Model for Lease {
    ghost also_owns = { λ l. pass_owns l.at l.held l.life l.share };

    ghost also_shares = { λ l _ κ. object_lent l.at l.held κ };
}

// The functions with a raw pointer, or that make a pass or a lease, each with a proof by hand.
impl Pass {
    ghost use Rattle.rt_handle.specs.Passes.{IsOpened};

    /// Takes the pass into use.
    pub fn open(self) -> Lease
        ensures { IsOpened self result }
    {
        let Pass { alloc } = self;
        Lease { alloc }
    }
}

impl Lease {
    ghost use Rattle.rt_handle.specs.Passes.{IsClosed};

    /// The pass, to be handed back.
    pub fn close(self) -> Pass
        ensures { IsClosed self result }
    {
        let Lease { alloc } = self;
        Pass { alloc }
    }

    fn object(&self, at: *const u8) -> &Object
        requires { (at ≡ self.now.at) × IsSome self.now.held }
        ensures { Some result.now ≡ self.now.held }
    {
        unsafe { &*(at as *const Object) }
    }
}

impl Lease {
    ghost use Rattle.rt_handle.specs.Passes.{IsOf};

    /// The object of the handle of which these are the words, or `None` of a closed one.
    pub fn peek(&self, words: &Words) -> Option<&Object>
        requires { IsOf self.now.at self.now.held words.now }
        ensures { option_map (λ object. object.now) result ≡ self.now.held }
    {
        if words.count == 0 {
            return None;
        }
        Some(self.object(words.at))
    }
}
