//! A handle, and the object in it.

ghost use Rattle.std.specs.Prelude.{◌≡◌, Option, Some, None, IsSome, option_map};
ghost use Rattle.rt_handle.specs.Owned.{handle_owns, coded_held, count_of};
ghost use Rattle.rt_handle.specs.declared.object.Object.{Object};

use crate::loose::Loose;
use crate::object::Object;
use std::alloc::Global;
use std::marker::Model;
use std::mem::{ManuallyDrop, replace};
use std::ptr::null_mut;

/// Holds an object or nothing. All zeros hold nothing: the handle is closed.
///
/// A caller in another language keeps the two words as a call left them, in one place: a copy must not be used beside
/// the first. Clauses read the object as `held`.
#[repr(C)]
pub struct Handle {
    // An export takes no pointer to what holds a cell or a list, so this one points to bytes.
    at: *mut u8,
    count: u64,
    alloc: Global,
    pub ghost held: { Option Object } by { coded_held },
}

impl Model for Handle {
    ghost also_owns = { λ h. handle_owns h.alloc h.at h.count h.held };
}

// Between two calls a handle may go to another thread, as its object may.
unsafe impl Send for Handle {}

// The functions with a raw pointer, each with a proof by hand.
impl Handle {
    fn closed(alloc: Global) -> Handle
        ensures { result.held ≡ None }
    {
        Handle {
            at: null_mut(),
            count: 0,
            alloc,
        }
    }

    fn of(loose: Loose<Object, Global>) -> Handle
        ensures { result.held ≡ Some loose.value }
    {
        let Loose { at, alloc } = loose;
        Handle {
            at: at as *mut u8,
            count: 1,
            alloc,
        }
    }

    fn into_loose(self) -> Loose<Object, Global>
        requires { IsSome self.held }
        ensures { Some result.value ≡ self.held }
    {
        let Handle {
            at,
            count: _,
            alloc,
        } = self;
        Loose {
            at: at as *mut Object,
            alloc,
        }
    }

    // By value, since a read through a reference would need a proof that the memory can be shared.
    fn with_count(self) -> (u64, Handle)
        ensures { (result.0 ≡ count_of self.held) × (result.1 ≡ self) }
    {
        let Handle { at, count, alloc } = self;
        (count, Handle { at, count, alloc })
    }
}

impl Handle {
    /// Takes the object out. The handle is closed then.
    pub fn take(&mut self, alloc: Global) -> Option<Box<Object>>
        ensures object { option_map (λ object. object.value) result ≡ self.old.held }
        ensures closed { self.new.held ≡ None }
    {
        let (count, handle) = replace(self, Handle::closed(alloc)).with_count();
        if count == 0 {
            handle.forget();
            return None;
        }
        Some(handle.into_loose().into_box())
    }

    /// Puts an object into a closed handle.
    pub fn put(&mut self, object: Box<Object>)
        requires { self.old.held ≡ None }
        ensures { self.new.held ≡ Some object.value }
    {
        replace(self, Handle::of(Loose::of(object))).forget();
    }

    // A closed handle owns nothing, and an object's memory is not to be freed here.
    fn forget(self)
        requires { self.held ≡ None }
    {
        let _lost = unsafe { ManuallyDrop::new_unchecked(self) };
    }
}
