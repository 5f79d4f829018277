//! A box as a pointer that C can keep.
ghost use Rattle.std.specs.Prelude.{◌≡◌, None, Some, Option, IsSome};
ghost use Rattle.fn_callers.specs.Callers.{CallerView};

use crate::loose::Loose;
use fn_callers::Caller;
use std::alloc::Global;
use std::marker::Model;
use std::ptr;

/// A pointer to a caller on the heap, or to nothing.
#[repr(C)]
#[derive(Drop)]
pub struct Held {
    at: *mut u8,
    pub ghost value: { Option CallerView },
}

impl Model for Held {
    ghost use Rattle.fn_callers.specs.contracts.caller.Caller.{the_row};
    ghost use Rattle.funnel_c.specs.Held.{owns_held};

    ghost also_owns = { λ h. owns_held the_row h.at h.value };
}

// What it points to is its own.
unsafe impl Send for Held {}

impl Held {
    /// It points to nothing.
    pub fn none() -> Held
        ensures { result.value ≡ None }
    {
        Held {
            at: ptr::null_mut(),
        }
    }

    pub fn of(loose: Loose<Caller>) -> Held
        ensures { result.value ≡ Some loose.value }
    {
        let Loose { at } = loose;
        Held { at: at as *mut u8 }
    }

    pub fn into_box(self, alloc: Global) -> Box<Caller, Global>
        requires { IsSome self.value }
        ensures { self.value ≡ Some result.value }
    {
        let Held { at } = self;
        unsafe { Box::from_raw(alloc, at as *mut Caller) }
    }
}
