//! What C keeps of a caller.
ghost use Rattle.std.specs.Prelude.{◌≡◌, None, Some, MatchOption, is_some};

use crate::held::Held;
use crate::loose::Loose;
use fn_callers::Caller;
use std::alloc::Global;

/// A caller, or nothing. C sees two words, both 0 where there is none, and changes neither.
#[repr(C)]
#[derive(Drop)]
pub struct Slot {
    full: bool,
    pub held: Held,
    ghost told: { full ≡ is_some held.value },
}

impl Slot {
    pub fn none() -> Slot
        ensures { result.held.value ≡ None }
    {
        Slot {
            full: false,
            held: Held::none(),
        }
    }

    pub fn of(value: Box<Caller, Global>) -> Slot
        ensures { result.held.value ≡ Some value.value }
    {
        Slot {
            full: true,
            held: Held::of(Loose::of(value)),
        }
    }

    pub fn is_full(&self) -> bool
        ensures { result ≡ is_some self.now.held.value }
    {
        self.full
    }

    pub fn into_box(self, alloc: Global) -> Option<Box<Caller, Global>>
        ensures { MatchOption result (self.held.value ≡ None) (λ b. self.held.value ≡ Some b.value) }
    {
        let Slot { full, held } = self;
        if full {
            Some(held.into_box(alloc))
        } else {
            None
        }
    }
}

// Slots may go from one thread to another.
fn goes<T: Send>() {}

pub fn slots_go() {
    goes::<Slot>();
}
