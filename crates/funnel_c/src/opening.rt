//! A funnel opens into slots.
ghost use Rattle.std.specs.Prelude.{◌≡◌, ◌≢◌, ◌⊎◌, ◌↔◌, None, Some, IsSome, IsTrue, IsFalse, IfOk, IfErr, map, length, box_value};
ghost use Rattle.fn_callers.specs.Opening.{AreCallers, open_fault};
ghost use Rattle.funnel_c.specs.declared.statuses.TheConstants.{OK, NO_MEMORY, REFUSED};
ghost use Rattle.funnel_c.specs.Slots.{callers_in};
ghost use Rattle.funnel_c.specs.Opening.{HasCaller, AreEmpty, IsRefused, HasOpened, fault_status};

use crate::slots::Slot;
use crate::statuses::{NO_MEMORY, OK, REFUSED};
use fn_callers::{Caller, OpenFault, open};
use std::alloc::{AllocError, Global};

// Whether a slot has a caller already.
fn has_caller(slots: &[Slot]) -> bool
    ensures some { IsTrue result → HasCaller slots.now }
    ensures none { IsFalse result → AreEmpty slots.now }
{
    for slot in slots {
        if slot.is_full() {
            return true;
        }
    }
    false
}

// The callers, each on the heap.
fn on_heap(alloc: Global, callers: Vec<Caller>) -> Result<Vec<Box<Caller, Global>>, AllocError>
    ensures { IfOk result (λ boxes. map box_value boxes.items ≡ callers.items) }
{
    let mut boxes = Vec::with_capacity(alloc, callers.len())?;
    for caller in callers {
        let Ok(one) = Box::new(alloc, caller) else {
            return Err(AllocError);
        };
        boxes.push(one)?;
    }
    Ok(boxes)
}

// The status of a fault.
fn status_for(fault: OpenFault) -> u32
    ensures { result ≡ fault_status fault }
{
    match fault {
        OpenFault::Table(fn_core::OpenFault::NoMemory) => NO_MEMORY,
        _ => REFUSED,
    }
}

// The callers of a new funnel, each on the heap, or the status why there are none.
fn new_callers(
    alloc: Global,
    opening: u64,
    cap: u64,
    allowances: &[u64],
) -> Result<Vec<Box<Caller, Global>>, u32>
    ensures callers { IfOk result (λ boxes. AreCallers opening cap allowances.now (map box_value boxes.items)) }
    ensures sound { IfOk result (λ _. open_fault opening cap allowances.now ≡ None) }
    ensures faults { IfErr result (λ status. ((status ≡ REFUSED) × IsSome (open_fault opening cap allowances.now)) ⊎ ((status ≡ NO_MEMORY) × (open_fault opening cap allowances.now ≡ None))) }
{
    let callers = match open(alloc, opening, cap, allowances) {
        Ok(callers) => callers,
        Err(fault) => return Err(status_for(fault)),
    };
    match on_heap(alloc, callers) {
        Ok(boxes) => Ok(boxes),
        Err(AllocError) => Err(NO_MEMORY),
    }
}

// Puts the callers into the slots, in order.
fn fill(slots: &mut [Slot], callers: Vec<Box<Caller, Global>>)
    requires { length slots.old ≡ length callers.items }
    ensures { callers_in slots.new ≡ map Some (map box_value callers.items) }
{
    let mut left = callers.into_iter();
    for (at, slot) in slots.iter_mut().enumerate() {
        let Some(one) = left.next() else {
            unreachable!();
        };
        *slot = Slot::of(one);
    }
}

/// Opens a funnel with a caller for each slot, all of which are empty.
pub fn open_into(
    slots: &mut [Slot],
    alloc: Global,
    opening: u64,
    cap: u64,
    allowances: &[u64],
) -> u32
    ensures told { (result ≡ OK) ⊎ (result ≡ NO_MEMORY) ⊎ (result ≡ REFUSED) }
    ensures refused { (result ≡ REFUSED) ↔ IsRefused opening cap allowances.now slots.old }
    ensures opened { result ≡ OK → AreEmpty slots.old × HasOpened opening cap allowances.now (callers_in slots.new) }
    ensures as_before { result ≢ OK → callers_in slots.new ≡ callers_in slots.old }
{
    if has_caller(slots) || allowances.len() != slots.len() {
        return REFUSED;
    }
    match new_callers(alloc, opening, cap, allowances) {
        Ok(callers) => {
            fill(slots, callers);
            OK
        }
        Err(status) => status,
    }
}
