//! Funnels for programs in C and Rust. Each thread has a caller of its own, in a slot that it owns.
#![tactic(auto)]

pub mod held;
pub mod loose;
mod opening;
pub mod slots;
mod statuses;

ghost use Rattle.std.specs.Prelude.{◌≡◌, ◌≢◌, ◌⊎◌, ◌↔◌, None, IsSomeAnd};
ghost use Rattle.fn_model.specs.declared.Kind.TheVariants.{Add, Sub, Read};
ghost use Rattle.fn_table.specs.Claims.{left, Made, MadeNone};
ghost use Rattle.fn_callers.specs.Callers.{IsFree, HasCall};
ghost use Rattle.fn_callers.specs.Told.{IsSpent, HasBegun, StillWaits, HasMade};
ghost use Rattle.funnel_c.specs.declared.statuses.TheConstants.{OK, NOT_YET, NO_ROW, LOST, EMPTY, UNDERWAY, IDLE, SPENT, NO_MEMORY, REFUSED};
ghost use Rattle.funnel_c.specs.Slots.{caller_in, callers_in, InBoth, Keeps};
ghost use Rattle.funnel_c.specs.Opening.{AreEmpty, IsRefused, HasOpened};
ghost use Rattle.funnel_c.specs.Told.{Loads, Changes, Begins, Polls, CallTold, BeginningTold, kind_of};

use fn_callers::{Caller, Reason};
use opening::open_into;
use slots::Slot;
use statuses::{EMPTY, OK, UNDERWAY, tell, tell_begun};
use std::alloc::Global;
use std::mem;

/// Opens a funnel with a caller for each slot, each of which may add and take as much as its allowance.
#[unsafe(no_mangle)]
pub extern "C" fn wq_open(
    slots: &mut [Slot],
    alloc: Global,
    opening: u64,
    cap: u64,
    allowances: &[u64],
) -> u32
    ensures told { (result ≡ OK) ⊎ (result ≡ NO_MEMORY) ⊎ (result ≡ REFUSED) }
    ensures refused { (result ≡ REFUSED) ↔ IsRefused opening cap allowances.now slots.old }
    ensures opened { result ≡ OK → AreEmpty slots.old × HasOpened opening cap allowances.now (callers_in slots.new) }
    ensures as_before { result ≢ OK → callers_in slots.new ≡ callers_in slots.old }
{
    open_into(slots, alloc, opening, cap, allowances)
}

/// The integer, as a call of its own.
#[unsafe(no_mangle)]
pub extern "C" fn wq_load(slot: &mut Slot, alloc: Global, value: &mut u64) -> u32
    ensures told { CallTold Loads (caller_in slot.old) result value.old value.new (caller_in slot.new) }
    ensures empty { (result ≡ EMPTY) ↔ (caller_in slot.old ≡ None) }
    ensures underway { (result ≡ UNDERWAY) ↔ IsSomeAnd (caller_in slot.old) HasCall }
    ensures made { result ≡ OK → InBoth (λ old new. Made old.pass Read 0 value.new new.pass) (caller_in slot.old) (caller_in slot.new) }
    ensures as_before { result ≢ OK → (caller_in slot.new ≡ caller_in slot.old) × (value.new ≡ value.old) }
    ensures kept { Keeps (caller_in slot.old) (caller_in slot.new) }
{
    let Some(mut caller) = mem::replace(slot, Slot::none()).into_box(alloc) else {
        return EMPTY;
    };
    let answer = caller.load();
    *slot = Slot::of(caller);
    tell(answer, value)
}

/// Adds past the aggregators, up to the cap, and gives the integer before.
#[unsafe(no_mangle)]
pub extern "C" fn wq_add(slot: &mut Slot, alloc: Global, amount: u64, before: &mut u64) -> u32
    ensures told { CallTold (Changes Add amount) (caller_in slot.old) result before.old before.new (caller_in slot.new) }
    ensures empty { (result ≡ EMPTY) ↔ (caller_in slot.old ≡ None) }
    ensures underway { (result ≡ UNDERWAY) ↔ IsSomeAnd (caller_in slot.old) HasCall }
    ensures spent { (result ≡ SPENT) ↔ IsSomeAnd (caller_in slot.old) (λ c. IsFree c × IsSpent c amount) }
    ensures made { result ≡ OK → InBoth (λ old new. Made old.pass Add amount before.new new.pass) (caller_in slot.old) (caller_in slot.new) }
    ensures lost { result ≡ LOST → InBoth (λ old new. MadeNone old.pass new.pass) (caller_in slot.old) (caller_in slot.new) }
    ensures as_before { result ≢ OK → result ≢ LOST → caller_in slot.new ≡ caller_in slot.old }
    ensures unwritten { result ≢ OK → before.new ≡ before.old }
    ensures kept { Keeps (caller_in slot.old) (caller_in slot.new) }
{
    let Some(mut caller) = mem::replace(slot, Slot::none()).into_box(alloc) else {
        return EMPTY;
    };
    let answer = caller.add(amount);
    *slot = Slot::of(caller);
    tell(answer, before)
}

/// Subtracts past the aggregators, down to zero, and gives the integer before.
#[unsafe(no_mangle)]
pub extern "C" fn wq_sub(slot: &mut Slot, alloc: Global, amount: u64, before: &mut u64) -> u32
    ensures told { CallTold (Changes Sub amount) (caller_in slot.old) result before.old before.new (caller_in slot.new) }
    ensures empty { (result ≡ EMPTY) ↔ (caller_in slot.old ≡ None) }
    ensures underway { (result ≡ UNDERWAY) ↔ IsSomeAnd (caller_in slot.old) HasCall }
    ensures spent { (result ≡ SPENT) ↔ IsSomeAnd (caller_in slot.old) (λ c. IsFree c × IsSpent c amount) }
    ensures made { result ≡ OK → InBoth (λ old new. Made old.pass Sub amount before.new new.pass) (caller_in slot.old) (caller_in slot.new) }
    ensures lost { result ≡ LOST → InBoth (λ old new. MadeNone old.pass new.pass) (caller_in slot.old) (caller_in slot.new) }
    ensures as_before { result ≢ OK → result ≢ LOST → caller_in slot.new ≡ caller_in slot.old }
    ensures unwritten { result ≢ OK → before.new ≡ before.old }
    ensures kept { Keeps (caller_in slot.old) (caller_in slot.new) }
{
    let Some(mut caller) = mem::replace(slot, Slot::none()).into_box(alloc) else {
        return EMPTY;
    };
    let answer = caller.subtract(amount);
    *slot = Slot::of(caller);
    tell(answer, before)
}

// Begins a call of this kind.
fn begin(caller: &mut Caller, subtracts: bool, amount: u64) -> Result<(), Reason>
    ensures { Begins (kind_of subtracts) amount caller.old result caller.new }
{
    if subtracts {
        return caller.begin_to_subtract(amount);
    }
    caller.begin_to_add(amount)
}

/// Begins a call through the aggregators: an addition, or a subtraction where this is so.
#[unsafe(no_mangle)]
pub extern "C" fn wq_begin(slot: &mut Slot, alloc: Global, subtracts: bool, amount: u64) -> u32
    ensures told { BeginningTold (Begins (kind_of subtracts) amount) (caller_in slot.old) result (caller_in slot.new) }
    ensures empty { (result ≡ EMPTY) ↔ (caller_in slot.old ≡ None) }
    ensures underway { (result ≡ UNDERWAY) ↔ IsSomeAnd (caller_in slot.old) HasCall }
    ensures spent { (result ≡ SPENT) ↔ IsSomeAnd (caller_in slot.old) (λ c. IsFree c × IsSpent c amount) }
    ensures begun { result ≡ NOT_YET → InBoth (λ old new. HasBegun old (kind_of subtracts) amount new) (caller_in slot.old) (caller_in slot.new) }
    ensures no_row { result ≡ NO_ROW → InBoth (λ old new. IsFree new × MadeNone old.pass new.pass) (caller_in slot.old) (caller_in slot.new) }
    ensures as_before { result ≢ NOT_YET → result ≢ NO_ROW → caller_in slot.new ≡ caller_in slot.old }
    ensures kept { Keeps (caller_in slot.old) (caller_in slot.new) }
{
    let Some(mut caller) = mem::replace(slot, Slot::none()).into_box(alloc) else {
        return EMPTY;
    };
    let answer = begin(&mut *caller, subtracts, amount);
    *slot = Slot::of(caller);
    tell_begun(answer)
}

/// Takes steps of the call up to the first that ends it or tells it to wait.
#[unsafe(no_mangle)]
pub extern "C" fn wq_poll(slot: &mut Slot, alloc: Global, before: &mut u64) -> u32
    ensures told { CallTold Polls (caller_in slot.old) result before.old before.new (caller_in slot.new) }
    ensures empty { (result ≡ EMPTY) ↔ (caller_in slot.old ≡ None) }
    ensures idle { (result ≡ IDLE) ↔ IsSomeAnd (caller_in slot.old) IsFree }
    ensures made { result ≡ OK → InBoth (λ old new. HasMade old before.new new) (caller_in slot.old) (caller_in slot.new) }
    ensures waits { result ≡ NOT_YET → InBoth StillWaits (caller_in slot.old) (caller_in slot.new) }
    ensures as_before { result ≢ OK → result ≢ NOT_YET → caller_in slot.new ≡ caller_in slot.old }
    ensures unwritten { result ≢ OK → before.new ≡ before.old }
    ensures kept { Keeps (caller_in slot.old) (caller_in slot.new) }
{
    let Some(mut caller) = mem::replace(slot, Slot::none()).into_box(alloc) else {
        return EMPTY;
    };
    let answer = caller.poll();
    *slot = Slot::of(caller);
    tell(answer, before)
}

/// What the caller may still add and take.
#[unsafe(no_mangle)]
pub extern "C" fn wq_left(slot: &mut Slot, alloc: Global, rest: &mut u64) -> u32
    ensures told { (result ≡ OK) ↔ IsSomeAnd (caller_in slot.old) IsFree }
    ensures empty { (result ≡ EMPTY) ↔ (caller_in slot.old ≡ None) }
    ensures underway { (result ≡ UNDERWAY) ↔ IsSomeAnd (caller_in slot.old) HasCall }
    ensures rest { result ≡ OK → IsSomeAnd (caller_in slot.old) (λ c. rest.new ≡ left c.pass) }
    ensures as_before { caller_in slot.new ≡ caller_in slot.old }
    ensures unwritten { result ≢ OK → rest.new ≡ rest.old }
{
    let Some(caller) = mem::replace(slot, Slot::none()).into_box(alloc) else {
        return EMPTY;
    };
    let answer = caller.left();
    *slot = Slot::of(caller);
    tell(answer, rest)
}

/// Lets a caller go that has no call underway. The last one of a funnel frees it.
#[unsafe(no_mangle)]
pub extern "C" fn wq_close(slot: &mut Slot, alloc: Global) -> u32
    ensures told { (result ≡ OK) ↔ IsSomeAnd (caller_in slot.old) IsFree }
    ensures empty { (result ≡ EMPTY) ↔ (caller_in slot.old ≡ None) }
    ensures underway { (result ≡ UNDERWAY) ↔ IsSomeAnd (caller_in slot.old) HasCall }
    ensures closed { result ≡ OK → caller_in slot.new ≡ None }
    ensures as_before { result ≢ OK → caller_in slot.new ≡ caller_in slot.old }
{
    let Some(caller) = mem::replace(slot, Slot::none()).into_box(alloc) else {
        return EMPTY;
    };
    if caller.is_underway() {
        *slot = Slot::of(caller);
        return UNDERWAY;
    }
    drop(caller);
    OK
}
