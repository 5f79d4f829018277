// A step of a seat for each operation on a word of its table, and the steps that leave what a pass keeps of itself.
ghost use Rattle.std.specs.Prelude.{◌≡◌, ◌<◌, ◌==◌, Some};
ghost use prog.Atomic.{either};
ghost use Rattle.fn_table.specs.Seen.{IsOf, May, Stepped, Stored, place};
ghost use Rattle.fn_table.specs.Funnel.{addition};
ghost use Rattle.fn_table.specs.Kept.{KeepsTally};
ghost use Rattle.fn_table.specs.Seats.{IsStep, IsHere};

use crate::pass::Pass;
use crate::rule::{Finds, Stores, Taken, Words};
use crate::seated::Seated;
use crate::table::FunnelTable;
use fn_core::Move;
use std::marker::Brand;

// The word of the pass's step.
#[inline(always)]
fn place_of(table: &FunnelTable, caller: &Seated, step: Move) -> usize
    requires together { IsOf table.now caller.now }
    requires may { May caller.now step }
    ensures exact { result ≡ place caller.now step }
    ensures inside { result < table.now.table.words }
{
    let _number = caller.number;
    caller.word_of(table.shape, step) as usize
}

// A load of a word, by which the seat's pass takes the step that T names.
#[inline(always)]
fn load_as<T: Taken>(words: &Words, pass: &mut Seated, word: usize, _step: Move) -> u64
    requires here { IsHere words.now.table_id word pass.old T.step }
    requires may { May pass.old T.step }
    requires step { IsStep pass.old T.step (λ n. n) }
    ensures { Stepped pass.old T.step result pass.new }
{
    words.load::<Finds<T>>(&mut pass.seat, word)
}

// .. an addition
#[inline(always)]
fn add_as<T: Taken>(words: &Words, pass: &mut Seated, word: usize, amount: u64, _step: Move) -> u64
    requires here { IsHere words.now.table_id word pass.old T.step }
    requires may { May pass.old T.step }
    requires step { addition T.step ≡ Some amount }
    ensures { Stepped pass.old T.step result pass.new }
{
    words.fetch_add::<Finds<T>>(&mut pass.seat, word, amount)
}

// .. a store
#[inline(always)]
fn store_as<T: Taken>(words: &Words, pass: &mut Seated, word: usize, new: u64, _step: Move)
    requires here { IsHere words.now.table_id word pass.old T.step }
    requires may { May pass.old T.step }
    requires step { IsStep pass.old T.step (λ _. new) }
    ensures { Stored pass.old T.step pass.new }
{
    words.store::<Stores<T>>(&mut pass.seat, word, new);
}

// .. a compare-exchange
#[inline(always)]
fn exchange_as<T: Taken>(
    words: &Words,
    pass: &mut Seated,
    word: usize,
    old: u64,
    new: u64,
    _step: Move,
) -> u64
    requires here { IsHere words.now.table_id word pass.old T.step }
    requires may { May pass.old T.step }
    requires step { IsStep pass.old T.step (λ n. either (n == old) new n) }
    ensures { Stepped pass.old T.step result pass.new }
{
    words.compare_exchange::<Finds<T>>(&mut pass.seat, word, old, new)
}

/// A load, by which the pass takes this step.
#[inline(always)]
pub fn load(table: &FunnelTable, caller: &mut Seated, step: Move) -> u64
    requires together { IsOf table.now caller.old }
    requires may { May caller.old step }
    requires step { IsStep caller.old step (λ n. n) }
    ensures { Stepped caller.old step result caller.new }
{
    let word = place_of(table, caller, step);
    load_as::<Brand>(&table.table.shared, caller, word, step)
}

/// An addition, by which the pass takes this step.
#[inline(always)]
pub fn add(table: &FunnelTable, caller: &mut Seated, amount: u64, step: Move) -> u64
    requires together { IsOf table.now caller.old }
    requires may { May caller.old step }
    requires step { addition step ≡ Some amount }
    ensures { Stepped caller.old step result caller.new }
{
    let word = place_of(table, caller, step);
    add_as::<Brand>(&table.table.shared, caller, word, amount, step)
}

/// A store, by which the pass takes this step.
#[inline(always)]
pub fn store(table: &FunnelTable, caller: &mut Seated, new: u64, step: Move)
    requires together { IsOf table.now caller.old }
    requires may { May caller.old step }
    requires step { IsStep caller.old step (λ _. new) }
    ensures { Stored caller.old step caller.new }
{
    let word = place_of(table, caller, step);
    store_as::<Brand>(&table.table.shared, caller, word, new, step);
}

/// A compare-exchange, by which the pass takes this step.
#[inline(always)]
pub fn exchange(table: &FunnelTable, caller: &mut Seated, old: u64, new: u64, step: Move) -> u64
    requires together { IsOf table.now caller.old }
    requires may { May caller.old step }
    requires step { IsStep caller.old step (λ n. either (n == old) new n) }
    ensures { Stepped caller.old step result caller.new }
{
    let word = place_of(table, caller, step);
    exchange_as::<Brand>(&table.table.shared, caller, word, old, new, step)
}

/// A load that leaves what the pass keeps of itself.
#[inline(always)]
pub fn quiet_load(table: &FunnelTable, pass: &mut Pass, step: Move) -> u64
    requires together { IsOf table.now pass.old }
    requires may { May pass.old step }
    requires quiet { KeepsTally step }
    requires step { IsStep pass.old step (λ n. n) }
    ensures { Stepped pass.old step result pass.new }
{
    load(table, &mut pass.caller, step)
}

/// .. an addition
#[inline(always)]
pub fn quiet_add(table: &FunnelTable, pass: &mut Pass, amount: u64, step: Move) -> u64
    requires together { IsOf table.now pass.old }
    requires may { May pass.old step }
    requires quiet { KeepsTally step }
    requires step { addition step ≡ Some amount }
    ensures { Stepped pass.old step result pass.new }
{
    add(table, &mut pass.caller, amount, step)
}

/// .. a store
#[inline(always)]
pub fn quiet_store(table: &FunnelTable, pass: &mut Pass, new: u64, step: Move)
    requires together { IsOf table.now pass.old }
    requires may { May pass.old step }
    requires quiet { KeepsTally step }
    requires step { IsStep pass.old step (λ _. new) }
    ensures { Stored pass.old step pass.new }
{
    store(table, &mut pass.caller, new, step);
}
