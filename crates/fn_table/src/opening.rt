//! A table opens.
ghost use Rattle.std.specs.Prelude.{◌≡◌, ◌<◌, ◌≤◌, ◌-◌, ◌+◌, ◌^◌, length, sum, IfOk, MatchResult, None, replicate, slice_set};
ghost use Rattle.fn_model.specs.declared.TheConstants.{NO_CAP};
ghost use Rattle.fn_layout.specs.Words.{words};
ghost use Rattle.fn_core.specs.Calls.{newly_opened, open_fault, TellsFault};
ghost use Rattle.fn_table.specs.Seen.{fresh_passes, AreOpened};
ghost use Rattle.fn_table.specs.Seats.{IsDealer};

use crate::dealing::{deal, glance};
use crate::pass::Pass;
use crate::rule::{Place, Words};
use crate::seated::Seated;
use crate::spots::all_spots;
use crate::table::FunnelTable;
use crate::tally::untouched;
use atomic_table::Table;
use fn_core::{Allowances, NoMemory, OpenFault, Start};
use fn_layout::Shape;
use fn_model::NO_CAP;
use std::alloc::Global;

// The least total of an opening and its allowances that is too much.
const TOO_MUCH: u128 = 9223372036854775808;

// The opening and all allowances.
fn total(opening: u64, allowances: &[u64]) -> u128
    requires { length allowances.now ≤ 64 }
    ensures { result ≡ opening + sum allowances.now }
{
    let mut total = u128::from(opening);
    for allowance in allowances {
        total += u128::from(*allowance);
    }
    total
}

// The words before the first step: the opening in main, and 0 in all others.
fn first_words(alloc: Global, shape: Shape, opening: u64) -> Result<Vec<u64>, NoMemory>
    ensures { IfOk result (λ all. all.items ≡ slice_set (replicate (words shape) 0) 0 opening) }
{
    let mut all = vec![in alloc; 0; shape.words() as usize]?;
    all[0] = opening;
    Ok(all)
}

// The Glances of the first pass, one for each other pass.
fn glance_all(words: &Words, seat: &mut Place, count: u32)
    requires words { 0 < words.now.table_id.words }
    requires dealer { IsDealer words.now.table_id seat.old.me.0.start 1 0 seat.old }
    requires count { count ≡ seat.old.me.0.start.shape.passes }
    requires some { 0 < count }
    ensures { IsDealer words.now.table_id seat.old.me.0.start 1 (count - 1) seat.new }
{
    for taken in 1..count {
        glance(words, seat, taken - 1);
    }
}

// All passes, by number.
fn all_passes(
    alloc: Global,
    words: &Words,
    mut seat: Place,
    shape: Shape,
    allowances: &[u64],
) -> Result<Vec<Pass>, NoMemory>
    requires words { 0 < words.now.table_id.words }
    requires dealer { IsDealer words.now.table_id seat.me.0.start 1 0 seat }
    requires shape { shape ≡ seat.me.0.start.shape }
    requires allowances { allowances.now ≡ seat.me.0.start.allowances }
    requires one_each { length allowances.now ≡ shape.passes }
    ensures { IfOk result (λ all. all.items ≡ fresh_passes (record { table = words.now.table_id; start = seat.me.0.start })) }
{
    glance_all(words, &mut seat, shape.passes());
    let mut all = Vec::new(alloc);
    for number in 1..shape.passes() {
        let tally = untouched(alloc, shape, allowances[number as usize])?;
        let caller = deal(words, &mut seat, shape, number);
        all.push(Pass { caller, tally })?;
    }
    let tally = untouched(alloc, shape, allowances[0])?;
    let caller = Seated {
        seat,
        number: 0,
        spots: all_spots(shape, 0),
    };
    all.insert(0, Pass { caller, tally })?;
    Ok(all)
}

// A table that may be opened, and its passes.
fn opened(
    alloc: Global,
    shape: Shape,
    opening: u64,
    cap: u64,
    allowances: &[u64],
) -> Result<(FunnelTable, Vec<Pass>), NoMemory>
    requires one_each { length allowances.now ≡ shape.passes }
    requires cap_below_limit { cap ≤ NO_CAP }
    requires opening_below_cap { opening ≤ cap }
    requires total_below_limit { opening + sum allowances.now < 2 ^ 63 }
    ensures table { IfOk result (λ r. r.0.start ≡ (newly_opened shape opening cap allowances.now).start) }
    ensures passes { IfOk result (λ r. AreOpened r.0 r.1.items) }
{
    let items = Vec::from_slice(alloc, allowances)?;
    let start = Start {
        shape,
        opening,
        cap,
        allowances: Allowances { items },
    };
    let words = first_words(alloc, shape, opening)?;
    let (table, seat) = Table::of_words(alloc, &words, &start)?;
    let passes = all_passes(alloc, &table.shared, seat, shape, allowances)?;
    let table = FunnelTable {
        table,
        shape,
        opening,
        cap,
    };
    Ok((table, passes))
}

impl FunnelTable {
    /// A table at which no addition stops, with its passes in order of number. Each is idle, with its whole allowance.
    pub fn open(
        alloc: Global,
        shape: Shape,
        opening: u64,
        allowances: &[u64],
    ) -> Result<(FunnelTable, Vec<Pass>), OpenFault>
        requires { length allowances.now ≡ shape.passes }
        ensures table { IfOk result (λ r. r.0.start ≡ (newly_opened shape opening NO_CAP allowances.now).start) }
        ensures passes { IfOk result (λ r. AreOpened r.0 r.1.items) }
        ensures faults { MatchResult result (λ _. open_fault opening NO_CAP allowances.now ≡ None) (TellsFault (open_fault opening NO_CAP allowances.now)) }
    {
        FunnelTable::open_capped(alloc, shape, opening, NO_CAP, allowances)
    }

    /// A table whose additions stop at `cap`.
    pub fn open_capped(
        alloc: Global,
        shape: Shape,
        opening: u64,
        cap: u64,
        allowances: &[u64],
    ) -> Result<(FunnelTable, Vec<Pass>), OpenFault>
        requires one_each { length allowances.now ≡ shape.passes }
        requires cap_below_limit { cap ≤ NO_CAP }
        ensures table { IfOk result (λ r. r.0.start ≡ (newly_opened shape opening cap allowances.now).start) }
        ensures passes { IfOk result (λ r. AreOpened r.0 r.1.items) }
        ensures faults { MatchResult result (λ _. open_fault opening cap allowances.now ≡ None) (TellsFault (open_fault opening cap allowances.now)) }
    {
        let total = total(opening, allowances);
        if total >= TOO_MUCH {
            return Err(OpenFault::TooMuch { opening, total });
        }
        if opening > cap {
            return Err(OpenFault::AboveCap { opening, cap });
        }
        Ok(opened(alloc, shape, opening, cap, allowances)?)
    }
}
