//! The steps on the main word.
ghost use Rattle.std.specs.Prelude.{◌≡◌, ◌≢◌, IfErr};
ghost use Rattle.fn_core.specs.declared.Move.TheVariants.{Apply, Load, Exchange, Direct};
ghost use Rattle.fn_core.specs.declared.Purpose.TheVariants as purpose;
ghost use Rattle.fn_table.specs.Seen.{IsOf, May, Stepped, own_of, HasLoaded, found_by};

use crate::pass::Pass;
use crate::steps;
use crate::steps::{add, quiet_add, quiet_load};
use crate::table::FunnelTable;
use fn_core::{Move, Purpose};
use fn_layout::Kind;
use fn_model::after_capped;

/// Adds the batch's weight to the main word.
#[inline(always)]
pub fn apply_batch(table: &FunnelTable, pass: &mut Pass, weight: u64) -> u64
    requires together { IsOf table.now pass.old }
    requires may { May pass.old (Apply weight) }
    ensures { Stepped pass.old (Apply weight) result pass.new }
{
    quiet_add(table, pass, weight, Move::Apply { weight })
}

/// Loads the main word, to try an exchange.
#[inline(always)]
pub fn load_try(table: &FunnelTable, pass: &mut Pass) -> u64
    requires together { IsOf table.now pass.old }
    requires may { May pass.old (Load purpose.Try) }
    ensures { Stepped pass.old (Load purpose.Try) result pass.new }
{
    let purpose = Purpose::Try;
    quiet_load(table, pass, Move::Load { purpose })
}

/// Loads the main word, which is a whole call.
pub fn load_read(table: &FunnelTable, pass: &mut Pass) -> u64
    requires together { IsOf table.now pass.old }
    requires may { May pass.old (Load purpose.Read) }
    ensures { Stepped pass.old (Load purpose.Read) result pass.new }
{
    let purpose = Purpose::Read;
    quiet_load(table, pass, Move::Load { purpose })
}

/// Exchanges the main word, where it is still the loaded one, for what the call or the batch makes of it. If it is another, gives that and stores nothing.
#[inline(always)]
pub fn exchange(
    table: &FunnelTable,
    pass: &mut Pass,
    kind: Kind,
    amount: u64,
    loaded: u64,
) -> Result<(), u64>
    requires together { IsOf table.now pass.old }
    requires may { May pass.old (Exchange kind amount) }
    requires loaded { HasLoaded loaded (own_of pass.old).caller.position }
    ensures step { Stepped pass.old (Exchange kind amount) (found_by loaded result) pass.new }
    ensures lost { IfErr result (λ found. found ≢ loaded) }
{
    let new = after_capped(table.cap, loaded, kind, amount);
    let spent = pass.tally.spent_by_exchange(amount);
    let step = Move::Exchange { kind, amount };
    let found = steps::exchange(table, &mut pass.caller, loaded, new, step);
    if found != loaded {
        return Err(found);
    }
    pass.tally.left -= spent;
    Ok(())
}

/// Adds to the main word, which is a whole call.
pub fn direct(table: &FunnelTable, pass: &mut Pass, amount: u64) -> u64
    requires together { IsOf table.now pass.old }
    requires may { May pass.old (Direct amount) }
    ensures { Stepped pass.old (Direct amount) result pass.new }
{
    let found = add(table, &mut pass.caller, amount, Move::Direct { amount });
    pass.tally.left -= amount;
    found
}
