//! A funnel opens with its callers.
ghost use Rattle.std.specs.Prelude.{◌≡◌, All, IfOk, MatchResult, None, map};
ghost use Rattle.std.specs.Arc.{arc_value};
ghost use Rattle.fn_table.specs.Seen.{IsOf};
ghost use Rattle.fn_table.specs.Claims.{Rests};
ghost use Rattle.fn_callers.specs.Callers.{at_rest};
ghost use Rattle.fn_callers.specs.Opening.{AreCallers, open_fault, TellsFault};

use crate::caller::{Caller, SharedTable};
use fn_layout::shape_for;
use fn_model::NO_CAP;
use fn_table::{FunnelTable, Pass};
use std::alloc::{AllocError, Global};
use std::sync::Arc;

/// Why no funnel was opened.
#[derive(Clone, Copy, Debug, PartialEq, Eq)]
pub enum OpenFault {
    /// not 1 to 64 callers
    Count(usize),
    /// a cap above `NO_CAP`
    CapTooLarge(u64),
    /// The opening and all allowances are too much, the opening is above the cap, or there is no memory.
    Table(fn_core::OpenFault),
}

// A caller for each pass.
fn all_callers(
    alloc: Global,
    table: SharedTable,
    passes: Vec<Pass>,
) -> Result<Vec<Caller>, AllocError>
    requires together { All (IsOf (arc_value table)) passes.items }
    requires rests { All Rests passes.items }
    ensures { IfOk result (λ all. all.items ≡ map (at_rest (arc_value table)) passes.items) }
{
    let mut all = Vec::with_capacity(alloc, passes.len())?;
    for pass in passes {
        let share = Arc::try_clone(&table)?;
        all.push(Caller::new(share, pass))?;
    }
    Ok(all)
}

/// Opens a funnel with a caller for each allowance, at which additions stop at the cap.
pub fn open(
    alloc: Global,
    opening: u64,
    cap: u64,
    allowances: &[u64],
) -> Result<Vec<Caller>, OpenFault>
    ensures callers { IfOk result (λ callers. AreCallers opening cap allowances.now callers.items) }
    ensures faults { MatchResult result (λ _. open_fault opening cap allowances.now ≡ None) (TellsFault (open_fault opening cap allowances.now)) }
{
    let count = allowances.len();
    if count < 1 || count > 64 {
        return Err(OpenFault::Count(count));
    }
    if cap > NO_CAP {
        return Err(OpenFault::CapTooLarge(cap));
    }
    let shape = shape_for(count as u32);
    let (table, passes) = match FunnelTable::open_capped(alloc, shape, opening, cap, allowances) {
        Ok(opened) => opened,
        Err(fault) => return Err(OpenFault::Table(fault)),
    };
    match share(alloc, table, passes) {
        Ok(callers) => Ok(callers),
        Err(AllocError) => Err(OpenFault::Table(fn_core::OpenFault::NoMemory)),
    }
}

// A share of the table for each pass.
fn share(alloc: Global, table: FunnelTable, passes: Vec<Pass>) -> Result<Vec<Caller>, AllocError>
    requires together { All (IsOf table) passes.items }
    requires rests { All Rests passes.items }
    ensures { IfOk result (λ all. all.items ≡ map (at_rest table) passes.items) }
{
    let table = Arc::new(alloc, table)?;
    all_callers(alloc, table, passes)
}
