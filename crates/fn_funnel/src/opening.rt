//! A funnel opens and closes.
ghost use Rattle.std.specs.Prelude.{◌≡◌, ◌≤◌, ℕ, All, IfOk, MatchResult, None, Some, length, slice_get};
ghost use Rattle.fn_model.specs.declared.TheConstants.{NO_CAP};
ghost use Rattle.fn_model.specs.Calls.{own};
ghost use Rattle.fn_core.specs.Calls.{IsIdle, calls_in, newly_opened, open_fault, TellsFault};
ghost use Rattle.fn_table.specs.Seen.{PassView, IsOf, AreAll, AreOpened, IsClosed};

use fn_core::OpenFault;
use fn_layout::Shape;
use fn_table::{Book, FunnelTable, Pass};
use std::alloc::Global;
use std::marker::Model;

/// A shared natural number on which many callers add and subtract. Contracts see it as its table.
#[derive(Drop)]
pub struct Funnel {
    table: FunnelTable,
}

impl Model for Funnel {
    ghost use Rattle.fn_table.specs.Seen.{TableView};

    ghost Value = { TableView };

    ghost view = { λ f. f.table };
}

impl Funnel {
    /// A funnel at which no addition stops, with its passes in order of number. Each is idle, with its whole allowance.
    pub fn open(
        alloc: Global,
        shape: Shape,
        opening: u64,
        allowances: &[u64],
    ) -> Result<(Funnel, Vec<Pass>), OpenFault>
        requires { length allowances.now ≡ shape.passes }
        ensures funnel { IfOk result (λ r. r.0.start ≡ (newly_opened shape opening NO_CAP allowances.now).start) }
        ensures passes { IfOk result (λ r. AreOpened r.0 r.1.items) }
        ensures faults { MatchResult result (λ _. open_fault opening NO_CAP allowances.now ≡ None) (TellsFault (open_fault opening NO_CAP allowances.now)) }
    {
        let (table, passes) = FunnelTable::open(alloc, shape, opening, allowances)?;
        Ok((Funnel { table }, passes))
    }

    /// A funnel whose additions stop at `cap`.
    pub fn open_capped(
        alloc: Global,
        shape: Shape,
        opening: u64,
        cap: u64,
        allowances: &[u64],
    ) -> Result<(Funnel, Vec<Pass>), OpenFault>
        requires one_each { length allowances.now ≡ shape.passes }
        requires cap_below_limit { cap ≤ NO_CAP }
        ensures funnel { IfOk result (λ r. r.0.start ≡ (newly_opened shape opening cap allowances.now).start) }
        ensures passes { IfOk result (λ r. AreOpened r.0 r.1.items) }
        ensures faults { MatchResult result (λ _. open_fault opening cap allowances.now ≡ None) (TellsFault (open_fault opening cap allowances.now)) }
    {
        let (table, passes) = FunnelTable::open_capped(alloc, shape, opening, cap, allowances)?;
        Ok((Funnel { table }, passes))
    }

    /// The funnel's table, for calls that neither wait nor go through it.
    pub fn table(&self) -> &FunnelTable
        ensures { result.now ≡ self.now }
    {
        &self.table
    }

    /// The number at which additions stop.
    pub fn cap(&self) -> u64
        ensures { result ≡ self.now.start.cap }
    {
        self.table.cap()
    }

    /// Ends the funnel, given all its passes, in order of number, each idle.
    pub fn close(self, passes: Vec<Pass>) -> Book
        requires together { All (λ p. IsOf self p) passes.items }
        requires all { AreAll self passes.items }
        requires idle { All (λ p. IsIdle p.seen p.number) passes.items }
        ensures start { result.start ≡ self.start }
        ensures passes { IsClosed passes.items result }
        ensures calls { (k : ℕ) (p : PassView) → slice_get passes.items k ≡ Some p → own p.number (calls_in result) ≡ own p.number (calls_in p.seen) }
    {
        self.table.close(passes)
    }
}
