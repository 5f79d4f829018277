//! Calls of a pass through the aggregators, from their beginning to their reply.
ghost use Rattle.std.specs.Prelude.{◌≡◌, ◌≤◌, IfErr, IfOk};
ghost use Rattle.fn_core.specs.declared.answer.Why.{Why};
ghost use Rattle.fn_core.specs.declared.answer.CoreStep.TheVariants.{Ready};
ghost use Rattle.fn_core.specs.declared.answer.Blocked.{Blocked};
ghost use Rattle.fn_core.specs.Machine.{IsChange};
ghost use Rattle.fn_table.specs.Seen.{IsOf};
ghost use Rattle.fn_climb.specs.Begin.{BeginAnswers};
ghost use Rattle.fn_table.specs.Later.{IsLater};
ghost use Rattle.fn_climb.specs.Turns.{Polled, PolledInVain};
ghost use Rattle.fn_climb.specs.declared.beginning.Begun.TheVariants as begun;
ghost use Rattle.fn_table.specs.Claims.{left, Rests, Made, MadeNone};
ghost use Rattle.fn_callers.specs.Standing.{HasCome};

use crate::caller::Waiting;
use fn_climb::{Begun, Turn, begin};
use fn_layout::Kind;
use fn_table::{FunnelTable, Pass};
use std::snapshot::Snapshot;

/// Begins a call, or hands the pass back where no row is open.
pub fn begin_call(table: &FunnelTable, pass: Pass, kind: Kind, amount: u64) -> Result<Waiting, Pass>
    requires together { IsOf table.now pass }
    requires rests { Rests pass }
    requires change { IsChange kind }
    requires amount { (1 ≤ amount) × (amount ≤ left pass) }
    ensures given { IfOk result (λ w. (w.given.value ≡ pass) × (w.kind ≡ kind) × (w.amount ≡ amount)) }
    ensures come { IfOk result (λ w. HasCome w.given.value w.kind w.amount w.pending.pass) }
    ensures begun { IfOk result (λ w. BeginAnswers pass kind amount (begun.Waiting w.pending)) }
    ensures none { IfErr result (λ back. MadeNone pass back) }
    ensures refused { IfErr result (λ back. (at : Blocked) × BeginAnswers pass kind amount (begun.NoRow back at)) }
{
    let _legal = pass.number();
    let given = Snapshot::of(&pass);
    match begin(table, pass, kind, amount) {
        Begun::Waiting(pending) => Ok(Waiting {
            given,
            kind,
            amount,
            pending,
        }),
        Begun::NoRow(pass, _) => Err(pass),
    }
}

/// Polls a call: it has its reply, or waits still.
pub fn poll_call(table: &FunnelTable, waiting: Waiting) -> Result<(Pass, u64), Waiting>
    requires together { IsOf table.now waiting.given.value }
    requires come { HasCome waiting.given.value waiting.kind waiting.amount waiting.pending.pass }
    ensures made { IfOk result (λ r. Made waiting.given.value waiting.kind waiting.amount r.1 r.0) }
    ensures ready { IfOk result (λ r. Polled waiting.pending (Ready r.1) r.0) }
    ensures given { IfErr result (λ w. (w.given.value ≡ waiting.given.value) × (w.kind ≡ waiting.kind) × (w.amount ≡ waiting.amount)) }
    ensures come { IfErr result (λ w. HasCome waiting.given.value waiting.kind waiting.amount w.pending.pass) }
    ensures in_vain { IfErr result (λ w. (why : Why) × PolledInVain waiting.pending why w.pending) }
{
    let Waiting {
        given,
        kind,
        amount,
        pending,
    } = waiting;
    match pending.poll(table) {
        Turn::Ready(pass, reply) => Ok((pass, reply)),
        Turn::NotYet(pending, _) => Err(Waiting {
            given,
            kind,
            amount,
            pending,
        }),
    }
}
