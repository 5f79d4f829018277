//! Which steps a pass may take.

ghost use Rattle.std.specs.Prelude.{◌≡◌, ◌↔◌, ℕ, ◌<◌, ◌≤◌, List, IsTrue};
ghost use Rattle.fn_layout.specs.Tree.{aggregator};
ghost use Rattle.fn_core.specs.Machine.{Allowed, May, Climbs, IsChange, MayPeek, MaySpend, MayArrive, HasClosed, HasFreeRow, fills, run};
ghost use Rattle.fn_core.specs.State.{opened, stage};
ghost use Rattle.fn_core.specs.declared.Event.{Event};

use crate::machine::Machine;
use crate::{Event, Move, Position, Purpose};
use fn_layout::Kind;
use fn_model::NO_CAP;
use fn_rows::{Field, Stage};

impl Machine {
    ghost use Rattle.fn_core.specs.Fields.{Stands, HasTaken, InEach, ClimbsIn, IsHeld};

    /// Whether the event may happen now.
    pub fn can(&self, event: &Event) -> bool
        requires { HasTaken self.now }
        ensures { (log : List Event) → Stands self.now log → IsTrue result ↔ Allowed self.now.start (run self.now.start log (opened self.now.start)) event.now }
    {
        event.pass < self.start.shape.passes() && self.may(event.pass, event.step)
    }

    // Whether the pass may take the step now.
    fn may(&self, pass: u32, step: Move) -> bool
        requires taken { HasTaken self.now }
        requires inside { pass < self.now.start.shape.passes }
        ensures { InEach self.now (λ s. IsTrue result ↔ May self.now.start s pass step) }
    {
        match step {
            Move::Scan { kind, level, other } => self.may_scan(pass, kind, level, other),
            Move::See { kind, level } => self.may_see(pass, kind, level),
            Move::Announce { kind, level } => self.may_announce(pass, kind, level),
            Move::Arrive {
                kind,
                level,
                weight,
            } => self.may_arrive(pass, kind, level, weight),
            Move::Look { kind, level } => self.may_look(pass, kind, level),
            Move::Close { kind, level } => self.may_close(pass, kind, level),
            Move::Apply { weight } => self.may_apply(pass, weight),
            Move::Head { kind, level } => self.may_head(pass, kind, level),
            Move::Fill { row, field } => self.may_fill(pass, row, field),
            Move::Point { kind, level, row } => self.may_point(pass, kind, level, row),
            Move::Publish { kind, level } => self.may_publish(pass, kind, level),
            Move::Peek { row, field } => self.may_peek(pass, row, field),
            Move::Leave { kind, level } => self.may_leave(pass, kind, level),
            Move::Load { purpose } => self.may_load(pass, purpose),
            Move::Exchange { kind, amount } => self.may_exchange(pass, kind, amount),
            Move::Direct { amount } => self.may_direct(pass, amount),
            Move::Glance => self.rests(pass),
        }
    }

    // Whether the pass has looked, and announces.
    fn may_announce(&self, pass: u32, kind: Kind, level: u32) -> bool
        requires taken { HasTaken self.now }
        requires inside { pass < self.now.start.shape.passes }
        ensures { InEach self.now (λ s. IsTrue result ↔ May self.now.start s pass (Move.Announce kind level)) }
    {
        match self.held(pass, kind, level) {
            Some(Stage::Saw(_)) => true,
            _ => false,
        }
    }

    // Whether the pass waits, and looks.
    fn may_look(&self, pass: u32, kind: Kind, level: u32) -> bool
        requires taken { HasTaken self.now }
        requires inside { pass < self.now.start.shape.passes }
        ensures { InEach self.now (λ s. IsTrue result ↔ May self.now.start s pass (Move.Look kind level)) }
    {
        match self.held(pass, kind, level) {
            Some(Stage::Waiting(_)) => true,
            _ => false,
        }
    }

    // Whether the pass leads, and closes its batch.
    fn may_close(&self, pass: u32, kind: Kind, level: u32) -> bool
        requires taken { HasTaken self.now }
        requires inside { pass < self.now.start.shape.passes }
        ensures { InEach self.now (λ s. IsTrue result ↔ May self.now.start s pass (Move.Close kind level)) }
    {
        match self.held(pass, kind, level) {
            Some(Stage::Lead(_)) => true,
            _ => false,
        }
    }

    // Whether the pass has pointed to its row, and publishes it.
    fn may_publish(&self, pass: u32, kind: Kind, level: u32) -> bool
        requires taken { HasTaken self.now }
        requires inside { pass < self.now.start.shape.passes }
        ensures { InEach self.now (λ s. IsTrue result ↔ May self.now.start s pass (Move.Publish kind level)) }
    {
        match self.held(pass, kind, level) {
            Some(Stage::Pointed(_, _, _, _)) => true,
            _ => false,
        }
    }

    // Whether the pass has its base, and leaves.
    fn may_leave(&self, pass: u32, kind: Kind, level: u32) -> bool
        requires taken { HasTaken self.now }
        requires inside { pass < self.now.start.shape.passes }
        ensures { InEach self.now (λ s. IsTrue result ↔ May self.now.start s pass (Move.Leave kind level)) }
    {
        match self.held(pass, kind, level) {
            Some(Stage::Got(_, _)) => true,
            _ => false,
        }
    }

    // Whether the pass leads with a base, or is late, and looks for the last row.
    fn may_head(&self, pass: u32, kind: Kind, level: u32) -> bool
        requires taken { HasTaken self.now }
        requires inside { pass < self.now.start.shape.passes }
        ensures { InEach self.now (λ s. IsTrue result ↔ May self.now.start s pass (Move.Head kind level)) }
    {
        match self.held(pass, kind, level) {
            Some(Stage::Based(_, _, _)) => true,
            Some(Stage::Late(_)) => true,
            _ => false,
        }
    }

    // Where the pass's call stands that has climbed to this level.
    fn held(&self, pass: u32, kind: Kind, level: u32) -> Option<Stage>
        requires taken { HasTaken self.now }
        requires inside { pass < self.now.start.shape.passes }
        ensures { InEach self.now (λ s. IsHeld self.now.start s pass kind level result) }
    {
        if self.climbs(pass, kind, level) {
            Some(self.stage_of(pass, kind, level))
        } else {
            None
        }
    }

    // Whether the pass's call has climbed to this level.
    fn climbs(&self, pass: u32, kind: Kind, level: u32) -> bool
        requires taken { HasTaken self.now }
        requires inside { pass < self.now.start.shape.passes }
        ensures { InEach self.now (λ s. IsTrue result ↔ (s.callers pass).position ≡ Position.Climbing kind level) }
    {
        match self.standings[pass as usize].position {
            Position::Climbing {
                kind: own,
                level: here,
            } => is_kind(own, kind) && here == level,
            _ => false,
        }
    }

    // Whether the pass makes no call.
    fn rests(&self, pass: u32) -> bool
        requires taken { HasTaken self.now }
        requires inside { pass < self.now.start.shape.passes }
        ensures { InEach self.now (λ s. IsTrue result ↔ (s.callers pass).position ≡ Position.Resting) }
    {
        match self.standings[pass as usize].position {
            Position::Resting => true,
            _ => false,
        }
    }

    // Whether a call of the pass may have this amount.
    fn may_spend(&self, pass: u32, amount: u64) -> bool
        requires taken { HasTaken self.now }
        requires inside { pass < self.now.start.shape.passes }
        ensures { InEach self.now (λ s. IsTrue result ↔ MaySpend s pass amount) }
    {
        1 <= amount && amount <= self.standings[pass as usize].left
    }

    // Whether the pass adds to the main word as a call of its own.
    fn may_direct(&self, pass: u32, amount: u64) -> bool
        requires taken { HasTaken self.now }
        requires inside { pass < self.now.start.shape.passes }
        ensures { InEach self.now (λ s. IsTrue result ↔ May self.now.start s pass (Move.Direct amount)) }
    {
        self.rests(pass) && self.start.cap == NO_CAP && self.may_spend(pass, amount)
    }

    // Whether the pass has closed its batch at this level, and stands there.
    fn has_shut(&self, pass: u32, kind: Kind, level: u32) -> bool
        requires taken { HasTaken self.now }
        requires inside { pass < self.now.start.shape.passes }
        ensures { InEach self.now (λ s. IsTrue result ↔ ((s.callers pass).position ≡ Position.Climbing kind level) × HasClosed self.now.start s pass kind level) }
    {
        match self.held(pass, kind, level) {
            Some(Stage::Shut(_, _)) => true,
            _ => false,
        }
    }

    // Whether the pass applies a batch of this weight.
    fn may_apply(&self, pass: u32, weight: u64) -> bool
        requires taken { HasTaken self.now }
        requires inside { pass < self.now.start.shape.passes }
        ensures { InEach self.now (λ s. IsTrue result ↔ May self.now.start s pass (Move.Apply weight)) }
    {
        let top = self.start.shape.levels();
        if self.start.cap == NO_CAP {
            if self.has_shut(pass, Kind::Add, top) {
                weight == self.weight_of(pass, Kind::Add, top)
            } else {
                false
            }
        } else {
            false
        }
    }

    // Whether the pass loads the main word, for a try or as a read.
    fn may_load(&self, pass: u32, purpose: Purpose) -> bool
        requires taken { HasTaken self.now }
        requires inside { pass < self.now.start.shape.passes }
        ensures { InEach self.now (λ s. IsTrue result ↔ May self.now.start s pass (Move.Load purpose)) }
    {
        match purpose {
            Purpose::Read => self.rests(pass),
            Purpose::Try => self.may_try(pass),
        }
    }

    // Whether the pass loads the main word for a try.
    fn may_try(&self, pass: u32) -> bool
        requires taken { HasTaken self.now }
        requires inside { pass < self.now.start.shape.passes }
        ensures { InEach self.now (λ s. IsTrue result ↔ May self.now.start s pass (Move.Load Purpose.Try)) }
    {
        let top = self.start.shape.levels();
        if self.rests(pass) {
            true
        } else if self.has_shut(pass, Kind::Sub, top) {
            true
        } else if self.start.cap < NO_CAP {
            self.has_shut(pass, Kind::Add, top)
        } else {
            false
        }
    }

    // Whether the pass may try to exchange the main word.
    fn may_exchange(&self, pass: u32, kind: Kind, amount: u64) -> bool
        requires taken { HasTaken self.now }
        requires inside { pass < self.now.start.shape.passes }
        ensures { InEach self.now (λ s. IsTrue result ↔ May self.now.start s pass (Move.Exchange kind amount)) }
    {
        match self.standings[pass as usize].position {
            Position::Trying { .. } => is_change(kind) && self.may_spend(pass, amount),
            Position::Deciding {
                kind: own,
                level,
                ..
            } => is_kind(own, kind) && amount == self.weight_of(pass, own, level),
            _ => false,
        }
    }

    // Whether the pass scans the announcement of another member.
    fn may_scan(&self, pass: u32, kind: Kind, level: u32, other: u32) -> bool
        requires taken { HasTaken self.now }
        requires inside { pass < self.now.start.shape.passes }
        ensures { InEach self.now (λ s. IsTrue result ↔ May self.now.start s pass (Move.Scan kind level other)) }
    {
        let shape = self.start.shape;
        self.rests(pass)
            && is_change(kind)
            && 1 <= level
            && level <= shape.levels()
            && other < shape.passes()
            && other != pass
            && shape.aggregator_of(other, level) == shape.aggregator_of(pass, level)
    }

    // Whether the pass begins a call, or goes up a level.
    fn may_see(&self, pass: u32, kind: Kind, level: u32) -> bool
        requires taken { HasTaken self.now }
        requires inside { pass < self.now.start.shape.passes }
        ensures { InEach self.now (λ s. IsTrue result ↔ May self.now.start s pass (Move.See kind level)) }
    {
        if level == 1 {
            self.rests(pass) && is_change(kind) && self.has_free_rows(pass, kind)
        } else if 2 <= level {
            if level <= self.start.shape.levels() {
                self.has_shut(pass, kind, level - 1)
            } else {
                false
            }
        } else {
            false
        }
    }

    // Whether the pass has a free row at each level.
    fn has_free_rows(&self, pass: u32, kind: Kind) -> bool
        requires taken { HasTaken self.now }
        requires inside { pass < self.now.start.shape.passes }
        requires change { IsChange kind }
        ensures { InEach self.now (λ s. IsTrue result ↔ ((level : ℕ) → 1 ≤ level → level ≤ self.now.start.shape.levels → HasFreeRow self.now.start s kind level pass)) }
    {
        for above in 0..self.start.shape.levels() {
            if self.first_free(pass, kind, above + 1) == self.start.shape.rows() {
                return false;
            }
        }
        true
    }

    // Whether the call arrives at the level with this weight.
    fn may_arrive(&self, pass: u32, kind: Kind, level: u32, weight: u64) -> bool
        requires taken { HasTaken self.now }
        requires inside { pass < self.now.start.shape.passes }
        ensures { InEach self.now (λ s. IsTrue result ↔ May self.now.start s pass (Move.Arrive kind level weight)) }
    {
        match self.held(pass, kind, level) {
            Some(Stage::Told(_)) => 0 < weight && self.may_weigh(pass, kind, level, weight),
            _ => false,
        }
    }

    // Whether this is what arrives at the level.
    fn may_weigh(&self, pass: u32, kind: Kind, level: u32, weight: u64) -> bool
        requires climbs { ClimbsIn self.now pass kind level }
        ensures { InEach self.now (λ s. IsTrue result ↔ MayArrive self.now.start s pass kind level weight) }
    {
        if level == 1 {
            self.may_spend(pass, weight)
        } else {
            weight == self.weight_of(pass, kind, level - 1)
        }
    }

    // Whether the call points to this row.
    fn may_point(&self, pass: u32, kind: Kind, level: u32, row: u32) -> bool
        requires taken { HasTaken self.now }
        requires inside { pass < self.now.start.shape.passes }
        ensures { InEach self.now (λ s. IsTrue result ↔ May self.now.start s pass (Move.Point kind level row)) }
    {
        match self.held(pass, kind, level) {
            Some(Stage::Filled(_, _, _, filled)) => {
                self.owns(pass, kind, level, row)
                    && u64::from(self.local_row(pass, level, row)) == filled
            }
            _ => false,
        }
    }

    // Whether the call fills this field of this row.
    fn may_fill(&self, pass: u32, row: u32, field: Field) -> bool
        requires taken { HasTaken self.now }
        requires inside { pass < self.now.start.shape.passes }
        ensures { InEach self.now (λ s. IsTrue result ↔ May self.now.start s pass (Move.Fill row field)) }
    {
        match self.standings[pass as usize].position {
            Position::Climbing { kind, level } => {
                self.owns(pass, kind, level, row)
                    && self.may_fill_own(pass, kind, level, row, field)
            }
            _ => false,
        }
    }

    // Whether the call fills this field of its own row.
    fn may_fill_own(&self, pass: u32, kind: Kind, level: u32, row: u32, field: Field) -> bool
        requires { ClimbsIn self.now pass kind level }
        ensures { InEach self.now (λ s. IsTrue result ↔ Climbs self.now.start s pass kind level (fills self.now.start s kind level pass row field)) }
    {
        match field {
            Field::Lo => match self.stage_of(pass, kind, level) {
                Stage::Headed(_, _, _, _) => self.is_free(pass, kind, level, row),
                _ => false,
            },
            Field::Base => match self.stage_of(pass, kind, level) {
                Stage::FilledLo(_, _, _, _, own) => {
                    u64::from(self.local_row(pass, level, row)) == own
                }
                _ => false,
            },
            Field::Prev => match self.stage_of(pass, kind, level) {
                Stage::FilledBase(_, _, _, _, own) => {
                    u64::from(self.local_row(pass, level, row)) == own
                }
                _ => false,
            },
        }
    }

    // Whether the call reads this field of this row.
    fn may_peek(&self, pass: u32, row: u32, field: Field) -> bool
        requires taken { HasTaken self.now }
        requires inside { pass < self.now.start.shape.passes }
        ensures { InEach self.now (λ s. IsTrue result ↔ May self.now.start s pass (Move.Peek row field)) }
    {
        match self.standings[pass as usize].position {
            Position::Climbing { kind, level } => self.may_peek_at(pass, kind, level, row, field),
            _ => false,
        }
    }

    // Whether the call reads this field of this row at the level to which it has climbed.
    fn may_peek_at(&self, pass: u32, kind: Kind, level: u32, row: u32, field: Field) -> bool
        requires { ClimbsIn self.now pass kind level }
        ensures { InEach self.now (λ s. IsTrue result ↔ MayPeek self.now.start kind level (aggregator self.now.start.shape pass level) (stage self.now.start s kind level pass) row field) }
    {
        match field {
            Field::Lo => match self.stage_of(pass, kind, level) {
                Stage::At(_, hand) => self.row_there(pass, kind, level, hand) == row,
                _ => false,
            },
            Field::Base => match self.stage_of(pass, kind, level) {
                Stage::Hit(_, hand, _) => self.row_there(pass, kind, level, hand) == row,
                _ => false,
            },
            Field::Prev => match self.stage_of(pass, kind, level) {
                Stage::Over(_, hand) => self.row_there(pass, kind, level, hand) == row,
                _ => false,
            },
        }
    }
}

// Whether calls of this kind go through aggregators.
fn is_change(kind: Kind) -> bool
    ensures { IsTrue result ↔ IsChange kind }
{
    match kind {
        Kind::Add => true,
        Kind::Sub => true,
        Kind::Read => false,
    }
}

// Whether two kinds are one.
fn is_kind(own: Kind, kind: Kind) -> bool
    ensures { IsTrue result ↔ own ≡ kind }
{
    own == kind
}
