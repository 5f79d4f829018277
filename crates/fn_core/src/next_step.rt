//! Which step a call takes next.

ghost use Rattle.std.specs.Prelude.{◌≡◌, List};
ghost use Rattle.fn_layout.specs.Words.{IsSlot};
ghost use Rattle.fn_core.specs.Machine.{run};
ghost use Rattle.fn_core.specs.State.{opened, stage};
ghost use Rattle.fn_core.specs.Order.{weight_below, enters_main, goes_up, next_at, next_on_row, next_move};
ghost use Rattle.fn_core.specs.declared.Event.{Event};

use crate::machine::Machine;
use crate::{Move, Position, Purpose};
use fn_layout::Kind;
use fn_model::NO_CAP;
use fn_rows::{Field, Stage};

impl Machine {
    ghost use Rattle.fn_core.specs.Fields.{Stands, HasTaken, IsUnderwayIn, InEach, ClimbsIn};

    /// The next step of the pass's call.
    pub fn next_move(&self, pass: u32) -> Move
        requires { IsUnderwayIn self.now pass }
        ensures { (log : List Event) → Stands self.now log → result ≡ next_move self.now.start (run self.now.start log (opened self.now.start)) pass }
    {
        match self.standings[pass as usize].position {
            Position::Climbing { kind, level } => self.next_at(pass, kind, level),
            Position::Deciding { kind, level, .. } => Move::Exchange {
                kind,
                amount: self.weight_of(pass, kind, level),
            },
            _ => Move::Glance,
        }
    }

    // The next step of a call that has climbed to this level.
    fn next_at(&self, pass: u32, kind: Kind, level: u32) -> Move
        requires { ClimbsIn self.now pass kind level }
        ensures { InEach self.now (λ s. result ≡ next_at self.now.start s pass kind level (stage self.now.start s kind level pass)) }
    {
        match self.stage_of(pass, kind, level) {
            Stage::Out => Move::Glance,
            Stage::Saw(_) => Move::Announce { kind, level },
            Stage::Told(_) => Move::Arrive {
                kind,
                level,
                weight: self.weight_below(pass, kind, level),
            },
            Stage::Waiting(_) => Move::Look { kind, level },
            Stage::Lead(_) => Move::Close { kind, level },
            Stage::Late(_) => Move::Head { kind, level },
            Stage::Shut(_, _) => self.goes_up(pass, kind, level),
            Stage::Based(_, _, _) => Move::Head { kind, level },
            Stage::Pointed(_, _, _, _) => Move::Publish { kind, level },
            Stage::Got(_, _) => Move::Leave { kind, level },
            held => self.next_on_row(pass, kind, level, held),
        }
    }

    // The next step of a call that fills a row, or has one in hand.
    fn next_on_row(&self, pass: u32, kind: Kind, level: u32, held: Stage) -> Move
        requires climbs { ClimbsIn self.now pass kind level }
        requires there { InEach self.now (λ s. held ≡ stage self.now.start s kind level pass) }
        ensures { InEach self.now (λ s. result ≡ next_on_row self.now.start s pass kind level held) }
    {
        match held {
            Stage::Headed(_, _, _, _) => Move::Fill {
                row: self.free_row(pass, kind, level),
                field: Field::Lo,
            },
            Stage::FilledLo(_, _, _, _, row) => Move::Fill {
                row: self.own_row(pass, kind, level, row),
                field: Field::Base,
            },
            Stage::FilledBase(_, _, _, _, row) => Move::Fill {
                row: self.own_row(pass, kind, level, row),
                field: Field::Prev,
            },
            Stage::Filled(_, _, _, row) => Move::Point {
                kind,
                level,
                row: self.own_row(pass, kind, level, row),
            },
            Stage::At(_, row) => Move::Peek {
                row: self.row_there(pass, kind, level, row),
                field: Field::Lo,
            },
            Stage::Over(_, row) => Move::Peek {
                row: self.row_there(pass, kind, level, row),
                field: Field::Prev,
            },
            Stage::Hit(_, row, _) => Move::Peek {
                row: self.row_there(pass, kind, level, row),
                field: Field::Base,
            },
            _ => Move::Glance,
        }
    }

    // The weight of the batch that the pass has closed one level below.
    fn weight_below(&self, pass: u32, kind: Kind, level: u32) -> u64
        requires { ClimbsIn self.now pass kind level }
        ensures { InEach self.now (λ s. result ≡ weight_below self.now.start s pass kind level) }
    {
        if level == 1 {
            0
        } else {
            self.weight_of(pass, kind, level - 1)
        }
    }

    // A batch that was closed goes up one level, or enters the main word.
    fn goes_up(&self, pass: u32, kind: Kind, level: u32) -> Move
        requires taken { HasTaken self.now }
        requires slot { IsSlot self.now.start.shape pass kind level }
        ensures { InEach self.now (λ s. result ≡ goes_up self.now.start s pass kind level) }
    {
        if level == self.start.shape.levels() {
            self.enters_main(pass, kind, level)
        } else {
            Move::See {
                kind,
                level: level + 1,
            }
        }
    }

    // A batch that was closed at the top enters the main word.
    fn enters_main(&self, pass: u32, kind: Kind, level: u32) -> Move
        requires taken { HasTaken self.now }
        requires slot { IsSlot self.now.start.shape pass kind level }
        ensures { InEach self.now (λ s. result ≡ enters_main self.now.start s pass kind level) }
    {
        let try_it = Move::Load {
            purpose: Purpose::Try,
        };
        match kind {
            Kind::Add => {
                if self.start.cap == NO_CAP {
                    Move::Apply {
                        weight: self.weight_of(pass, kind, level),
                    }
                } else {
                    try_it
                }
            }
            _ => try_it,
        }
    }
}
