//! A caller of a funnel.
ghost use Rattle.std.specs.Prelude.{◌≡◌, IfOk, IsSome, IsTrue};
ghost use Rattle.fn_model.specs.declared.Kind.TheVariants.{Add, Sub, Read};
ghost use Rattle.fn_core.specs.Machine.{IsChange};
ghost use Rattle.fn_table.specs.Called.{HasCalled};
ghost use Rattle.fn_table.specs.Claims.{Made};
ghost use Rattle.fn_callers.specs.Told.{LoadTold, ChangeTold, BeginTold, PollTold, HasMade, LeftTold, CloseTold};
ghost use Rattle.fn_callers.specs.Ways.{ChangeWay, BeginWay, PollWay};

use crate::climbing::{begin_call, poll_call};
use crate::direct::{change, load};
use fn_climb::Pending;
use fn_layout::Kind;
use fn_table::{FunnelTable, Pass};
use std::alloc::Global;
use std::marker::Model;
use std::mem;
use std::snapshot::Snapshot;
use std::sync::Arc;

/// A funnel's table, of which each caller has a share.
pub type SharedTable = Arc<FunnelTable, Global>;

/// Why a call has no reply.
#[derive(Clone, Copy, Debug, PartialEq, Eq)]
pub enum Reason {
    /// The call that was polled waits still.
    NotYet,
    /// At some level each row of the pass is blocked, and no call was begun.
    NoRow,
    /// Another changed the integer in between, and no call was made.
    Lost,
    /// The caller has a call underway.
    Underway,
    /// The caller has no call underway.
    Idle,
    /// The amount is 0, or more than the caller has left.
    Spent,
}

/// A call that has begun and has no reply yet, with its pass as it was before.
#[derive(Drop)]
pub struct Waiting {
    pub given: Snapshot<Pass>,
    pub kind: Kind,
    pub amount: u64,
    pub pending: Pending,
}

/// How a caller stands.
#[derive(Drop)]
pub enum Standing {
    Idle(Pass),
    Waits(Waiting),
    /// It is in the hands of a call.
    Away,
}

/// A caller: a pass of a funnel, with a share of its table. Contracts see the table, the pass, the call that is underway, and the rows that it keeps.
#[derive(Drop)]
pub struct Caller {
    table: SharedTable,
    standing: Standing,
    first: Snapshot<Pass>,
}

impl Model for Caller {
    ghost use Rattle.std.specs.Arc.{arc_value};
    ghost use Rattle.fn_callers.specs.Callers.{CallerView};
    ghost use Rattle.fn_callers.specs.Standing.{pass_of, call_of, rows_of, StandsAt};

    ghost Value = { CallerView };

    ghost view = { λ c. record { table = arc_value c.table; pass = pass_of c.first.value c.standing; call = call_of c.standing; rows = rows_of c.standing } };

    ghost invariant = { λ c. StandsAt (arc_value c.table) c.standing };
}

impl Caller {
    ghost use Rattle.std.specs.Arc.{arc_value};
    ghost use Rattle.fn_table.specs.Seen.{IsOf};
    ghost use Rattle.fn_table.specs.Claims.{Rests};
    ghost use Rattle.fn_callers.specs.Callers.{at_rest, HasCall};

    /// A caller that has no call underway.
    pub(crate) fn new(table: SharedTable, pass: Pass) -> Caller
        requires together { IsOf (arc_value table) pass }
        requires rests { Rests pass }
        ensures { result ≡ at_rest (arc_value table) pass }
    {
        let first = Snapshot::of(&pass);
        Caller {
            table,
            standing: Standing::Idle(pass),
            first,
        }
    }

    /// Whether the caller has a call underway.
    pub fn is_underway(&self) -> bool
        ensures told { (IsTrue result → HasCall self.now) × (HasCall self.now → IsTrue result) }
    {
        matches!(self.standing, Standing::Waits(_))
    }

    /// What the caller may still add and take, where it has no call underway.
    pub fn left(&self) -> Result<u64, Reason>
        ensures told { LeftTold self.now result }
    {
        match &self.standing {
            Standing::Idle(pass) => Ok(pass.allowance()),
            _ => Err(Reason::Underway),
        }
    }

    /// The integer, as a call of its own.
    pub fn load(&mut self) -> Result<u64, Reason>
        ensures made { IfOk result (λ value. Made self.old.pass Read 0 value self.new.pass) }
        ensures told { LoadTold self.old result self.new }
        ensures table { self.new.table ≡ self.old.table }
        ensures way { IfOk result (λ value. HasCalled self.old.pass Read 0 value self.new.pass) }
    {
        match &mut self.standing {
            Standing::Idle(pass) => Ok(load(&*self.table, pass)),
            _ => Err(Reason::Underway),
        }
    }

    /// Adds past the aggregators, up to the cap, and gives the integer before.
    pub fn add(&mut self, amount: u64) -> Result<u64, Reason>
        ensures made { IfOk result (λ before. Made self.old.pass Add amount before self.new.pass) }
        ensures told { ChangeTold self.old Add amount result self.new }
        ensures table { self.new.table ≡ self.old.table }
        ensures way { ChangeWay self.old Add amount result self.new }
    {
        self.change(Kind::Add, amount)
    }

    /// Subtracts past the aggregators, down to zero, and gives the integer before.
    pub fn subtract(&mut self, amount: u64) -> Result<u64, Reason>
        ensures made { IfOk result (λ before. Made self.old.pass Sub amount before self.new.pass) }
        ensures told { ChangeTold self.old Sub amount result self.new }
        ensures table { self.new.table ≡ self.old.table }
        ensures way { ChangeWay self.old Sub amount result self.new }
    {
        self.change(Kind::Sub, amount)
    }

    // Makes a call past the aggregators.
    fn change(&mut self, kind: Kind, amount: u64) -> Result<u64, Reason>
        requires change { IsChange kind }
        ensures made { IfOk result (λ before. Made self.old.pass kind amount before self.new.pass) }
        ensures told { ChangeTold self.old kind amount result self.new }
        ensures table { self.new.table ≡ self.old.table }
        ensures way { ChangeWay self.old kind amount result self.new }
    {
        let Standing::Idle(pass) = &mut self.standing else {
            return Err(Reason::Underway);
        };
        if amount < 1 || pass.allowance() < amount {
            return Err(Reason::Spent);
        }
        match change(&*self.table, pass, kind, amount) {
            Ok(before) => Ok(before),
            Err(_) => Err(Reason::Lost),
        }
    }

    /// Begins an addition through the aggregators.
    pub fn begin_to_add(&mut self, amount: u64) -> Result<(), Reason>
        ensures told { BeginTold self.old Add amount result self.new }
        ensures table { self.new.table ≡ self.old.table }
        ensures way { BeginWay self.old Add amount result self.new }
    {
        self.begin(Kind::Add, amount)
    }

    /// Begins a subtraction through the aggregators.
    pub fn begin_to_subtract(&mut self, amount: u64) -> Result<(), Reason>
        ensures told { BeginTold self.old Sub amount result self.new }
        ensures table { self.new.table ≡ self.old.table }
        ensures way { BeginWay self.old Sub amount result self.new }
    {
        self.begin(Kind::Sub, amount)
    }

    // Begins a call through the aggregators.
    fn begin(&mut self, kind: Kind, amount: u64) -> Result<(), Reason>
        requires change { IsChange kind }
        ensures told { BeginTold self.old kind amount result self.new }
        ensures table { self.new.table ≡ self.old.table }
        ensures way { BeginWay self.old kind amount result self.new }
    {
        match mem::replace(&mut self.standing, Standing::Away) {
            Standing::Idle(pass) => {
                if amount < 1 || pass.allowance() < amount {
                    self.standing = Standing::Idle(pass);
                    return Err(Reason::Spent);
                }
                match begin_call(&*self.table, pass, kind, amount) {
                    Ok(waiting) => {
                        self.standing = Standing::Waits(waiting);
                        Ok(())
                    }
                    Err(pass) => {
                        self.standing = Standing::Idle(pass);
                        Err(Reason::NoRow)
                    }
                }
            }
            other => {
                self.standing = other;
                Err(Reason::Underway)
            }
        }
    }

    /// Takes steps of the call that is underway, up to the first that ends it or tells it to wait.
    pub fn poll(&mut self) -> Result<u64, Reason>
        ensures made { IfOk result (λ reply. HasMade self.old reply self.new) }
        ensures told { PollTold self.old result self.new }
        ensures table { self.new.table ≡ self.old.table }
        ensures way { PollWay self.old result self.new }
    {
        match mem::replace(&mut self.standing, Standing::Away) {
            Standing::Waits(waiting) => match poll_call(&*self.table, waiting) {
                Ok((pass, reply)) => {
                    self.standing = Standing::Idle(pass);
                    Ok(reply)
                }
                Err(waiting) => {
                    self.standing = Standing::Waits(waiting);
                    Err(Reason::NotYet)
                }
            },
            other => {
                self.standing = other;
                Err(Reason::Idle)
            }
        }
    }

    /// Ends a caller that has no call underway. The last one of a funnel frees its table.
    pub fn close(self) -> Result<(), Caller>
        ensures told { CloseTold self result }
    {
        if self.is_underway() {
            return Err(self);
        }
        Ok(())
    }
}

// Callers may go from one thread to another.
fn goes<T: Send>() {}

pub fn callers_go() {
    goes::<Caller>();
}
