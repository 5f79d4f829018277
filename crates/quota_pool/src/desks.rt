//! The desks of a pool.
ghost use Rattle.std.specs.Prelude.{◌≡◌, ◌<◌, ◌≤◌, length, true, false};
ghost use Rattle.fn_model.specs.declared.Kind.TheVariants.{Add, Sub, Read};
ghost use Rattle.quota_pool.specs.Views.{Belongs, MayMove, left_at};
ghost use Rattle.quota_pool.specs.Claims.{MadeAt};
ghost use Rattle.quota_pool.specs.Calls.{WentAt};

use crate::closing::Closing;
use crate::moved::Moved;
use crate::pool::QuotaPool;
use fn_funnel::{Kind, Pass, add_on, go_straight, read, sub_on};
use std::marker::Model;
use std::sync::Wait;

/// One worker's passes, one for each tenant. Contracts see its worker and its passes.
///
/// The first worker's desk also keeps the room that closing needs: all threads share the pool, and only one at a time may hold what is made for passes.
#[derive(Drop)]
pub struct Desk {
    pub(crate) worker: u32,
    pub(crate) passes: Vec<Pass>,
    pub(crate) closing: Option<Closing>,
}

impl Model for Desk {
    ghost use Rattle.quota_pool.specs.Views.{DeskView};
    ghost use Rattle.quota_pool.specs.Rooms.{KeepsRoom};

    ghost Value = { DeskView };

    ghost view = { λ desk. record { worker = desk.worker; passes = desk.passes.items } };

    ghost invariant = { λ desk. KeepsRoom desk.closing (record { worker = desk.worker; passes = desk.passes.items }) };
}

impl Desk {
    /// What the desk has left of its allowance at a tenant.
    pub fn left(&self, tenant: u32) -> u64
        requires { tenant < length self.now.passes }
        ensures { result ≡ left_at self.now tenant }
    {
        self.passes[tenant as usize].allowance()
    }

    /// Adds, up to the tenant's cap. It may wait for the callers of its batch.
    pub fn add<R: Wait>(&mut self, rt: &R, pool: &QuotaPool, tenant: u32, amount: u64) -> Moved
        requires together { Belongs pool.now self.old }
        requires tenant { tenant < length self.old.passes }
        requires amount { MayMove self.old tenant amount }
        ensures made { MadeAt pool.now self.old tenant Add amount result self.new }
        ensures way { WentAt self.old tenant Add true amount result self.new }
    {
        let at = tenant as usize;
        let funnel = pool.funnel(at);
        let pass = &mut self.passes[at];
        let added = add_on(rt, funnel, pass, amount);
        Moved {
            before: added.before,
            moved: amount.min(funnel.cap() - added.before),
            way: Some(added.way),
        }
    }

    /// Subtracts, down to zero. It may wait for the callers of its batch.
    pub fn take<R: Wait>(&mut self, rt: &R, pool: &QuotaPool, tenant: u32, amount: u64) -> Moved
        requires together { Belongs pool.now self.old }
        requires tenant { tenant < length self.old.passes }
        requires amount { MayMove self.old tenant amount }
        ensures made { MadeAt pool.now self.old tenant Sub amount result self.new }
        ensures way { WentAt self.old tenant Sub true amount result self.new }
    {
        let at = tenant as usize;
        let funnel = pool.funnel(at);
        let pass = &mut self.passes[at];
        let taken = sub_on(rt, funnel, pass, amount);
        Moved {
            before: taken.before,
            moved: amount.min(taken.before),
            way: Some(taken.way),
        }
    }

    /// Adds, up to the tenant's cap, past the funnel. It may wait where the cap is below the highest.
    pub fn direct<R: Wait>(&mut self, rt: &R, pool: &QuotaPool, tenant: u32, amount: u64) -> Moved
        requires together { Belongs pool.now self.old }
        requires tenant { tenant < length self.old.passes }
        requires amount { MayMove self.old tenant amount }
        ensures made { MadeAt pool.now self.old tenant Add amount result self.new }
        ensures way { WentAt self.old tenant Add false amount result self.new }
    {
        let at = tenant as usize;
        let funnel = pool.funnel(at);
        let pass = &mut self.passes[at];
        let before = go_straight(rt, funnel.table(), pass, Kind::Add, amount);
        Moved {
            before,
            moved: amount.min(funnel.cap().saturating_sub(before)),
            way: None,
        }
    }

    /// The tenant's integer, as a call of its own.
    pub fn read(&mut self, pool: &QuotaPool, tenant: u32) -> Moved
        requires together { Belongs pool.now self.old }
        requires tenant { tenant < length self.old.passes }
        ensures made { MadeAt pool.now self.old tenant Read 0 result self.new }
        ensures way { WentAt self.old tenant Read false 0 result self.new }
    {
        let at = tenant as usize;
        let funnel = pool.funnel(at);
        let pass = &mut self.passes[at];
        let before = read(funnel.table(), pass);
        Moved {
            before,
            moved: 0,
            way: None,
        }
    }
}
