//! A pool opens and closes.
ghost use Rattle.std.specs.Prelude.{◌≡◌, ◌≤◌, ◌<◌, length, map, slice_get, replicate, Some, IfOk, MatchResult, None, All};
ghost use Rattle.running.specs.Running.{upto};
ghost use Rattle.fn_model.specs.declared.TheConstants.{NO_CAP};
ghost use Rattle.quota_pool.specs.Views.{Belongs};
ghost use Rattle.quota_pool.specs.Faults.{pool_fault, TellsFault};
ghost use Rattle.quota_pool.specs.Opened.{IsOpened};
ghost use Rattle.quota_pool.specs.Claims.{TellsBooks};
ghost use Rattle.quota_pool.specs.Closed.{AreClosed};

use crate::closing::{Closing, close_all, closing_for};
use crate::desks::Desk;
use crate::faults::{PoolFault, above_cap, too_much};
use crate::opening::{desks_of, open_all};
use crate::plans::Plan;
use crate::rooms::hand_all;
use fn_funnel::{Book, Funnel};
use fn_model::NO_CAP;
use std::alloc::Global;
use std::marker::Model;

/// A funnel for each tenant. Contracts see how many workers it has, and the tenants' tables.
#[derive(Drop)]
pub struct QuotaPool {
    pub(crate) workers: u32,
    pub(crate) funnels: Vec<Funnel>,
}

impl Model for QuotaPool {
    ghost use Rattle.std.specs.Prelude.{◌≡◌, ◌≤◌, All};
    ghost use Rattle.quota_pool.specs.Views.{PoolView};

    ghost Value = { PoolView };

    ghost view = { λ pool. record { workers = pool.workers; tables = pool.funnels.items } };

    ghost invariant = { λ pool. (1 ≤ pool.workers) × All (λ funnel. funnel.start.shape.passes ≡ pool.workers) pool.funnels.items };
}

impl QuotaPool {
    /// A pool at which no addition stops, with its desks in order of worker.
    pub fn open(
        alloc: Global,
        openings: &[u64],
        workers: u32,
        plans: &[Plan],
    ) -> Result<(QuotaPool, Vec<Desk>), PoolFault>
        requires few { length openings.now ≤ 256 }
        requires workers { (1 ≤ workers) × (workers ≤ 64) }
        requires one_each { length plans.now ≡ length openings.now }
        requires plans { All (λ plan. length plan ≡ workers) plans.now }
        ensures opened { IfOk result (λ r. IsOpened openings.now (replicate (length openings.now) NO_CAP) workers plans.now r.0 r.1.items) }
        ensures faults { MatchResult result (λ _. pool_fault openings.now (replicate (length openings.now) NO_CAP) plans.now ≡ None) (TellsFault (pool_fault openings.now (replicate (length openings.now) NO_CAP) plans.now)) }
    {
        if let Some(fault) = too_much(openings, plans) {
            return Err(fault);
        }
        let Ok(caps) = vec![in alloc; NO_CAP; openings.len()] else {
            return Err(PoolFault::NoMemory);
        };
        QuotaPool::open_capped(alloc, openings, &caps, workers, plans)
    }

    /// A pool in which the additions of each tenant stop at its cap.
    pub fn open_capped(
        alloc: Global,
        openings: &[u64],
        caps: &[u64],
        workers: u32,
        plans: &[Plan],
    ) -> Result<(QuotaPool, Vec<Desk>), PoolFault>
        requires few { length openings.now ≤ 256 }
        requires workers { (1 ≤ workers) × (workers ≤ 64) }
        requires one_cap_each { length caps.now ≡ length openings.now }
        requires caps { All (λ cap. cap ≤ NO_CAP) caps.now }
        requires one_each { length plans.now ≡ length openings.now }
        requires plans { All (λ plan. length plan ≡ workers) plans.now }
        ensures opened { IfOk result (λ r. IsOpened openings.now caps.now workers plans.now r.0 r.1.items) }
        ensures faults { MatchResult result (λ _. pool_fault openings.now caps.now plans.now ≡ None) (TellsFault (pool_fault openings.now caps.now plans.now)) }
    {
        if let Some(fault) = too_much(openings, plans) {
            return Err(fault);
        }
        if let Some(fault) = above_cap(openings, caps) {
            return Err(fault);
        }
        let (funnels, hands) = open_all(alloc, openings, caps, workers, plans)?;
        let closing = closing_for(alloc, workers, funnels.len())?;
        let desks = desks_of(alloc, hands, closing)?;
        Ok((QuotaPool { workers, funnels }, desks))
    }

    // The funnel of a tenant.
    pub(crate) fn funnel(&self, at: usize) -> &Funnel
        requires { at < length self.now.tables }
        ensures { slice_get self.now.tables at ≡ Some result.now }
    {
        &self.funnels[at]
    }

    /// Ends the pool, given all its desks, in order of worker. The books stand in order of tenant, each with the calls that the desks made there, and no other.
    pub fn close(self, desks: Vec<Desk>) -> Vec<Book>
        requires together { All (Belongs self) desks.items }
        requires all { map (λ desk. desk.worker) desks.items ≡ upto self.workers }
        ensures told { TellsBooks self desks.items result.items }
        ensures closed { AreClosed desks.items result.items }
    {
        let QuotaPool {
            workers: _,
            funnels,
        } = self;
        let mut others = desks;
        let Desk {
            worker: _,
            passes,
            closing,
        } = others.remove(0);
        let Some(closing) = closing else {
            unreachable!();
        };
        let Closing { rooms, books } = closing;
        let rooms = hand_all(rooms, passes, others);
        close_all(funnels, rooms, books)
    }
}
