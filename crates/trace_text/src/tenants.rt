//! The tenants of a trace while it is read, with the bounds of their values.
ghost use Rattle.std.specs.Prelude.{◌≡◌, ◌≤◌, Ok, IfOk, MatchResult, map};
ghost use Rattle.trace_text.specs.Accounts.{IsHeld};
ghost use Rattle.trace_text.specs.Trace.{Fails, account_of, account_settled, added, spent};

use crate::traces::{Name, Op, Tenant, TraceFault};
use std::alloc::{AllocError, Global};
use text_lines::MOST_NUMBER;

/// The most tenants of a trace.
pub const MOST_TENANTS: usize = 256;

/// A tenant, and what it has come to.
#[derive(Drop)]
pub struct Account {
    pub tenant: Tenant,
    /// the bound of its value at the segment's start, and all that the segment adds
    pub reach: u64,
    /// the same bound, and all amounts of the segment
    pub used: u64,
}

/// The account of a tenant that is opened.
pub fn account_of(alloc: Global, name: &[u8], opening: u64, cap: u64) -> Result<Account, AllocError>
    ensures { IfOk result (λ account. account ≡ account_of name.now opening cap) }
{
    let name = Name {
        items: Vec::from_slice(alloc, name)?,
    };
    Ok(Account {
        tenant: Tenant { name, opening, cap },
        reach: opening,
        used: opening,
    })
}

/// Takes an op's amount, where the bound with all amounts of the segment stays below 2^63.
#[tactic(auto, unfolding(crate::specs::Trace::spent))]
pub fn spend(account: &mut Account, at: u64, op: Op, amount: u64) -> Result<(), TraceFault>
    requires held { IsHeld account.old }
    requires amount { amount ≤ MOST_NUMBER }
    ensures tenant { account.new.tenant ≡ account.old.tenant }
    ensures taken { MatchResult result
        (λ _. spent at op amount account.old ≡ Ok account.new)
        (λ fault. Fails fault (spent at op amount account.old)) }
{
    if amount > MOST_NUMBER - account.used {
        return Err(TraceFault::Total { at });
    }
    account.used += amount;
    account.reach += added(op, amount);
    Ok(())
}

// What an op can add.
fn added(op: Op, amount: u64) -> u64
    ensures exact { result ≡ added op amount }
    ensures bound { result ≤ amount }
{
    match op {
        Op::Add | Op::Direct => amount,
        Op::Take | Op::Read => 0,
    }
}

/// Begins the next segment.
pub fn settle(account: &mut Account)
    ensures { account.new ≡ account_settled account.old }
{
    let bound = account.reach.min(account.tenant.cap);
    account.reach = bound;
    account.used = bound;
}

/// Begins the next segment for all tenants.
pub fn settle_all(accounts: &mut [Account])
    ensures { accounts.new ≡ map account_settled accounts.old }
{
    for account in accounts.iter_mut() {
        settle(account);
    }
}
