//! The accounts of a trace while it is read, which are found by their names.
ghost use Rattle.std.specs.Prelude.{◌≡◌, ◌≤◌, ◌<◌, ◌++◌, ◌∷◌, [], true, is_some, Ok, None, IfSome, OnOk, MatchResult, length, map, slice_set};
ghost use Rattle.trace_text.specs.Accounts.{AreHeld};
ghost use Rattle.trace_text.specs.Fields.{is_name};
ghost use Rattle.trace_text.specs.Trace.{Fails, account_at, account_of, account_settled, place_of, spent};

use crate::tenants::{Account, account_of, settle_all, spend};
use crate::traces::{Op, TraceFault};
use std::alloc::Global;
use std::collections::HashMap;
use std::marker::Model;
use text_lines::{MOST_NUMBER, NoMemory};

/// Accounts in the order in which they are opened, with their places by name.
#[derive(Drop)]
pub struct Accounts {
    items: Vec<Account>,
    places: HashMap<Vec<u8>, usize>,
}

impl Model for Accounts {
    ghost use Rattle.std.specs.Prelude.{List};
    ghost use Rattle.trace_text.specs.Places.{AreNames, ArePlaced, names_of};
    ghost use Rattle.trace_text.specs.declared.tenants.Account.{Account};

    ghost Value = { List Account };

    ghost view = { λ accounts. accounts.items.items };

    ghost invariant = { λ accounts. ArePlaced (names_of accounts.items.items) accounts.places × AreNames (names_of accounts.items.items) };
}

impl Accounts {
    /// No accounts.
    pub fn new(alloc: Global) -> Accounts
        ensures { result ≡ [] }
    {
        Accounts {
            items: Vec::new(alloc),
            places: HashMap::new(alloc),
        }
    }

    /// How many there are.
    pub fn len(&self) -> usize
        ensures { result ≡ length self.now }
    {
        self.items.len()
    }

    /// The place of the tenant with a name.
    pub fn place_of(&self, name: &[u8]) -> Option<usize>
        ensures exact { result ≡ place_of name.now self.now }
        ensures within { IfSome result (λ place. place < length self.now) }
        ensures named { is_some result ≡ true → is_name name.now ≡ true }
    {
        self.places.get(name).copied()
    }

    /// Opens a tenant whose name is new.
    pub fn open(
        &mut self,
        alloc: Global,
        name: &[u8],
        opening: u64,
        cap: u64,
    ) -> Result<(), NoMemory>
        requires named { is_name name.now ≡ true }
        requires fresh { place_of name.now self.old ≡ None }
        ensures { OnOk result (self.new ≡ self.old ++ account_of name.now opening cap ∷ []) }
    {
        let key = Vec::from_slice(alloc, name)?;
        let account = account_of(alloc, name, opening, cap)?;
        let place = self.items.len();
        if self.items.push(account).is_err() {
            return Err(NoMemory);
        }
        match self.places.insert(key, place) {
            Ok(_) => Ok(()),
            Err(_) => {
                self.items.pop();
                Err(NoMemory)
            }
        }
    }

    /// Takes an op's amount from the tenant at a place.
    pub fn spend(&mut self, place: usize, at: u64, op: Op, amount: u64) -> Result<(), TraceFault>
        requires place { place < length self.old }
        requires held { AreHeld self.old }
        requires amount { amount ≤ MOST_NUMBER }
        ensures taken { MatchResult result
            (λ _. spent at op amount (account_at self.old place) ≡ Ok (account_at self.new place))
            (λ fault. Fails fault (spent at op amount (account_at self.old place))) }
        ensures others { OnOk result (self.new ≡ slice_set self.old place (account_at self.new place)) }
    {
        spend(&mut self.items[place], at, op, amount)
    }

    /// Begins the next segment for all tenants.
    pub fn settle(&mut self)
        ensures { self.new ≡ map account_settled self.old }
    {
        settle_all(&mut self.items);
    }

    /// The accounts alone.
    pub fn into_items(self) -> Vec<Account>
        ensures { result.items ≡ self }
    {
        self.items
    }
}
