//! A worker's pass of the queue.
ghost use Rattle.std.specs.Prelude.{◌≡◌, ◌≤◌, [], ◌∷◌, MatchOption};
ghost use Rattle.tq_queue.specs.Seen.{IsOf, left_in};
ghost use Rattle.relay_run.specs.Work.{Advances};

use crate::patience::Patience;
use std::sync::Wait;
use tq_queue::{QueuePass, TicketQueue, try_put, try_take};

/// A pass, and how many takes it owes.
#[derive(Drop)]
pub struct Desk {
    pub pass: QueuePass<u64>,
    pub owed: u64,
}

// Waits for good where the pass may make no further call.
fn wait_for_allowance<R: Wait>(rt: &R, pass: &QueuePass<u64>)
    ensures { 1 ≤ left_in pass.now }
{
    if pass.left() == 0 {
        for _ in rt.forever() {}
    }
}

impl Desk {
    // Tries to put a line, and gives its ticket.
    fn try_put<R: Wait>(self, rt: &R, queue: &TicketQueue<u64>, line: u64) -> (Desk, Option<u64>)
        requires { IsOf queue.now self.pass }
        ensures together { IsOf queue.now result.0.pass }
        ensures outcome { MatchOption result.1 (Advances self result.0 [] []) (λ ticket. Advances self result.0 (ticket ∷ []) (line ∷ [])) }
    {
        let Desk { pass, owed } = self;
        wait_for_allowance(rt, &pass);
        let (pass, outcome) = try_put(rt, queue, pass, line);
        let desk = Desk { pass, owed };
        match outcome {
            Ok(ticket) => (desk, Some(ticket)),
            Err(_full) => (desk, None),
        }
    }

    // Tries to take an item, where a take is owed, and tells whether it did.
    fn try_take<R: Wait>(self, rt: &R, queue: &TicketQueue<u64>) -> (Desk, bool)
        requires { IsOf queue.now self.pass }
        ensures together { IsOf queue.now result.0.pass }
        ensures outcome { Advances self result.0 [] [] }
    {
        if self.owed == 0 {
            return (self, false);
        }
        let Desk { pass, owed } = self;
        wait_for_allowance(rt, &pass);
        let (pass, outcome) = try_take(rt, queue, pass);
        match outcome {
            Ok(_taken) => {
                let owed = owed - 1;
                (Desk { pass, owed }, true)
            }
            Err(_empty) => (Desk { pass, owed }, false),
        }
    }

    /// Puts a line, and gives its ticket. After each try that found no room it tries a take.
    pub fn put<R: Wait>(self, rt: &R, queue: &TicketQueue<u64>, line: u64) -> (Desk, u64)
        requires { IsOf queue.now self.pass }
        ensures together { IsOf queue.now result.0.pass }
        ensures outcome { Advances self result.0 (result.1 ∷ []) (line ∷ []) }
    {
        let mut patience = Patience::new();
        let mut desk = self;
        for _ in rt.forever() {
            let (after_put, ticket) = desk.try_put(rt, queue, line);
            if let Some(ticket) = ticket {
                return (after_put, ticket);
            }
            let (after_take, has_taken) = after_put.try_take(rt, queue);
            desk = after_take;
            if has_taken {
                patience.reset();
            } else {
                patience.wait(rt);
            }
        }
        unreachable!()
    }

    /// Makes the takes that are owed.
    pub fn take_rest<R: Wait>(self, rt: &R, queue: &TicketQueue<u64>) -> Desk
        requires { IsOf queue.now self.pass }
        ensures together { IsOf queue.now result.pass }
        ensures outcome { Advances self result [] [] }
        ensures owed { result.owed ≡ 0 }
    {
        let mut patience = Patience::new();
        let mut desk = self;
        for _ in rt.forever() {
            if desk.owed == 0 {
                return desk;
            }
            let (after, has_taken) = desk.try_take(rt, queue);
            desk = after;
            if has_taken {
                patience.reset();
            } else {
                patience.wait(rt);
            }
        }
        unreachable!()
    }
}
