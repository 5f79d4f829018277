//! The list of a funnel's events, which only contracts see: it takes no memory at run time.

ghost use Rattle.std.specs.Prelude.{◌≡◌, [], ◌∷◌, ◌++◌};

use crate::Event;
use std::marker::Model;
use std::snapshot::Snapshot;

/// The events in order, as the log before the last one and the last one.
#[cycle(log)]
#[derive(Drop)]
pub(crate) struct EventLog {
    added: Option<(Snapshot<EventLog>, Snapshot<Event>)>,
}

impl Model for EventLog {
    ghost use Rattle.std.specs.Prelude.{List, [], ◌∷◌, ◌++◌, length, unwrap_or, option_map};
    ghost use Rattle.fn_core.specs.declared.Event.{Event};

    ghost Value = { List Event };

    ghost view = { λ log. unwrap_or (option_map (λ added. added.0.value ++ added.1.value ∷ []) log.added) [] };

    ghost size = { length };

    ghost use Rattle.std.proofs.Common.{arith, length-append};

    ghost size_decreases = { λ log holds. Prim.grind (arith, length-append) };
}

impl EventLog {
    // A log of no events.
    pub(crate) fn new() -> EventLog
        ensures { result ≡ [] }
    {
        EventLog { added: None }
    }

    // Adds an event at the end.
    pub(crate) fn push(&mut self, event: Event)
        ensures { self.new ≡ self.old ++ event ∷ [] }
    {
        let earlier = Snapshot::of(self);
        self.added = Some((earlier, Snapshot::of(&event)));
    }

    // Adds events at the end.
    pub(crate) fn extend(&mut self, events: &[Event])
        ensures { self.new ≡ self.old ++ events.now }
    {
        for event in events {
            self.push(*event);
        }
    }
}
