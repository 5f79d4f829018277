//! The callers of a table.

ghost use Rattle.std.specs.Prelude.{◌≡◌, ◌≢◌, ◌<◌};

use crate::rule::Place;
use crate::seated::Seated;
use crate::spots::Spot;
use crate::table::FunnelTable;
use crate::tally::Tally;
use fn_layout::Kind;
use std::marker::Model;

/// A caller. Contracts see its table, its number there, and the log that it has seen.
#[derive(Drop)]
pub struct Pass {
    pub(crate) caller: Seated,
    pub(crate) tally: Tally,
}

impl Model for Pass {
    ghost use Rattle.fn_table.specs.Seen.{PassView};
    ghost use Rattle.fn_table.specs.Kept.{Keeps};

    ghost Value = { PassView };

    ghost view = { λ p. p.caller };

    ghost invariant = { λ p. Keeps p.caller p.tally };
}

impl Pass {
    ghost use Rattle.fn_model.specs.declared.Kind.TheVariants.{Read};
    ghost use Rattle.fn_layout.specs.Tree.{IsLevel};
    ghost use Rattle.fn_layout.specs.Words.{IsSlot};
    ghost use Rattle.fn_core.specs.Calls.{IsLegal, left_of};
    ghost use Rattle.fn_table.specs.Seen.{IsOf, own_of};
    ghost use Rattle.fn_table.specs.Spots.{spot_of};

    /// The pass's number at its table.
    pub fn number(&self) -> u32
        ensures number { result ≡ self.now.number }
        ensures in_range { result < self.now.seen.start.shape.passes }
        ensures legal { IsLegal self.now.seen }
    {
        self.caller.number
    }

    /// What is left of the pass's allowance.
    pub fn allowance(&self) -> u64
        ensures { result ≡ left_of self.now.seen self.now.number }
    {
        self.tally.left
    }

    /// Where the pass stands at its aggregator of this kind and level.
    #[inline(always)]
    pub fn spot(&self, kind: Kind, level: u32) -> Spot
        requires funnelled { kind ≢ Read }
        requires level { IsLevel self.now.seen.start.shape level }
        ensures { result ≡ spot_of self.now.seen.start.shape self.now.number kind level }
    {
        self.caller.spot(kind, level)
    }

    /// The end of the batch that was published last in the pass's row of this number among those of the kind and level, or 0.
    pub fn row_end(&self, table: &FunnelTable, kind: Kind, level: u32, row: u32) -> u64
        requires together { IsOf table.now self.now }
        requires slot { IsSlot table.now.start.shape self.now.number kind level }
        requires row { row < table.now.start.shape.rows }
        ensures { result ≡ (own_of self.now).ends kind level row }
    {
        let _ = table;
        self.tally.row_end(self.spot(kind, level).end + row)
    }
}

/// A copy of what a pass had seen, which any thread may carry. Contracts see its table and its log.
#[derive(Drop)]
pub struct Note {
    pub(crate) seat: Place,
}

impl Model for Note {
    ghost use Rattle.std.specs.Prelude.{◌≡◌, []};
    ghost use Rattle.fn_table.specs.Seen.{NoteView};
    ghost use Rattle.fn_table.specs.Seats.{shown_note, HasNone};

    ghost Value = { NoteView };

    ghost view = { λ n. shown_note n.seat.table_id n.seat.me.0 };

    ghost invariant = { λ n. HasNone n.seat.me.0 × (n.seat.me.1 ≡ []) };
}
