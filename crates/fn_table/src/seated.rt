// A seat that keeps one number, and the number of the word that each step of it is on.
ghost use Rattle.std.specs.Prelude.{◌≡◌, ◌≢◌};
ghost use Rattle.fn_model.specs.declared.Kind.TheVariants.{Read};
ghost use Rattle.fn_layout.specs.Tree.{IsLevel};
ghost use Rattle.fn_layout.specs.Words.{Announcement, IsNamed, IsSlot, row_name, number};
ghost use Rattle.fn_core.specs.Words.{name_of};
ghost use Rattle.fn_table.specs.Spots.{spot_of};

use crate::rule::Place;
use crate::spots::{Spot, Spots};
use fn_core::Move;
use fn_layout::{Field, Kind, Shape, field_number};
use std::marker::Model;

/// A seat with its number, and the numbers of its words. Contracts see its table, its number there, and the log that it has seen.
#[derive(Drop)]
pub struct Seated {
    pub(crate) seat: Place,
    pub(crate) number: u32,
    pub(crate) spots: Spots,
}

impl Model for Seated {
    ghost use Rattle.std.specs.Prelude.{◌≡◌, ◌<◌, []};
    ghost use Rattle.fn_core.specs.Calls.{IsLegal};
    ghost use Rattle.fn_table.specs.Seen.{PassView};
    ghost use Rattle.fn_table.specs.Spots.{spots_of};
    ghost use Rattle.fn_table.specs.Seats.{shown, HasOne};

    ghost Value = { PassView };

    ghost view = { λ p. shown p.seat.table_id p.number p.seat.me.0 };

    ghost invariant = { λ p. HasOne p.number p.seat.me.0 × (p.seat.me.1 ≡ []) × IsLegal (shown p.seat.table_id p.number p.seat.me.0).seen × (p.number < p.seat.me.0.start.shape.passes) × (p.spots ≡ spots_of p.seat.me.0.start.shape p.number) };
}

impl Seated {
    /// Where the pass stands at its aggregator of this kind and level.
    #[inline(always)]
    pub fn spot(&self, kind: Kind, level: u32) -> Spot
        requires funnelled { kind ≢ Read }
        requires level { IsLevel self.now.seen.start.shape level }
        ensures { result ≡ spot_of self.now.seen.start.shape self.now.number kind level }
    {
        let spots = match kind {
            Kind::Sub => &self.spots.subtracting,
            _ => &self.spots.adding,
        };
        spots[(level - 1) as usize]
    }

    // The word in which a pass announces at this kind and level.
    #[inline(always)]
    fn announcement_of(&self, shape: Shape, kind: Kind, level: u32, pass: u32) -> u32
        requires shape { shape ≡ self.now.seen.start.shape }
        requires slot { IsSlot self.now.seen.start.shape pass kind level }
        ensures { result ≡ number self.now.seen.start.shape (Announcement pass kind level) }
    {
        self.spot(kind, level).first_announcement + 2 * pass * shape.levels()
    }

    // The word of a row.
    #[inline(always)]
    fn row_word(&self, row: u32, field: Field) -> u32
        requires { IsNamed self.now.seen.start.shape (row_name self.now.seen.start.shape row field) }
        ensures { result ≡ number self.now.seen.start.shape (row_name self.now.seen.start.shape row field) }
    {
        self.spots.rows + (3 * row + field_number(field))
    }

    /// The number of the word that the pass's step is on.
    #[inline(always)]
    pub fn word_of(&self, shape: Shape, step: Move) -> u32
        requires shape { shape ≡ self.now.seen.start.shape }
        requires named { IsNamed self.now.seen.start.shape (name_of self.now.seen.start.shape self.now.number step) }
        ensures { result ≡ number self.now.seen.start.shape (name_of self.now.seen.start.shape self.now.number step) }
    {
        match step {
            Move::Scan { kind, level, other } => self.announcement_of(shape, kind, level, other),
            Move::See { kind, level } => self.spot(kind, level).done,
            Move::Announce { kind, level } => self.spot(kind, level).announcement,
            Move::Arrive { kind, level, .. } => self.spot(kind, level).value,
            Move::Look { kind, level } => self.spot(kind, level).done,
            Move::Close { kind, level } => self.spot(kind, level).value,
            Move::Head { kind, level } => self.spot(kind, level).last,
            Move::Fill { row, field } => self.row_word(row, field),
            Move::Point { kind, level, .. } => self.spot(kind, level).last,
            Move::Publish { kind, level } => self.spot(kind, level).done,
            Move::Peek { row, field } => self.row_word(row, field),
            Move::Leave { kind, level } => self.spot(kind, level).announcement,
            Move::Apply { .. }
            | Move::Load { .. }
            | Move::Exchange { .. }
            | Move::Direct { .. }
            | Move::Glance => shape.main_word(),
        }
    }
}
