// Passes are dealt out at the opening: first the Glances, while one seat keeps all passes, so that nothing else can be in the log, and then the splits.
ghost use Rattle.std.specs.Prelude.{◌≡◌, ◌<◌, ◌-◌, ◌+◌};
ghost use Rattle.fn_table.specs.Seen.{fresh};
ghost use Rattle.fn_table.specs.Seats.{IsDealer};

use crate::rule::{Finds, Hands, Place, Words};
use crate::seated::Seated;
use crate::spots::all_spots;
use fn_layout::Shape;
use std::marker::Brand;

/// A Glance of the first pass, before any other has a seat.
pub fn glance(words: &Words, seat: &mut Place, taken: u32)
    requires words { 0 < words.now.table_id.words }
    requires dealer { IsDealer words.now.table_id seat.old.me.0.start 1 taken seat.old }
    requires some { 0 < seat.old.me.0.start.shape.passes }
    ensures { IsDealer words.now.table_id seat.old.me.0.start 1 (taken + 1) seat.new }
{
    let _ = taken;
    words.load::<Finds<Brand>>(seat, 0);
}

/// Gives the next number to a new pass.
pub fn deal(words: &Words, seat: &mut Place, shape: Shape, number: u32) -> Seated
    requires words { 0 < words.now.table_id.words }
    requires shape { shape ≡ seat.old.me.0.start.shape }
    requires inside { (0 < number) × (number < seat.old.me.0.start.shape.passes) }
    requires dealer { IsDealer words.now.table_id seat.old.me.0.start number (seat.old.me.0.start.shape.passes - 1) seat.old }
    ensures dealer { IsDealer words.now.table_id seat.old.me.0.start (number + 1) (seat.old.me.0.start.shape.passes - 1) seat.new }
    ensures pass { result ≡ fresh (record { table = words.now.table_id; start = seat.old.me.0.start }) number }
{
    Seated {
        seat: words.split_seat::<Hands>(seat),
        number,
        spots: all_spots(shape, number),
    }
}
