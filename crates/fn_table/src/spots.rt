//! Where a pass stands at its aggregators, reckoned when the pass is made, so that no step reckons a number anew.
ghost use Rattle.std.specs.Prelude.{◌≡◌, ◌≢◌, ◌<◌};
ghost use Rattle.fn_model.specs.declared.Kind.TheVariants.{Read};
ghost use Rattle.fn_layout.specs.Words.{IsSlot};
ghost use Rattle.fn_table.specs.Spots.{spot_of, level_spots, spots_of};

use fn_layout::{Field, Kind, Shape};

/// Where a pass stands at one of its aggregators: the numbers of that one's words, of the word in which the pass announces, and of the one in which the first pass does; the aggregator's index on its level, and how many passes it has; the first of the pass's rows there, and the place of that row's end among those of all its rows.
#[derive(Clone, Copy, Drop)]
pub struct Spot {
    pub value: u32,
    pub last: u32,
    pub done: u32,
    pub announcement: u32,
    pub first_announcement: u32,
    pub index: u32,
    pub members: u32,
    pub row: u32,
    pub end: u32,
}

/// Where it stands at all of them: at each level, the first level first, for additions and for subtractions; and the number of the first word of the rows.
#[derive(Clone, Copy, Drop)]
pub struct Spots {
    pub adding: [Spot; 3],
    pub subtracting: [Spot; 3],
    pub rows: u32,
}

// Where a pass stands at its aggregator of this kind and level.
fn spot_at(shape: Shape, pass: u32, kind: Kind, level: u32) -> Spot
    requires { IsSlot shape pass kind level }
    ensures { result ≡ spot_of shape pass kind level }
{
    let index = shape.aggregator_of(pass, level);
    Spot {
        value: shape.value_word(kind, level, index),
        last: shape.last_word(kind, level, index),
        done: shape.done_word(kind, level, index),
        announcement: shape.announce_word(pass, kind, level),
        first_announcement: shape.announce_word(0, kind, level),
        index,
        members: shape.members(level, index),
        row: shape.row_of(pass, kind, level, 0),
        end: shape.row_of(0, kind, level, 0),
    }
}

// .. at each level; above the top level stand the top's once more
fn level_spots(shape: Shape, pass: u32, kind: Kind) -> [Spot; 3]
    requires pass { pass < shape.passes }
    requires funnelled { kind ≢ Read }
    ensures { result ≡ level_spots shape pass kind }
{
    let top = shape.levels();
    [
        spot_at(shape, pass, kind, 1),
        spot_at(shape, pass, kind, top.min(2)),
        spot_at(shape, pass, kind, top),
    ]
}

/// Where a pass stands at all its aggregators.
pub fn all_spots(shape: Shape, pass: u32) -> Spots
    requires { pass < shape.passes }
    ensures { result ≡ spots_of shape pass }
{
    Spots {
        adding: level_spots(shape, pass, Kind::Add),
        subtracting: level_spots(shape, pass, Kind::Sub),
        rows: shape.row_word(0, Field::Lo),
    }
}
