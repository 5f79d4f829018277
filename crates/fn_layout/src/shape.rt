//! The shape of a funnel and the number of each of its words.

ghost use Rattle.std.specs.Prelude.{◌≡◌, ◌≢◌, ◌+◌, ◌-◌, ◌*◌, ◌/◌, ◌%◌, ◌^◌, ◌≤◌, ◌<◌, IfOk, MatchResult, Some, None};
ghost use Rattle.fn_layout.specs.Kinds.{IsFunnelled, kind_number, field_number};
ghost use Rattle.fn_layout.specs.declared.shape.TheConstants.{MAX_PASSES, MAX_LEAVES, MAX_LEVELS, MAX_ROWS};

use fn_model::Kind;
use fn_rows::Field;

pub const MAX_PASSES: u32 = 64;

pub const MAX_LEAVES: u32 = 32;

pub const MAX_LEVELS: u32 = 3;

pub const MAX_ROWS: u32 = 8;

/// The number that makes no shape.
#[derive(Clone, Copy, Debug, PartialEq, Eq)]
pub enum ShapeFault {
    /// not 1 to 64
    Passes(u32),
    /// not 1 to the number of passes, or above 32
    Leaves(u32),
    /// not 1 to 3
    Levels(u32),
    /// not 1 to 8
    Rows(u32),
}

/// How many passes, leaves and levels a funnel has, and how many rows a pass has for each kind and level.
#[derive(Clone, Copy, Debug, PartialEq, Eq)]
pub struct Shape {
    pub passes: u32,
    pub leaves: u32,
    pub levels: u32,
    pub rows: u32,
    pub ghost passes_in_range: { (1 ≤ passes) × (passes ≤ MAX_PASSES) },
    pub ghost leaves_in_range: { (1 ≤ leaves) × (leaves ≤ passes) × (leaves ≤ MAX_LEAVES) },
    pub ghost levels_in_range: { (1 ≤ levels) × (levels ≤ MAX_LEVELS) },
    pub ghost rows_in_range: { (1 ≤ rows) × (rows ≤ MAX_ROWS) },
}

impl Shape {
    ghost use Rattle.fn_layout.specs.Shape.{first_fault, HasNumbers};
    ghost use Rattle.fn_layout.specs.Tree.{width, aggregator, first_widths, first_leaf, leaves_under, members, member, pass_of, IsLevel};
    ghost use Rattle.fn_layout.specs.Words.{Main, Value, Last, Done, Announcement, IsNamed, number, words, aggregators, slots, aggregator_number, slot_number, row_number, row_word_number, first_announcement, first_row};

    /// A shape, or the first of the four numbers that is out of its range.
    pub fn new(passes: u32, leaves: u32, levels: u32, rows: u32) -> Result<Self, ShapeFault>
        ensures made { IfOk result (λ s. HasNumbers s passes leaves levels rows) }
        ensures checked { MatchResult result (λ s. first_fault passes leaves levels rows ≡ None) (λ fault. first_fault passes leaves levels rows ≡ Some fault) }
    {
        if passes < 1 || passes > MAX_PASSES {
            return Err(ShapeFault::Passes(passes));
        }
        if leaves < 1 || leaves > passes || leaves > MAX_LEAVES {
            return Err(ShapeFault::Leaves(leaves));
        }
        if levels < 1 || levels > MAX_LEVELS {
            return Err(ShapeFault::Levels(levels));
        }
        if rows < 1 || rows > MAX_ROWS {
            return Err(ShapeFault::Rows(rows));
        }
        Ok(Shape {
            passes,
            leaves,
            levels,
            rows,
        })
    }

    pub fn passes(self) -> u32
        ensures { result ≡ self.passes }
    {
        self.passes
    }

    pub fn leaves(self) -> u32
        ensures { result ≡ self.leaves }
    {
        self.leaves
    }

    pub fn levels(self) -> u32
        ensures { result ≡ self.levels }
    {
        self.levels
    }

    /// The number of rows that a pass has for each kind and level.
    pub fn rows(self) -> u32
        ensures { result ≡ self.rows }
    {
        self.rows
    }

    /// The number of aggregators of a level.
    #[inline(always)]
    pub fn width(self, level: u32) -> u32
        requires { IsLevel self level }
        ensures exact { result ≡ width self level }
        ensures bounded { result ≤ 32 }
    {
        match level {
            1 => self.leaves,
            2 => self.leaves.div_ceil(2),
            _ => self.leaves.div_ceil(2).div_ceil(2),
        }
    }

    /// The index of the aggregator of a pass.
    #[inline(always)]
    #[tactic(auto, using(crate::proofs::Tree::aggregator_below))]
    pub fn aggregator_of(self, pass: u32, level: u32) -> u32
        requires level_in_range { IsLevel self level }
        requires pass_in_range { pass < self.passes }
        ensures exact { result ≡ aggregator self pass level }
        ensures in_range { result < width self level }
    {
        let leaf = remainder(pass, self.leaves);
        match level {
            1 => leaf,
            2 => leaf / 2,
            _ => leaf / 2 / 2,
        }
    }

    /// The number of a pass's row.
    #[inline(always)]
    pub fn row_of(self, pass: u32, kind: Kind, level: u32, r: u32) -> u32
        requires slot_in_range { IsNamed self (Announcement pass kind level) }
        requires row_in_range { r < self.rows }
        ensures exact { result ≡ row_number self pass kind level r }
        ensures in_range { result < slots self * self.rows }
    {
        self.slot(pass, kind, level) * self.rows + r
    }

    /// The number of passes of an aggregator.
    #[inline(always)]
    pub fn members(self, level: u32, index: u32) -> u32
        requires level_in_range { IsLevel self level }
        requires index_in_range { index < width self level }
        ensures exact { result ≡ members self level index }
        ensures in_range { result ≤ self.passes }
    {
        let under = self.leaves_under(level, index);
        let first = self.first_leaf(level, index);
        self.passes / self.leaves * under
            + under.min((self.passes % self.leaves).saturating_sub(first))
    }

    /// The number of a pass among the passes of its aggregator, from 0 in rising order.
    #[inline(always)]
    pub fn member(self, pass: u32, level: u32) -> u32
        requires level_in_range { IsLevel self level }
        requires pass_in_range { pass < self.passes }
        ensures exact { result ≡ member self level pass }
        ensures in_range { result < members self level (aggregator self pass level) }
    {
        let index = self.aggregator_of(pass, level);
        let first = self.first_leaf(level, index);
        quotient(pass, self.leaves) * self.leaves_under(level, index)
            + (remainder(pass, self.leaves) - first)
    }

    /// The pass with this number among the passes of an aggregator; at a leaf it is found with no division.
    #[inline(always)]
    pub fn pass_of(self, level: u32, index: u32, number: u32) -> u32
        requires level_in_range { IsLevel self level }
        requires index_in_range { index < width self level }
        requires number_in_range { number < members self level index }
        ensures exact { result ≡ pass_of self level index number }
        ensures in_range { result < self.passes }
        ensures of_aggregator { aggregator self result level ≡ index }
    {
        match level {
            1 => number * self.leaves + index,
            _ => self.pass_above(level, index, number),
        }
    }

    // .. at any level
    fn pass_above(self, level: u32, index: u32, number: u32) -> u32
        requires level_in_range { IsLevel self level }
        requires index_in_range { index < width self level }
        requires number_in_range { number < members self level index }
        ensures exact { result ≡ pass_of self level index number }
        ensures in_range { result < self.passes }
        ensures of_aggregator { aggregator self result level ≡ index }
    {
        let under = self.leaves_under(level, index);
        quotient(number, under) * self.leaves
            + (self.first_leaf(level, index) + remainder(number, under))
    }

    pub fn main_word(self) -> u32
        ensures { result ≡ number self Main }
    {
        0
    }

    #[inline(always)]
    pub fn value_word(self, kind: Kind, level: u32, index: u32) -> u32
        requires { IsNamed self (Value kind level index) }
        ensures exact { result ≡ number self (Value kind level index) }
        ensures in_range { result < words self }
    {
        1 + 3 * self.aggregator_number(kind, level, index)
    }

    #[inline(always)]
    pub fn last_word(self, kind: Kind, level: u32, index: u32) -> u32
        requires { IsNamed self (Last kind level index) }
        ensures exact { result ≡ number self (Last kind level index) }
        ensures in_range { result < words self }
    {
        2 + 3 * self.aggregator_number(kind, level, index)
    }

    #[inline(always)]
    pub fn done_word(self, kind: Kind, level: u32, index: u32) -> u32
        requires { IsNamed self (Done kind level index) }
        ensures exact { result ≡ number self (Done kind level index) }
        ensures in_range { result < words self }
    {
        3 + 3 * self.aggregator_number(kind, level, index)
    }

    #[inline(always)]
    pub fn announce_word(self, pass: u32, kind: Kind, level: u32) -> u32
        requires { IsNamed self (Announcement pass kind level) }
        ensures exact { result ≡ number self (Announcement pass kind level) }
        ensures in_range { result < words self }
    {
        self.first_announcement() + self.slot(pass, kind, level)
    }

    /// The number of one word of a row.
    #[inline(always)]
    #[tactic(auto, using(crate::proofs::Numbers::all_rows_le))]
    pub fn row_word(self, row: u32, field: Field) -> u32
        requires { row < slots self * self.rows }
        ensures exact { result ≡ row_word_number self row field }
        ensures in_range { result < words self }
    {
        self.first_row() + (3 * row + field_number(field))
    }

    /// The number of words.
    #[tactic(auto, using(crate::proofs::Numbers::all_rows_le))]
    pub fn words(self) -> u32
        ensures { result ≡ words self }
    {
        self.first_row() + 3 * (self.slots() * self.rows)
    }

    // How many leaves stand under an aggregator, where there are enough.
    #[inline(always)]
    fn reach(self, level: u32) -> u32
        requires { IsLevel self level }
        ensures exact { result ≡ 2 ^ (level - 1) }
        ensures bounded { result ≤ 4 }
    {
        match level {
            1 => 1,
            2 => 2,
            _ => 4,
        }
    }

    #[inline(always)]
    fn first_leaf(self, level: u32, index: u32) -> u32
        requires level_in_range { IsLevel self level }
        requires index_in_range { index < width self level }
        ensures exact { result ≡ first_leaf level index }
        ensures in_range { result < self.leaves }
    {
        index * self.reach(level)
    }

    #[inline(always)]
    fn leaves_under(self, level: u32, index: u32) -> u32
        requires level_in_range { IsLevel self level }
        requires index_in_range { index < width self level }
        ensures exact { result ≡ leaves_under self level index }
        ensures some { 1 ≤ result }
        ensures bounded { result ≤ 4 }
    {
        self.reach(level)
            .min(self.leaves - self.first_leaf(level, index))
    }

    /// The number of aggregators of one kind.
    #[inline(always)]
    pub fn aggregators(self) -> u32
        ensures exact { result ≡ aggregators self }
        ensures bounded { result ≤ 96 }
    {
        self.first_widths(self.levels)
    }

    // The number of aggregators of one kind on the levels up to this one.
    #[inline(always)]
    fn first_widths(self, levels: u32) -> u32
        requires { levels ≤ self.levels }
        ensures exact { result ≡ first_widths self.leaves levels }
        ensures bounded { result ≤ 96 }
    {
        match levels {
            0 => 0,
            1 => self.width(1),
            2 => self.width(1) + self.width(2),
            _ => self.width(1) + self.width(2) + self.width(3),
        }
    }

    /// The number of an aggregator among those of both kinds.
    #[inline(always)]
    pub fn aggregator_number(self, kind: Kind, level: u32, index: u32) -> u32
        requires { IsNamed self (Value kind level index) }
        ensures exact { result ≡ aggregator_number self kind level index }
        ensures in_range { result < 2 * aggregators self }
        ensures bounded { result < 192 }
    {
        kind_number(kind) * self.aggregators() + (self.first_widths(level - 1) + index)
    }

    // How many pairs of pass, kind and level there are.
    #[inline(always)]
    fn slots(self) -> u32
        ensures exact { result ≡ slots self }
        ensures bounded { result ≤ 384 }
    {
        2 * self.passes * self.levels
    }

    // The number of a pair of pass, kind and level.
    #[inline(always)]
    fn slot(self, pass: u32, kind: Kind, level: u32) -> u32
        requires { IsNamed self (Announcement pass kind level) }
        ensures exact { result ≡ slot_number self pass kind level }
        ensures in_range { result < slots self }
    {
        (2 * pass + kind_number(kind)) * self.levels + (level - 1)
    }

    #[inline(always)]
    fn first_announcement(self) -> u32
        ensures exact { result ≡ first_announcement self }
        ensures bounded { result ≤ 577 }
    {
        1 + 6 * self.aggregators()
    }

    #[inline(always)]
    fn first_row(self) -> u32
        ensures exact { result ≡ first_row self }
        ensures bounded { result ≤ 961 }
    {
        self.first_announcement() + self.slots()
    }
}

// How often one number is in another, with no division where the other is less.
#[inline(always)]
fn quotient(number: u32, by: u32) -> u32
    requires { 1 ≤ by }
    ensures { result ≡ number / by }
{
    if number < by { 0 } else { number / by }
}

// What such a division leaves.
#[inline(always)]
fn remainder(number: u32, by: u32) -> u32
    requires { 1 ≤ by }
    ensures { result ≡ number % by }
{
    if number < by { number } else { number % by }
}

// The number of a kind of calls.
#[inline(always)]
fn kind_number(kind: Kind) -> u32
    ensures { result ≡ kind_number kind }
{
    match kind {
        Kind::Add => 0,
        Kind::Sub => 1,
        Kind::Read => 2,
    }
}

/// The place of a word in its row.
#[inline(always)]
pub fn field_number(field: Field) -> u32
    ensures { result ≡ field_number field }
{
    match field {
        Field::Lo => 0,
        Field::Base => 1,
        Field::Prev => 2,
    }
}
