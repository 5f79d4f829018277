//! The steps of a pass at its aggregators.

ghost use Rattle.std.specs.Prelude.{◌≡◌, ◌≢◌, ◌<◌, ◌≤◌, ◌*◌, ◌/◌, ℕ, Some};
ghost use Rattle.fn_layout.specs.Tree.{aggregator, members};
ghost use Rattle.fn_layout.specs.Words.{IsAggregator, IsSlot};
ghost use Rattle.fn_rows.specs.Aggregator.{asked};
ghost use Rattle.fn_rows.specs.declared.Field.{Field};
ghost use Rattle.fn_rows.specs.declared.Field.TheVariants.{Prev};
ghost use Rattle.fn_core.specs.Machine.{word_of};
ghost use Rattle.fn_core.specs.State.{reply_of};
ghost use Rattle.fn_core.specs.Words.{link, row_there, told_field, NamesMine};
ghost use Rattle.fn_core.specs.declared.Move.TheVariants.{Scan, See, Announce, Arrive, Look, Close, Head, Fill, Point, Publish, Peek, Leave};

use crate::Position;
use crate::answer::Answer;
use crate::machine::Machine;
use fn_layout::{Field, Kind};
use fn_model::{NO_CAP, after_capped};
use fn_rows::Stage;

impl Machine {
    ghost use Rattle.fn_core.specs.Fields.{MayTake, Takes};

    /// Loads the announcement of another pass.
    #[inline(always)]
    pub fn scan(&mut self, pass: u32, kind: Kind, level: u32, other: u32) -> Answer
        requires { MayTake self.old pass (Scan kind level other) }
        ensures start { self.new.start ≡ self.old.start }
        ensures takes { Takes self.old self.new pass (Scan kind level other) result }
    {
        let (place, member) = self.seat(pass, kind, level);
        let scanned = self.start.shape.member(other, level);
        Answer::Word(self.rows[place].scan(member, scanned))
    }

    /// Loads `done`, before the pass announces it.
    pub fn see(&mut self, pass: u32, kind: Kind, level: u32) -> Answer
        requires { MayTake self.old pass (See kind level) }
        ensures start { self.new.start ≡ self.old.start }
        ensures takes { Takes self.old self.new pass (See kind level) result }
    {
        let (place, member) = self.seat(pass, kind, level);
        let done = self.rows[place].see(member);
        self.standings[pass as usize].position = Position::Climbing { kind, level };
        Answer::Word(done)
    }

    /// Stores what the pass saw.
    pub fn announce(&mut self, pass: u32, kind: Kind, level: u32) -> Answer
        requires { MayTake self.old pass (Announce kind level) }
        ensures start { self.new.start ≡ self.old.start }
        ensures takes { Takes self.old self.new pass (Announce kind level) result }
    {
        let (place, member) = self.seat(pass, kind, level);
        self.rows[place].announce(member);
        Answer::Stored
    }

    /// Adds the weight to the value; at level 1 a call begins, and spends it.
    pub fn arrive(&mut self, pass: u32, kind: Kind, level: u32, weight: u64) -> Answer
        requires { MayTake self.old pass (Arrive kind level weight) }
        ensures start { self.new.start ≡ self.old.start }
        ensures takes { Takes self.old self.new pass (Arrive kind level weight) result }
    {
        let (place, member) = self.seat(pass, kind, level);
        let offset = self.rows[place].arrive(member, weight);
        match level {
            1 => {
                self.standings[pass as usize].left -= weight;
                Answer::Word(offset)
            }
            _ => Answer::Word(offset),
        }
    }

    /// Loads `done`, by which the pass learns whether it leads, waits or is late.
    pub fn look(&mut self, pass: u32, kind: Kind, level: u32) -> Answer
        requires { MayTake self.old pass (Look kind level) }
        ensures start { self.new.start ≡ self.old.start }
        ensures takes { Takes self.old self.new pass (Look kind level) result }
    {
        let (place, member) = self.seat(pass, kind, level);
        Answer::Word(self.rows[place].look(member))
    }

    /// Loads the value, which ends the batch of the pass.
    pub fn close_batch(&mut self, pass: u32, kind: Kind, level: u32) -> Answer
        requires { MayTake self.old pass (Close kind level) }
        ensures start { self.new.start ≡ self.old.start }
        ensures takes { Takes self.old self.new pass (Close kind level) result }
    {
        let (place, member) = self.seat(pass, kind, level);
        Answer::Word(self.rows[place].close_batch(member))
    }

    /// Loads `last`, by which a delegate links its batch and a late pass begins its walk.
    pub fn head(&mut self, pass: u32, kind: Kind, level: u32) -> Answer
        requires { MayTake self.old pass (Head kind level) }
        ensures start { self.new.start ≡ self.old.start }
        ensures takes { Takes self.old self.new pass (Head kind level) result }
    {
        let (place, member) = self.seat(pass, kind, level);
        let word = self.rows[place].head(member);
        let index = self.start.shape.aggregator_of(pass, level);
        Answer::Word(self.link(kind, level, index, word))
    }

    // The word that names this row of an aggregator by the numbers of the layout.
    fn link(&self, kind: Kind, level: u32, index: u32, word: u64) -> u64
        requires place { IsAggregator self.now.start.shape kind level index }
        requires mine { NamesMine self.now.start.shape level index word }
        ensures { result ≡ link self.now.start.shape kind level index word }
    {
        if word == 0 {
            return 0;
        }
        u64::from(self.row_in(kind, level, index, word - 1)) + 1
    }

    /// The row with this number at an aggregator, by its number in the layout.
    pub fn row_in(&self, kind: Kind, level: u32, index: u32, row: u64) -> u32
        requires place { IsAggregator self.now.start.shape kind level index }
        requires named { row / self.now.start.shape.rows < members self.now.start.shape level index }
        ensures { result ≡ row_there self.now.start.shape kind level index row }
    {
        let shape = self.start.shape;
        let rows = u64::from(shape.rows());
        let pass = shape.pass_of(level, index, (row / rows) as u32);
        shape.row_of(pass, kind, level, (row % rows) as u32)
    }

    /// Stores one word of the row that the call fills.
    pub fn fill(&mut self, pass: u32, row: u32, field: Field) -> Answer
        requires { MayTake self.old pass (Fill row field) }
        ensures start { self.new.start ≡ self.old.start }
        ensures takes { Takes self.old self.new pass (Fill row field) result }
    {
        match self.standings[pass as usize].position {
            Position::Climbing { kind, level } => {
                let (place, member) = self.seat(pass, kind, level);
                let word = word_filled(field, self.rows[place].stage(member));
                let number = self.local_row(pass, level, row);
                self.rows[place].fill(member, number, field, word);
                Answer::Stored
            }
            _ => Answer::Stored,
        }
    }

    /// Makes `last` name the row that the call has filled.
    pub fn point(&mut self, pass: u32, kind: Kind, level: u32, row: u32) -> Answer
        requires { MayTake self.old pass (Point kind level row) }
        ensures start { self.new.start ≡ self.old.start }
        ensures takes { Takes self.old self.new pass (Point kind level row) result }
    {
        let (place, member) = self.seat(pass, kind, level);
        let number = self.local_row(pass, level, row);
        self.rows[place].point(member, number);
        Answer::Stored
    }

    /// Publishes the batch of the pass.
    pub fn publish(&mut self, pass: u32, kind: Kind, level: u32) -> Answer
        requires { MayTake self.old pass (Publish kind level) }
        ensures start { self.new.start ≡ self.old.start }
        ensures takes { Takes self.old self.new pass (Publish kind level) result }
    {
        let (place, member) = self.seat(pass, kind, level);
        match self.rows[place].stage(member) {
            Stage::Pointed(_, end, _, _) => {
                self.rows[place].publish(member, end);
                Answer::Stored
            }
            _ => Answer::Stored,
        }
    }

    /// Loads one word of the row in hand.
    pub fn peek(&mut self, pass: u32, row: u32, field: Field) -> Answer
        requires { MayTake self.old pass (Peek row field) }
        ensures start { self.new.start ≡ self.old.start }
        ensures takes { Takes self.old self.new pass (Peek row field) result }
    {
        match self.standings[pass as usize].position {
            Position::Climbing { kind, level } => {
                let (place, member) = self.seat(pass, kind, level);
                let number = row_in_hand(self.rows[place].stage(member)) as u32;
                let word = self.rows[place].peek(member, number, field);
                Answer::Word(self.told(pass, kind, level, field, word))
            }
            _ => Answer::Stored,
        }
    }

    /// Takes the announcement back; the call ends, or goes down a level with the base that it got.
    pub fn leave(&mut self, pass: u32, kind: Kind, level: u32) -> Answer
        requires { MayTake self.old pass (Leave kind level) }
        ensures start { self.new.start ≡ self.old.start }
        ensures takes { Takes self.old self.new pass (Leave kind level) result }
    {
        match level {
            1 => self.end_call(pass, kind),
            _ => self.descend(pass, kind, level),
        }
    }

    // What the table has for this field of a row at the pass's aggregator, where the row has this word.
    fn told(&self, pass: u32, kind: Kind, level: u32, field: Field, word: u64) -> u64
        requires slot { IsSlot self.now.start.shape pass kind level }
        requires mine { field ≡ Prev → NamesMine self.now.start.shape level (aggregator self.now.start.shape pass level) word }
        ensures { result ≡ told_field self.now.start.shape kind level (aggregator self.now.start.shape pass level) field word }
    {
        let index = self.start.shape.aggregator_of(pass, level);
        match field {
            Field::Prev => self.link(kind, level, index, word),
            _ => word,
        }
    }

    // The call of the pass ends.
    fn end_call(&mut self, pass: u32, kind: Kind) -> Answer
        requires { MayTake self.old pass (Leave kind 1) }
        ensures start { self.new.start ≡ self.old.start }
        ensures takes { Takes self.old self.new pass (Leave kind 1) result }
    {
        let (place, member) = self.seat(pass, kind, 1);
        self.rows[place].leave(member);
        self.standings[pass as usize].position = Position::Resting;
        Answer::Stored
    }

    // The call of the pass goes down a level, with the base of its batch there.
    fn descend(&mut self, pass: u32, kind: Kind, level: u32) -> Answer
        requires may { MayTake self.old pass (Leave kind level) }
        requires above { level ≢ 1 }
        ensures start { self.new.start ≡ self.old.start }
        ensures takes { Takes self.old self.new pass (Leave kind level) result }
    {
        let (place, member) = self.seat(pass, kind, level);
        let base = reply_of(self.start.cap, kind, self.rows[place].stage(member));
        self.rows[place].leave(member);
        let (below, number) = self.seat(pass, kind, level - 1);
        self.rows[below].hand_base(number, base);
        self.standings[pass as usize].position = Position::Climbing {
            kind,
            level: level - 1,
        };
        Answer::Stored
    }
}

// The word that a call at this stage stores into the field of its row.
fn word_filled(field: Field, stage: Stage) -> u64
    ensures { result ≡ word_of field stage }
{
    match (field, stage) {
        (Field::Lo, Stage::Headed(offset, _, _, _)) => offset,
        (Field::Base, Stage::FilledLo(_, _, base, _, _)) => base,
        (Field::Prev, Stage::FilledBase(_, _, _, head, _)) => head,
        _ => 0,
    }
}

// The row that a late call has in hand at this stage.
fn row_in_hand(stage: Stage) -> u64
    ensures { (row : ℕ) (field : Field) → asked stage ≡ Some (row, field) → result ≡ row }
{
    match stage {
        Stage::At(_, row) | Stage::Over(_, row) | Stage::Hit(_, row, _) => row,
        _ => 0,
    }
}

// The number that a call meets which has this base and stands so far behind it.
pub(crate) fn reply_of(cap: u64, kind: Kind, stage: Stage) -> u64
    requires { cap ≤ NO_CAP }
    ensures { result ≡ reply_of cap kind stage }
{
    match stage {
        Stage::Got(base, ahead) => after_capped(cap, base, kind, ahead),
        _ => 0,
    }
}
