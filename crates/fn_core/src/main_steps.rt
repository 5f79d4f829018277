//! The steps of a pass on the main word.

ghost use Rattle.std.specs.Prelude.{◌≡◌};
ghost use Rattle.fn_core.specs.declared.Move.TheVariants.{Apply, Load, Exchange, Direct};
ghost use Rattle.fn_core.specs.declared.Position.TheVariants.{Trying, Climbing, Deciding};
ghost use Rattle.fn_core.specs.Fields.{tried};

use crate::answer::Answer;
use crate::machine::Machine;
use crate::{Position, Purpose};
use fn_layout::Kind;
use fn_model::after_capped;

impl Machine {
    ghost use Rattle.fn_core.specs.Fields.{MayTake, Takes, StandsAt};

    /// Adds the weight of a batch to the main word.
    pub fn apply_batch(&mut self, pass: u32, weight: u64) -> Answer
        requires { MayTake self.old pass (Apply weight) }
        ensures start { self.new.start ≡ self.old.start }
        ensures takes { Takes self.old self.new pass (Apply weight) result }
    {
        let level = self.start.shape.levels();
        let (place, member) = self.seat(pass, Kind::Add, level);
        let base = self.main;
        self.rows[place].hand_base(member, base);
        self.main = after_capped(self.start.cap, base, Kind::Add, weight);
        Answer::Word(base)
    }

    /// Loads the main word, for a try or as a read.
    pub fn load(&mut self, pass: u32, purpose: Purpose) -> Answer
        requires { MayTake self.old pass (Load purpose) }
        ensures start { self.new.start ≡ self.old.start }
        ensures takes { Takes self.old self.new pass (Load purpose) result }
    {
        match purpose {
            Purpose::Read => Answer::Word(self.main),
            Purpose::Try => {
                let word = self.main;
                let position = tried(self.standings[pass as usize].position, word);
                self.standings[pass as usize].position = position;
                Answer::Word(word)
            }
        }
    }

    /// Changes the main word where it is still the loaded one.
    pub fn exchange(&mut self, pass: u32, kind: Kind, amount: u64) -> Answer
        requires { MayTake self.old pass (Exchange kind amount) }
        ensures start { self.new.start ≡ self.old.start }
        ensures takes { Takes self.old self.new pass (Exchange kind amount) result }
    {
        match self.standings[pass as usize].position {
            Position::Trying { word } => self.exchange_direct(pass, kind, amount, word),
            Position::Deciding { level, word, .. } => self.exchange_batch(
                pass, kind, level, amount, word,
            ),
            _ => Answer::Won,
        }
    }

    /// Adds to the main word as a call of its own.
    pub fn direct(&mut self, pass: u32, amount: u64) -> Answer
        requires { MayTake self.old pass (Direct amount) }
        ensures start { self.new.start ≡ self.old.start }
        ensures takes { Takes self.old self.new pass (Direct amount) result }
    {
        let before = self.main;
        self.main = after_capped(self.start.cap, before, Kind::Add, amount);
        self.standings[pass as usize].left -= amount;
        Answer::Word(before)
    }

    // Changes the main word for a direct call that has loaded this word.
    fn exchange_direct(&mut self, pass: u32, kind: Kind, amount: u64, loaded: u64) -> Answer
        requires may { MayTake self.old pass (Exchange kind amount) }
        requires trying { StandsAt self.old pass (Trying loaded) }
        ensures start { self.new.start ≡ self.old.start }
        ensures takes { Takes self.old self.new pass (Exchange kind amount) result }
    {
        let found = self.main;
        if found == loaded {
            self.main = after_capped(self.start.cap, found, kind, amount);
            self.standings[pass as usize].left -= amount;
            self.standings[pass as usize].position = Position::Resting;
            Answer::Won
        } else {
            self.standings[pass as usize].position = Position::Resting;
            Answer::Lost { loaded, found }
        }
    }

    // Changes the main word for a batch that has loaded this word.
    fn exchange_batch(
        &mut self,
        pass: u32,
        kind: Kind,
        level: u32,
        weight: u64,
        loaded: u64,
    ) -> Answer
        requires may { MayTake self.old pass (Exchange kind weight) }
        requires deciding { StandsAt self.old pass (Deciding kind level loaded) }
        ensures start { self.new.start ≡ self.old.start }
        ensures takes { Takes self.old self.new pass (Exchange kind weight) result }
    {
        let base = self.main;
        if base == loaded {
            let (place, member) = self.seat(pass, kind, level);
            self.rows[place].hand_base(member, base);
            self.main = after_capped(self.start.cap, base, kind, weight);
            self.standings[pass as usize].position = Position::Climbing { kind, level };
            Answer::Won
        } else {
            self.standings[pass as usize].position = Position::Climbing { kind, level };
            Answer::Lost {
                loaded,
                found: base,
            }
        }
    }
}

// Where a pass stands that has loaded the main word for a try.
fn tried(position: Position, word: u64) -> Position
    ensures { result ≡ tried position word }
{
    match position {
        Position::Climbing { kind, level } => Position::Deciding { kind, level, word },
        _ => Position::Trying { word },
    }
}
