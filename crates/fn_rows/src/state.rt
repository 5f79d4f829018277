//! The rows of one aggregator as a value.

ghost use Rattle.std.specs.Prelude.{◌≡◌, ◌↔◌, ◌+◌, ◌*◌, ◌<◌, ◌≤◌, ◌^◌, ℕ, Some, IsTrue, IfOk, length};
ghost use Rattle.fn_rows.specs.Machine.{Scan, Leave, See, Announce, Arrive, Look, Close, Hand_base, Head, Fill, Point, Publish, Peek, Lets, IsFree};
ghost use Rattle.fn_rows.specs.Found.{Forgets};
ghost use Rattle.fn_rows.specs.Aggregator.{May, Starts, Steps, IsReached, state_of, word_of, end_held, asked, HasLet, AllLet};
ghost use Rattle.fn_rows.specs.Trace.{Traced};
ghost use Rattle.fn_rows.specs.Law.{IsLawful, row_named};

use crate::stages::{
    stage_closed, stage_filled, stage_handed, stage_headed, stage_looked, stage_peeked,
    stage_pointed,
};
use crate::{Field, Stage};
use std::alloc::{AllocError, Global};
use std::marker::Model;

/// Memory ran out.
#[derive(Clone, Copy, Debug, PartialEq, Eq)]
pub struct NoMemory;

impl From<AllocError> for NoMemory {
    fn from(_: AllocError) -> Self {
        NoMemory
    }
}

/// The words of one aggregator, the ends of its rows, and where its members stand.
#[derive(Drop)]
pub struct RowState {
    members: u32,
    rows: u32,
    total: u64,
    done: u64,
    last: u64,
    announced: Vec<u64>,
    lo: Vec<u64>,
    base: Vec<u64>,
    prev: Vec<u64>,
    end: Vec<u64>,
    stage: Vec<Stage>,
    // what each member found of each other
    found: Vec<Option<u64>>,
}

impl Model for RowState {
    ghost use Rattle.fn_rows.specs.Aggregator.{Aggregator};

    ghost Value = { Aggregator };

    ghost use Rattle.fn_rows.specs.Aggregator.{IsReached};
    ghost use Rattle.fn_rows.specs.Inside.{value_of};

    ghost view = { value_of };

    ghost invariant = { λ s. IsReached (value_of s) };
}

/// Whether an announcement that was found lets a row with this end be filled again.
pub fn lets(word: u64, end: u64) -> bool
    ensures { IsTrue result ↔ Lets word end }
{
    word == 0 || end < word
}

// Forgets what stands in these places.
fn forget(found: &mut [Option<u64>], start: usize, count: usize)
    requires { start + count ≤ length found.old }
    ensures { Forgets found.old found.new start count }
{
    for k in 0..count {
        found[start + k] = None;
    }
}

impl RowState {
    /// An aggregator that nobody has reached.
    pub fn new(alloc: Global, members: u32, rows: u32) -> Result<RowState, NoMemory>
        requires { (1 ≤ members) × (members ≤ 64) × (1 ≤ rows) × (rows ≤ 8) }
        ensures { IfOk result (λ s. Starts s members rows) }
    {
        let few = members as usize;
        let all = few * rows as usize;
        Ok(RowState {
            members,
            rows,
            total: 0,
            done: 0,
            last: 0,
            announced: vec![in alloc; 0; few]?,
            lo: vec![in alloc; 0; all]?,
            base: vec![in alloc; 0; all]?,
            prev: vec![in alloc; 0; all]?,
            end: vec![in alloc; 0; all]?,
            stage: vec![in alloc; Stage::Out; few]?,
            found: vec![in alloc; None; few * few]?,
        })
    }

    /// Where the member stands.
    #[inline(always)]
    pub fn stage(&self, member: u32) -> Stage
        requires { member < self.now.members }
        ensures { result ≡ (state_of self.now).stage member }
    {
        self.stage[member as usize]
    }

    /// The number that the member has announced plus 1, or 0.
    #[inline(always)]
    pub fn announced(&self, member: u32) -> u64
        requires { member < self.now.members }
        ensures { result ≡ (state_of self.now).announced member }
    {
        self.announced[member as usize]
    }

    /// The end of the batch that was published last in this row, or 0.
    #[inline(always)]
    pub fn end(&self, row: u32) -> u64
        requires { row < self.now.members * self.now.rows }
        ensures { result ≡ (state_of self.now).end row }
    {
        self.end[row as usize]
    }

    /// Whether the member may fill this row again: it was never filled, or each other member's announcement was found and lets it.
    pub fn is_free(&self, member: u32, row: u32) -> bool
        requires member { member < self.now.members }
        requires row { row < self.now.members * self.now.rows }
        ensures { IsTrue result ↔ IsFree self.now.members (state_of self.now) member row }
    {
        let end = self.end(row);
        end == 0 || self.all_let(member, end)
    }

    // Whether the member's scans found of each other member an announcement that lets a row with this end be filled.
    fn all_let(&self, member: u32, end: u64) -> bool
        requires { member < self.now.members }
        ensures { IsTrue result ↔ AllLet self.now member end }
    {
        for other in 0..self.members {
            if other != member && !self.has_let(member, other, end) {
                return false;
            }
        }
        true
    }

    // Whether the member's last scan of the other found an announcement that lets a row with this end be filled.
    fn has_let(&self, member: u32, other: u32, end: u64) -> bool
        requires { (member < self.now.members) × (other < self.now.members) }
        ensures { IsTrue result ↔ HasLet self.now member other end }
    {
        let place = member as usize * self.members as usize + other as usize;
        match self.found[place] {
            Some(word) => lets(word, end),
            None => false,
        }
    }

    // A word of a row.
    fn word(&self, row: u32, field: Field) -> u64
        requires { row < self.now.members * self.now.rows }
        ensures { result ≡ word_of (state_of self.now) row field }
    {
        match field {
            Field::Lo => self.lo[row as usize],
            Field::Base => self.base[row as usize],
            Field::Prev => self.prev[row as usize],
        }
    }

    /// Gives `done`, before the member announces it.
    pub fn see(&mut self, member: u32) -> u64
        requires { May self.old (See member) }
        ensures step { Steps self.old self.new (See member) }
        ensures word { result ≡ self.old.done }
    {
        let done = self.done;
        self.stage[member as usize] = Stage::Saw(done);
        done
    }

    /// Stores what the member saw.
    pub fn announce(&mut self, member: u32)
        requires { May self.old (Announce member) }
        ensures { Steps self.old self.new (Announce member) }
    {
        if let Stage::Saw(seen) = self.stage(member) {
            self.announced[member as usize] = seen + 1;
            self.stage[member as usize] = Stage::Told(seen);
        }
    }

    /// Adds the weight, and gives the member its offset.
    pub fn arrive(&mut self, member: u32, weight: u64) -> u64
        requires may { May self.old (Arrive member weight) }
        requires room { self.old.total + weight < 2 ^ 63 }
        ensures step { Steps self.old self.new (Arrive member weight) }
        ensures word { result ≡ self.old.total }
    {
        let offset = self.total;
        self.total = offset + weight;
        self.stage[member as usize] = Stage::Waiting(offset);
        offset
    }

    /// Gives `done`, by which the member learns whether it leads, waits or is late.
    pub fn look(&mut self, member: u32) -> u64
        requires { May self.old (Look member) }
        ensures step { Steps self.old self.new (Look member) }
        ensures word { result ≡ self.old.done }
    {
        let next = stage_looked(self.stage(member), self.done);
        self.stage[member as usize] = next;
        self.done
    }

    /// Gives the total, which is the end of the leading member's batch.
    pub fn close_batch(&mut self, member: u32) -> u64
        requires { May self.old (Close member) }
        ensures step { Steps self.old self.new (Close member) }
        ensures word { result ≡ self.old.total }
    {
        let next = stage_closed(self.stage(member), self.total);
        self.stage[member as usize] = next;
        self.total
    }

    /// Hands in the base of the member's closed batch.
    pub fn hand_base(&mut self, member: u32, base: u64)
        requires { May self.old (Hand_base member base) }
        ensures { Steps self.old self.new (Hand_base member base) }
    {
        let next = stage_handed(self.stage(member), base);
        self.stage[member as usize] = next;
    }

    /// Gives `last`, by which a leading member links its batch and a late one begins its walk.
    pub fn head(&mut self, member: u32) -> u64
        requires { May self.old (Head member) }
        ensures step { Steps self.old self.new (Head member) }
        ensures word { result ≡ self.old.last }
    {
        let next = stage_headed(self.stage(member), self.last);
        self.stage[member as usize] = next;
        self.last
    }

    /// Stores a word of a row that is free for the member.
    pub fn fill(&mut self, member: u32, row: u32, field: Field, word: u64)
        requires { May self.old (Fill member row field word) }
        ensures { Steps self.old self.new (Fill member row field word) }
    {
        let next = stage_filled(self.stage(member), row as u64);
        self.stage[member as usize] = next;
        match field {
            Field::Lo => self.lo[row as usize] = word,
            Field::Base => self.base[row as usize] = word,
            Field::Prev => self.prev[row as usize] = word,
        }
    }

    /// Makes `last` name the row that the member has filled.
    pub fn point(&mut self, member: u32, row: u32)
        requires may { May self.old (Point member) }
        requires row { row_named ((state_of self.old).stage member) ≡ Some row }
        ensures { Steps self.old self.new (Point member) }
    {
        let next = stage_pointed(self.stage(member));
        self.stage[member as usize] = next;
        self.last = row as u64 + 1;
    }

    /// Publishes the batch of the member that leads, which ends here.
    pub fn publish(&mut self, member: u32, end: u64)
        requires may { May self.old (Publish member) }
        requires end { end_held ((state_of self.old).stage member) ≡ Some end }
        ensures { Steps self.old self.new (Publish member) }
    {
        if let Stage::Pointed(_, _, base, row) = self.stage(member) {
            self.end[row as usize] = end;
            self.done = end;
            self.stage[member as usize] = Stage::Got(base, 0);
        }
    }

    /// Gives the word of the row in hand that a late member asks for next.
    /// With the base it takes its reply.
    pub fn peek(&mut self, member: u32, row: u32, field: Field) -> u64
        requires may { May self.old (Peek member) }
        requires word { asked ((state_of self.old).stage member) ≡ Some (row, field) }
        ensures step { Steps self.old self.new (Peek member) }
        ensures word { result ≡ word_of (state_of self.old) row field }
    {
        let word = self.word(row, field);
        let next = stage_peeked(self.stage(member), word);
        self.stage[member as usize] = next;
        word
    }

    /// Gives the announcement of another member, and keeps it for the member's next fill.
    #[inline(always)]
    pub fn scan(&mut self, member: u32, other: u32) -> u64
        requires { May self.old (Scan member other) }
        ensures step { Steps self.old self.new (Scan member other) }
        ensures word { result ≡ (state_of self.old).announced other }
    {
        let word = self.announced[other as usize];
        let place = member as usize * self.members as usize + other as usize;
        self.found[place] = Some(word);
        word
    }

    /// Takes the member's announcement back, and forgets what it found.
    pub fn leave(&mut self, member: u32)
        requires { May self.old (Leave member) }
        ensures { Steps self.old self.new (Leave member) }
    {
        let members = self.members as usize;
        forget(
            self.found.as_mut_slice(),
            member as usize * members,
            members,
        );
        self.announced[member as usize] = 0;
        self.stage[member as usize] = Stage::Out;
    }

    /// What every value says of its rows: a needed row holds its batch, and no fill names it.
    pub fn rows_are_kept(&self)
        ensures reached { IsReached self.now }
        ensures lawful { (t : Traced) × (t.state ≡ state_of self.now) × IsLawful self.now.members self.now.rows t }
    {
        let _ = &self.members;
    }
}

#[cfg(test)]
mod tests;
