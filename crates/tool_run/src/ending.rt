//! How a run ends: its status, and its line on standard error, which takes no memory.
ghost use Rattle.std.specs.Prelude.{◌≡◌, ◌≤◌, ◌+◌, ◌++◌, [], codes, decimal, length, take};
ghost use Rattle.tool_run.specs.Outcome.{error_line, play_fault_text, refusal_text, script_text, shape_text, status_of, takes_text, trace_text};

use itoa::Buffer;
use script_run::PlayFault;
use script_text::{ScriptFault, ShapeFault};
use std::marker::Model;
use throttle_run::ThrottleFault;
use trace_text::TraceFault;

/// The most bytes that are read.
pub const INPUT_LIMIT: usize = 33_554_432;

/// Why input is refused.
#[derive(Clone, Copy, Debug, PartialEq, Eq)]
pub enum Refusal {
    TooLong,
    ByScript(ScriptFault),
    ByPlay(PlayFault),
    ByTrace(TraceFault),
    TooManyLines { at: u64 },
    /// an order that isn't an addition or a subtraction
    ByOrder { at: u64 },
    ByThrottle(ThrottleFault),
}

/// How a run ends.
#[derive(Clone, Copy, Debug, PartialEq, Eq)]
pub enum Ending {
    Done,
    /// The words are no command.
    Words,
    Refused(Refusal),
    ReadFailed,
    WriteFailed,
    /// A write took nothing.
    WriteStuck,
    NoMemory,
}

impl Ending {
    pub fn status(self) -> u8
        ensures { result ≡ status_of self }
    {
        match self {
            Ending::Done => 0,
            Ending::Words => 2,
            Ending::Refused(_) => 3,
            Ending::ReadFailed => 4,
            Ending::WriteFailed | Ending::WriteStuck => 5,
            Ending::NoMemory => 6,
        }
    }

    /// The line on standard error, which is empty where all was done.
    pub fn line(self) -> ErrorLine
        ensures { result ≡ error_line self }
    {
        match self {
            Ending::Done => ErrorLine::of(b""),
            Ending::Words => ErrorLine::of(USAGE),
            Ending::Refused(why) => refused_line(why),
            Ending::ReadFailed => ErrorLine::of(b"read failed\n"),
            Ending::WriteFailed => ErrorLine::of(b"write failed\n"),
            Ending::WriteStuck => ErrorLine::of(b"write stuck\n"),
            Ending::NoMemory => ErrorLine::of(b"no memory\n"),
        }
    }
}

static USAGE: &[u8] =
    b"usage: funnel_tool play | trial | replay WORKERS | drill SEED ROWS WORKERS | relay WORKERS CAPACITY | rounds | tally WORKERS GRAIN | throttle WORKERS BURST RATE PERIOD\n";

const ROOM: usize = 200;

/// A line in a place of fixed size.
#[derive(Drop)]
pub struct ErrorLine {
    bytes: [u8; ROOM],
    len: usize,
}

impl Model for ErrorLine {
    ghost use Rattle.std.specs.Prelude.{◌≤◌, List, take, ℕ};
    ghost use Rattle.tool_run.specs.declared.ending.TheConstants.{ROOM};

    ghost Value = { List ℕ };

    ghost view = { λ line. take line.len line.bytes };

    ghost invariant = { λ line. line.len ≤ ROOM };
}

impl ErrorLine {
    fn of(text: &[u8]) -> ErrorLine
        requires { length text.now ≤ ROOM }
        ensures { result ≡ text.now }
    {
        let mut line = ErrorLine {
            bytes: [0; ROOM],
            len: 0,
        };
        line.push(text);
        line
    }

    /// The bytes of the line.
    pub fn text(&self) -> &[u8]
        ensures { result.now ≡ self.now }
    {
        &self.bytes[..self.len]
    }

    fn push(&mut self, piece: &[u8])
        requires { length self.old + length piece.now ≤ ROOM }
        ensures exact { self.new ≡ self.old ++ piece.now }
        ensures longer { length self.new ≡ length self.old + length piece.now }
    {
        put(&mut self.bytes, self.len, piece);
        self.len += piece.len();
    }

    fn push_number(&mut self, number: u64)
        requires { length self.old + 40 ≤ ROOM }
        ensures exact { self.new ≡ self.old ++ decimal number }
        ensures short { length self.new ≤ length self.old + 40 }
    {
        let mut buffer = Buffer::new();
        self.push(buffer.format(number).as_bytes());
    }

    // Appends a name and a number.
    fn push_counted(&mut self, name: &[u8], number: u64)
        requires { length self.old + length name.now + 40 ≤ ROOM }
        ensures exact { self.new ≡ self.old ++ name.now ++ decimal number }
        ensures short { length self.new ≤ length self.old + length name.now + 40 }
    {
        self.push(name);
        self.push_number(number);
    }

    // Appends a name, the number of a line, and a pass.
    fn push_pass(&mut self, name: &[u8], at: u64, pass: u32)
        requires { length self.old + length name.now + 86 ≤ ROOM }
        ensures exact { self.new ≡ self.old ++ name.now ++ decimal at ++ codes " pass " ++ decimal pass }
        ensures short { length self.new ≤ length self.old + length name.now + 86 }
    {
        self.push_counted(name, at);
        self.push_counted(b" pass ", u64::from(pass));
    }
}

// Puts a piece at a place.
fn put(bytes: &mut [u8], at: usize, piece: &[u8])
    requires { at + length piece.now ≤ length bytes.old }
    ensures { take (at + length piece.now) bytes.new ≡ take at bytes.old ++ piece.now }
{
    bytes[at..at + piece.len()].copy_from_slice(piece);
}

fn refused_line(why: Refusal) -> ErrorLine
    ensures { result ≡ error_line (Ending.Refused why) }
{
    let mut line = ErrorLine::of(b"refused: ");
    push_refusal(&mut line, why);
    line.push(b"\n");
    line
}

fn push_refusal(line: &mut ErrorLine, why: Refusal)
    requires { length line.old ≤ 10 }
    ensures exact { line.new ≡ line.old ++ refusal_text why }
    ensures short { length line.new ≤ length line.old + 120 }
{
    match why {
        Refusal::TooLong => line.push(b"too long"),
        Refusal::ByScript(fault) => push_script_fault(line, fault),
        Refusal::ByPlay(fault) => push_play_fault(line, fault),
        Refusal::ByTrace(fault) => push_trace_fault(line, fault),
        Refusal::TooManyLines { at } => line.push_counted(b"too many at ", at),
        Refusal::ByOrder { at } => line.push_counted(b"op at ", at),
        Refusal::ByThrottle(fault) => push_takes_fault(line, fault),
    }
}

fn push_script_fault(line: &mut ErrorLine, fault: ScriptFault)
    requires { length line.old ≤ 10 }
    ensures exact { line.new ≡ line.old ++ script_text fault }
    ensures short { length line.new ≤ length line.old + 120 }
{
    match fault {
        ScriptFault::Header { at } => line.push_counted(b"header at ", at),
        ScriptFault::Shape(fault) => push_shape_fault(line, fault),
        ScriptFault::Fields { at } => line.push_counted(b"fields at ", at),
        ScriptFault::Pass { at } => line.push_counted(b"pass at ", at),
        ScriptFault::Op { at } => line.push_counted(b"op at ", at),
        ScriptFault::Amount { at } => line.push_counted(b"amount at ", at),
        ScriptFault::TooMany { at } => line.push_counted(b"too many at ", at),
        ScriptFault::Total { at } => line.push_counted(b"total at ", at),
        ScriptFault::NoMemory => line.push(b"no memory"),
    }
}

fn push_trace_fault(line: &mut ErrorLine, fault: TraceFault)
    requires { length line.old ≤ 10 }
    ensures exact { line.new ≡ line.old ++ trace_text fault }
    ensures short { length line.new ≤ length line.old + 120 }
{
    match fault {
        TraceFault::Header { at } => line.push_counted(b"header at ", at),
        TraceFault::Fields { at } => line.push_counted(b"fields at ", at),
        TraceFault::Worker { at } => line.push_counted(b"worker at ", at),
        TraceFault::Op { at } => line.push_counted(b"op at ", at),
        TraceFault::Tenant { at } => line.push_counted(b"tenant at ", at),
        TraceFault::Amount { at } => line.push_counted(b"amount at ", at),
        TraceFault::Again { at } => line.push_counted(b"again at ", at),
        TraceFault::Unknown { at } => line.push_counted(b"unknown at ", at),
        TraceFault::TooMany { at } => line.push_counted(b"too many at ", at),
        TraceFault::Total { at } => line.push_counted(b"total at ", at),
        TraceFault::NoMemory => line.push(b"no memory"),
        TraceFault::Cap { at } => line.push_counted(b"cap at ", at),
    }
}

fn push_takes_fault(line: &mut ErrorLine, fault: ThrottleFault)
    requires { length line.old ≤ 10 }
    ensures exact { line.new ≡ line.old ++ takes_text fault }
    ensures short { length line.new ≤ length line.old + 120 }
{
    match fault {
        ThrottleFault::Fields { at } => line.push_counted(b"fields at ", at),
        ThrottleFault::Worker { at } => line.push_counted(b"worker at ", at),
        ThrottleFault::Amount { at } => line.push_counted(b"amount at ", at),
        ThrottleFault::TooMany { at } => line.push_counted(b"too many at ", at),
        ThrottleFault::Total { at } => line.push_counted(b"total at ", at),
        ThrottleFault::NoMemory => line.push(b"no memory"),
    }
}

fn push_shape_fault(line: &mut ErrorLine, fault: ShapeFault)
    requires { length line.old ≤ 10 }
    ensures exact { line.new ≡ line.old ++ shape_text fault }
    ensures short { length line.new ≤ length line.old + 120 }
{
    match fault {
        ShapeFault::Passes(number) => line.push_counted(b"shape passes ", u64::from(number)),
        ShapeFault::Leaves(number) => line.push_counted(b"shape leaves ", u64::from(number)),
        ShapeFault::Levels(number) => line.push_counted(b"shape levels ", u64::from(number)),
        ShapeFault::Rows(number) => line.push_counted(b"shape rows ", u64::from(number)),
    }
}

fn push_play_fault(line: &mut ErrorLine, fault: PlayFault)
    requires { length line.old ≤ 10 }
    ensures exact { line.new ≡ line.old ++ play_fault_text fault }
    ensures short { length line.new ≤ length line.old + 120 }
{
    match fault {
        PlayFault::Busy { at, pass } => line.push_pass(b"busy at ", at, pass),
        PlayFault::NothingPending { at, pass } => line.push_pass(b"nothing pending at ", at, pass),
        PlayFault::Unfinished { pass } => line.push_counted(b"unfinished pass ", u64::from(pass)),
        PlayFault::NoMemory => line.push(b"no memory"),
    }
}
