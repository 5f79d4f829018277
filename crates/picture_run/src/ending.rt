//! How a run ends: its status, and its line on standard error, which takes no memory.
ghost use Rattle.std.specs.Prelude.{◌≡◌, ◌≤◌, ◌+◌, ◌++◌, decimal, length, take};
ghost use Rattle.picture_run.specs.Ended.{error_line, fault_name, fault_record, refusal_text, status_of};

use itoa::Buffer;
use std::marker::Model;
use trace_text::TraceFault;

/// The most bytes that are read of a trace.
pub const TRACE_LIMIT: usize = 33_554_432;

/// The most bytes that are read of a report; no trace has a longer one.
pub const REPORT_LIMIT: usize = 67_108_864;

/// Why input is refused.
#[derive(Clone, Copy, Debug, PartialEq, Eq)]
pub enum Refusal {
    LongTrace,
    LongReport,
    ByTrace(TraceFault),
    /// The report isn't read as one of this trace.
    ByReport,
    /// The trace has no tenant of this name.
    ByTenant,
}

/// How a run ends.
#[derive(Clone, Copy, Debug, PartialEq, Eq)]
pub enum Ending {
    Done,
    /// The words ask for no picture.
    Words,
    Refused(Refusal),
    ReadFailed,
    WriteFailed,
    /// A write took nothing.
    WriteStuck,
    NoMemory,
}

impl Ending {
    pub fn status(self) -> u8
        ensures { result ≡ status_of self }
    {
        match self {
            Ending::Done => 0,
            Ending::Words => 2,
            Ending::Refused(_) => 3,
            Ending::ReadFailed => 4,
            Ending::WriteFailed | Ending::WriteStuck => 5,
            Ending::NoMemory => 6,
        }
    }

    /// The line on standard error, which is empty where all was done.
    pub fn line(self) -> ErrorLine
        ensures { result ≡ error_line self }
    {
        match self {
            Ending::Done => ErrorLine::of(b""),
            Ending::Words => ErrorLine::of(USAGE),
            Ending::Refused(why) => refused_line(why),
            Ending::ReadFailed => ErrorLine::of(b"read failed\n"),
            Ending::WriteFailed => ErrorLine::of(b"write failed\n"),
            Ending::WriteStuck => ErrorLine::of(b"write stuck\n"),
            Ending::NoMemory => ErrorLine::of(b"no memory\n"),
        }
    }
}

static USAGE: &[u8] = b"usage: funnel_picture line TRACE WORKERS | svg TRACE WORKERS TENANT\n";

const ROOM: usize = 100;

/// A line in a place of fixed size.
#[derive(Drop)]
pub struct ErrorLine {
    bytes: [u8; ROOM],
    len: usize,
}

impl Model for ErrorLine {
    ghost use Rattle.std.specs.Prelude.{◌≤◌, List, take, ℕ};
    ghost use Rattle.picture_run.specs.declared.ending.TheConstants.{ROOM};

    ghost Value = { List ℕ };

    ghost view = { λ line. take line.len line.bytes };

    ghost invariant = { λ line. line.len ≤ ROOM };
}

impl ErrorLine {
    fn of(text: &[u8]) -> ErrorLine
        requires { length text.now ≤ ROOM }
        ensures { result ≡ text.now }
    {
        let mut line = ErrorLine {
            bytes: [0; ROOM],
            len: 0,
        };
        line.push(text);
        line
    }

    /// The bytes of the line.
    pub fn text(&self) -> &[u8]
        ensures { result.now ≡ self.now }
    {
        &self.bytes[..self.len]
    }

    fn push(&mut self, piece: &[u8])
        requires { length self.old + length piece.now ≤ ROOM }
        ensures exact { self.new ≡ self.old ++ piece.now }
        ensures longer { length self.new ≡ length self.old + length piece.now }
    {
        put(&mut self.bytes, self.len, piece);
        self.len += piece.len();
    }

    fn push_number(&mut self, number: u64)
        requires { length self.old + 40 ≤ ROOM }
        ensures exact { self.new ≡ self.old ++ decimal number }
        ensures short { length self.new ≤ length self.old + 40 }
    {
        let mut buffer = Buffer::new();
        self.push(buffer.format(number).as_bytes());
    }
}

// Puts a piece at a place.
fn put(bytes: &mut [u8], at: usize, piece: &[u8])
    requires { at + length piece.now ≤ length bytes.old }
    ensures { take (at + length piece.now) bytes.new ≡ take at bytes.old ++ piece.now }
{
    bytes[at..at + piece.len()].copy_from_slice(piece);
}

fn refused_line(why: Refusal) -> ErrorLine
    ensures { result ≡ error_line (Ending.Refused why) }
{
    let mut line = ErrorLine::of(b"refused: ");
    push_refusal(&mut line, why);
    line.push(b"\n");
    line
}

fn push_refusal(line: &mut ErrorLine, why: Refusal)
    requires { length line.old ≤ 10 }
    ensures exact { line.new ≡ line.old ++ refusal_text why }
    ensures short { length line.new ≤ length line.old + 80 }
{
    match why {
        Refusal::LongTrace => line.push(b"trace too long"),
        Refusal::LongReport => line.push(b"report too long"),
        Refusal::ByTrace(fault) => push_fault(line, fault),
        Refusal::ByReport => line.push(b"no report of this trace"),
        Refusal::ByTenant => line.push(b"no such tenant"),
    }
}

// Appends the fault of a trace.
fn push_fault(line: &mut ErrorLine, fault: TraceFault)
    requires { length line.old ≤ 10 }
    ensures exact { line.new ≡ line.old ++ refusal_text (Refusal.ByTrace fault) }
    ensures short { length line.new ≤ length line.old + 80 }
{
    line.push(b"trace ");
    line.push(fault_name(fault));
    line.push(b" at ");
    line.push_number(fault_record(fault));
}

// What is at fault.
fn fault_name(fault: TraceFault) -> &'static [u8]
    ensures exact { result.now ≡ fault_name fault }
    ensures short { length result.now ≤ 8 }
{
    match fault {
        TraceFault::Header { .. } => b"header",
        TraceFault::Fields { .. } => b"fields",
        TraceFault::Worker { .. } => b"worker",
        TraceFault::Op { .. } => b"op",
        TraceFault::Tenant { .. } => b"tenant",
        TraceFault::Amount { .. } => b"amount",
        TraceFault::Again { .. } => b"again",
        TraceFault::Unknown { .. } => b"unknown",
        TraceFault::TooMany { .. } => b"too many",
        TraceFault::Total { .. } => b"total",
        TraceFault::NoMemory => b"memory",
        TraceFault::Cap { .. } => b"cap",
    }
}

// The number of the record that is at fault.
fn fault_record(fault: TraceFault) -> u64
    ensures { result ≡ fault_record fault }
{
    match fault {
        TraceFault::Header { at }
        | TraceFault::Fields { at }
        | TraceFault::Worker { at }
        | TraceFault::Op { at }
        | TraceFault::Tenant { at }
        | TraceFault::Amount { at }
        | TraceFault::Again { at }
        | TraceFault::Unknown { at }
        | TraceFault::TooMany { at }
        | TraceFault::Total { at }
        | TraceFault::Cap { at } => at,
        TraceFault::NoMemory => 0,
    }
}
