//! The fields of a record of a trace, one by one.
ghost use Rattle.std.specs.Prelude.{◌≡◌, ◌≤◌, true, IfSome};
ghost use Rattle.std.specs.List.{list_all};
ghost use Rattle.csv.specs.Records.{fields_of};
ghost use Rattle.trace_text.specs.Fields.{action_of, amount_of, cap_of, field, format_of, is_name, is_name_byte, is_tenant, names_four, width, worker_of};

use crate::traces::Op;
use csv::ByteRecord;
use text_lines::{MOST_NUMBER, number};

/// Which fields the records have.
#[derive(Clone, Copy)]
pub enum Format {
    /// worker, op, tenant and amount
    Plain,
    /// a cap after these
    Capped,
}

/// What a record asks for.
#[derive(Clone, Copy)]
pub enum Action {
    Open,
    Settle,
    Call(Op),
}

/// How many fields each record has.
#[inline]
pub fn width(format: Format) -> usize
    ensures { result ≡ width format }
{
    match format {
        Format::Plain => 4,
        Format::Capped => 5,
    }
}

/// The field at a place, which has no bytes where there is none.
#[inline]
pub fn field(row: &ByteRecord, i: usize) -> &[u8]
    ensures { result.now ≡ field (fields_of row.now) i }
{
    match row.get(i) {
        Some(field) => field,
        None => b"".as_slice(),
    }
}

/// The format that the first record names.
#[tactic(auto, unfolding(crate::specs::Fields::format_of))]
pub fn format_of(row: &ByteRecord) -> Option<Format>
    ensures { result ≡ format_of (fields_of row.now) }
{
    if !names_four(row) {
        None
    } else if row.len() == 4 {
        Some(Format::Plain)
    } else if row.len() == 5 && field(row, 4) == b"cap".as_slice() {
        Some(Format::Capped)
    } else {
        None
    }
}

// Whether a record begins with the four names of every first record.
#[tactic(auto, unfolding(crate::specs::Fields::names_four))]
fn names_four(row: &ByteRecord) -> bool
    ensures { result ≡ names_four (fields_of row.now) }
{
    field(row, 0) == b"worker".as_slice()
        && field(row, 1) == b"op".as_slice()
        && field(row, 2) == b"tenant".as_slice()
        && field(row, 3) == b"amount".as_slice()
}

/// A worker: a number below `workers`.
#[inline]
#[tactic(auto, unfolding(crate::specs::Fields::worker_of))]
pub fn worker_of(workers: u32, word: &[u8]) -> Option<u32>
    ensures { result ≡ worker_of workers word.now }
{
    match number(word) {
        Some(n) if n < u64::from(workers) => Some(n as u32),
        _ => None,
    }
}

/// The action that a word is.
#[tactic(auto, unfolding(crate::specs::Fields::action_of))]
pub fn action_of(format: Format, word: &[u8]) -> Option<Action>
    ensures { result ≡ action_of format word.now }
{
    if word == b"open".as_slice() {
        Some(Action::Open)
    } else if word == b"add".as_slice() {
        Some(Action::Call(Op::Add))
    } else if word == b"take".as_slice() {
        Some(Action::Call(Op::Take))
    } else if word == b"direct".as_slice() {
        Some(Action::Call(Op::Direct))
    } else if word == b"read".as_slice() {
        Some(Action::Call(Op::Read))
    } else {
        match format {
            Format::Capped if word == b"settle".as_slice() => Some(Action::Settle),
            _ => None,
        }
    }
}

/// Whether a word is the tenant that an action has, where it may be known that it is a name.
#[inline]
#[tactic(auto, unfolding(crate::specs::Fields::is_tenant))]
pub fn is_tenant(action: Action, word: &[u8], known: bool) -> bool
    requires { known ≡ true → is_name word.now ≡ true }
    ensures { result ≡ is_tenant action word.now }
{
    match action {
        Action::Settle => word == b"-".as_slice(),
        Action::Open | Action::Call(_) => known || is_name(word),
    }
}

fn is_name(word: &[u8]) -> bool
    ensures { result ≡ is_name word.now }
{
    !word.is_empty() && word.len() <= 32 && has_name_bytes(word)
}

fn has_name_bytes(word: &[u8]) -> bool
    ensures { result ≡ list_all is_name_byte word.now }
{
    word.iter().all(|byte| is_name_byte(*byte))
}

fn is_name_byte(byte: u8) -> bool
    ensures { result ≡ is_name_byte byte }
{
    byte.is_ascii_alphanumeric() || byte == b'-' || byte == b'.' || byte == b'_'
}

/// The amount that an action has.
#[inline]
#[tactic(auto, unfolding(crate::specs::Fields::amount_of))]
pub fn amount_of(action: Action, word: &[u8]) -> Option<u64>
    ensures exact { result ≡ amount_of action word.now }
    ensures bound { IfSome result (λ n. n ≤ MOST_NUMBER) }
{
    match action {
        Action::Open => number(word),
        Action::Settle | Action::Call(Op::Read) => number(word).filter(|n| *n == 0),
        Action::Call(Op::Add | Op::Take | Op::Direct) => number(word).filter(|n| *n > 0),
    }
}

/// The cap that an action has, which is the greatest number where records have none.
#[inline]
#[tactic(auto, unfolding(crate::specs::Fields::cap_of))]
pub fn cap_of(format: Format, action: Action, amount: u64, word: &[u8]) -> Option<u64>
    ensures exact { result ≡ cap_of format action amount word.now }
    ensures bound { IfSome result (λ n. n ≤ MOST_NUMBER) }
{
    match format {
        Format::Plain => Some(MOST_NUMBER),
        Format::Capped => match action {
            Action::Open => number(word).filter(|n| *n >= amount),
            Action::Settle | Action::Call(_) => number(word).filter(|n| *n == 0),
        },
    }
}
