//! Reading a trace: record by record, up to the first fault.
ghost use Rattle.std.specs.Prelude.{◌≡◌, ◌≤◌, ◌<◌, ◌+◌, true, length, Ok, Err, None, IfOk, IfErr, IfSome, OnOk};
ghost use Rattle.csv.specs.Records.{fields_of};
ghost use Rattle.trace_text.specs.Accounts.{AreHeld};
ghost use Rattle.trace_text.specs.Fields.{field, is_tenant};
ghost use Rattle.trace_text.specs.Records.{records_of};
ghost use Rattle.trace_text.specs.SoundTrace.{IsSoundTrace};
ghost use Rattle.trace_text.specs.TraceFaults.{FirstRecordIsAtFault, NoRecordIsAtFault, RecordFaultsAreFirst};
ghost use Rattle.trace_text.specs.TraceGrammar.{IsTrace};
ghost use Rattle.trace_text.specs.TraceLaws.{FirstIsRefused, GrammarIsRead, IsRefusedFor, RefusedForFirst, StateIsKnown, TracesAreInGrammar};
ghost use Rattle.trace_text.specs.declared.fields.Action.TheVariants.{Open};
ghost use Rattle.trace_text.specs.Trace.{Becomes, Content, Gives, acted, called, content, content_of, opened, place_of, record_after, records_after, settled, start, state_of, trace_of, unnamed, within};

use crate::accounts::Accounts;
use crate::fields::{
    Action, Format, action_of, amount_of, cap_of, field, format_of, is_tenant, width, worker_of,
};
use crate::records::Records;
use crate::tenants::MOST_TENANTS;
use crate::traces::{Cut, Op, Row, Trace, TraceFault};
use csv::ByteRecord;
use std::alloc::Global;
use text_lines::MOST_NUMBER;

/// The most records of a trace after the first one.
pub const MOST_RECORDS: u64 = 1_000_000;

/// The most cuts of a trace.
pub const MOST_CUTS: usize = 100;

// The bytes that a row seldom falls below, by which room for rows is made before the first one.
const ROW_BYTES: usize = 16;

/// What is known after some records.
#[derive(Drop)]
pub struct Ledger {
    pub accounts: Accounts,
    pub rows: Vec<Row>,
    pub cuts: Vec<Cut>,
}

// What a record says beside its action, with the place of the tenant that it names.
#[derive(Clone, Copy)]
struct Entry {
    at: u64,
    worker: u32,
    place: Option<usize>,
    amount: u64,
}

// Refuses a record past the limit, and one that finds no room.
#[tactic(auto, unfolding(crate::specs::Trace::within))]
fn check_within(at: u64, room: bool) -> Result<(), TraceFault>
    ensures exact { result ≡ within at room }
    ensures limit { OnOk result (at ≤ MOST_RECORDS) }
{
    if at <= MOST_RECORDS && room {
        Ok(())
    } else {
        Err(TraceFault::TooMany { at })
    }
}

// Refuses the name of a tenant that is open already.
#[tactic(auto, unfolding(crate::specs::Trace::unnamed))]
fn check_unnamed(at: u64, place: Option<usize>) -> Result<(), TraceFault>
    ensures exact { result ≡ unnamed at place }
    ensures fresh { OnOk result (place ≡ None) }
{
    match place {
        None => Ok(()),
        Some(_) => Err(TraceFault::Again { at }),
    }
}

// Opens a tenant.
#[tactic(auto, unfolding(crate::specs::Trace::opened, crate::specs::Fields::is_tenant))]
fn open(
    ledger: &mut Ledger,
    alloc: Global,
    format: Format,
    entry: Entry,
    row: &ByteRecord,
) -> Result<(), TraceFault>
    requires place { entry.place ≡ place_of (field (fields_of row.now) 2) ledger.old.accounts }
    requires named { is_tenant Open (field (fields_of row.now) 2) ≡ true }
    ensures { Becomes result (opened format entry.at (field (fields_of row.now) 2) entry.amount (field (fields_of row.now) 4) (state_of ledger.old)) ledger.new }
{
    let Entry {
        at,
        place,
        amount: opening,
        ..
    } = entry;
    let name = field(row, 2);
    check_unnamed(at, place)?;
    check_within(at, ledger.accounts.len() < MOST_TENANTS)?;
    let Some(cap) = cap_of(format, Action::Open, opening, field(row, 4)) else {
        return Err(TraceFault::Cap { at });
    };
    ledger.accounts.open(alloc, name, opening, cap)?;
    Ok(())
}

// Ends a segment.
#[tactic(auto, unfolding(crate::specs::Trace::settled))]
fn cut(ledger: &mut Ledger, format: Format, at: u64, row: &ByteRecord) -> Result<(), TraceFault>
    ensures { Becomes result (settled format at (field (fields_of row.now) 4) (state_of ledger.old)) ledger.new }
{
    check_within(at, ledger.cuts.len() < MOST_CUTS)?;
    if cap_of(format, Action::Settle, 0, field(row, 4)).is_none() {
        return Err(TraceFault::Cap { at });
    }
    ledger.accounts.settle();
    let rows = ledger.rows.len() as u64;
    match ledger.cuts.push(Cut { at, rows }) {
        Ok(()) => Ok(()),
        Err(_) => Err(TraceFault::NoMemory),
    }
}

// Enters a call.
#[tactic(auto, unfolding(crate::specs::Trace::called))]
fn call(
    ledger: &mut Ledger,
    format: Format,
    entry: Entry,
    op: Op,
    row: &ByteRecord,
) -> Result<(), TraceFault>
    requires held { AreHeld ledger.old.accounts }
    requires place { entry.place ≡ place_of (field (fields_of row.now) 2) ledger.old.accounts }
    requires within { IfSome entry.place (λ place. place < length ledger.old.accounts) }
    requires amount { entry.amount ≤ MOST_NUMBER }
    ensures { Becomes result (called format entry.at entry.worker op (field (fields_of row.now) 2) entry.amount (field (fields_of row.now) 4) (state_of ledger.old)) ledger.new }
{
    let Entry {
        at,
        worker,
        place,
        amount,
    } = entry;
    let Some(place) = place else {
        return Err(TraceFault::Unknown { at });
    };
    check_within(at, true)?;
    ledger.accounts.spend(place, at, op, amount)?;
    if cap_of(format, Action::Call(op), amount, field(row, 4)).is_none() {
        return Err(TraceFault::Cap { at });
    }
    let tenant = place as u32;
    match ledger.rows.push(Row {
        at,
        worker,
        op,
        tenant,
        amount,
    }) {
        Ok(()) => Ok(()),
        Err(_) => Err(TraceFault::NoMemory),
    }
}

// Does what a record asks for.
#[tactic(auto, unfolding(crate::specs::Trace::acted))]
fn act(
    ledger: &mut Ledger,
    alloc: Global,
    format: Format,
    entry: Entry,
    action: Action,
    row: &ByteRecord,
) -> Result<(), TraceFault>
    requires held { AreHeld ledger.old.accounts }
    requires place { entry.place ≡ place_of (field (fields_of row.now) 2) ledger.old.accounts }
    requires within { IfSome entry.place (λ place. place < length ledger.old.accounts) }
    requires amount { entry.amount ≤ MOST_NUMBER }
    requires named { is_tenant action (field (fields_of row.now) 2) ≡ true }
    ensures { Becomes result (acted format entry.at entry.worker action entry.amount (fields_of row.now) (state_of ledger.old)) ledger.new }
{
    match action {
        Action::Open => open(ledger, alloc, format, entry, row),
        Action::Settle => cut(ledger, format, entry.at, row),
        Action::Call(op) => call(ledger, format, entry, op, row),
    }
}

/// Reads a record.
#[tactic(auto, unfolding(crate::specs::Trace::record_after))]
pub fn take_record(
    ledger: &mut Ledger,
    alloc: Global,
    format: Format,
    workers: u32,
    at: u64,
    row: &ByteRecord,
) -> Result<(), TraceFault>
    requires held { AreHeld ledger.old.accounts }
    ensures { Becomes result (record_after format workers at (fields_of row.now) (state_of ledger.old)) ledger.new }
{
    if row.len() != width(format) {
        return Err(TraceFault::Fields { at });
    }
    let Some(worker) = worker_of(workers, field(row, 0)) else {
        return Err(TraceFault::Worker { at });
    };
    let Some(action) = action_of(format, field(row, 1)) else {
        return Err(TraceFault::Op { at });
    };
    let name = field(row, 2);
    let place = ledger.accounts.place_of(name);
    if !is_tenant(action, name, place.is_some()) {
        return Err(TraceFault::Tenant { at });
    }
    let Some(amount) = amount_of(action, field(row, 3)) else {
        return Err(TraceFault::Amount { at });
    };
    let entry = Entry {
        at,
        worker,
        place,
        amount,
    };
    act(ledger, alloc, format, entry, action, row)
}

/// Reads a trace, or finds its first fault: that of the least record, and there the first of
/// their order, in which `NoMemory` has no place and `Cap` comes last.
///
/// The records are those of `csv`: a byte order mark at the front is dropped, blank lines are no
/// records and have no number, a lone carriage return ends a record, and an open quote at the end
/// of the bytes ends the last one. The first record has the number 0.
#[tactic(auto, unfolding(crate::specs::Trace::read_all))]
pub fn read_trace(alloc: Global, workers: u32, bytes: &[u8]) -> Result<Trace, TraceFault>
    requires { 1 ≤ workers × (workers ≤ 64) }
    ensures found { IfOk result (λ trace. IsTrace workers (records_of bytes.now) (content trace)) }
    ensures only { (trace : Content) → IsTrace workers (records_of bytes.now) trace → Gives content result (Ok trace) }
    ensures first { IfErr result (λ fault. IsRefusedFor workers (records_of bytes.now) fault) }
    ensures exact { Gives content result (trace_of workers bytes.now) }
    ensures sound { IfOk result (λ trace. IsSoundTrace workers (content trace)) }
{
    let mut records = Records::new(alloc, bytes);
    let mut row = ByteRecord::new(alloc);
    if !records.read(&mut row)? {
        return Err(TraceFault::Header { at: 0 });
    }
    let Some(format) = format_of(&row) else {
        return Err(TraceFault::Header { at: 0 });
    };
    let room = (bytes.len() / ROW_BYTES).min(MOST_RECORDS as usize);
    let ledger = read_records(alloc, format, workers, records, room)?;
    trace_in(alloc, ledger)
}

/// A record that is refused is so for its first fault, records that are refused are so for the
/// first of them that is at fault, and where records are read none of them is. A trace is refused
/// exactly for its first fault.
pub fn trace_fault_laws()
    ensures record_faults_are_first { RecordFaultsAreFirst }
    ensures first_record_is_at_fault { FirstRecordIsAtFault }
    ensures no_record_is_at_fault { NoRecordIsAtFault }
    ensures refused_for_first { RefusedForFirst }
    ensures first_is_refused { FirstIsRefused }
{}

/// What is read is in the grammar, what is in the grammar is read, and what is known after some
/// records, the sums of each tenant too, follows from what they say.
pub fn trace_laws()
    ensures traces_are_in_grammar { TracesAreInGrammar }
    ensures grammar_is_read { GrammarIsRead }
    ensures state_is_known { StateIsKnown }
{}

// Reads the records after the first one, with room for so many rows to begin with.
fn read_records(
    alloc: Global,
    format: Format,
    workers: u32,
    records: Records<'_>,
    room: usize,
) -> Result<Ledger, TraceFault>
    ensures exact { Gives state_of result (records_after format workers 1 records.entry start) }
    ensures sound { IfOk result (λ ledger. IsSoundTrace workers (content_of (state_of ledger))) }
{
    let mut records = records;
    let mut row = ByteRecord::new(alloc);
    let mut ledger = Ledger {
        accounts: Accounts::new(alloc),
        rows: Vec::with_capacity(alloc, room)?,
        cuts: Vec::new(alloc),
    };
    let mut at = 0;
    while records.read(&mut row)? {
        at += 1;
        take_record(&mut ledger, alloc, format, workers, at, &row)?;
    }
    Ok(ledger)
}

// The trace that a ledger holds.
fn trace_in(alloc: Global, ledger: Ledger) -> Result<Trace, TraceFault>
    ensures { Gives content result (Ok (content_of (state_of ledger))) }
{
    let mut tenants = Vec::new(alloc);
    for account in ledger.accounts.into_items() {
        match tenants.push(account.tenant) {
            Ok(()) => {}
            Err(_) => return Err(TraceFault::NoMemory),
        }
    }
    Ok(Trace {
        tenants,
        rows: ledger.rows,
        cuts: ledger.cuts,
    })
}
