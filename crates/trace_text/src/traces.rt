//! What a trace is.
use std::alloc::AllocError;
use std::marker::Model;
use text_lines::NoMemory;

/// The bytes of a tenant's name.
#[derive(Debug, Drop)]
pub struct Name {
    pub items: Vec<u8>,
}

impl Model for Name {
    ghost use Rattle.std.specs.Prelude.{List, ℕ};

    ghost Value = { List ℕ };

    ghost view = { λ name. name.items.items };
}

/// A tenant, the value that it has at the start of the run, and the most that it may have.
#[derive(Debug, Drop)]
pub struct Tenant {
    pub name: Name,
    pub opening: u64,
    pub cap: u64,
}

/// What a row asks of its tenant.
#[derive(Clone, Copy, Debug, PartialEq, Eq)]
pub enum Op {
    Add,
    Take,
    /// an addition past the funnel
    Direct,
    Read,
}

/// What a worker asks of a tenant, and the number of the record where it stands.
#[derive(Clone, Copy, Debug, PartialEq, Eq)]
pub struct Row {
    pub at: u64,
    pub worker: u32,
    pub op: Op,
    /// the tenant's place among the tenants
    pub tenant: u32,
    pub amount: u64,
}

/// Where a segment ends: the number of the record that says so, and how many rows stand before it.
#[derive(Clone, Copy, Debug, PartialEq, Eq)]
pub struct Cut {
    pub at: u64,
    pub rows: u64,
}

/// Tenants in the order in which they are opened, rows, and the cuts between the rows.
#[derive(Debug, Drop)]
pub struct Trace {
    pub tenants: Vec<Tenant>,
    pub rows: Vec<Row>,
    pub cuts: Vec<Cut>,
}

/// Why some bytes are no trace, with the number of the record.
#[derive(Clone, Copy, Debug, PartialEq, Eq)]
pub enum TraceFault {
    /// there is no first record, or it doesn't name the fields
    Header { at: u64 },
    /// too few or too many fields
    Fields { at: u64 },
    /// no number of a worker
    Worker { at: u64 },
    /// no known op
    Op { at: u64 },
    /// no name of a tenant
    Tenant { at: u64 },
    /// no number, or not one that the op allows
    Amount { at: u64 },
    /// the tenant is open already
    Again { at: u64 },
    /// the tenant isn't open yet
    Unknown { at: u64 },
    /// a record, a tenant or a cut past the limit
    TooMany { at: u64 },
    /// the tenant's bound and the amounts of this segment reach 2^63
    Total { at: u64 },
    /// memory ran out
    NoMemory,
    /// no number, or not one that the op allows
    Cap { at: u64 },
}

impl From<AllocError> for TraceFault {
    ghost use Rattle.std.specs.Prelude.{◌≡◌};
    ghost use Rattle.trace_text.specs.declared.traces.TraceFault.TheVariants as fault;

    ghost from_gives = { λ _ e. e ≡ fault.NoMemory };

    fn from(_: AllocError) -> Self {
        TraceFault::NoMemory
    }
}

impl From<NoMemory> for TraceFault {
    ghost use Rattle.std.specs.Prelude.{◌≡◌};
    ghost use Rattle.trace_text.specs.declared.traces.TraceFault.TheVariants as fault;

    ghost from_gives = { λ _ e. e ≡ fault.NoMemory };

    fn from(_: NoMemory) -> Self {
        TraceFault::NoMemory
    }
}
