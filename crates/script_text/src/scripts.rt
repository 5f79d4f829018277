//! What a script is.
ghost use Rattle.std.specs.Prelude.{◌≡◌};
ghost use Rattle.script_text.specs.Order.{amount};

use fn_layout::{Shape, ShapeFault};
use std::alloc::AllocError;
use std::marker::Model;

/// What a line asks of a pass.
#[derive(Clone, Copy, Debug, PartialEq, Eq)]
pub enum Order {
    Add(u64),
    Sub(u64),
    Direct(u64),
    SubDirect(u64),
    Read,
    Step,
    Poll,
    /// meet the pass with this number
    Meet(u32),
}

impl Order {
    /// The amount that is added or subtracted, or 0.
    pub fn amount(self) -> u64
        ensures { result ≡ amount self }
    {
        match self {
            Order::Add(amount)
            | Order::Sub(amount)
            | Order::Direct(amount)
            | Order::SubDirect(amount) => amount,
            Order::Read | Order::Step | Order::Poll | Order::Meet(_) => 0,
        }
    }
}

/// An order to a pass, and the number of the line where it stands.
#[derive(Clone, Copy, Debug, PartialEq, Eq)]
pub struct ScriptLine {
    pub at: u64,
    pub pass: u32,
    pub order: Order,
}

/// Lines, in order.
#[derive(Debug, Drop)]
pub struct ScriptLines {
    pub items: Vec<ScriptLine>,
}

impl Model for ScriptLines {
    ghost use Rattle.std.specs.Prelude.{List};
    ghost use Rattle.script_text.specs.declared.scripts.ScriptLine.{ScriptLine};

    ghost Value = { List ScriptLine };

    ghost view = { λ lines. lines.items.items };
}

/// The shape and the opening of a funnel, and what its passes do.
#[derive(Debug, Drop)]
pub struct Script {
    pub shape: Shape,
    pub opening: u64,
    pub lines: ScriptLines,
}

/// Why a text is no script, with the number of the line.
#[derive(Clone, Copy, Debug, PartialEq, Eq)]
pub enum ScriptFault {
    /// there is no first line with words, or it isn't `funnel` with five numbers
    Header { at: u64 },
    /// the numbers of the first line are no shape
    Shape(ShapeFault),
    /// too few or too many words
    Fields { at: u64 },
    /// no number of a pass
    Pass { at: u64 },
    /// no known order
    Op { at: u64 },
    /// no number of at least 1
    Amount { at: u64 },
    /// a line past the limit
    TooMany { at: u64 },
    /// opening and amounts reach 2^63
    Total { at: u64 },
    /// memory ran out
    NoMemory,
}

impl From<AllocError> for ScriptFault {
    ghost use Rattle.std.specs.Prelude.{◌≡◌};
    ghost use Rattle.script_text.specs.declared.scripts.ScriptFault.TheVariants as fault;

    ghost from_gives = { λ _ e. e ≡ fault.NoMemory };

    fn from(_: AllocError) -> Self {
        ScriptFault::NoMemory
    }
}
