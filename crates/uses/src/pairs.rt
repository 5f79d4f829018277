//! The passes of a funnel that two threads share.
ghost use Rattle.std.specs.Prelude.{◌≡◌, IfOk};
ghost use Rattle.fn_table.specs.Seen.{AreOpened};
ghost use Rattle.fn_table.specs.Standing.{IsNumbered};
ghost use Rattle.uses.specs.Books.{AreNew, IsBookOf};

use fn_core::NoMemory;
use fn_funnel::{Book, Funnel, Pass};
use std::alloc::Global;

/// The two passes of a funnel that has just been opened.
pub fn both(funnel: &Funnel, passes: Vec<Pass>) -> (Pass, Pass)
    requires opened { AreOpened funnel.now passes.items }
    requires two { funnel.now.start.shape.passes ≡ 2 }
    ensures { AreNew funnel.now result.0 result.1 }
{
    let mut passes = passes;
    let (Some(second), Some(first)) = (passes.pop(), passes.pop()) else {
        unreachable!()
    };
    (first, second)
}

/// Closes the funnel, when both passes have come back.
pub fn close(alloc: Global, funnel: Funnel, first: Pass, second: Pass) -> Result<Book, NoMemory>
    requires two { funnel.start.shape.passes ≡ 2 }
    requires passes { IsNumbered funnel first 0 × IsNumbered funnel second 1 }
    ensures { IfOk result (λ book. IsBookOf funnel first second book) }
{
    let mut passes = Vec::new(alloc);
    passes.push(first)?;
    passes.push(second)?;
    Ok(funnel.close(passes))
}
