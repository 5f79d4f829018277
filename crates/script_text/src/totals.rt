//! What the passes of a script are allowed.
ghost use Rattle.std.specs.Prelude.{◌≡◌, ◌+◌, ◌^◌, ◌<◌, IfOk, sum};
ghost use Rattle.script_text.specs.Sound.{IsSound, allowances};
ghost use Rattle.script_text.specs.Laws.{AllowancesAddUp, LinesAreAllowed};

use crate::scripts::Script;
use std::alloc::Global;
use text_lines::NoMemory;

/// The sum of the amounts on the lines of each pass, in order of the passes.
pub fn allowances(alloc: Global, script: &Script) -> Result<Vec<u64>, NoMemory>
    requires { IsSound script.now }
    ensures each { IfOk result (λ v. v.items ≡ allowances script.now.lines script.now.shape.passes) }
    ensures fits { IfOk result (λ v. script.now.opening + sum v.items < 2 ^ 63) }
{
    let mut sums = vec![in alloc; 0u64; script.shape.passes() as usize]?;
    let lines = &script.lines;
    for line in &lines.items {
        sums[line.pass as usize] += line.order.amount();
    }
    Ok(sums)
}

/// What the passes are allowed comes to all amounts, and no line asks for more than its pass has left.
pub fn allowance_laws()
    ensures add_up { AllowancesAddUp }
    ensures are_allowed { LinesAreAllowed }
{}
