// The replies of lanes, in order of the lines that asked for them.
ghost use Rattle.std.specs.Prelude.{◌≡◌, ℕ, ◌<◌, All, IfOk, length, map, slice_index};
ghost use Rattle.fn_rounds.specs.Script.{orders_of};
ghost use Rattle.fn_rounds.specs.Dealing.{answers_of, replies_of};

use crate::lanes::{LaneDone, Replies};
use fn_climb::Pass;
use script_text::ScriptLine;
use std::alloc::{AllocError, Global};

/// The passes of lanes that are done, and their replies.
pub fn part(alloc: Global, dones: Vec<LaneDone>) -> Result<(Vec<Pass>, Vec<Replies>), AllocError>
    ensures passes { IfOk result (λ r. r.0.items ≡ map (λ done. done.pass) dones.items) }
    ensures replies { IfOk result (λ r. r.1.items ≡ map (λ done. done.replies) dones.items) }
{
    let mut passes = Vec::with_capacity(alloc, dones.len())?;
    let mut all = Vec::with_capacity(alloc, dones.len())?;
    for done in dones {
        let LaneDone { pass, replies } = done;
        passes.push(pass)?;
        all.push(replies)?;
    }
    Ok((passes, all))
}

/// The answer of each line: those of a pass's lines are its replies, in order.
pub fn answers(
    alloc: Global,
    lines: &[ScriptLine],
    replies: &[Replies],
) -> Result<Vec<u64>, AllocError>
    requires there { All (λ line. line.pass < length replies.now) lines.now }
    requires counts { (pass : ℕ) → pass < length replies.now → length (replies_of replies.now pass) ≡ length (orders_of pass lines.now) }
    ensures one_each { IfOk result (λ v. length v.items ≡ length lines.now) }
    ensures sorted { IfOk result (λ v. (pass : ℕ) → pass < length replies.now → answers_of pass lines.now v.items ≡ replies_of replies.now pass) }
{
    let mut next = vec![in alloc; 0usize; replies.len()]?;
    let mut answers = Vec::with_capacity(alloc, lines.len())?;
    for line in lines {
        let pass = line.pass as usize;
        let at = next[pass];
        next[pass] = at + 1;
        answers.push(reply_at(&replies[pass], at))?;
    }
    Ok(answers)
}

// A reply of a lane.
fn reply_at(replies: &Replies, at: usize) -> u64
    requires { at < length replies.now }
    ensures { result ≡ slice_index replies.now at }
{
    replies.items[at]
}
