//! The stage of a member after a step of its own.

ghost use Rattle.std.specs.Prelude.{◌≡◌, ◌-◌, ℕ};
ghost use Rattle.fn_rows.specs.Machine.{Waiting, Lead, Late, Shut, Based, Headed, Filled, Pointed, At, Over, Hit, Got, looked, peeked, filled};

use crate::Stage;

/// After a waiting member has loaded `done`.
pub fn stage_looked(stage: Stage, done: u64) -> Stage
    ensures { (at : ℕ) → stage ≡ Waiting at → result ≡ looked at done }
{
    match stage {
        Stage::Waiting(offset) => {
            if done < offset {
                Stage::Waiting(offset)
            } else if offset == done {
                Stage::Lead(offset)
            } else {
                Stage::Late(offset)
            }
        }
        _ => stage,
    }
}

/// After a leading member has loaded the total.
pub fn stage_closed(stage: Stage, total: u64) -> Stage
    ensures { (at : ℕ) → stage ≡ Lead at → result ≡ Shut at total }
{
    match stage {
        Stage::Lead(offset) => Stage::Shut(offset, total),
        _ => stage,
    }
}

/// After the base of a closed batch was handed in.
pub fn stage_handed(stage: Stage, base: u64) -> Stage
    ensures { (at hi : ℕ) → stage ≡ Shut at hi → result ≡ Based at hi base }
{
    match stage {
        Stage::Shut(offset, hi) => Stage::Based(offset, hi, base),
        _ => stage,
    }
}

/// After a member has loaded `last`: a leading one to link its batch, a late one to begin its walk.
pub fn stage_headed(stage: Stage, last: u64) -> Stage
    ensures leads { (at hi base : ℕ) → stage ≡ Based at hi base → result ≡ Headed at hi base last }
    ensures late { (at : ℕ) → stage ≡ Late at → result ≡ At at (last - 1) }
{
    match stage {
        Stage::Based(offset, hi, base) => Stage::Headed(offset, hi, base, last),
        Stage::Late(offset) => Stage::At(offset, last.saturating_sub(1)),
        _ => stage,
    }
}

/// After a leading member has stored a word of this row.
pub fn stage_filled(stage: Stage, row: u64) -> Stage
    ensures { result ≡ filled row stage }
{
    match stage {
        Stage::Headed(offset, hi, base, head) => Stage::FilledLo(offset, hi, base, head, row),
        Stage::FilledLo(offset, hi, base, head, r) => Stage::FilledBase(offset, hi, base, head, r),
        Stage::FilledBase(offset, hi, base, _, r) => Stage::Filled(offset, hi, base, r),
        _ => stage,
    }
}

/// After a leading member has pointed to its row.
pub fn stage_pointed(stage: Stage) -> Stage
    ensures { (at hi base row : ℕ) → stage ≡ Filled at hi base row → result ≡ Pointed at hi base row }
{
    match stage {
        Stage::Filled(offset, hi, base, row) => Stage::Pointed(offset, hi, base, row),
        _ => stage,
    }
}

/// After a late member has loaded a word of the row in hand.
pub fn stage_peeked(stage: Stage, word: u64) -> Stage
    ensures lo { (at row : ℕ) → stage ≡ At at row → result ≡ peeked at row word }
    ensures prev { (at row : ℕ) → stage ≡ Over at row → result ≡ At at (word - 1) }
    ensures base { (at row lo : ℕ) → stage ≡ Hit at row lo → result ≡ Got word (at - lo) }
{
    match stage {
        Stage::At(offset, row) => {
            if word <= offset {
                Stage::Hit(offset, row, word)
            } else {
                Stage::Over(offset, row)
            }
        }
        Stage::Over(offset, _) => Stage::At(offset, word.saturating_sub(1)),
        Stage::Hit(offset, _, lo) => Stage::Got(word, offset.saturating_sub(lo)),
        _ => stage,
    }
}
