//! Scripts on the table: the callers that a refusal hands back.
use script_run::{Caller, PlayFault, trial_script};
use script_text::read_script;
use std::test::Fail;

// Why a script is refused, and which of its callers are in mid-call then.
fn refusal(rt: &HostRuntime, text: &str) -> Result<(PlayFault, Vec<bool>), Fail> {
    let script = read_script(rt.alloc(), text.as_bytes())
        .ok()
        .ok_or("no script")?;
    let (fault, callers) = trial_script(rt.alloc(), &script).err().ok_or("it ran")?;
    let mut pending = Vec::new(rt.alloc());
    for caller in &callers {
        pending.push(matches!(caller, Caller::Pending(_)))?;
    }
    Ok((fault, pending))
}

#[test]
fn refusals_hand_back_all_callers(rt: HostRuntime) -> Result<(), Fail> {
    let (fault, pending) = refusal(&rt, "funnel 1 1 1 1 0\n0 poll\n")?;
    assert_eq!(rt; fault, PlayFault::NothingPending { at: 2, pass: 0 });
    assert_eq!(rt; pending.as_slice(), [false].as_slice());
    let (fault, pending) = refusal(&rt, "funnel 1 1 1 1 0\n0 add 1\n")?;
    assert_eq!(rt; fault, PlayFault::Unfinished { pass: 0 });
    assert_eq!(rt; pending.as_slice(), [true].as_slice());
    let (fault, pending) = refusal(&rt, "funnel 1 1 1 1 0\n0 add 1\n0 add 1\n0 poll\n")?;
    assert_eq!(rt; fault, PlayFault::Busy { at: 3, pass: 0 });
    assert_eq!(rt; pending.as_slice(), [true].as_slice());
    let (fault, pending) = refusal(&rt, "funnel 3 1 1 1 0\n1 add 1\n0 meet 1\n")?;
    assert_eq!(rt; fault, PlayFault::Busy { at: 3, pass: 1 });
    assert_eq!(rt; pending.as_slice(), [false, true, false].as_slice());
    Ok(())
}
