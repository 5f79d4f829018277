//! Playing a script on the pure core.
ghost use Rattle.std.specs.Prelude.{◌≡◌, ◌≤◌, ◌<◌, ◌∷◌, ◌⊎◌, [], List, IfErr, IfOk, MatchResult, Err, OnErr, OnOk, None, Some, true, false};
ghost use Rattle.std.specs.List.{All};
ghost use Rattle.fn_model.specs.declared.Kind.TheVariants.{Read};
ghost use Rattle.fn_core.specs.Machine.{IsChange, MaySpend};
ghost use Rattle.fn_core.specs.Begin.{begin_moves, begun};
ghost use Rattle.fn_core.specs.Order.{next_move};
ghost use Rattle.fn_core.specs.Polls.{most_steps, poll_answer, poll_moves};
ghost use Rattle.fn_core.specs.Calls.{HasCall, IsIdle, MayOwn, left_of, own_moves, state_in, step_answer, with_moves};
ghost use Rattle.script_text.specs.Order.{amount};
ghost use Rattle.script_text.specs.Sound.{HasAmount, HasPasses, IsSound};
ghost use Rattle.script_text.specs.declared.scripts.ScriptLine.{ScriptLine};
ghost use Rattle.script_run.specs.Play.{begun_answer, busy, finish, idle, opened_core, order_answer, order_fault, order_moves, play_lines, play_text, rests, told_answer, unfinished};
ghost use Rattle.script_run.specs.Doing.{Does, Gives, IsReady, Leaves, onto};
ghost use Rattle.script_run.specs.Replies.{RepliesAreMet};
ghost use Rattle.script_run.specs.Answered.{TellsInTurn};

use crate::lines::{LineAnswer, push_line, push_value};
use fn_core::{Core, CoreBegun, CoreStep, NoMemory};
use fn_model::Kind;
use script_text::{Order, Script, ScriptLine, allowances};
use std::alloc::Global;

/// Why a script can't be played.
#[derive(Clone, Copy, Debug, PartialEq, Eq)]
pub enum PlayFault {
    /// The line names this pass, which is in mid-call, and is neither a step nor a poll.
    Busy { at: u64, pass: u32 },
    /// The line is a step or a poll of an idle pass.
    NothingPending { at: u64, pass: u32 },
    /// The script ends with this pass, the least such, in mid-call.
    Unfinished { pass: u32 },
    NoMemory,
}

/// One history of the calls that the lines make explains all answers: each reply is the integer just before its call there, and the value is the history's.
pub fn replies_are_met()
    ensures { RepliesAreMet }
{}

/// Plays a script on the pure core, and gives the text of its answers.
pub fn play_script(alloc: Global, script: &Script) -> Result<Vec<u8>, PlayFault>
    requires { IsSound script.now }
    ensures told { IfOk result (λ text. TellsInTurn script.now text.items) }
    ensures text { Gives (λ text. text.items) result (play_text script.now) }
{
    let mut core = open(alloc, script)?;
    let mut text = Vec::new(alloc);
    let lines = &script.lines;
    play_all(&mut core, &mut text, &lines.items)?;
    if let Some(pass) = unfinished(&core, script.shape.passes()) {
        return Err(PlayFault::Unfinished { pass });
    }
    match push_value(&mut text, core.main()) {
        Ok(()) => Ok(text),
        Err(_) => Err(PlayFault::NoMemory),
    }
}

// The core of a script at its opening.
fn open(alloc: Global, script: &Script) -> Result<Core, PlayFault>
    requires { IsSound script.now }
    ensures opened { IfOk result (λ core. core ≡ opened_core script.now) }
    ensures ready { IfOk result (λ core. IsReady core script.now.lines) }
    ensures memory { IfErr result (λ fault. fault ≡ PlayFault.NoMemory) }
{
    let Ok(allowances) = allowances(alloc, script) else {
        return Err(PlayFault::NoMemory);
    };
    match Core::new(alloc, &script.shape, script.opening, &allowances) {
        Ok(core) => Ok(core),
        Err(_) => Err(PlayFault::NoMemory),
    }
}

// Does lines one after the other, and appends what they are answered.
fn play_all(core: &mut Core, text: &mut Vec<u8>, lines: &[ScriptLine]) -> Result<(), PlayFault>
    requires passes { All (HasPasses core.old.start.shape.passes) lines.now }
    requires amounts { All (λ line. HasAmount line.order) lines.now }
    requires ready { IsReady core.old lines.now }
    ensures done { OnOk result (onto text.old.items (play_lines core.old lines.now) ≡ onto text.new.items (play_lines core.new [])) }
    ensures refused { IfErr result (λ found. (found ≡ PlayFault.NoMemory) ⊎ (play_lines core.old lines.now ≡ Err found)) }
    ensures start { OnOk result (core.new.start ≡ core.old.start) }
{
    for line in lines {
        take_line(core, text, *line)?;
    }
    Ok(())
}

// Does a line, and appends what it is answered.
fn take_line(core: &mut Core, text: &mut Vec<u8>, line: ScriptLine) -> Result<(), PlayFault>
    requires passes { HasPasses core.old.start.shape.passes line }
    requires amount { HasAmount line.order }
    requires left { amount line.order ≤ left_of core.old line.pass }
    requires underway { (IsIdle core.old line.pass → ⊥) → HasCall core.old line.pass }
    ensures done { OnOk result ((rest : List ScriptLine) → onto text.old.items (play_lines core.old (line ∷ rest)) ≡ onto text.new.items (play_lines core.new rest)) }
    ensures refused { IfErr result (λ found. (rest : List ScriptLine) → (found ≡ PlayFault.NoMemory) ⊎ (play_lines core.old (line ∷ rest) ≡ Err found)) }
    ensures leaves { OnOk result (Leaves core.old core.new line.pass (amount line.order)) }
{
    let answer = do_line(core, line)?;
    match push_line(text, answer) {
        Ok(()) => Ok(()),
        Err(_) => Err(PlayFault::NoMemory),
    }
}

// The least pass in mid-call.
fn unfinished(core: &Core, passes: u32) -> Option<u32>
    requires { passes ≡ core.now.start.shape.passes }
    ensures { result ≡ unfinished core.now }
{
    for pass in 0..passes {
        if !rests(core, pass) {
            return Some(pass);
        }
    }
    None
}

// Whether a pass makes no call.
fn rests(core: &Core, pass: u32) -> bool
    requires { pass < core.now.start.shape.passes }
    ensures same { result ≡ rests (state_in core.now) pass }
    ensures idle { result ≡ true → IsIdle core.now pass }
    ensures underway { result ≡ false → IsIdle core.now pass → ⊥ }
{
    core.is_idle(pass)
}

// Wants a pass that makes no call.
fn want_rest(core: &Core, at: u64, pass: u32) -> Result<(), PlayFault>
    requires { pass < core.now.start.shape.passes }
    ensures fault { MatchResult result (λ _. busy (state_in core.now) at pass ≡ None) (λ fault. busy (state_in core.now) at pass ≡ Some fault) }
    ensures idle { OnOk result (IsIdle core.now pass) }
{
    if rests(core, pass) {
        Ok(())
    } else {
        Err(PlayFault::Busy { at, pass })
    }
}

// Wants a pass that is in mid-call.
fn want_call(core: &Core, at: u64, pass: u32) -> Result<(), PlayFault>
    requires { pass < core.now.start.shape.passes }
    ensures fault { MatchResult result (λ _. idle (state_in core.now) at pass ≡ None) (λ fault. idle (state_in core.now) at pass ≡ Some fault) }
    ensures call { OnOk result (IsIdle core.now pass → ⊥) }
{
    if rests(core, pass) {
        Err(PlayFault::NothingPending { at, pass })
    } else {
        Ok(())
    }
}

// Begins a call.
fn begin(
    core: &mut Core,
    at: u64,
    pass: u32,
    kind: Kind,
    amount: u64,
) -> Result<LineAnswer, PlayFault>
    requires pass { pass < core.old.start.shape.passes }
    requires change { IsChange kind }
    requires amount { MaySpend (state_in core.old) pass amount }
    ensures { Does core.old core.new pass (busy (state_in core.old) at pass) (begun_answer (begun core.old.start (state_in core.old) pass kind))
        (begin_moves core.old.start (state_in core.old) pass kind amount) amount result }
{
    want_rest(core, at, pass)?;
    match core.begin(pass, kind, amount) {
        Ok(CoreBegun::Waiting) => Ok(LineAnswer::Waits),
        Ok(CoreBegun::NoRow(blocked)) => Ok(LineAnswer::NoRow(blocked)),
        Err(_) => Err(PlayFault::NoMemory),
    }
}

// Makes a call that goes to the main word by itself.
fn own(
    core: &mut Core,
    at: u64,
    pass: u32,
    kind: Kind,
    amount: u64,
) -> Result<LineAnswer, PlayFault>
    requires pass { pass < core.old.start.shape.passes }
    requires amount { MayOwn core.old pass kind amount }
    ensures { Does core.old core.new pass (busy (state_in core.old) at pass) (LineAnswer.Reply (state_in core.old).main)
        (own_moves core.old.start.cap kind amount) amount result }
{
    want_rest(core, at, pass)?;
    match core.own(pass, kind, amount) {
        Ok(reply) => Ok(LineAnswer::Reply(reply)),
        Err(_) => Err(PlayFault::NoMemory),
    }
}

// Takes one step of a call.
fn step(core: &mut Core, at: u64, pass: u32) -> Result<LineAnswer, PlayFault>
    requires pass { pass < core.old.start.shape.passes }
    requires underway { (IsIdle core.old pass → ⊥) → HasCall core.old pass }
    ensures { Does core.old core.new pass (idle (state_in core.old) at pass) (told_answer (step_answer core.old.start (state_in core.old) pass))
        (next_move core.old.start (state_in core.old) pass ∷ []) 0 result }
{
    want_call(core, at, pass)?;
    match core.step(pass) {
        Ok(told) => Ok(told_answer(told)),
        Err(_) => Err(PlayFault::NoMemory),
    }
}

// Takes the steps of a call up to the first that doesn't leave it going.
fn poll_call(core: &mut Core, pass: u32) -> Result<CoreStep, NoMemory>
    requires pass { pass < core.old.start.shape.passes }
    requires underway { HasCall core.old pass }
    ensures taken { IfOk result (λ _. core.new ≡ with_moves core.old pass
        (poll_moves (most_steps core.old.start (state_in core.old) pass) core.old.start (state_in core.old) pass)) }
    ensures told { IfOk result (λ told. told ≡ poll_answer (most_steps core.old.start (state_in core.old) pass) core.old.start (state_in core.old) pass) }
    ensures leaves { OnOk result (Leaves core.old core.new pass 0) }
{
    loop {
        match core.step(pass)? {
            CoreStep::Going => {}
            told => return Ok(told),
        }
    }
}

// Takes the steps of a call until it is answered.
fn poll(core: &mut Core, at: u64, pass: u32) -> Result<LineAnswer, PlayFault>
    requires pass { pass < core.old.start.shape.passes }
    requires underway { (IsIdle core.old pass → ⊥) → HasCall core.old pass }
    ensures { Does core.old core.new pass (idle (state_in core.old) at pass) (order_answer core.old.start (state_in core.old) pass Order.Poll)
        (order_moves core.old.start (state_in core.old) pass Order.Poll) 0 result }
{
    want_call(core, at, pass)?;
    match poll_call(core, pass) {
        Ok(told) => Ok(told_answer(told)),
        Err(_) => Err(PlayFault::NoMemory),
    }
}

// Lets a pass meet another, which changes nothing.
fn meet(core: &Core, at: u64, pass: u32, other: u32) -> Result<LineAnswer, PlayFault>
    requires pass { pass < core.now.start.shape.passes }
    requires other { other < core.now.start.shape.passes }
    ensures { Does core.now core.now pass (order_fault (state_in core.now) at pass (Order.Meet other)) LineAnswer.Met [] 0 result }
{
    want_rest(core, at, pass)?;
    want_rest(core, at, other)?;
    Ok(LineAnswer::Met)
}

// Does a line.
fn do_line(core: &mut Core, line: ScriptLine) -> Result<LineAnswer, PlayFault>
    requires passes { HasPasses core.old.start.shape.passes line }
    requires amount { HasAmount line.order }
    requires left { amount line.order ≤ left_of core.old line.pass }
    requires underway { (IsIdle core.old line.pass → ⊥) → HasCall core.old line.pass }
    ensures { Does core.old core.new line.pass (order_fault (state_in core.old) line.at line.pass line.order)
        (order_answer core.old.start (state_in core.old) line.pass line.order)
        (order_moves core.old.start (state_in core.old) line.pass line.order) (amount line.order) result }
{
    let ScriptLine { at, pass, order } = line;
    match order {
        Order::Add(amount) => begin(core, at, pass, Kind::Add, amount),
        Order::Sub(amount) => begin(core, at, pass, Kind::Sub, amount),
        Order::Direct(amount) => own(core, at, pass, Kind::Add, amount),
        Order::SubDirect(amount) => own(core, at, pass, Kind::Sub, amount),
        Order::Read => own(core, at, pass, Kind::Read, 0),
        Order::Step => step(core, at, pass),
        Order::Poll => poll(core, at, pass),
        Order::Meet(other) => meet(core, at, pass, other),
    }
}

// What a step is answered.
fn told_answer(told: CoreStep) -> LineAnswer
    ensures { result ≡ told_answer told }
{
    match told {
        CoreStep::Going => LineAnswer::Going,
        CoreStep::Ready(reply) => LineAnswer::Reply(reply),
        CoreStep::NotYet(why) => LineAnswer::NotYet(why),
    }
}
