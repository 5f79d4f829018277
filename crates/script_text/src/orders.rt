//! A line after the first one: a pass and an order.
ghost use Rattle.std.specs.Prelude.{◌≡◌, Ok, Err, None, MatchResult, option_map};
ghost use Rattle.text_lines.specs.Text.{words};
ghost use Rattle.script_text.specs.Script.{amount_of, has_third, line_of, order_of, pass_of, third_of, verb_line, verb_of};

use crate::scripts::{Order, ScriptFault, ScriptLine};
use text_lines::{Words, number};

// What the second word of a line says.
#[derive(Clone, Copy)]
enum Verb {
    Add,
    Sub,
    Direct,
    SubDirect,
    Read,
    Step,
    Poll,
    Meet,
}

impl Verb {
    // Whether an amount or a pass follows.
    fn has_third(self) -> bool
        ensures { result ≡ has_third self }
    {
        match self {
            Verb::Read | Verb::Step | Verb::Poll => false,
            Verb::Add | Verb::Sub | Verb::Direct | Verb::SubDirect | Verb::Meet => true,
        }
    }
}

/// Reads a line, which says nothing where it has no words.
#[tactic(auto, unfolding(crate::specs::Script::line_of))]
pub fn read_line(passes: u32, at: u64, line: &[u8]) -> Result<Option<ScriptLine>, ScriptFault>
    ensures { result ≡ line_of passes at (words line.now) }
{
    let mut words = Words::new(line);
    let Some(pass) = words.next() else {
        return Ok(None);
    };
    let Some(name) = words.next() else {
        return Err(ScriptFault::Fields { at });
    };
    read_verb_line(passes, at, pass, verb_of(name), words)
}

// Reads a line from its verb on.
#[tactic(auto, unfolding(crate::specs::Script::verb_line))]
fn read_verb_line(
    passes: u32,
    at: u64,
    pass: &[u8],
    verb: Option<Verb>,
    words: Words<'_>,
) -> Result<Option<ScriptLine>, ScriptFault>
    ensures { result ≡ verb_line passes at pass.now verb words.entry }
{
    let Some(verb) = verb else {
        pass_of(passes, at, Some(pass))?;
        return Err(ScriptFault::Op { at });
    };
    let third = third_of(at, verb, words)?;
    let pass = pass_of(passes, at, Some(pass))?;
    let order = order_of(passes, at, verb, third)?;
    Ok(Some(ScriptLine { at, pass, order }))
}

#[tactic(auto, unfolding(crate::specs::Script::verb_of))]
fn verb_of(name: &[u8]) -> Option<Verb>
    ensures { result ≡ verb_of name.now }
{
    if name == b"add".as_slice() {
        Some(Verb::Add)
    } else if name == b"sub".as_slice() {
        Some(Verb::Sub)
    } else if name == b"direct".as_slice() {
        Some(Verb::Direct)
    } else if name == b"subdirect".as_slice() {
        Some(Verb::SubDirect)
    } else if name == b"read".as_slice() {
        Some(Verb::Read)
    } else if name == b"step".as_slice() {
        Some(Verb::Step)
    } else if name == b"poll".as_slice() {
        Some(Verb::Poll)
    } else if name == b"meet".as_slice() {
        Some(Verb::Meet)
    } else {
        None
    }
}

// The word after a verb, where it has one, of the words that are left.
#[tactic(auto, unfolding(crate::specs::Script::third_of))]
fn third_of<'a>(at: u64, verb: Verb, words: Words<'a>) -> Result<Option<&'a [u8]>, ScriptFault>
    ensures { MatchResult result
        (λ third. third_of at verb words.entry ≡ Ok (option_map (λ word. word.now) third))
        (λ fault. third_of at verb words.entry ≡ Err fault) }
{
    let mut words = words;
    if !verb.has_third() {
        return match words.next() {
            None => Ok(None),
            Some(_) => Err(ScriptFault::Fields { at }),
        };
    }
    let Some(third) = words.next() else {
        return Err(ScriptFault::Fields { at });
    };
    match words.next() {
        None => Ok(Some(third)),
        Some(_) => Err(ScriptFault::Fields { at }),
    }
}

#[tactic(auto, unfolding(crate::specs::Script::pass_of))]
fn pass_of(passes: u32, at: u64, word: Option<&[u8]>) -> Result<u32, ScriptFault>
    ensures { result ≡ pass_of passes at (option_map (λ w. w.now) word.entry) }
{
    let Some(word) = word else {
        return Err(ScriptFault::Pass { at });
    };
    match number(word) {
        Some(n) if n < u64::from(passes) => Ok(n as u32),
        _ => Err(ScriptFault::Pass { at }),
    }
}

#[tactic(auto, unfolding(crate::specs::Script::amount_of))]
fn amount_of(at: u64, word: Option<&[u8]>) -> Result<u64, ScriptFault>
    ensures { result ≡ amount_of at (option_map (λ w. w.now) word.entry) }
{
    let Some(word) = word else {
        return Err(ScriptFault::Amount { at });
    };
    match number(word) {
        Some(n) if n > 0 => Ok(n),
        _ => Err(ScriptFault::Amount { at }),
    }
}

#[tactic(auto, unfolding(crate::specs::Script::order_of))]
fn order_of(passes: u32, at: u64, verb: Verb, third: Option<&[u8]>) -> Result<Order, ScriptFault>
    ensures { result ≡ order_of passes at verb (option_map (λ w. w.now) third.entry) }
{
    match verb {
        Verb::Add => Ok(Order::Add(amount_of(at, third)?)),
        Verb::Sub => Ok(Order::Sub(amount_of(at, third)?)),
        Verb::Direct => Ok(Order::Direct(amount_of(at, third)?)),
        Verb::SubDirect => Ok(Order::SubDirect(amount_of(at, third)?)),
        Verb::Read => Ok(Order::Read),
        Verb::Step => Ok(Order::Step),
        Verb::Poll => Ok(Order::Poll),
        Verb::Meet => Ok(Order::Meet(pass_of(passes, at, third)?)),
    }
}
