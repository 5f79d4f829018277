//! What runs hand back beside their texts, whether or not the text could be written.
use crate::runs::{Ran, run_on, sound};
use gates::OpenGate;
use std::alloc::AllocGlobal;
use std::random::RandomSource;
use std::sync::Wait;
use std::test::Fail;
use std::thread::Threads;
use tool_run::Outcome;

static SCRIPT: &str = "funnel 2 1 1 2 10\n0 add 5\n1 sub 3\n";

// Runs a command, whose first write may fail.
fn run_once<R: Threads + Wait + Sync + RandomSource + AllocGlobal>(
    rt: &R,
    line: &str,
    input: &str,
    fails: bool,
) -> Result<Ran, Fail> {
    let mut streams = sound();
    if fails {
        streams.failing_writes = &[0];
    }
    run_on(rt, line, input.as_bytes(), streams, &OpenGate)
}

// The status of a run, whose write may have failed.
fn status_after(fails: bool) -> u8 {
    if fails { 5 } else { 0 }
}

// The opening and the value of the one book of an outcome.
fn one_book(outcome: &Outcome) -> Option<(u64, u64)> {
    match outcome.books.as_slice() {
        [book] => Some((book.opening(), book.value())),
        _ => None,
    }
}

#[test]
fn books_are_handed_back(rt: HostRuntime) -> Result<(), Fail> {
    for (line, input, book) in [
        ("trial", "funnel 1 1 1 1 4\n0 add 3\n0 poll\n", (4, 7)),
        ("rounds", SCRIPT, (10, 12)),
        ("tally 2 1", "a\nb\n", (0, 3)),
        (
            "replay 1",
            "worker,op,tenant,amount\n0,open,d,10\n0,take,d,4\n",
            (10, 6),
        ),
    ] {
        for fails in [false, true] {
            let ran = run_once(&rt, line, input, fails)?;
            let is_alone = ran.outcome.queue.is_none() && ran.outcome.bucket.is_none();
            let has_ended = ran.outcome.status == status_after(fails);
            assert!(rt; has_ended && is_alone && one_book(&ran.outcome) == Some(book));
        }
    }
    Ok(())
}

#[test]
fn the_book_of_a_queue_is_handed_back(rt: HostRuntime) -> Result<(), Fail> {
    for fails in [false, true] {
        let ran = run_once(&rt, "relay 1 2", "a\nb\n", fails)?;
        let has_ended = ran.outcome.status == status_after(fails);
        assert!(rt; has_ended && ran.outcome.books.is_empty());
        let queue = ran.outcome.queue.as_ref().ok_or("no queue")?;
        assert_eq!(rt; queue.puts(), 2);
    }
    Ok(())
}

#[test]
fn the_book_of_a_bucket_is_handed_back(rt: HostRuntime) -> Result<(), Fail> {
    for fails in [false, true] {
        let ran = run_once(&rt, "throttle 1 10 2 5", "0 12 7\n", fails)?;
        let has_ended = ran.outcome.status == status_after(fails);
        assert!(rt; has_ended && ran.outcome.books.is_empty());
        let bucket = ran.outcome.bucket.as_ref().ok_or("no bucket")?;
        assert_eq!(rt; (bucket.tick(), bucket.value()), (2, 3));
    }
    Ok(())
}

#[test]
fn callers_in_mid_call_are_handed_back(rt: HostRuntime) -> Result<(), Fail> {
    let ran = run_once(&rt, "trial", SCRIPT, false)?;
    let hands_back = ran.outcome.halted.len() == 2 && ran.outcome.books.is_empty();
    assert!(rt; hands_back && ran.is(3, b"", b"refused: unfinished pass 0\n"));
    Ok(())
}
