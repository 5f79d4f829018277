use std::test::Fail;
use tool_words::*;

// The greatest number of each field of a bucket.
const MOST: u64 = 9_223_372_036_854_775_807;

// Reads the words of a line.
fn read(rt: &HostRuntime, line: &str) -> Result<Option<Command>, Fail> {
    let mut words = Vec::new(rt.alloc());
    for word in line.split_whitespace() {
        words.push(String::from_str(rt.alloc(), word)?)?;
    }
    Ok(read_command(rt.alloc(), &words)?)
}

fn replay(workers: u32) -> Option<Command> {
    Some(Command::Replay { workers })
}

fn drill(seed: u64, rows: u64, workers: u32) -> Option<Command> {
    Some(Command::Drill {
        seed,
        rows,
        workers,
    })
}

fn relay(workers: u32, capacity: u32) -> Option<Command> {
    Some(Command::Relay { workers, capacity })
}

fn tally(workers: u32, grain: u64) -> Option<Command> {
    Some(Command::Tally { workers, grain })
}

fn throttle(workers: u32, burst: u64, rate: u64, period: u64) -> Option<Command> {
    Some(Command::Throttle {
        workers,
        burst,
        rate,
        period,
    })
}

#[test]
fn words_ask_for_commands(rt: HostRuntime) -> Result<(), Fail> {
    for (line, command) in [
        ("play", Some(Command::Play)),
        ("play --", Some(Command::Play)),
        ("trial", Some(Command::Trial)),
        ("replay 64", replay(64)),
        ("replay 0000000000000000001", replay(1)),
        ("drill 0 1 1", drill(0, 1, 1)),
        ("drill -- 0 1 1", drill(0, 1, 1)),
        ("drill 1000000 1000000 64", drill(1_000_000, 1_000_000, 64)),
        ("relay 2 65536", relay(2, 65_536)),
        ("rounds", Some(Command::Rounds)),
        ("", None),
        ("sum", None),
        ("play 1", None),
        ("played", None),
        ("replay", None),
        ("replay 0", None),
        ("replay 65", None),
        ("replay x", None),
        ("replay +1", None),
        ("replay 00000000000000000001", None),
        ("replay --help", None),
        ("drill 0 0 1", None),
        ("drill 1000001 1 1", None),
        ("drill -1 1 1", None),
        ("drill 1 1", None),
        ("relay 1 65537", None),
        ("rounds x", None),
        ("tally 64 1024", tally(64, 1024)),
        ("tally 1 1025", None),
        ("tally 1", None),
        ("throttle 2 10 1 1000", throttle(2, 10, 1, 1000)),
        (
            "throttle 64 9223372036854775807 1 1",
            throttle(64, MOST, 1, 1),
        ),
        (
            "throttle 1 1 9223372036854775807 1",
            throttle(1, 1, MOST, 1),
        ),
        (
            "throttle 1 1 1 9223372036854775807",
            throttle(1, 1, 1, MOST),
        ),
        ("throttle 1 0 1 1", None),
        ("throttle 1 9223372036854775808 1 1", None),
        ("throttle 65 1 1 1", None),
        ("throttle 1 1 0 1", None),
        ("throttle 1 1 1 0", None),
        ("throttle 1 1 1", None),
        ("throttle 1 1 1 1 1", None),
    ] {
        assert_eq!(rt; read(&rt, line)?, command);
    }
    Ok(())
}
