//! Whole runs of lines of takes that go through a bucket.
use crate::runs::{run_on, sound};
use crate::trace_tests::{USAGE, cross};
use gates::OpenGate;
use std::test::Fail;

#[derive(Clone, Copy)]
struct Row {
    line: &'static str,
    takes: &'static str,
    stdout: &'static str,
    stderr: &'static str,
    status: u8,
}

// A row whose lines are answered.
fn told(line: &'static str, takes: &'static str, stdout: &'static str) -> Row {
    Row {
        line,
        takes,
        stdout,
        stderr: "",
        status: 0,
    }
}

// A row whose lines are refused.
fn refused(line: &'static str, takes: &'static str, stderr: &'static str) -> Row {
    Row {
        line,
        takes,
        stdout: "",
        stderr,
        status: 3,
    }
}

// A row whose words are no command.
fn no_command(line: &'static str) -> Row {
    Row {
        line,
        takes: "0 0 1\n",
        stdout: "",
        stderr: USAGE,
        status: 2,
    }
}

#[test]
fn lines_of_takes_give_their_texts_or_faults(rt: HostRuntime) -> Result<(), Fail> {
    for row in [
        told(
            "throttle 1 10 2 5",
            "0 0 7\n0 4 7\n0 12 1\n0 3 1\n",
            "1 10 7 0\n2 3 3 0\n3 4 1 2\n4 3 1 0\ntick 2 value 2\n",
        ),
        told(
            "throttle 1 10 2 5",
            "0 0 1\n0 1000 1\n",
            "1 10 1 0\n2 10 1 200\ntick 200 value 9\n",
        ),
        told("throttle 64 10 2 5", "", "tick 0 value 10\n"),
        refused(
            "throttle 1 9223372036854775807 1 1",
            "0 0 1\n",
            "refused: total at 1\n",
        ),
        refused(
            "throttle 1 10 2 5",
            "0 0 1\n0 0\n",
            "refused: fields at 2\n",
        ),
        refused("throttle 1 10 2 5", "1 0 0\nx\n", "refused: worker at 1\n"),
        refused(
            "throttle 1 10 2 5",
            "0 0 0\n1 0 1\n",
            "refused: amount at 1\n",
        ),
        no_command("throttle 1 0 1 1"),
        no_command("throttle 1 1 1"),
        no_command("throttle 65 1 1 1"),
    ] {
        let ran = run_on(&rt, row.line, row.takes.as_bytes(), sound(), &OpenGate)?;
        assert!(rt;
            ran.is(row.status, row.stdout.as_bytes(), row.stderr.as_bytes()),
            "{}",
            row.takes
        );
    }
    Ok(())
}

#[test]
fn takes_cross(rt: HostRuntime) -> Result<(), Fail> {
    let (ran, gave_up) = cross(&rt, "throttle 2 10 1 1000", b"0 0 4\n1 0 4\n")?;
    let text = b"1 6 4 0\n2 10 4 0\ntick 0 value 2\n";
    assert!(rt; !gave_up && ran.is(0, text, b""));
    Ok(())
}
