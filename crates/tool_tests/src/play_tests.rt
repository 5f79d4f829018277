//! Whole runs on fakes of the streams.
use crate::runs::{Ran, failing_reads, failing_writes, play_on, sound};
use std::test::Fail;

#[derive(Clone, Copy)]
pub(crate) struct Row {
    pub(crate) input: &'static str,
    /// how many newlines follow the input
    pub(crate) newlines: usize,
    /// what follows them
    pub(crate) after: &'static str,
    pub(crate) stdout: &'static str,
    pub(crate) stderr: &'static str,
    pub(crate) status: u8,
}

pub(crate) static ROWS: [Row; 60] = [
    // a member polls before its delegate
    Row {
        input: "funnel 3 1 1 2 10\n0 add 5\n1 add 7\n2 add 1\n1 poll\n0 poll\n1 poll\n2 poll\n",
        newlines: 0,
        after: "",
        stdout: "waits\nwaits\nwaits\nnotyet behind 0 5\nreply 10\nreply 15\nreply 22\nvalue 23\n",
        stderr: "",
        status: 0,
    },
    // an arrival between closing and applying
    Row {
        input: "funnel 2 1 1 2 10\n0 add 5\n0 step\n0 step\n1 add 7\n0 poll\n1 poll\n",
        newlines: 0,
        after: "",
        stdout: "waits\ngoing\ngoing\nwaits\nreply 10\nreply 15\nvalue 22\n",
        stderr: "",
        status: 0,
    },
    // a batch passes zero in its middle
    Row {
        input: "funnel 2 1 1 2 6\n0 sub 4\n1 sub 4\n0 poll\n1 poll\n",
        newlines: 0,
        after: "",
        stdout: "waits\nwaits\nreply 6\nreply 2\nvalue 0\n",
        stderr: "",
        status: 0,
    },
    // a direct addition beside a closed batch
    Row {
        input: "funnel 2 1 1 2 10\n0 add 5\n0 step\n0 step\n1 direct 100\n0 poll\n",
        newlines: 0,
        after: "",
        stdout: "waits\ngoing\ngoing\nreply 10\nreply 110\nvalue 115\n",
        stderr: "",
        status: 0,
    },
    // a lost exchange
    Row {
        input: "funnel 2 1 1 2 6\n0 sub 4\n0 step\n0 step\n0 step\n1 direct 1\n0 step\n0 poll\n",
        newlines: 0,
        after: "",
        stdout: "waits\ngoing\ngoing\ngoing\nreply 6\nnotyet lost 6 7\nreply 7\nvalue 3\n",
        stderr: "",
        status: 0,
    },
    // the greatest value
    Row {
        input: "funnel 1 1 1 1 9223372036854775806\n0 add 1\n0 poll\n",
        newlines: 0,
        after: "",
        stdout: "waits\nreply 9223372036854775806\nvalue 9223372036854775807\n",
        stderr: "",
        status: 0,
    },
    // a total above it
    Row {
        input: "funnel 1 1 1 1 9223372036854775807\n0 add 1\n0 poll\n",
        newlines: 0,
        after: "",
        stdout: "",
        stderr: "refused: total at 2\n",
        status: 3,
    },
    // empty input
    Row {
        input: "",
        newlines: 0,
        after: "",
        stdout: "",
        stderr: "refused: header at 1\n",
        status: 3,
    },
    // nothing pending
    Row {
        input: "funnel 1 1 1 1 0\n0 poll\n",
        newlines: 0,
        after: "",
        stdout: "",
        stderr: "refused: nothing pending at 2 pass 0\n",
        status: 3,
    },
    // unfinished
    Row {
        input: "funnel 1 1 1 1 0\n0 add 1\n",
        newlines: 0,
        after: "",
        stdout: "",
        stderr: "refused: unfinished pass 0\n",
        status: 3,
    },
    // busy
    Row {
        input: "funnel 1 1 1 1 0\n0 add 1\n0 add 1\n0 poll\n",
        newlines: 0,
        after: "",
        stdout: "",
        stderr: "refused: busy at 3 pass 0\n",
        status: 3,
    },
    // reads beside a waiting call
    Row {
        input: "funnel 2 1 1 1 0\n0 add 5\n1 read\n0 poll\n1 read\n",
        newlines: 0,
        after: "",
        stdout: "waits\nreply 0\nreply 0\nreply 5\nvalue 5\n",
        stderr: "",
        status: 0,
    },
    // rows run out and come back
    Row {
        input: "funnel 2 1 1 2 0\n0 add 1\n1 add 1\n0 poll\n0 add 1\n0 poll\n0 add 1\n1 poll\n0 add 1\n0 poll\n",
        newlines: 0,
        after: "",
        stdout: "waits\nwaits\nreply 0\nwaits\nreply 2\nnorow 1 1 1 0\nreply 1\nwaits\nreply 3\nvalue 4\n",
        stderr: "",
        status: 0,
    },
    // two levels
    Row {
        input: "funnel 4 2 2 2 100\n0 add 1\n2 add 2\n1 add 4\n3 add 8\n0 step\n0 step\n0 step\n0 step\n0 step\n1 step\n1 step\n1 step\n1 step\n1 step\n0 poll\n1 poll\n2 poll\n3 poll\n",
        newlines: 0,
        after: "",
        stdout: "waits\nwaits\nwaits\nwaits\ngoing\ngoing\ngoing\ngoing\ngoing\ngoing\ngoing\ngoing\ngoing\ngoing\nreply 100\nreply 103\nreply 101\nreply 107\nvalue 115\n",
        stderr: "",
        status: 0,
    },
    // a meeting
    Row {
        input: "funnel 2 1 1 1 0\n0 add 3\n0 poll\n1 meet 0\n1 read\n",
        newlines: 0,
        after: "",
        stdout: "waits\nreply 0\nmet\nreply 3\nvalue 3\n",
        stderr: "",
        status: 0,
    },
    // a direct subtraction
    Row {
        input: "funnel 1 1 1 1 3\n0 subdirect 5\n0 read\n",
        newlines: 0,
        after: "",
        stdout: "reply 3\nreply 0\nvalue 0\n",
        stderr: "",
        status: 0,
    },
    // shape passes 65
    Row {
        input: "funnel 65 1 1 1 0\n",
        newlines: 0,
        after: "",
        stdout: "",
        stderr: "refused: shape passes 65\n",
        status: 3,
    },
    // shape leaves 3
    Row {
        input: "funnel 2 3 1 1 0\n",
        newlines: 0,
        after: "",
        stdout: "",
        stderr: "refused: shape leaves 3\n",
        status: 3,
    },
    // shape levels 4
    Row {
        input: "funnel 1 1 4 1 0\n",
        newlines: 0,
        after: "",
        stdout: "",
        stderr: "refused: shape levels 4\n",
        status: 3,
    },
    // shape rows 9
    Row {
        input: "funnel 1 1 1 9 0\n",
        newlines: 0,
        after: "",
        stdout: "",
        stderr: "refused: shape rows 9\n",
        status: 3,
    },
    // too many bytes
    Row {
        input: "",
        newlines: 33554433,
        after: "",
        stdout: "",
        stderr: "refused: too long\n",
        status: 3,
    },
    // only newlines
    Row {
        input: "",
        newlines: 65537,
        after: "",
        stdout: "",
        stderr: "refused: header at 1\n",
        status: 3,
    },
    // too many lines
    Row {
        input: "funnel 1 1 1 1 0\n",
        newlines: 65536,
        after: "",
        stdout: "",
        stderr: "refused: too many at 65537\n",
        status: 3,
    },
    // the same with announcements
    Row {
        input: "funnel 2 1 1 2 0\n0 add 1\n1 add 1\n0 poll\n0 add 1\n0 poll\n0 add 1\n1 poll\n",
        newlines: 0,
        after: "",
        stdout: "waits\nwaits\nreply 0\nwaits\nreply 2\nnorow 1 1 1 0\nreply 1\nvalue 3\n",
        stderr: "",
        status: 0,
    },
    // the largest shape of one level
    Row {
        input: "funnel 64 32 1 8 0\n",
        newlines: 0,
        after: "",
        stdout: "value 0\n",
        stderr: "",
        status: 0,
    },
    // busy before a meeting
    Row {
        input: "funnel 2 1 1 1 0\n0 add 1\n0 meet 1\n0 poll\n",
        newlines: 0,
        after: "",
        stdout: "",
        stderr: "refused: busy at 3 pass 0\n",
        status: 3,
    },
    // the second pass of a meeting is busy
    Row {
        input: "funnel 2 1 1 1 0\n0 add 1\n1 meet 0\n0 poll\n",
        newlines: 0,
        after: "",
        stdout: "",
        stderr: "refused: busy at 3 pass 0\n",
        status: 3,
    },
    // a pass meets itself
    Row {
        input: "funnel 1 1 1 1 4\n0 meet 0\n",
        newlines: 0,
        after: "",
        stdout: "met\nvalue 4\n",
        stderr: "",
        status: 0,
    },
    // busy with a subtraction
    Row {
        input: "funnel 2 1 1 2 5\n0 sub 9\n0 add 4\n0 poll\n",
        newlines: 0,
        after: "",
        stdout: "",
        stderr: "refused: busy at 3 pass 0\n",
        status: 3,
    },
    // both kinds
    Row {
        input: "funnel 2 1 1 2 5\n0 sub 9\n1 add 4\n1 poll\n0 poll\n",
        newlines: 0,
        after: "",
        stdout: "waits\nwaits\nreply 5\nreply 9\nvalue 0\n",
        stderr: "",
        status: 0,
    },
    // no other pass is scanned
    Row {
        input: "funnel 1 1 1 1 0\n0 add 1\n0 poll\n0 add 1\n0 poll\n",
        newlines: 0,
        after: "",
        stdout: "waits\nreply 0\nwaits\nreply 1\nvalue 2\n",
        stderr: "",
        status: 0,
    },
    // an announcement at the row's end
    Row {
        input: "funnel 2 1 1 1 0\n0 add 1\n0 poll\n1 add 1\n0 add 1\n0 poll\n1 poll\n0 poll\n",
        newlines: 0,
        after: "",
        stdout: "waits\nreply 0\nwaits\nwaits\nnotyet behind 1 2\nreply 1\nreply 2\nvalue 3\n",
        stderr: "",
        status: 0,
    },
    // two levels of subtractions
    Row {
        input: "funnel 4 2 2 2 5\n0 sub 1\n2 sub 2\n1 sub 4\n3 sub 8\n0 step\n0 step\n0 step\n0 step\n0 step\n1 step\n1 step\n1 step\n1 step\n1 step\n0 poll\n1 poll\n2 poll\n3 poll\n",
        newlines: 0,
        after: "",
        stdout: "waits\nwaits\nwaits\nwaits\ngoing\ngoing\ngoing\ngoing\ngoing\ngoing\ngoing\ngoing\ngoing\ngoing\nreply 5\nreply 2\nreply 4\nreply 0\nvalue 0\n",
        stderr: "",
        status: 0,
    },
    // three levels
    Row {
        input: "funnel 3 3 3 1 7\n2 add 5\n2 poll\n",
        newlines: 0,
        after: "",
        stdout: "waits\nreply 7\nvalue 12\n",
        stderr: "",
        status: 0,
    },
    // the largest shape
    Row {
        input: "funnel 64 32 3 8 0\n",
        newlines: 0,
        after: "",
        stdout: "value 0\n",
        stderr: "",
        status: 0,
    },
    // `5 sub x`
    Row {
        input: "funnel 2 1 1 1 0\n5 sub x\n",
        newlines: 0,
        after: "",
        stdout: "",
        stderr: "refused: pass at 2\n",
        status: 3,
    },
    // `5 jump`
    Row {
        input: "funnel 2 1 1 1 0\n5 jump\n",
        newlines: 0,
        after: "",
        stdout: "",
        stderr: "refused: pass at 2\n",
        status: 3,
    },
    // `0 jump x y`
    Row {
        input: "funnel 2 1 1 1 0\n0 jump x y\n",
        newlines: 0,
        after: "",
        stdout: "",
        stderr: "refused: op at 2\n",
        status: 3,
    },
    // `0 add`
    Row {
        input: "funnel 2 1 1 1 0\n0 add\n",
        newlines: 0,
        after: "",
        stdout: "",
        stderr: "refused: fields at 2\n",
        status: 3,
    },
    // `2 step x`
    Row {
        input: "funnel 2 1 1 1 0\n2 step x\n",
        newlines: 0,
        after: "",
        stdout: "",
        stderr: "refused: fields at 2\n",
        status: 3,
    },
    // `0 add 0`
    Row {
        input: "funnel 2 1 1 1 0\n0 add 0\n",
        newlines: 0,
        after: "",
        stdout: "",
        stderr: "refused: amount at 2\n",
        status: 3,
    },
    // `0 meet 2`
    Row {
        input: "funnel 2 1 1 1 0\n0 meet 2\n",
        newlines: 0,
        after: "",
        stdout: "",
        stderr: "refused: pass at 2\n",
        status: 3,
    },
    // a short header
    Row {
        input: "funnel 2 1 1 1\n",
        newlines: 0,
        after: "",
        stdout: "",
        stderr: "refused: header at 1\n",
        status: 3,
    },
    // two empty lines
    Row {
        input: "\n\nfunnel 1 1 1 1 0\n0 add x\n",
        newlines: 0,
        after: "",
        stdout: "",
        stderr: "refused: amount at 4\n",
        status: 3,
    },
    // the total before the op of a later line
    Row {
        input: "funnel 1 1 1 1 9223372036854775807\n0 add 1\n0 jump\n",
        newlines: 0,
        after: "",
        stdout: "",
        stderr: "refused: total at 2\n",
        status: 3,
    },
    // a stalled delegate
    Row {
        input: "funnel 2 1 1 1 0\n0 add 1\n0 step\n1 add 2\n1 poll\n1 poll\n0 poll\n1 poll\n",
        newlines: 0,
        after: "",
        stdout: "waits\ngoing\nwaits\nnotyet behind 0 1\nnotyet behind 0 1\nreply 0\nreply 1\nvalue 3\n",
        stderr: "",
        status: 0,
    },
    // publishing before filling
    Row {
        input: "funnel 2 1 1 1 0\n1 add 1\n1 step\n1 step\n0 add 3\n1 step\n1 step\n0 step\n1 poll\n0 poll\n",
        newlines: 0,
        after: "",
        stdout: "waits\ngoing\ngoing\nwaits\ngoing\ngoing\nnotyet behind 0 1\nreply 0\nreply 1\nvalue 4\n",
        stderr: "",
        status: 0,
    },
    // reading the last row without walking
    Row {
        input: "funnel 3 2 1 2 0\n0 add 1\n2 add 2\n0 poll\n1 add 10\n1 poll\n0 add 1\n0 poll\n2 poll\n",
        newlines: 0,
        after: "",
        stdout: "waits\nwaits\nreply 0\nwaits\nreply 3\nwaits\nreply 13\nreply 1\nvalue 14\n",
        stderr: "",
        status: 0,
    },
    // the same with a direct addition
    Row {
        input: "funnel 2 1 1 2 0\n0 add 1\n1 add 2\n0 poll\n0 direct 5\n0 add 1\n0 poll\n1 poll\n",
        newlines: 0,
        after: "",
        stdout: "waits\nwaits\nreply 0\nreply 3\nwaits\nreply 8\nreply 1\nvalue 9\n",
        stderr: "",
        status: 0,
    },
    // scanning past an empty announcement
    Row {
        input: "funnel 3 1 1 1 0\n0 add 1\n2 add 2\n0 poll\n0 add 1\n2 poll\n",
        newlines: 0,
        after: "",
        stdout: "waits\nwaits\nreply 0\nnorow 1 0 2 0\nreply 1\nvalue 3\n",
        stderr: "",
        status: 0,
    },
    // an announcement stands up to the reply
    Row {
        input: "funnel 2 1 1 1 0\n0 add 1\n1 add 2\n0 poll\n1 step\n1 step\n1 step\n1 step\n0 add 1\n1 step\n0 add 1\n0 poll\n",
        newlines: 0,
        after: "",
        stdout: "waits\nwaits\nreply 0\ngoing\ngoing\ngoing\ngoing\nnorow 1 0 1 0\nreply 1\nwaits\nreply 3\nvalue 4\n",
        stderr: "",
        status: 0,
    },
    // announcing before arriving at the second level
    Row {
        input: "funnel 2 2 2 1 0\n0 add 1\n1 add 2\n0 step\n0 step\n0 step\n0 step\n0 step\n1 step\n1 step\n1 step\n1 step\n0 poll\n0 add 1\n1 poll\n",
        newlines: 0,
        after: "",
        stdout: "waits\nwaits\ngoing\ngoing\ngoing\ngoing\ngoing\ngoing\ngoing\ngoing\ngoing\nreply 0\nnorow 2 0 1 0\nreply 1\nvalue 3\n",
        stderr: "",
        status: 0,
    },
    // a member of a batch meets zero
    Row {
        input: "funnel 3 1 1 2 6\n0 sub 4\n1 sub 4\n2 sub 4\n0 poll\n1 poll\n2 poll\n",
        newlines: 0,
        after: "",
        stdout: "waits\nwaits\nwaits\nreply 6\nreply 2\nreply 0\nvalue 0\n",
        stderr: "",
        status: 0,
    },
    // an announcement one below a row's end blocks it
    Row {
        input: "funnel 2 1 1 1 0\n0 add 1\n0 step\n0 step\n1 add 1\n0 poll\n0 add 1\n1 poll\n",
        newlines: 0,
        after: "",
        stdout: "waits\ngoing\ngoing\nwaits\nreply 0\nnorow 1 0 1 0\nreply 1\nvalue 2\n",
        stderr: "",
        status: 0,
    },
    // a row's prev names the row itself
    Row {
        input: "funnel 2 1 1 1 0\n0 add 1\n0 poll\n0 add 1\n1 add 1\n0 poll\n1 poll\n",
        newlines: 0,
        after: "",
        stdout: "waits\nreply 0\nwaits\nwaits\nreply 1\nreply 2\nvalue 3\n",
        stderr: "",
        status: 0,
    },
    // a carriage return before a newline is dropped
    Row {
        input: "funnel 1 1 1 1 0\r\n0 read\r\n",
        newlines: 0,
        after: "",
        stdout: "reply 0\nvalue 0\n",
        stderr: "",
        status: 0,
    },
    // a carriage return at the end of a last line without a newline stays
    Row {
        input: "funnel 1 1 1 1 0\r",
        newlines: 0,
        after: "",
        stdout: "",
        stderr: "refused: header at 1\n",
        status: 3,
    },
    // a line past the limit is refused by its own lesser fault
    Row {
        input: "funnel 1 1 1 1 0\n",
        newlines: 65_535,
        after: "0 jump",
        stdout: "",
        stderr: "refused: op at 65537\n",
        status: 3,
    },
    // words that come only past the limit
    Row {
        input: "",
        newlines: 65_537,
        after: "funnel 1 1 1 1 0\n",
        stdout: "",
        stderr: "refused: too many at 65537\n",
        status: 3,
    },
    // spaces at either end and between words, and leading zeros
    Row {
        input: "  funnel  2 01 1 1 007 \n\n 1   add 03\n1 poll  \n",
        newlines: 0,
        after: "",
        stdout: "waits\nreply 7\nvalue 10\n",
        stderr: "",
        status: 0,
    },
];

// The bytes of a row.
fn input_of(rt: &HostRuntime, row: Row) -> Result<Vec<u8>, Fail> {
    let mut input = Vec::from_slice(rt.alloc(), row.input.as_bytes())?;
    let newlines = vec![in rt.alloc(); b'\n'; row.newlines]?;
    input.extend_from_slice(&newlines)?;
    input.extend_from_slice(row.after.as_bytes())?;
    Ok(input)
}

// Runs a command on a row's script.
fn run_row(rt: &HostRuntime, line: &str, row: Row) -> Result<Ran, Fail> {
    let input = input_of(rt, row)?;
    let mut streams = sound();
    streams.read = 4096;
    play_on(rt.alloc(), line, &input, streams)
}

#[test]
fn scripts_give_their_texts_or_faults(rt: HostRuntime) -> Result<(), Fail> {
    for row in &ROWS {
        let ran = run_row(&rt, "play", *row)?;
        assert!(rt;
            ran.is(row.status, row.stdout.as_bytes(), row.stderr.as_bytes()),
            "{}",
            row.input
        );
    }
    Ok(())
}

#[test]
fn the_table_gives_the_same(rt: HostRuntime) -> Result<(), Fail> {
    for row in &ROWS {
        let ran = run_row(&rt, "trial", *row)?;
        assert!(rt;
            ran.is(row.status, row.stdout.as_bytes(), row.stderr.as_bytes()),
            "{}",
            row.input
        );
    }
    Ok(())
}

static SCRIPT: &str = "funnel 2 1 1 2 6\n0 sub 4\n1 sub 4\n0 poll\n1 poll\n";

static TEXT: &str = "waits\nwaits\nreply 6\nreply 2\nvalue 0\n";

#[test]
fn a_failed_read_writes_nothing(rt: HostRuntime) -> Result<(), Fail> {
    for read in 0..6 {
        let failing = [read];
        let streams = failing_reads(10, &failing);
        let ran = play_on(rt.alloc(), "play", SCRIPT.as_bytes(), streams)?;
        assert!(rt; ran.is(4, b"", b"read failed\n"));
    }
    Ok(())
}

#[test]
fn a_failed_write_leaves_a_front(rt: HostRuntime) -> Result<(), Fail> {
    let mut whole = 0;
    for write in 0..4 {
        let failing = [write];
        let streams = failing_writes(7, &failing);
        let ran = play_on(rt.alloc(), "play", SCRIPT.as_bytes(), streams)?;
        let front = ran.text.len() == whole && TEXT.as_bytes().starts_with(&ran.text);
        assert!(rt; front && ran.is(5, &ran.text, b"write failed\n"));
        whole += 10;
    }
    Ok(())
}

#[test]
fn a_sink_that_takes_nothing_is_told_apart(rt: HostRuntime) -> Result<(), Fail> {
    let mut streams = sound();
    (streams.read, streams.write) = (7, 0);
    let ran = play_on(rt.alloc(), "play", SCRIPT.as_bytes(), streams)?;
    assert!(rt; ran.is(5, b"", b"write stuck\n"));
    Ok(())
}

#[test]
fn a_failed_line_leaves_the_status(rt: HostRuntime) -> Result<(), Fail> {
    let mut streams = sound();
    (streams.read, streams.write, streams.line) = (7, 10, 9);
    streams.failing_lines = &[1];
    let ran = play_on(rt.alloc(), "play", b"funnel", streams)?;
    assert!(rt; ran.is(3, b"", b"refused: "));
    Ok(())
}

fn status_of_words(rt: &HostRuntime, line: &str) -> Result<u8, Fail> {
    let ran = play_on(rt.alloc(), line, SCRIPT.as_bytes(), sound())?;
    Ok(ran.outcome.status)
}

#[test]
fn words_are_of_scripts(rt: HostRuntime) -> Result<(), Fail> {
    for (line, status) in [
        ("play", 0),
        ("trial --", 0),
        ("play 1", 2),
        ("replay 1", 2),
        ("sum", 2),
        ("", 2),
    ] {
        assert_eq!(rt; status_of_words(&rt, line)?, status);
    }
    Ok(())
}
