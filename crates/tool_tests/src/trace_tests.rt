//! Whole runs of traces and of lines on fakes of the streams.
use crate::runs::{Ran, failing_reads, failing_writes, run_on, sound};
use gates::{Gate, OpenGate};
use quota_pool::Moved;
use std::alloc::{AllocGlobal, Global};
use std::random::RandomSource;
use std::sync::Wait;
use std::sync::atomic::{AtomicBool, Ordering};
use std::test::Fail;
use std::thread::Threads;

#[derive(Clone, Copy)]
struct Row {
    line: &'static str,
    first: &'static str,
    records: &'static str,
    stdout: &'static str,
    stderr: &'static str,
    status: u8,
}

const PLAIN: &str = "worker,op,tenant,amount\n";

const CAPPED: &str = "worker,op,tenant,amount,cap\n";

const DISK: &str = "0,open,disk,10\n0,take,disk,4\n0,take,disk,9\n0,add,disk,3\n0,read,disk,0\n";

const LINES: &str = "row,2,10,4\nrow,3,6,6\nrow,4,0,3\nrow,5,3,0\ntotal,disk,10,3,10,3\n";

pub(crate) const USAGE: &str =
    "usage: funnel_tool play | trial | replay WORKERS | drill SEED ROWS WORKERS | relay WORKERS CAPACITY | rounds | tally WORKERS GRAIN | throttle WORKERS BURST RATE PERIOD\n";

static ROWS: [Row; 55] = [
    // a take meets less than its amount
    Row {
        line: "replay 1",
        first: PLAIN,
        records: DISK,
        stdout: LINES,
        stderr: "",
        status: 0,
    },
    // no records
    Row {
        line: "replay 4",
        first: PLAIN,
        records: "",
        stdout: "",
        stderr: "",
        status: 0,
    },
    // each fault
    Row {
        line: "replay 4",
        first: PLAIN,
        records: "0,add,disk,1\n",
        stdout: "",
        stderr: "refused: unknown at 1\n",
        status: 3,
    },
    Row {
        line: "replay 4",
        first: PLAIN,
        records: "0,open,d,5\n0,open,d,5\n",
        stdout: "",
        stderr: "refused: again at 2\n",
        status: 3,
    },
    Row {
        line: "replay 4",
        first: PLAIN,
        records: "0,open,d,5\n0,add,d,0\n",
        stdout: "",
        stderr: "refused: amount at 2\n",
        status: 3,
    },
    Row {
        line: "replay 4",
        first: PLAIN,
        records: "0,open,d,5\n0,add,d,+5\n",
        stdout: "",
        stderr: "refused: amount at 2\n",
        status: 3,
    },
    Row {
        line: "replay 4",
        first: PLAIN,
        records: "0,open,d,5\n0,add,d\n",
        stdout: "",
        stderr: "refused: fields at 2\n",
        status: 3,
    },
    Row {
        line: "replay 4",
        first: PLAIN,
        records: "4,open,d,5\n",
        stdout: "",
        stderr: "refused: worker at 1\n",
        status: 3,
    },
    Row {
        line: "replay 4",
        first: PLAIN,
        records: "0,open,d,5\n0,sub,d,1\n",
        stdout: "",
        stderr: "refused: op at 2\n",
        status: 3,
    },
    Row {
        line: "replay 4",
        first: PLAIN,
        records: "0,open,,5\n",
        stdout: "",
        stderr: "refused: tenant at 1\n",
        status: 3,
    },
    Row {
        line: "replay 4",
        first: PLAIN,
        records: "0,open,d,9223372036854775807\n0,add,d,1\n",
        stdout: "",
        stderr: "refused: total at 2\n",
        status: 3,
    },
    Row {
        line: "replay 4",
        first: "worker,op,tenant\n",
        records: "0,open,d\n",
        stdout: "",
        stderr: "refused: header at 0\n",
        status: 3,
    },
    // the first of two faults
    Row {
        line: "replay 1",
        first: PLAIN,
        records: "1,foo,,x\n",
        stdout: "",
        stderr: "refused: worker at 1\n",
        status: 3,
    },
    Row {
        line: "replay 1",
        first: PLAIN,
        records: "0,foo,,x\n",
        stdout: "",
        stderr: "refused: op at 1\n",
        status: 3,
    },
    Row {
        line: "replay 1",
        first: PLAIN,
        records: "0,open,d,5\n0,open,d,x\n",
        stdout: "",
        stderr: "refused: amount at 2\n",
        status: 3,
    },
    // no newline at the end
    Row {
        line: "replay 4",
        first: PLAIN,
        records: "0,open,d,5\n0,read,d,0",
        stdout: "row,2,5,0\ntotal,d,5,0,0,5\n",
        stderr: "",
        status: 0,
    },
    // carriage returns
    Row {
        line: "replay 4",
        first: PLAIN,
        records: "0,open,d,5\r\n0,read,d,0\r\n",
        stdout: "row,2,5,0\ntotal,d,5,0,0,5\n",
        stderr: "",
        status: 0,
    },
    // a record that was cut off
    Row {
        line: "replay 1",
        first: PLAIN,
        records: "0,open,disk,1\n0,add,disk,3",
        stdout: "row,2,1,3\ntotal,disk,1,3,0,4\n",
        stderr: "",
        status: 0,
    },
    // a cap
    Row {
        line: "replay 1",
        first: CAPPED,
        records: "0,open,disk,8,10\n0,add,disk,5,0\n0,add,disk,1,0\n",
        stdout: "row,2,8,2\nrow,3,10,0\ntotal,disk,8,2,0,10\n",
        stderr: "",
        status: 0,
    },
    // settling
    Row {
        line: "replay 2",
        first: CAPPED,
        records: "0,open,d,5,100\n0,take,d,3,0\n0,settle,-,0,0\n1,add,d,4,0\n",
        stdout: "row,2,5,3\nsettled,3,d,2\nrow,4,2,4\ntotal,d,5,4,3,6\n",
        stderr: "",
        status: 0,
    },
    // the limit holds for each segment
    Row {
        line: "replay 1",
        first: CAPPED,
        records: "0,open,d,0,10\n0,add,d,9223372036854775807,0\n0,settle,-,0,0\n0,add,d,9223372036854775797,0\n",
        stdout: "row,2,0,10\nsettled,3,d,10\nrow,4,10,0\ntotal,d,0,10,0,10\n",
        stderr: "",
        status: 0,
    },
    Row {
        line: "replay 1",
        first: CAPPED,
        records: "0,open,d,0,10\n0,add,d,9223372036854775807,0\n0,add,d,9223372036854775797,0\n",
        stdout: "",
        stderr: "refused: total at 3\n",
        status: 3,
    },
    Row {
        line: "replay 1",
        first: CAPPED,
        records: "0,open,d,0,10\n0,add,d,9223372036854775807,0\n0,settle,-,0,0\n0,add,d,9223372036854775798,0\n",
        stdout: "",
        stderr: "refused: total at 4\n",
        status: 3,
    },
    Row {
        line: "replay 1",
        first: CAPPED,
        records: "0,open,d,5,4\n",
        stdout: "",
        stderr: "refused: cap at 1\n",
        status: 3,
    },
    Row {
        line: "replay 1",
        first: CAPPED,
        records: "0,settle,x,0,0\n",
        stdout: "",
        stderr: "refused: tenant at 1\n",
        status: 3,
    },
    // a cut alone
    Row {
        line: "replay 1",
        first: CAPPED,
        records: "0,settle,-,0,0\n",
        stdout: "",
        stderr: "",
        status: 0,
    },
    // a drill
    Row {
        line: "drill 3 6 2",
        first: "",
        records: "",
        stdout: "rows 6 workers 2 opening 57 added 72 taken 57 final 72\n",
        stderr: "",
        status: 0,
    },
    Row {
        line: "drill 0 1 1",
        first: "",
        records: "",
        stdout: "rows 1 workers 1 opening 0 added 1 taken 0 final 1\n",
        stderr: "",
        status: 0,
    },
    Row {
        line: "drill -- 0 1 1",
        first: "",
        records: "",
        stdout: "rows 1 workers 1 opening 0 added 1 taken 0 final 1\n",
        stderr: "",
        status: 0,
    },
    Row {
        line: "drill 5 3 64",
        first: "",
        records: "",
        stdout: "rows 3 workers 64 opening 20 added 19 taken 20 final 19\n",
        stderr: "",
        status: 0,
    },
    Row {
        line: "replay",
        first: PLAIN,
        records: DISK,
        stdout: "",
        stderr: USAGE,
        status: 2,
    },
    Row {
        line: "replay 0",
        first: PLAIN,
        records: DISK,
        stdout: "",
        stderr: USAGE,
        status: 2,
    },
    Row {
        line: "replay 65",
        first: PLAIN,
        records: DISK,
        stdout: "",
        stderr: USAGE,
        status: 2,
    },
    Row {
        line: "replay x",
        first: PLAIN,
        records: DISK,
        stdout: "",
        stderr: USAGE,
        status: 2,
    },
    Row {
        line: "sum",
        first: PLAIN,
        records: DISK,
        stdout: "",
        stderr: USAGE,
        status: 2,
    },
    Row {
        line: "",
        first: PLAIN,
        records: DISK,
        stdout: "",
        stderr: USAGE,
        status: 2,
    },
    Row {
        line: "drill 0 0 1",
        first: PLAIN,
        records: DISK,
        stdout: "",
        stderr: USAGE,
        status: 2,
    },
    Row {
        line: "drill 1000001 1 1",
        first: PLAIN,
        records: DISK,
        stdout: "",
        stderr: USAGE,
        status: 2,
    },
    Row {
        line: "drill -1 1 1",
        first: PLAIN,
        records: DISK,
        stdout: "",
        stderr: USAGE,
        status: 2,
    },
    Row {
        line: "drill 1 1",
        first: PLAIN,
        records: DISK,
        stdout: "",
        stderr: USAGE,
        status: 2,
    },
    // lines through a queue
    Row {
        line: "relay 1 2",
        first: "",
        records: "a\nb\n",
        stdout: "0 a\n1 b\n",
        stderr: "",
        status: 0,
    },
    Row {
        line: "relay 1 1",
        first: "",
        records: "a\n\nb",
        stdout: "0 a\n1 \n2 b\n",
        stderr: "",
        status: 0,
    },
    Row {
        line: "relay 64 1",
        first: "",
        records: "a",
        stdout: "0 a\n",
        stderr: "",
        status: 0,
    },
    Row {
        line: "relay 2 1",
        first: "",
        records: "",
        stdout: "",
        stderr: "",
        status: 0,
    },
    Row {
        line: "relay 1 65537",
        first: "",
        records: "a\n",
        stdout: "",
        stderr: USAGE,
        status: 2,
    },
    // calls in turns
    Row {
        line: "rounds",
        first: "funnel 2 1 1 2 10\n",
        records: "0 add 5\n1 add 7\n0 sub 30\n",
        stdout: "reply 2 10\nreply 3 15\nreply 4 22\nvalue 0\n",
        stderr: "",
        status: 0,
    },
    Row {
        line: "rounds",
        first: "funnel 3 1 1 2 6\n",
        records: "0 sub 4\n1 sub 4\n2 sub 4\n0 add 10\n1 sub 3\n",
        stdout: "reply 2 6\nreply 3 2\nreply 4 0\nreply 5 0\nreply 6 10\nvalue 7\n",
        stderr: "",
        status: 0,
    },
    Row {
        line: "rounds",
        first: "funnel 1 1 1 1 4\n",
        records: "",
        stdout: "value 4\n",
        stderr: "",
        status: 0,
    },
    // another order
    Row {
        line: "rounds",
        first: "funnel 1 1 1 1 4\n",
        records: "0 read\n",
        stdout: "",
        stderr: "refused: op at 2\n",
        status: 3,
    },
    Row {
        line: "rounds",
        first: "funnel 2 1 1 1 4\n",
        records: "1 add 1\n0 read\n1 poll\n",
        stdout: "",
        stderr: "refused: op at 3\n",
        status: 3,
    },
    // no script
    Row {
        line: "rounds",
        first: PLAIN,
        records: DISK,
        stdout: "",
        stderr: "refused: header at 1\n",
        status: 3,
    },
    // newlines
    Row {
        line: "tally 2 1",
        first: "a\n",
        records: "b\n",
        stdout: "newlines 2 bytes 4 draws 3\n",
        stderr: "",
        status: 0,
    },
    Row {
        line: "tally 3 5",
        first: "",
        records: "",
        stdout: "newlines 0 bytes 0 draws 3\n",
        stderr: "",
        status: 0,
    },
    Row {
        line: "tally 1 1025",
        first: "",
        records: "",
        stdout: "",
        stderr: USAGE,
        status: 2,
    },
    Row {
        line: "rounds x",
        first: "funnel 1 1 1 1 4\n",
        records: "",
        stdout: "",
        stderr: USAGE,
        status: 2,
    },
];

// The bytes of a trace.
fn trace_of(alloc: Global, first: &str, records: &str) -> Result<Vec<u8>, Fail> {
    let mut bytes = Vec::from_slice(alloc, first.as_bytes())?;
    bytes.extend_from_slice(records.as_bytes())?;
    Ok(bytes)
}

#[test]
fn traces_give_their_reports_or_faults(rt: HostRuntime) -> Result<(), Fail> {
    for row in &ROWS {
        let bytes = trace_of(rt.alloc(), row.first, row.records)?;
        let ran = run_on(&rt, row.line, &bytes, sound(), &OpenGate)?;
        assert!(rt;
            ran.is(row.status, row.stdout.as_bytes(), row.stderr.as_bytes()),
            "{}",
            row.records
        );
    }
    Ok(())
}

#[test]
fn each_write_may_fail(rt: HostRuntime) -> Result<(), Fail> {
    let bytes = trace_of(rt.alloc(), PLAIN, DISK)?;
    for write in 0..8 {
        let failing = [write];
        let streams = failing_writes(100, &failing);
        let ran = run_on(&rt, "replay 1", &bytes, streams, &OpenGate)?;
        let (status, held, line) = if write < 7 {
            (5, write * 10, "write failed\n")
        } else {
            (0, 62, "")
        };
        let front = ran.text.len() as u64 == held && LINES.as_bytes().starts_with(&ran.text);
        assert!(rt; front && ran.is(status, &ran.text, line.as_bytes()));
    }
    Ok(())
}

// Whether a run of a whole trace, of which this read fails, read all; none where it told something else.
fn has_read_all<R: Threads + Wait + Sync + RandomSource + AllocGlobal>(
    rt: &R,
    bytes: &[u8],
    read: u64,
) -> Result<Option<bool>, Fail> {
    let failing = [read];
    let streams = failing_reads(16, &failing);
    let ran = run_on(rt, "replay 1", bytes, streams, &OpenGate)?;
    if ran.is(0, LINES.as_bytes(), b"") {
        return Ok(Some(true));
    }
    if ran.is(4, b"", b"read failed\n") {
        return Ok(Some(false));
    }
    Ok(None)
}

#[test]
fn each_read_may_fail(rt: HostRuntime) -> Result<(), Fail> {
    let bytes = trace_of(rt.alloc(), PLAIN, DISK)?;
    let mut all_read = false;
    for read in 0..12 {
        match has_read_all(&rt, &bytes, read)? {
            Some(true) => all_read = true,
            Some(false) => assert!(rt; !all_read),
            None => assert!(&rt; false),
        }
    }
    assert!(rt; all_read);
    Ok(())
}

// Appends records of one addition by each worker, so many times.
fn push_rounds(bytes: &mut Vec<u8>, rounds: u32) -> Result<(), Fail> {
    for _ in 0..rounds {
        bytes.extend_from_slice(b"0,add,d,1\n1,add,d,1\n2,add,d,1\n3,add,d,1\n")?;
    }
    Ok(())
}

// What answers met, in rising order.
fn befores_of(alloc: Global, answers: &[Moved]) -> Result<Vec<u64>, Fail> {
    let mut befores = Vec::new(alloc);
    for answer in answers {
        befores.push(answer.before)?;
    }
    befores.sort()?;
    Ok(befores)
}

// Runs a trace of so many rounds of additions by four workers.
fn add_by_four<R: Threads + Wait + Sync + RandomSource + AllocGlobal>(
    rt: &R,
    rounds: u32,
) -> Result<Ran, Fail> {
    let mut bytes = trace_of(rt.alloc(), PLAIN, "0,open,d,0\n")?;
    push_rounds(&mut bytes, rounds)?;
    let mut streams = sound();
    streams.read = 4096;
    streams.room = 1_000_000;
    streams.write = 1_000_000;
    run_on(rt, "replay 4", &bytes, streams, &OpenGate)
}

#[test]
fn four_workers_add_up(rt: HostRuntime) -> Result<(), Fail> {
    let ran = add_by_four(&rt, 1000)?;
    let total = b"\ntotal,d,0,4000,0,4000\n";
    let is_whole = ran.outcome.status == 0 && ran.text.ends_with(total.as_slice());
    assert!(rt; is_whole && ran.outcome.answers.iter().all(|answer| answer.moved == 1));
    let befores = befores_of(rt.alloc(), &ran.outcome.answers)?;
    assert_eq!(rt; befores.len(), 4000);
    let in_order = |(i, before): (usize, &u64)| *before == i as u64;
    assert!(rt; befores.iter().enumerate().all(in_order));
    Ok(())
}

// A gate at which the first two rows wait until both have begun, and the first then until the second is answered.
#[derive(Drop)]
struct Crossing {
    begun: [AtomicBool; 2],
    answered: AtomicBool,
    gave_up: AtomicBool,
}

impl Crossing {
    fn new() -> Crossing {
        Crossing {
            begun: [AtomicBool::new(false), AtomicBool::new(false)],
            answered: AtomicBool::new(false),
            gave_up: AtomicBool::new(false),
        }
    }

    fn wait_for(&self, flag: &AtomicBool) {
        for _ in 0..10_000_000u64 {
            if flag.load(Ordering::SeqCst) {
                return;
            }
            std::thread::yield_now();
        }
        self.gave_up.store(true, Ordering::SeqCst);
    }
}

impl Gate for Crossing {
    fn before(&self, _worker: u32, row: u64) {
        match row {
            0 => {
                self.begun[0].store(true, Ordering::SeqCst);
                self.wait_for(&self.begun[1]);
                self.wait_for(&self.answered);
            }
            1 => {
                self.begun[1].store(true, Ordering::SeqCst);
                self.wait_for(&self.begun[0]);
            }
            _ => {}
        }
    }

    fn answered(&self, _worker: u32, row: u64) {
        if row == 1 {
            self.answered.store(true, Ordering::SeqCst);
        }
    }
}

// Runs a command at which two workers cross: what it came to, and whether one gave up waiting.
pub(crate) fn cross<R: Threads + Wait + Sync + RandomSource + AllocGlobal>(
    rt: &R,
    line: &str,
    bytes: &[u8],
) -> Result<(Ran, bool), Fail> {
    let gate = Crossing::new();
    let ran = run_on(rt, line, bytes, sound(), &gate)?;
    Ok((ran, gate.gave_up.load(Ordering::SeqCst)))
}

#[test]
fn workers_run_beside_each_other(rt: HostRuntime) -> Result<(), Fail> {
    let bytes = trace_of(rt.alloc(), PLAIN, "0,open,t,0\n0,add,t,1\n1,add,t,2\n")?;
    let (ran, gave_up) = cross(&rt, "replay 2", &bytes)?;
    let text = b"row,2,2,1\nrow,3,0,2\ntotal,t,0,3,0,3\n";
    assert!(rt; !gave_up && ran.is(0, text, b""));
    Ok(())
}

#[test]
fn lines_cross(rt: HostRuntime) -> Result<(), Fail> {
    let (ran, gave_up) = cross(&rt, "relay 2 2", b"a\nb\n")?;
    assert!(rt; !gave_up && ran.is(0, b"0 b\n1 a\n", b""));
    Ok(())
}

#[test]
fn too_many_lines_are_refused(rt: HostRuntime) -> Result<(), Fail> {
    let bytes = vec![in rt.alloc(); b'\n'; 1_000_001]?;
    let mut streams = sound();
    streams.read = 65_536;
    let ran = run_on(&rt, "relay 1 1", &bytes, streams, &OpenGate)?;
    assert!(rt; ran.is(3, b"", b"refused: too many at 1000001\n"));
    Ok(())
}
