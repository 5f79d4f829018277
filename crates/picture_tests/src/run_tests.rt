use edge_io::{MemSink, MemSource};
use picture_marks::{Heading, Mark};
use picture_run::{TRACE_LIMIT, run};
use picture_svg::svg_text;
use std::alloc::{AllocGlobal, Global};
use std::process::Abort;
use std::test::Fail;

const TRACE: &[u8] =
    b"worker,op,tenant,amount\n0,open,disk,10\n0,open,mail,0\n0,take,disk,4\n0,take,disk,9\n0,add,disk,3\n0,read,disk,0\n0,direct,mail,7\n";

const REPORT: &[u8] =
    b"row,3,10,4\nrow,4,6,6\nrow,5,0,3\nrow,6,3,0\nrow,7,0,7\ntotal,disk,10,3,10,3\ntotal,mail,0,7,0,7\n";

// The words of a line.
fn words(alloc: Global, line: &str) -> Result<Vec<String>, Fail> {
    let mut words = Vec::new(alloc);
    for word in line.split_whitespace() {
        words.push(String::from_str(alloc, word)?)?;
    }
    Ok(words)
}

// Checks what a run on these bytes writes to both sinks, and its status.
fn check_run<R: Abort + AllocGlobal>(
    rt: &R,
    line: &str,
    trace: &[u8],
    report: &[u8],
    status: u8,
    text: &[u8],
    told: &str,
) -> Result<(), Fail> {
    let alloc = rt.alloc();
    let mut trace = MemSource::new(alloc, trace, 1000, &[])?;
    let mut report = MemSource::new(alloc, report, 7, &[])?;
    let mut out = MemSink::new(alloc, 100_000, 100, &[])?;
    let mut err = MemSink::new(alloc, 1000, 100, &[])?;
    let words = words(alloc, line)?;
    let found = run(alloc, &words, &mut trace, &mut report, &mut out, &mut err);
    assert_eq!(rt; found, status, "{line}");
    assert_eq!(rt; out.held(), text, "{line}");
    assert_eq!(rt; err.held(), told.as_bytes(), "{line}");
    Ok(())
}

fn mark(at: u64, before: u64, after: u64) -> Mark {
    Mark {
        worker: 0,
        at,
        before,
        after,
    }
}

#[test]
fn each_tenant_has_its_line(rt: HostRuntime) -> Result<(), Fail> {
    let lines = "disk 10 ▅▁▃▃ 3\nmail 0 █ 7\n";
    check_run(
        &rt,
        "line quota.csv 1",
        TRACE,
        REPORT,
        0,
        lines.as_bytes(),
        "",
    )
}

#[test]
fn a_tenant_is_drawn(rt: HostRuntime) -> Result<(), Fail> {
    let heading = Heading {
        opening: 10,
        added: 3,
        taken: 10,
        last: 3,
    };
    let marks = [mark(3, 10, 6), mark(4, 6, 0), mark(5, 0, 3), mark(6, 3, 3)];
    let drawing = svg_text(rt.alloc(), b"disk", heading, 1, &marks)?;
    check_run(&rt, "svg quota.csv 1 disk", TRACE, REPORT, 0, &drawing, "")
}

#[test]
fn other_words_ask_for_nothing(rt: HostRuntime) -> Result<(), Fail> {
    let usage = "usage: funnel_picture line TRACE WORKERS | svg TRACE WORKERS TENANT\n";
    for line in [
        "",
        "line",
        "line quota.csv",
        "line quota.csv 0",
        "line quota.csv 65",
        "line quota.csv 1 disk",
        "svg quota.csv 1",
        "svg quota.csv x disk",
        "svg quota.csv 1 disk mail",
        "draw quota.csv 1",
    ] {
        check_run(&rt, line, TRACE, REPORT, 2, b"", usage)?;
    }
    Ok(())
}

#[test]
fn other_input_is_refused(rt: HostRuntime) -> Result<(), Fail> {
    let line = "line quota.csv 1";
    check_run(
        &rt,
        line,
        b"worker\n",
        REPORT,
        3,
        b"",
        "refused: trace header at 0\n",
    )?;
    let short = b"worker,op,tenant,amount\n0,open,disk,10\n0,take,mail,4\n";
    check_run(
        &rt,
        line,
        short,
        REPORT,
        3,
        b"",
        "refused: trace unknown at 2\n",
    )?;
    let changed =
        b"row,3,10,4\nrow,4,6,6\nrow,5,0,3\nrow,6,3,0\nrow,7,0,7\ntotal,disk,10,3,11,3\ntotal,mail,0,7,0,7\n";
    check_run(
        &rt,
        line,
        TRACE,
        changed,
        3,
        b"",
        "refused: no report of this trace\n",
    )?;
    check_run(
        &rt,
        line,
        TRACE,
        b"",
        3,
        b"",
        "refused: no report of this trace\n",
    )?;
    let absent = "svg quota.csv 1 tape";
    check_run(
        &rt,
        absent,
        TRACE,
        REPORT,
        3,
        b"",
        "refused: no such tenant\n",
    )
}

// The status and the line of a run whose reads and writes with these numbers fail, and whose
// writes take so many bytes.
fn check_faults<R: Abort + AllocGlobal>(
    rt: &R,
    reads: &[u64],
    told_reads: &[u64],
    writes: &[u64],
    piece: usize,
    status: u8,
    told: &str,
) -> Result<(), Fail> {
    let alloc = rt.alloc();
    let mut trace = MemSource::new(alloc, TRACE, 1000, reads)?;
    let mut report = MemSource::new(alloc, REPORT, 1000, told_reads)?;
    let mut out = MemSink::new(alloc, 1000, piece, writes)?;
    let mut err = MemSink::new(alloc, 1000, 100, &[])?;
    let words = words(alloc, "line quota.csv 1")?;
    let found = run(alloc, &words, &mut trace, &mut report, &mut out, &mut err);
    assert_eq!(rt; found, status);
    assert_eq!(rt; err.held(), told.as_bytes());
    Ok(())
}

#[test]
fn faults_are_told(rt: HostRuntime) -> Result<(), Fail> {
    check_faults(&rt, &[0], &[], &[], 9, 4, "read failed\n")?;
    check_faults(&rt, &[], &[1], &[], 9, 4, "read failed\n")?;
    check_faults(&rt, &[], &[], &[2], 9, 5, "write failed\n")?;
    check_faults(&rt, &[], &[], &[], 0, 5, "write stuck\n")
}

#[test]
fn longer_input_is_refused(rt: HostRuntime) -> Result<(), Fail> {
    let long = vec![in rt.alloc(); b'x'; TRACE_LIMIT + 1]?;
    let alloc = rt.alloc();
    let mut trace = MemSource::new(alloc, &long, 1_000_000, &[])?;
    let mut report = MemSource::new(alloc, REPORT, 1000, &[])?;
    let mut out = MemSink::new(alloc, 1000, 100, &[])?;
    let mut err = MemSink::new(alloc, 1000, 100, &[])?;
    let words = words(alloc, "line quota.csv 1")?;
    let found = run(alloc, &words, &mut trace, &mut report, &mut out, &mut err);
    assert_eq!(rt; found, 3);
    assert_eq!(rt; err.held(), b"refused: trace too long\n".as_slice());
    Ok(())
}
