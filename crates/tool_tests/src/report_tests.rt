//! Traces with their answers, and what is written of them.
use replay_report::*;
use std::test::Fail;
use trace_text::{make_drill, read_trace};

fn moved(before: u64, moved: u64) -> Moved {
    Moved {
        before,
        moved,
        way: None,
    }
}

#[test]
fn each_row_has_its_line(rt: HostRuntime) -> Result<(), Fail> {
    let alloc = rt.alloc();
    let bytes =
        b"worker,op,tenant,amount\n0,open,disk,10\n0,take,disk,4\n0,take,disk,9\n0,add,disk,3\n0,read,disk,0\n";
    let trace = read_trace(alloc, 1, bytes.as_slice())?;
    assert_eq!(rt; trace.rows.len(), 4);
    assert_eq!(rt; trace.cuts.len(), 0);
    assert_eq!(rt; trace.tenants.len(), 1);
    let answers = [moved(10, 4), moved(6, 6), moved(0, 3), moved(3, 0)];
    let text = report_text(alloc, &trace, &answers, &[3])?;
    let lines = b"row,2,10,4\nrow,3,6,6\nrow,4,0,3\nrow,5,3,0\ntotal,disk,10,3,10,3\n";
    assert!(rt; text.as_slice() == lines.as_slice());
    Ok(())
}

#[test]
fn each_segment_settles(rt: HostRuntime) -> Result<(), Fail> {
    let alloc = rt.alloc();
    let bytes =
        b"worker,op,tenant,amount,cap\n0,open,d,5,100\n0,take,d,3,0\n0,settle,-,0,0\n1,add,d,4,0\n";
    let trace = read_trace(alloc, 2, bytes.as_slice())?;
    assert_eq!(rt; trace.rows.len(), 2);
    assert_eq!(rt; trace.cuts.len(), 1);
    assert_eq!(rt; trace.tenants.len(), 1);
    let text = report_text(alloc, &trace, &[moved(5, 3), moved(2, 4)], &[2, 6])?;
    let lines = b"row,2,5,3\nsettled,3,d,2\nrow,4,2,4\ntotal,d,5,4,3,6\n";
    assert!(rt; text.as_slice() == lines.as_slice());
    Ok(())
}

#[test]
fn one_tenant_is_summed_up(rt: HostRuntime) -> Result<(), Fail> {
    let alloc = rt.alloc();
    let trace = make_drill(alloc, 3, 6, 2)?;
    assert_eq!(rt; trace.rows.len(), 6);
    assert_eq!(rt; trace.cuts.len(), 0);
    assert_eq!(rt; trace.tenants.len(), 1);
    let answers = [
        moved(57, 4),
        moved(61, 11),
        moved(72, 18),
        moved(54, 25),
        moved(79, 32),
        moved(111, 39),
    ];
    let text = summary_text(alloc, &trace, 2, &answers, &[72])?;
    let line = b"rows 6 workers 2 opening 57 added 72 taken 57 final 72\n";
    assert!(rt; text.as_slice() == line.as_slice());
    Ok(())
}
