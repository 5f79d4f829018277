use picture_report::{
    Heading, Mark, ReportFault, heading_of, headings_of, marks_by_tenant, marks_of, read_report,
    tenant_named,
};
use std::test::Fail;
use trace_text::read_trace;

const TRACE: &[u8] =
    b"worker,op,tenant,amount\n0,open,disk,10\n0,open,mail,0\n0,take,disk,4\n0,take,disk,9\n0,add,disk,3\n0,read,disk,0\n0,direct,mail,7\n";

const REPORT: &[u8] =
    b"row,3,10,4\nrow,4,6,6\nrow,5,0,3\nrow,6,3,0\nrow,7,0,7\ntotal,disk,10,3,10,3\ntotal,mail,0,7,0,7\n";

fn mark(at: u64, before: u64, after: u64) -> Mark {
    Mark {
        worker: 0,
        at,
        before,
        after,
    }
}

#[test]
fn a_report_is_read(rt: HostRuntime) -> Result<(), Fail> {
    let trace = read_trace(rt.alloc(), 1, TRACE)?;
    let report = read_report(rt.alloc(), &trace, REPORT)?;
    assert_eq!(rt; report.finals.as_slice(), [3, 7].as_slice());
    let disk = tenant_named(&trace, b"disk").unwrap_or(9);
    assert_eq!(rt; disk, 0);
    assert_eq!(rt; tenant_named(&trace, b"tape"), None);
    let marks = marks_of(rt.alloc(), &trace, &report.answers, disk)?;
    let met = [mark(3, 10, 6), mark(4, 6, 0), mark(5, 0, 3), mark(6, 3, 3)];
    assert_eq!(rt; marks.as_slice(), met.as_slice());
    let lists = marks_by_tenant(rt.alloc(), &trace, &report.answers)?;
    let mut lists = lists.iter();
    assert_eq!(rt;
        lists.next().map(|list| list.as_slice()),
        Some(met.as_slice())
    );
    let mail = [mark(7, 0, 7)];
    assert_eq!(rt;
        lists.next().map(|list| list.as_slice()),
        Some(mail.as_slice())
    );
    assert_eq!(rt; lists.next().is_none(), true);
    let heading = Heading {
        opening: 10,
        added: 3,
        taken: 10,
        last: 3,
    };
    assert_eq!(rt; heading_of(rt.alloc(), &trace, &report, disk)?, heading);
    let headings = headings_of(rt.alloc(), &trace, &report)?;
    let last = [3, 7];
    assert_eq!(rt; headings.len(), 2);
    for (heading, last) in headings.iter().zip(last) {
        assert_eq!(rt; heading.last, last);
    }
    Ok(())
}

// The fault of a text that is to be the report.
fn fault(rt: &HostRuntime, report: &[u8]) -> Result<Option<ReportFault>, Fail> {
    let trace = read_trace(rt.alloc(), 1, TRACE)?;
    Ok(read_report(rt.alloc(), &trace, report).err())
}

#[test]
fn another_text_is_refused(rt: HostRuntime) -> Result<(), Fail> {
    assert_eq!(rt; fault(&rt, REPORT)?, None);
    for at in [0, 4, 9, 57, 63, 65, 68] {
        let mut changed = Vec::from_slice(rt.alloc(), REPORT)?;
        if let Some(byte) = changed.get_mut(at) {
            *byte ^= 1;
        }
        let found = fault(&rt, &changed)?;
        assert_eq!(rt; found, Some(ReportFault::NotOfTrace), "at {at}");
    }
    let mut longer = Vec::from_slice(rt.alloc(), REPORT)?;
    longer.extend_from_slice(b"row,8,1,1\n")?;
    assert_eq!(rt; fault(&rt, &longer)?, Some(ReportFault::NotOfTrace));
    assert_eq!(rt; fault(&rt, b"")?, Some(ReportFault::NotOfTrace));
    Ok(())
}

const SETTLED_TRACE: &[u8] =
    b"worker,op,tenant,amount,cap\n0,open,disk,8,10\n0,add,disk,5,0\n0,settle,-,0,0\n0,take,disk,4,0\n0,read,disk,0,0\n";

const SETTLED_REPORT: &[u8] =
    b"row,2,8,2\nsettled,3,disk,10\nrow,4,10,4\nrow,5,6,0\ntotal,disk,8,2,4,6\n";

#[test]
fn a_report_with_a_cut_is_read(rt: HostRuntime) -> Result<(), Fail> {
    let trace = read_trace(rt.alloc(), 1, SETTLED_TRACE)?;
    let report = read_report(rt.alloc(), &trace, SETTLED_REPORT)?;
    assert_eq!(rt; report.finals.as_slice(), [10, 6].as_slice());
    let marks = marks_of(rt.alloc(), &trace, &report.answers, 0)?;
    let met = [mark(2, 8, 10), mark(4, 10, 6), mark(5, 6, 6)];
    assert_eq!(rt; marks.as_slice(), met.as_slice());
    for heading in headings_of(rt.alloc(), &trace, &report)? {
        assert_eq!(rt; heading.last, 6);
    }
    Ok(())
}
