use std::test::Fail;
use trace_text::{Cut, Op, Row, Trace, TraceFault, make_drill, read_trace};

// The fault of records after a first record that names the fields.
fn fault(
    rt: &HostRuntime,
    workers: u32,
    first: &[u8],
    records: &[u8],
) -> Result<Option<TraceFault>, Fail> {
    let mut text = Vec::from_slice(rt.alloc(), first)?;
    text.extend_from_slice(records)?;
    Ok(read_trace(rt.alloc(), workers.clamp(1, 64), &text).err())
}

const PLAIN: &[u8] = b"worker,op,tenant,amount\n";

const CAPPED: &[u8] = b"worker,op,tenant,amount,cap\n";

#[test]
fn the_first_fault_of_a_trace_is_told(rt: HostRuntime) -> Result<(), Fail> {
    for (workers, first, records, found) in [
        (4, PLAIN, b"".as_slice(), None),
        (
            4,
            PLAIN,
            b"0,add,disk,1\n".as_slice(),
            Some(TraceFault::Unknown { at: 1 }),
        ),
        (
            4,
            PLAIN,
            b"0,open,d,5\n0,open,d,5\n".as_slice(),
            Some(TraceFault::Again { at: 2 }),
        ),
        (
            4,
            PLAIN,
            b"0,open,d,5\n0,add,d,0\n".as_slice(),
            Some(TraceFault::Amount { at: 2 }),
        ),
        (
            4,
            PLAIN,
            b"0,open,d,5\n0,add,d,+5\n".as_slice(),
            Some(TraceFault::Amount { at: 2 }),
        ),
        (
            4,
            PLAIN,
            b"0,open,d,5\n0,read,d,1\n".as_slice(),
            Some(TraceFault::Amount { at: 2 }),
        ),
        (
            4,
            PLAIN,
            b"0,open,d,5\n0,add,d\n".as_slice(),
            Some(TraceFault::Fields { at: 2 }),
        ),
        (
            4,
            PLAIN,
            b"0,open,d,5,5\n".as_slice(),
            Some(TraceFault::Fields { at: 1 }),
        ),
        (
            4,
            PLAIN,
            b"4,open,d,5\n".as_slice(),
            Some(TraceFault::Worker { at: 1 }),
        ),
        (
            4,
            PLAIN,
            b"0,open,d,5\n0,sub,d,1\n".as_slice(),
            Some(TraceFault::Op { at: 2 }),
        ),
        (
            4,
            PLAIN,
            b"0,open,,5\n".as_slice(),
            Some(TraceFault::Tenant { at: 1 }),
        ),
        (
            4,
            PLAIN,
            b"0,open,a b,x\n".as_slice(),
            Some(TraceFault::Tenant { at: 1 }),
        ),
        (
            4,
            PLAIN,
            b"0,open,abcdefghijklmnopqrstuvwxyz_-.012,5\n".as_slice(),
            None,
        ),
        (
            4,
            PLAIN,
            b"0,open,abcdefghijklmnopqrstuvwxyz_-.0123,5\n".as_slice(),
            Some(TraceFault::Tenant { at: 1 }),
        ),
        (
            4,
            PLAIN,
            b"0,open,d,9223372036854775807\n0,add,d,1\n".as_slice(),
            Some(TraceFault::Total { at: 2 }),
        ),
        (
            4,
            PLAIN,
            b"0,open,d,9223372036854775806\n0,take,d,1\n".as_slice(),
            None,
        ),
        (
            4,
            PLAIN,
            b"0,open,d,9223372036854775808\n".as_slice(),
            Some(TraceFault::Amount { at: 1 }),
        ),
        (4, PLAIN, b"0,open,d,5\n0,read,d,0".as_slice(), None),
        (
            4,
            PLAIN,
            b"\r\n0,open,d,5\r\n\r\n0,read,d,00\r\n".as_slice(),
            None,
        ),
        (4, PLAIN, b"0,\"open\",d,\"5".as_slice(), None),
        (
            4,
            PLAIN,
            b"0,open,d,5\r0,read,d,1".as_slice(),
            Some(TraceFault::Amount { at: 2 }),
        ),
        (
            4,
            PLAIN,
            b"0,open,\xff,5\n".as_slice(),
            Some(TraceFault::Tenant { at: 1 }),
        ),
        (
            4,
            b"worker,op,tenant\n".as_slice(),
            b"".as_slice(),
            Some(TraceFault::Header { at: 0 }),
        ),
        (
            4,
            b"".as_slice(),
            b"".as_slice(),
            Some(TraceFault::Header { at: 0 }),
        ),
        (
            4,
            b"\n\n".as_slice(),
            b"\n".as_slice(),
            Some(TraceFault::Header { at: 0 }),
        ),
        (
            4,
            b"worker,op,tenant,amount,caps\n".as_slice(),
            b"".as_slice(),
            Some(TraceFault::Header { at: 0 }),
        ),
        (
            4,
            b"\xef\xbb\xbfworker,op,tenant,amount\n".as_slice(),
            b"0,open,d,5\n".as_slice(),
            None,
        ),
        (
            1,
            PLAIN,
            b"1,foo,,x\n".as_slice(),
            Some(TraceFault::Worker { at: 1 }),
        ),
        (
            1,
            PLAIN,
            b"0,foo,,x\n".as_slice(),
            Some(TraceFault::Op { at: 1 }),
        ),
        (
            1,
            PLAIN,
            b"0,open,d,5\n0,open,d,x\n".as_slice(),
            Some(TraceFault::Amount { at: 2 }),
        ),
        (
            1,
            PLAIN,
            b"0,settle,-,0\n".as_slice(),
            Some(TraceFault::Op { at: 1 }),
        ),
        (
            1,
            CAPPED,
            b"0,open,d,5,4\n".as_slice(),
            Some(TraceFault::Cap { at: 1 }),
        ),
        (
            1,
            CAPPED,
            b"0,open,d,5,5\n0,add,d,1,1\n".as_slice(),
            Some(TraceFault::Cap { at: 2 }),
        ),
        (
            1,
            CAPPED,
            b"0,open,d,5,5\n0,open,d,5,4\n".as_slice(),
            Some(TraceFault::Again { at: 2 }),
        ),
        (
            1,
            CAPPED,
            b"0,add,d,1,1\n".as_slice(),
            Some(TraceFault::Unknown { at: 1 }),
        ),
        (
            1,
            CAPPED,
            b"0,open,d,5\n".as_slice(),
            Some(TraceFault::Fields { at: 1 }),
        ),
        (
            1,
            CAPPED,
            b"0,settle,x,0,0\n".as_slice(),
            Some(TraceFault::Tenant { at: 1 }),
        ),
        (
            1,
            CAPPED,
            b"0,settle,-,1,0\n".as_slice(),
            Some(TraceFault::Amount { at: 1 }),
        ),
        (
            1,
            CAPPED,
            b"0,settle,-,0,1\n".as_slice(),
            Some(TraceFault::Cap { at: 1 }),
        ),
        (1, CAPPED, b"0,settle,-,00,000\n".as_slice(), None),
        (
            1,
            CAPPED,
            b"0,open,d,0,10\n0,add,d,9223372036854775807,0\n0,add,d,9223372036854775797,0\n".as_slice(),
            Some(TraceFault::Total { at: 3 }),
        ),
        (
            1,
            CAPPED,
            b"0,open,d,0,10\n0,add,d,9223372036854775807,0\n0,settle,-,0,0\n0,add,d,9223372036854775797,0\n".as_slice(),
            None,
        ),
        (
            1,
            CAPPED,
            b"0,open,d,0,10\n0,add,d,9223372036854775807,0\n0,settle,-,0,0\n0,add,d,9223372036854775798,0\n".as_slice(),
            Some(TraceFault::Total { at: 4 }),
        ),
        (
            1,
            CAPPED,
            b"0,open,d,9,9\n0,take,d,9223372036854775798,0\n0,settle,-,0,0\n0,take,d,9223372036854775798,0\n".as_slice(),
            None,
        ),
    ] {
        assert_eq!(rt; fault(&rt, workers, first, records)?, found);
    }
    Ok(())
}

// The name, the opening and the cap of a tenant.
fn tenant(trace: &Trace, place: usize) -> Option<(&[u8], u64, u64)> {
    let tenant = trace.tenants.get(place)?;
    Some((tenant.name.items.as_slice(), tenant.opening, tenant.cap))
}

#[test]
fn a_trace_is_read(rt: HostRuntime) -> Result<(), Fail> {
    let text =
        b"worker,op,tenant,amount,cap\n1,open,d,5,100\n0,take,d,3,0\n0,settle,-,0,0\n1,open,e.2,0,0\n1,direct,e.2,4,0\n1,read,d,0,0\n";
    let trace = read_trace(rt.alloc(), 2, text)?;
    assert_eq!(rt; trace.tenants.len(), 2);
    assert_eq!(rt; tenant(&trace, 0), Some((b"d".as_slice(), 5, 100)));
    assert_eq!(rt; tenant(&trace, 1), Some((b"e.2".as_slice(), 0, 0)));
    let row = |at, worker, op, tenant, amount| Row {
        at,
        worker,
        op,
        tenant,
        amount,
    };
    assert_eq!(rt;
        trace.rows.as_slice(),
        [
            row(2, 0, Op::Take, 0, 3),
            row(5, 1, Op::Direct, 1, 4),
            row(6, 1, Op::Read, 0, 0),
        ]
        .as_slice()
    );
    assert_eq!(rt; trace.cuts.as_slice(), [Cut { at: 3, rows: 1 }].as_slice());
    let plain = read_trace(rt.alloc(), 1, b"worker,op,tenant,amount\n0,open,d,5\n")?;
    assert_eq!(rt;
        tenant(&plain, 0),
        Some((b"d".as_slice(), 5, 9223372036854775807))
    );
    Ok(())
}

// So many lines with a number in them, in front of a text.
fn opens(rt: &HostRuntime, count: u32) -> Result<Vec<u8>, Fail> {
    let mut text = Vec::from_slice(rt.alloc(), CAPPED)?;
    for i in 0..count {
        text.extend_from_slice(format!(in rt.alloc(); "0,open,tenant-{i},0,5\n")?.as_bytes())?;
    }
    Ok(text)
}

// The fault of a text with a line so many times after it, and another at its end.
fn repeated(
    rt: &HostRuntime,
    text: Vec<u8>,
    line: &[u8],
    count: u32,
    last: &[u8],
) -> Result<Option<TraceFault>, Fail> {
    let mut text = text;
    for _ in 0..count {
        text.extend_from_slice(line)?;
    }
    text.extend_from_slice(last)?;
    Ok(read_trace(rt.alloc(), 1, &text).err())
}

#[test]
fn traces_are_limited(rt: HostRuntime) -> Result<(), Fail> {
    let settle = b"0,settle,-,0,0\n".as_slice();
    let none = b"".as_slice();
    assert_eq!(rt; repeated(&rt, opens(&rt, 256)?, none, 0, none)?, None);
    assert_eq!(rt; repeated(&rt, opens(&rt, 1)?, settle, 100, none)?, None);
    for (tenants, settles, last, found) in [
        (257, 0, none, TraceFault::TooMany { at: 257 }),
        (256, 0, b"0,open,other,0,x", TraceFault::TooMany { at: 257 }),
        (
            256,
            0,
            b"0,open,tenant-9,0,5",
            TraceFault::Again { at: 257 },
        ),
        (1, 101, none, TraceFault::TooMany { at: 102 }),
        (1, 100, b"0,settle,-,0,7", TraceFault::TooMany { at: 102 }),
        (1, 99, b"0,settle,-,0,7", TraceFault::Cap { at: 101 }),
    ] {
        let refused = repeated(&rt, opens(&rt, tenants)?, settle, settles, last)?;
        assert_eq!(rt; refused, Some(found));
    }
    Ok(())
}

#[test]
fn a_drill_is_made(rt: HostRuntime) -> Result<(), Fail> {
    let trace = make_drill(rt.alloc(), 3, 6, 2)?;
    assert_eq!(rt; trace.tenants.len(), 1);
    let cap = 9223372036854775807;
    assert_eq!(rt; tenant(&trace, 0), Some((b"drill".as_slice(), 57, cap)));
    assert_eq!(rt; trace.cuts.len(), 0);
    let row = |at, worker, op, amount| Row {
        at,
        worker,
        op,
        tenant: 0,
        amount,
    };
    assert_eq!(rt;
        trace.rows.as_slice(),
        [
            row(2, 0, Op::Add, 4),
            row(3, 1, Op::Add, 11),
            row(4, 0, Op::Take, 18),
            row(5, 1, Op::Add, 25),
            row(6, 0, Op::Add, 32),
            row(7, 1, Op::Take, 39),
        ]
        .as_slice()
    );
    let wide = make_drill(rt.alloc(), 5, 3, 64)?;
    assert_eq!(rt; tenant(&wide, 0), Some((b"drill".as_slice(), 20, cap)));
    let large = make_drill(rt.alloc(), 0, 291_000, 16)?;
    assert_eq!(rt;
        tenant(&large, 0),
        Some((b"drill".as_slice(), 4_753_000, cap))
    );
    assert_eq!(rt; large.rows.len(), 291_000);
    Ok(())
}
