use std::test::Fail;
use throttle_run::*;

// The first fault of a text for one worker and a burst of 10.
fn fault_of(rt: &HostRuntime, text: &[u8]) -> Option<ThrottleFault> {
    read_lines(rt.alloc(), text, 1, 10).err()
}

#[test]
fn the_first_fault_is_told(rt: HostRuntime) -> Result<(), Fail> {
    let fields = ThrottleFault::Fields { at: 1 };
    let worker = ThrottleFault::Worker { at: 1 };
    let amount = ThrottleFault::Amount { at: 1 };
    for (text, fault) in [
        (b"0 0".as_slice(), fields),
        (b"x 0 1 1".as_slice(), fields),
        (b"0 0 1 1".as_slice(), fields),
        (b"1 0 1".as_slice(), worker),
        (b"x 0 1".as_slice(), worker),
        (b"x x x".as_slice(), worker),
        (b"0 x 1".as_slice(), amount),
        (b"0 0 0".as_slice(), amount),
        (b"0 0 x".as_slice(), amount),
        (
            b"\r\n \n0 0 1\r\n\n0 0\n0 0 x".as_slice(),
            ThrottleFault::Fields { at: 5 },
        ),
    ] {
        assert_eq!(rt; fault_of(&rt, text), Some(fault));
    }
    Ok(())
}

#[test]
fn burst_and_costs_are_limited(rt: HostRuntime) -> Result<(), Fail> {
    let text = b"0 0 1\n\n0 0 1\n0 0 x".as_slice();
    for (burst, fault) in [
        (9_223_372_036_854_775_807, ThrottleFault::Total { at: 1 }),
        (4_611_686_018_427_387_904, ThrottleFault::Total { at: 1 }),
        (3_074_457_345_618_258_602, ThrottleFault::Total { at: 3 }),
        (3_074_457_345_618_258_601, ThrottleFault::Amount { at: 4 }),
    ] {
        let read = read_lines(rt.alloc(), text, 1, burst);
        assert_eq!(rt; read.err(), Some(fault));
    }
    Ok(())
}

// The first fault of what stands after 1,000,000 blank lines.
fn fault_after_blank_lines(rt: &HostRuntime, back: &[u8]) -> Result<Option<ThrottleFault>, Fail> {
    let mut text = Vec::new(rt.alloc());
    for _ in 0..1_000_000 {
        text.push(b'\n')?;
    }
    text.extend_from_slice(back)?;
    Ok(fault_of(rt, &text))
}

#[test]
fn lines_are_limited(rt: HostRuntime) -> Result<(), Fail> {
    let at = 1_000_001;
    let too_many = Some(ThrottleFault::TooMany { at });
    assert_eq!(rt; fault_after_blank_lines(&rt, b"")?, None);
    assert_eq!(rt; fault_after_blank_lines(&rt, b"\n0 0")?, too_many);
    assert_eq!(rt; fault_after_blank_lines(&rt, b"0 0 1")?, too_many);
    assert_eq!(rt;
        fault_after_blank_lines(&rt, b"0 0")?,
        Some(ThrottleFault::Fields { at })
    );
    Ok(())
}

#[test]
fn lines_are_read(rt: HostRuntime) -> Result<(), Fail> {
    let text = b"\n0 0 7\r\n \r\n  1   12 010 \n1 3 1";
    let lines = read_lines(rt.alloc(), text, 2, 10)?;
    assert_eq!(rt;
        lines.as_slice(),
        [
            ThrottleLine {
                at: 2,
                worker: 0,
                now: 0,
                amount: 7
            },
            ThrottleLine {
                at: 4,
                worker: 1,
                now: 12,
                amount: 10
            },
            ThrottleLine {
                at: 5,
                worker: 1,
                now: 3,
                amount: 1
            },
        ]
        .as_slice()
    );
    Ok(())
}
