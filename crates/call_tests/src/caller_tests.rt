use fn_callers::{Caller, OpenFault, Reason, open};
use fn_model::NO_CAP;
use std::alloc::Global;
use std::test::*;
use std::thread;
use std::thread::Threads;

// A funnel's two callers.
fn two(alloc: Global, opening: u64, cap: u64, allowances: &[u64]) -> Option<(Caller, Caller)> {
    let mut callers = open(alloc, opening, cap, allowances).ok()?;
    let second = callers.pop()?;
    let first = callers.pop()?;
    Some((first, second))
}

#[test]
fn calls_past_the_aggregators(rt: HostRuntime) -> Result<(), Fail> {
    if let Some((mut first, mut second)) = two(rt.alloc(), 5, 8, &[10, 20]) {
        assert_eq!(rt; first.add(2), Ok(5));
        assert_eq!(rt; second.add(9), Ok(7));
        assert_eq!(rt; first.load(), Ok(8));
        assert_eq!(rt; first.subtract(9), Err(Reason::Spent));
        assert_eq!(rt; first.add(0), Err(Reason::Spent));
        assert_eq!(rt; first.left(), Ok(8));
        assert_eq!(rt; second.subtract(9), Ok(8));
        assert_eq!(rt; second.load(), Ok(0));
        assert!(rt; first.close().is_ok());
        return Ok(());
    }
    assert!(&rt; false);
    Ok(())
}

#[test]
fn calls_through_the_aggregators(rt: HostRuntime) -> Result<(), Fail> {
    if let Some((mut first, mut second)) = two(rt.alloc(), 5, NO_CAP, &[10, 20]) {
        assert_eq!(rt; first.poll(), Err(Reason::Idle));
        assert_eq!(rt; first.begin_to_add(11), Err(Reason::Spent));
        assert_eq!(rt; first.begin_to_add(3), Ok(()));
        assert!(rt; first.is_underway());
        assert_eq!(rt; first.load(), Err(Reason::Underway));
        assert_eq!(rt; first.add(1), Err(Reason::Underway));
        assert_eq!(rt; first.begin_to_subtract(1), Err(Reason::Underway));
        assert_eq!(rt; first.left(), Err(Reason::Underway));
        let Err(mut first) = first.close() else {
            assert!(&rt; false);
            return Ok(());
        };
        assert_eq!(rt; first.poll(), Ok(5));
        assert_eq!(rt; first.left(), Ok(7));
        assert_eq!(rt; second.begin_to_subtract(20), Ok(()));
        assert_eq!(rt; second.poll(), Ok(8));
        assert_eq!(rt; first.load(), Ok(0));
        return Ok(());
    }
    assert!(&rt; false);
    Ok(())
}

#[test]
fn numbers_that_open_nothing(rt: HostRuntime) {
    let no_callers: [u64; 0] = [];
    assert_eq!(rt;
        open(rt.alloc(), 5, 8, &no_callers).err(),
        Some(OpenFault::Count(0))
    );
    assert_eq!(rt;
        open(rt.alloc(), 5, 8, &[1; 65]).err(),
        Some(OpenFault::Count(65))
    );
    assert_eq!(rt;
        open(rt.alloc(), 5, NO_CAP + 1, &[1]).err(),
        Some(OpenFault::CapTooLarge(NO_CAP + 1))
    );
    let above = fn_core::OpenFault::AboveCap { opening: 9, cap: 8 };
    assert_eq!(rt;
        open(rt.alloc(), 9, 8, &[1]).err(),
        Some(OpenFault::Table(above))
    );
}

// Adds 1, so many times, through the aggregators where a row is open.
fn add_ones(mut caller: Caller, times: u64) -> Caller {
    for _done in 0..times {
        if caller.begin_to_add(1).is_ok() {
            while_waiting(&mut caller);
        } else if caller.add(1).is_err() {
            return caller;
        }
    }
    caller
}

// Polls up to the reply, or so often that the test fails.
fn while_waiting(caller: &mut Caller) {
    for _poll in 0..1000000000 {
        if caller.poll() != Err(Reason::NotYet) {
            return;
        }
    }
}

// Both callers add at once.
fn add_at_once<R: Threads + Sync>(rt: &R, first: Caller, second: Caller) -> (Caller, Caller) {
    thread::join(
        rt,
        move || -> Caller { add_ones(first, 1000) },
        move || -> Caller { add_ones(second, 1000) },
    )
}

#[test]
fn callers_in_two_threads(rt: HostRuntime) -> Result<(), Fail> {
    if let Some((first, second)) = two(rt.alloc(), 0, NO_CAP, &[1000, 1000]) {
        let (mut first, _second) = add_at_once(&rt, first, second);
        assert_eq!(rt; first.load(), Ok(2000));
        return Ok(());
    }
    assert!(&rt; false);
    Ok(())
}
