use std::alloc::Global;
use std::sync::Wait;
use std::sync::atomic::{AtomicU64, Ordering};
use std::test::Fail;
use std::thread::Threads;
use throttle_run::*;

// The text of a run whose closures do nothing.
fn text_of<R: Threads + Wait + Sync>(
    rt: &R,
    alloc: Global,
    bytes: &[u8],
) -> Result<Vec<u8>, ThrottleFault> {
    let (text, _book) = throttle_text(rt, alloc, bytes, 1, 10, 2, 5, &|_, _| {}, &|_, _| {})?;
    Ok(text)
}

#[test]
fn takes_are_told(rt: HostRuntime) -> Result<(), Fail> {
    let text = text_of(&rt, rt.alloc(), b"0 0 7\n0 4 7\n0 12 1\n0 3 1\n")?;
    assert_eq!(rt;
        text.as_slice(),
        b"1 10 7 0\n2 3 3 0\n3 4 1 2\n4 3 1 0\ntick 2 value 2\n".as_slice()
    );
    let far = text_of(&rt, rt.alloc(), b"0 0 1\r\n\n0 1000 1\n")?;
    assert_eq!(rt;
        far.as_slice(),
        b"1 10 1 0\n3 10 1 200\ntick 200 value 9\n".as_slice()
    );
    let none = text_of(&rt, rt.alloc(), b"")?;
    assert_eq!(rt; none.as_slice(), b"tick 0 value 10\n".as_slice());
    Ok(())
}

// At this crossing the first two lines begin together, and the second is answered first.
#[derive(Drop)]
struct Crossing {
    first_began: AtomicU64,
    second_began: AtomicU64,
    second_answered: AtomicU64,
    gave_up: AtomicU64,
}

impl Crossing {
    fn new() -> Crossing {
        Crossing {
            first_began: AtomicU64::new(0),
            second_began: AtomicU64::new(0),
            second_answered: AtomicU64::new(0),
            gave_up: AtomicU64::new(0),
        }
    }

    fn wait_for(&self, flag: &AtomicU64) {
        for _ in 0..10_000_000u64 {
            if flag.load(Ordering::SeqCst) == 1 {
                return;
            }
            std::thread::yield_now();
        }
        self.gave_up.fetch_add(1, Ordering::SeqCst);
    }

    fn before(&self, place: u64) {
        if place == 0 {
            self.first_began.store(1, Ordering::SeqCst);
            self.wait_for(&self.second_began);
            self.wait_for(&self.second_answered);
        }
        if place == 1 {
            self.second_began.store(1, Ordering::SeqCst);
            self.wait_for(&self.first_began);
        }
    }

    fn answered(&self, place: u64) {
        if place == 1 {
            self.second_answered.store(1, Ordering::SeqCst);
        }
    }
}

#[test]
fn workers_take_side_by_side(rt: HostRuntime) -> Result<(), Fail> {
    let crossing = Crossing::new();
    let (text, book) = throttle_text(
        &rt,
        rt.alloc(),
        b"0 0 4\n1 0 4\n",
        2,
        10,
        1,
        1000,
        &|_, place| crossing.before(place),
        &|_, place| crossing.answered(place),
    )?;
    assert_eq!(rt;
        text.as_slice(),
        b"1 6 4 0\n2 10 4 0\ntick 0 value 2\n".as_slice()
    );
    assert_eq!(rt; book.value(), 2);
    assert_eq!(rt; crossing.gave_up.load(Ordering::SeqCst), 0);
    Ok(())
}
