ghost use Rattle.std.specs.Prelude.{◌≤◌};

use relay_run::*;
use std::alloc::Global;
use std::sync::Wait;
use std::sync::atomic::{AtomicU64, Ordering};
use std::test::Fail;
use std::thread;
use std::thread::Threads;

// What relaying a text writes.
fn relayed<R: Threads + Wait + Sync, G: Gate + Sync>(
    rt: &R,
    alloc: Global,
    bytes: &[u8],
    workers: u32,
    capacity: u32,
    gate: &G,
) -> Result<Vec<u8>, LinesFault>
    requires workers { (1 ≤ workers) × (workers ≤ 64) }
    requires capacity { (1 ≤ capacity) × (capacity ≤ 65536) }
{
    let lines = match split_lines(alloc, bytes) {
        Ok(lines) => lines,
        Err(fault) => return Err(fault),
    };
    let count = lines.count() as u64;
    match relay(rt, alloc, count, workers, capacity, gate) {
        Ok(relayed) => match relay_text(alloc, &lines, &relayed.order) {
            Ok(text) => Ok(text),
            Err(NoMemory) => Err(LinesFault::NoMemory),
        },
        Err(NoMemory) => Err(LinesFault::NoMemory),
    }
}

// Whether a text has so many lines, each with its ticket of one digit and one byte.
fn is_shaped(text: &[u8], count: usize) -> bool {
    for (ticket, line) in text.chunks(4).enumerate() {
        match line {
            [digit, b' ', _, b'\n'] if usize::from(*digit) == 48 + ticket % 10 => {}
            _ => return false,
        }
    }
    text.chunks(4).count() == count
}

// The ticket under which a byte stands.
fn ticket_of(text: &[u8], byte: u8) -> usize {
    for (ticket, line) in text.chunks(4).enumerate() {
        if line.get(2) == Some(&byte) {
            return ticket;
        }
    }
    usize::MAX
}

// Whether some bytes stand there, in this order.
fn stand_in_order(text: &[u8], bytes: &[u8]) -> bool {
    let mut last = None;
    for byte in bytes {
        let ticket = ticket_of(text, *byte);
        if ticket == usize::MAX || last.is_some_and(|earlier| ticket <= earlier) {
            return false;
        }
        last = Some(ticket);
    }
    true
}

#[test]
fn lines_end_with_newlines(rt: HostRuntime) -> Result<(), Fail> {
    for (text, count) in [
        (b"".as_slice(), 0),
        (b"a".as_slice(), 1),
        (b"a\n".as_slice(), 1),
        (b"\n".as_slice(), 1),
        (b"a\r\n\nb".as_slice(), 3),
    ] {
        assert_eq!(rt; split_lines(rt.alloc(), text)?.count(), count);
    }
    let newlines = vec![in rt.alloc(); b'\n'; 1_000_001]?;
    let fault = match split_lines(rt.alloc(), &newlines) {
        Ok(_lines) => None,
        Err(fault) => Some(fault),
    };
    assert_eq!(rt; fault, Some(LinesFault::TooMany { at: 1_000_001 }));
    assert_eq!(rt; split_lines(rt.alloc(), &newlines[1..])?.count(), 1_000_000);
    Ok(())
}

#[test]
fn one_worker_keeps_the_order(rt: HostRuntime) -> Result<(), Fail> {
    for (text, written) in [
        (b"a\nb\n".as_slice(), b"0 a\n1 b\n".as_slice()),
        (b"".as_slice(), b"".as_slice()),
        (b"\n \r".as_slice(), b"0 \n1  \r\n".as_slice()),
    ] {
        let given = relayed(&rt, rt.alloc(), text, 1, 2, &OpenGate)?;
        assert_eq!(rt; given.as_slice(), written);
    }
    let none = relayed(&rt, rt.alloc(), b"", 64, 1, &OpenGate)?;
    assert_eq!(rt; none.as_slice(), b"".as_slice());
    Ok(())
}

#[test]
fn workers_keep_their_own_order(rt: HostRuntime) -> Result<(), Fail> {
    let two = relayed(&rt, rt.alloc(), b"a\nb\nc\nd", 2, 1, &OpenGate)?;
    assert!(rt; is_shaped(&two, 4));
    assert!(rt; stand_in_order(&two, b"ac") && stand_in_order(&two, b"bd"));
    let three = relayed(&rt, rt.alloc(), b"0\n1\n2\n3\n4\n5\n6\n", 3, 2, &OpenGate)?;
    assert!(rt; is_shaped(&three, 7));
    assert!(rt; stand_in_order(&three, b"036") && stand_in_order(&three, b"14"));
    assert!(rt; stand_in_order(&three, b"25"));
    Ok(())
}

// A gate at which lines 0 and 1 each wait until the other has begun, and line 0 then until line 1 is answered.
#[derive(Drop)]
struct Crossing {
    begun: AtomicU64,
    answered: AtomicU64,
    given_up: AtomicU64,
}

// Waits until a count is reached, and tells whether it was.
fn is_reached(word: &AtomicU64, count: u64) -> bool {
    for _ in 0..10_000_000u64 {
        if word.load(Ordering::SeqCst) >= count {
            return true;
        }
        thread::yield_now();
    }
    false
}

impl Gate for Crossing {
    fn before(&self, _worker: u32, row: u64) {
        self.begun.fetch_add(1, Ordering::SeqCst);
        if !is_reached(&self.begun, 2) || (row == 0 && !is_reached(&self.answered, 1)) {
            self.given_up.fetch_add(1, Ordering::SeqCst);
        }
    }

    fn answered(&self, _worker: u32, _row: u64) {
        self.answered.fetch_add(1, Ordering::SeqCst);
    }
}

#[test]
fn workers_run_at_once(rt: HostRuntime) -> Result<(), Fail> {
    let gate = Crossing {
        begun: AtomicU64::new(0),
        answered: AtomicU64::new(0),
        given_up: AtomicU64::new(0),
    };
    let text = relayed(&rt, rt.alloc(), b"a\nb", 2, 2, &gate)?;
    assert_eq!(rt; text.as_slice(), b"0 b\n1 a\n".as_slice());
    assert_eq!(rt; gate.given_up.load(Ordering::SeqCst), 0);
    Ok(())
}
