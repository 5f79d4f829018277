ghost use Rattle.std.specs.Prelude.{◌≡◌, All, IfSome};
ghost use Rattle.quota_bucket.specs.Seen.{Belongs};
ghost use Rattle.quota_bucket.specs.Opened.{fresh_desks, IsNew};

use quota_bucket::*;
use std::alloc::{AllocError, Global};
use std::sync::Wait;
use std::test::*;
use std::thread;

// A take, where the allowance is enough.
fn takes<R: Wait>(
    rt: &R,
    bucket: &Bucket,
    desk: BucketDesk,
    now: u64,
    amount: u64,
) -> (BucketDesk, Option<Taken>)
    requires { Belongs bucket.now desk }
    ensures together { Belongs bucket.now result.0 }
    ensures number { result.0.seat.number ≡ desk.seat.number }
{
    let mut desk = desk;
    match amount.checked_add(bucket.burst()) {
        Some(most) if amount > 0 && most <= desk.left() => {
            let taken = desk.take(rt, bucket, now, amount);
            (desk, Some(taken))
        }
        _ => (desk, None),
    }
}

#[test]
fn a_desk_takes_and_refills(rt: HostRuntime) -> Result<(), Fail> {
    let Ok((bucket, mut desks)) = Bucket::open(rt.alloc(), 10, 4, 2, 5, 0, &[100]) else {
        assert!(&rt; false);
        return Ok(());
    };
    let Some(desk) = desks.pop() else {
        unreachable!()
    };
    let (desk, none_due) = takes(&rt, &bucket, desk, 3, 1);
    let (desk, two_due) = takes(&rt, &bucket, desk, 10, 2);
    let (mut desk, many_due) = takes(&rt, &bucket, desk, 1000, 20);
    assert_eq!(rt;
        none_due,
        Some(Taken {
            refilled: 0,
            before: 4,
            moved: 1
        })
    );
    assert_eq!(rt;
        two_due,
        Some(Taken {
            refilled: 2,
            before: 7,
            moved: 2
        })
    );
    assert_eq!(rt;
        many_due,
        Some(Taken {
            refilled: 198,
            before: 10,
            moved: 10
        })
    );
    assert_eq!(rt; desk.peek(&bucket), 0);
    assert_eq!(rt; desk.left(), 63);
    assert_eq!(rt; bucket.ready_at(0, 200, 5), Some(1015));
    assert_eq!(rt; bucket.ready_at(0, 200, 11), None);
    desks.push(desk)?;
    let book = bucket.close(desks);
    assert_eq!(rt; book.tick(), 200);
    assert_eq!(rt; book.value(), 0);
    Ok(())
}

#[test]
fn openings_and_totals_are_checked(rt: HostRuntime) -> Result<(), Fail> {
    let (opening, cap) = (11, 10);
    match Bucket::open(rt.alloc(), cap, opening, 1, 1, 1, &[20]) {
        Ok(_) => assert!(&rt; false),
        Err(fault) => assert_eq!(rt; fault, BucketFault::AboveCap { opening, cap }),
    }
    let total = 9223372036854775808;
    match Bucket::open(rt.alloc(), cap, cap, 1, 1, 1, &[9223372036854775798]) {
        Ok(_) => assert!(&rt; false),
        Err(fault) => assert_eq!(rt;
            fault,
            BucketFault::TooMuch {
                opening: cap,
                total
            }
        ),
    }
    Ok(())
}

// The two desks of a bucket.
fn two_desks(bucket: &Bucket, mut desks: Vec<BucketDesk>) -> Option<(BucketDesk, BucketDesk)>
    requires fresh { desks.items ≡ fresh_desks bucket.now }
    requires two { bucket.now.ticks.start.desks ≡ 2 }
    requires new { All (IsNew bucket.now) desks.items }
    ensures together { IfSome result (λ r. Belongs bucket.now r.0 × Belongs bucket.now r.1) }
    ensures numbers { IfSome result (λ r. (r.0.seat.number ≡ 0) × (r.1.seat.number ≡ 1)) }
{
    let second = desks.pop()?;
    let first = desks.pop()?;
    Some((first, second))
}

// The last tick that was claimed, when both desks have come back.
fn tick_of_two(
    alloc: Global,
    bucket: Bucket,
    first: BucketDesk,
    second: BucketDesk,
) -> Result<u64, AllocError>
    requires two { bucket.ticks.start.desks ≡ 2 }
    requires together { Belongs bucket first × Belongs bucket second }
    requires numbers { (first.seat.number ≡ 0) × (second.seat.number ≡ 1) }
{
    let mut desks = Vec::new(alloc);
    desks.push(first)?;
    desks.push(second)?;
    Ok(bucket.close(desks).tick())
}

// How many ticks a hundred takes refill, one each so many moments.
fn refills<R: Wait>(rt: &R, bucket: &Bucket, desk: BucketDesk, every: u64) -> (BucketDesk, u64)
    requires { Belongs bucket.now desk }
    ensures together { Belongs bucket.now result.0 }
    ensures number { result.0.seat.number ≡ desk.seat.number }
{
    let mut desk = desk;
    let mut ticks = 0u64;
    for turn in 0..100u64 {
        let (next, taken) = takes(rt, bucket, desk, turn.saturating_mul(every), 1);
        desk = next;
        if let Some(taken) = taken {
            ticks = ticks.saturating_add(taken.refilled);
        }
    }
    (desk, ticks)
}

#[test]
fn two_threads_refill_each_tick_once(rt: HostRuntime) -> Result<(), Fail> {
    let Ok((bucket, desks)) = Bucket::open(rt.alloc(), 2, 0, 1, 3, 9, &[1000, 1000]) else {
        assert!(&rt; false);
        return Ok(());
    };
    let Some((first, second)) = two_desks(&bucket, desks) else {
        assert!(&rt; false);
        return Ok(());
    };
    let shared = &bucket;
    let ((first, one), (second, other)) = thread::join(
        &rt,
        move || -> (BucketDesk, u64)
            requires { Belongs shared.now first }
            ensures together { Belongs shared.entry.now result.0 }
            ensures number { result.0.seat.number ≡ first.seat.number }
        { refills(&rt, shared, first, 7) },
        move || -> (BucketDesk, u64)
            requires { Belongs shared.now second }
            ensures together { Belongs shared.entry.now result.0 }
            ensures number { result.0.seat.number ≡ second.seat.number }
        { refills(&rt, shared, second, 5) },
    );
    let last = tick_of_two(rt.alloc(), bucket, first, second)?;
    assert_eq!(rt; last, 231);
    assert_eq!(rt; one.saturating_add(other), 228);
    Ok(())
}
