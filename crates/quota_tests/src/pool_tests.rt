ghost use Rattle.std.specs.Prelude.{◌≡◌, ◌<◌, ◌∷◌, [], All, IfOk, length};
ghost use Rattle.quota_pool.specs.Views.{Belongs};

use quota_pool::*;
use std::alloc::{AllocError, Global};
use std::sync::Wait;
use std::test::Fail;

// A plan of one allowance.
fn plan(alloc: Global, allowance: u64) -> Result<Plan, AllocError>
    ensures { IfOk result (λ plan. plan ≡ allowance ∷ []) }
{
    let items = Vec::from_slice(alloc, &[allowance])?;
    Ok(Plan { items })
}

// What a desk's calls answered, and what it has left.
#[derive(Clone, Copy, Debug, PartialEq, Eq)]
struct Answers {
    taken: Moved,
    added: Moved,
    read: Moved,
    direct: Moved,
    left: u64,
}

// A call of each kind.
fn four_calls<R: Wait>(rt: &R, pool: &QuotaPool, desk: &mut Desk) -> Option<Answers>
    requires together { Belongs pool.now desk.old }
    requires tenant { 0 < length desk.old.passes }
    ensures together { Belongs pool.now desk.new }
    ensures worker { desk.new.worker ≡ desk.old.worker }
{
    if desk.left(0) < 12 {
        return None;
    }
    let taken = desk.take(rt, pool, 0, 7);
    let added = desk.add(rt, pool, 0, 3);
    let read = desk.read(pool, 0);
    let direct = desk.direct(rt, pool, 0, 2);
    let left = desk.left(0);
    Some(Answers {
        taken,
        added,
        read,
        direct,
        left,
    })
}

// The value of the one book, when the one desk has come back.
fn value_of_one(alloc: Global, pool: QuotaPool, desk: Desk) -> Result<Option<u64>, AllocError>
    requires together { Belongs pool desk }
    requires worker { desk.worker ≡ 0 }
    requires one { pool.workers ≡ 1 }
{
    let mut desks = Vec::new(alloc);
    desks.push(desk)?;
    let books = pool.close(desks);
    Ok(books.iter().next().map(|book| book.value()))
}

// The calls on a pool of one tenant and one worker, and the value that they leave.
fn run_one<R: Wait>(
    rt: &R,
    alloc: Global,
    pool: QuotaPool,
    mut desks: Vec<Desk>,
) -> Result<Option<(Answers, Option<u64>)>, AllocError>
    requires together { All (Belongs pool) desks.items }
    requires one { pool.workers ≡ 1 }
    requires tenant { length pool.tables ≡ 1 }
{
    let Some(mut desk) = desks.pop() else {
        return Ok(None);
    };
    let Some(answers) = four_calls(rt, &pool, &mut desk) else {
        return Ok(None);
    };
    let value = value_of_one(alloc, pool, desk)?;
    Ok(Some((answers, value)))
}

fn shared<T: Sync>(_: &T) {}

fn sent<T: Send>(_: &T) {}

#[test]
fn a_call_of_each_kind(rt: HostRuntime) -> Result<(), Fail> {
    let plans = [plan(rt.alloc(), 20)?];
    let Ok((pool, desks)) = QuotaPool::open(rt.alloc(), &[5], 1, &plans) else {
        assert!(&rt; false);
        return Ok(());
    };
    shared(&pool);
    sent(&desks);
    let way = Some(Way::Funnel);
    let answers = Answers {
        taken: Moved {
            before: 5,
            moved: 5,
            way,
        },
        added: Moved {
            before: 0,
            moved: 3,
            way,
        },
        read: Moved {
            before: 3,
            moved: 0,
            way: None,
        },
        direct: Moved {
            before: 3,
            moved: 2,
            way: None,
        },
        left: 8,
    };
    let ran = run_one(&rt, rt.alloc(), pool, desks)?;
    assert_eq!(rt; ran, Some((answers, Some(5))));
    Ok(())
}

#[test]
fn additions_stop_at_the_cap(rt: HostRuntime) -> Result<(), Fail> {
    let plans = [plan(rt.alloc(), 20)?];
    let Ok((pool, desks)) = QuotaPool::open_capped(rt.alloc(), &[2], &[4], 1, &plans) else {
        assert!(&rt; false);
        return Ok(());
    };
    let way = Some(Way::Funnel);
    let answers = Answers {
        taken: Moved {
            before: 2,
            moved: 2,
            way,
        },
        added: Moved {
            before: 0,
            moved: 3,
            way,
        },
        read: Moved {
            before: 3,
            moved: 0,
            way: None,
        },
        direct: Moved {
            before: 3,
            moved: 1,
            way: None,
        },
        left: 8,
    };
    let ran = run_one(&rt, rt.alloc(), pool, desks)?;
    assert_eq!(rt; ran, Some((answers, Some(4))));
    Ok(())
}

#[test]
fn the_first_fault_is_told(rt: HostRuntime) -> Result<(), Fail> {
    let plans = [plan(rt.alloc(), 1)?, plan(rt.alloc(), 1)?];
    let limit = 9223372036854775807;
    let opened = QuotaPool::open(rt.alloc(), &[0, limit], 1, &plans);
    let total = 9223372036854775808;
    let fault = PoolFault::TooMuch {
        tenant: 1,
        opening: limit,
        total,
    };
    assert_eq!(rt; opened.map(|_| ()).err(), Some(fault));
    let opened = QuotaPool::open_capped(rt.alloc(), &[5, 7], &[5, 6], 1, &plans);
    let fault = PoolFault::AboveCap {
        tenant: 1,
        opening: 7,
        cap: 6,
    };
    assert_eq!(rt; opened.map(|_| ()).err(), Some(fault));
    Ok(())
}
