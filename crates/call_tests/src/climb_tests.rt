ghost use Rattle.std.specs.Prelude.{◌≡◌, IfSome, All};
ghost use Rattle.fn_model.specs.declared.TheConstants.{NO_CAP};
ghost use Rattle.fn_core.specs.Machine.{IsChange};
ghost use Rattle.fn_core.specs.Calls.{IsIdle};
ghost use Rattle.fn_table.specs.Seen.{IsOf, IsWhole, AreOpened};

use fn_climb::*;
use fn_layout::Shape;
use fn_model::NO_CAP;
use fn_table::{direct, load_read};
use std::test::*;

// A call begins, and waits at its leaf.
pub(crate) fn start(table: &FunnelTable, pass: Pass, kind: Kind, amount: u64) -> Option<Pending>
    requires together { IsOf table.now pass }
    requires idle { IsIdle pass.seen pass.number }
    requires change { IsChange kind }
    ensures { IfSome result (λ p. IsOf table.now p.pass) }
{
    if amount < 1 || pass.allowance() < amount {
        return None;
    }
    match begin(table, pass, kind, amount) {
        Begun::Waiting(pending) => Some(pending),
        Begun::NoRow(_, _) => None,
    }
}

// A call is refused.
fn refused(table: &FunnelTable, pass: Pass, kind: Kind, amount: u64) -> Option<(Pass, Blocked)>
    requires together { IsOf table.now pass }
    requires idle { IsIdle pass.seen pass.number }
    requires change { IsChange kind }
    ensures { IfSome result (λ r. IsOf table.now r.0 × IsIdle r.0.seen r.0.number) }
{
    if amount < 1 || pass.allowance() < amount {
        return None;
    }
    match begin(table, pass, kind, amount) {
        Begun::Waiting(_) => None,
        Begun::NoRow(pass, blocked) => Some((pass, blocked)),
    }
}

// A step that leaves the call going.
fn goes(table: &FunnelTable, pending: Pending) -> Option<Pending>
    requires { IsOf table.now pending.pass }
    ensures { IfSome result (λ p. IsOf table.now p.pass) }
{
    match pending.step(table) {
        Step::Going(pending) => Some(pending),
        Step::Ready(_, _) | Step::NotYet(_, _) => None,
    }
}

// So many of them.
pub(crate) fn goes_on(table: &FunnelTable, mut pending: Pending, times: u32) -> Option<Pending>
    requires { IsOf table.now pending.pass }
    ensures { IfSome result (λ p. IsOf table.now p.pass) }
{
    for _ in 0..times {
        pending = goes(table, pending)?;
    }
    Some(pending)
}

// A step that tells the call to wait.
fn halts(table: &FunnelTable, pending: Pending) -> Option<(Pending, Why)>
    requires { IsOf table.now pending.pass }
    ensures { IfSome result (λ r. IsOf table.now r.0.pass) }
{
    match pending.step(table) {
        Step::NotYet(pending, why) => Some((pending, why)),
        Step::Ready(_, _) | Step::Going(_) => None,
    }
}

// A poll that ends the call.
pub(crate) fn replies(table: &FunnelTable, pending: Pending) -> Option<(Pass, u64)>
    requires { IsOf table.now pending.pass }
    ensures { IfSome result (λ r. IsOf table.now r.0 × IsIdle r.0.seen r.0.number) }
{
    match pending.poll(table) {
        Turn::Ready(pass, reply) => Some((pass, reply)),
        Turn::NotYet(_, _) => None,
    }
}

// A poll that tells the call to wait.
fn waits(table: &FunnelTable, pending: Pending) -> Option<(Pending, Why)>
    requires { IsOf table.now pending.pass }
    ensures { IfSome result (λ r. IsOf table.now r.0.pass) }
{
    match pending.poll(table) {
        Turn::NotYet(pending, why) => Some((pending, why)),
        Turn::Ready(_, _) => None,
    }
}

// The last of some passes.
pub(crate) fn last_of(table: &FunnelTable, passes: &mut Vec<Pass>) -> Option<Pass>
    requires together { All (λ p. IsOf table.now p) passes.old.items }
    requires idle { All IsWhole passes.old.items }
    ensures together { All (λ p. IsOf table.now p) passes.new.items }
    ensures idle { All IsWhole passes.new.items }
    ensures pass { IfSome result (λ p. IsOf table.now p × IsIdle p.seen p.number) }
{
    passes.pop()
}

// A member polls before its delegate: why it waits, and what both met.
fn member_first(table: &FunnelTable, mut passes: Vec<Pass>) -> Option<(Why, (u64, u64))>
    requires { AreOpened table.now passes.items }
{
    let (first, second) = start_two(table, &mut passes, 5, 7)?;
    let (second, why) = waits(table, second)?;
    let replies = both_reply(table, first, second)?;
    Some((why, replies))
}

// The replies of two calls that share a batch, and the value.
fn two_replies(
    table: &FunnelTable,
    mut passes: Vec<Pass>,
    kind: Kind,
    amount: u64,
    other: u64,
) -> Option<(u64, u64, u64)>
    requires opened { AreOpened table.now passes.items }
    requires change { IsChange kind }
{
    let second = last_of(table, &mut passes)?;
    let first = last_of(table, &mut passes)?;
    let first = start(table, first, kind, amount)?;
    let second = start(table, second, kind, other)?;
    let (_, one) = replies(table, first)?;
    let (mut second, two) = replies(table, second)?;
    let _number = second.number();
    Some((one, two, load_read(table, &mut second)))
}

// A direct addition of 1, where the allowance is enough.
fn adds_past(table: &FunnelTable, mut pass: Pass) -> bool
    requires together { IsOf table.now pass }
    requires idle { IsIdle pass.seen pass.number }
    requires cap { table.now.start.cap ≡ NO_CAP }
{
    let _number = pass.number();
    if pass.allowance() < 1 {
        return false;
    }
    direct(table, &mut pass, 1);
    true
}

// A subtraction whose exchange comes next, and another pass.
fn up_to_exchange(table: &FunnelTable, mut passes: Vec<Pass>) -> Option<(Pending, Pass)>
    requires { AreOpened table.now passes.items }
    ensures call { IfSome result (λ r. IsOf table.now r.0.pass) }
    ensures other { IfSome result (λ r. IsOf table.now r.1 × IsIdle r.1.seen r.1.number) }
{
    let second = last_of(table, &mut passes)?;
    let first = last_of(table, &mut passes)?;
    let first = start(table, first, Kind::Sub, 4)?;
    let first = goes_on(table, first, 3)?;
    Some((first, second))
}

// A direct addition comes between a load and its exchange: why it is told to wait, and what it meets.
fn loses_once(table: &FunnelTable, passes: Vec<Pass>) -> Option<(Why, u64)>
    requires opened { AreOpened table.now passes.items }
    requires cap { table.now.start.cap ≡ NO_CAP }
{
    let (first, second) = up_to_exchange(table, passes)?;
    if !adds_past(table, second) {
        return None;
    }
    let (first, why) = halts(table, first)?;
    let (_, reply) = replies(table, first)?;
    Some((why, reply))
}

// An addition of 1 whose poll ends it.
pub(crate) fn adds_one(table: &FunnelTable, pass: Pass) -> Option<(Pass, u64)>
    requires together { IsOf table.now pass }
    requires idle { IsIdle pass.seen pass.number }
    ensures { IfSome result (λ r. IsOf table.now r.0 × IsIdle r.0.seen r.0.number) }
{
    let pending = start(table, pass, Kind::Add, 1)?;
    replies(table, pending)
}

// A pass makes two additions of 1 while another stalls, and then finds no row: what they met, and the load that names the last row.
fn runs_out(table: &FunnelTable, first: Pending) -> Option<(Pass, (u64, u64), Blocked)>
    requires { IsOf table.now first.pass }
    ensures { IfSome result (λ r. IsOf table.now r.0 × IsIdle r.0.seen r.0.number) }
{
    let (pass, one) = replies(table, first)?;
    let (pass, two) = adds_one(table, pass)?;
    let (pass, blocked) = refused(table, pass, Kind::Add, 1)?;
    Some((pass, (one, two), blocked))
}

// One pass stalls, the other runs out of rows, and then a row is free again: what the first met, the load, and what came then.
fn comes_back(
    table: &FunnelTable,
    mut passes: Vec<Pass>,
) -> Option<((u64, u64), Blocked, (u64, u64))>
    requires { AreOpened table.now passes.items }
{
    let (first, second) = start_two(table, &mut passes, 1, 1)?;
    let (pass, met, blocked) = runs_out(table, first)?;
    let (_, third) = replies(table, second)?;
    let (_, fourth) = adds_one(table, pass)?;
    Some((met, blocked, (third, fourth)))
}

// Two additions of the last two passes begin.
pub(crate) fn start_two(
    table: &FunnelTable,
    passes: &mut Vec<Pass>,
    amount: u64,
    other: u64,
) -> Option<(Pending, Pending)>
    requires together { All (λ p. IsOf table.now p) passes.old.items }
    requires idle { All IsWhole passes.old.items }
    ensures together { All (λ p. IsOf table.now p) passes.new.items }
    ensures idle { All IsWhole passes.new.items }
    ensures calls { IfSome result (λ r. IsOf table.now r.0.pass × IsOf table.now r.1.pass) }
{
    let second = last_of(table, passes)?;
    let first = last_of(table, passes)?;
    let first = start(table, first, Kind::Add, amount)?;
    let second = start(table, second, Kind::Add, other)?;
    Some((first, second))
}

// What two calls met, polled one after the other.
pub(crate) fn both_reply(table: &FunnelTable, first: Pending, second: Pending) -> Option<(u64, u64)>
    requires { IsOf table.now first.pass × IsOf table.now second.pass }
{
    let (_, one) = replies(table, first)?;
    let (_, two) = replies(table, second)?;
    Some((one, two))
}

// A pair of calls takes five steps each, and replies.
fn reply_after_five(table: &FunnelTable, calls: (Pending, Pending)) -> Option<(u64, u64)>
    requires { IsOf table.now calls.0.pass × IsOf table.now calls.1.pass }
{
    let first = goes_on(table, calls.0, 5);
    let second = goes_on(table, calls.1, 5);
    match (first, second) {
        (Some(first), Some(second)) => both_reply(table, first, second),
        _ => None,
    }
}

// Two delegates reply after five steps, and then their members.
fn both_levels(
    table: &FunnelTable,
    delegates: (Pending, Pending),
    members: (Pending, Pending),
) -> Option<((u64, u64), (u64, u64))>
    requires delegates { IsOf table.now delegates.0.pass × IsOf table.now delegates.1.pass }
    requires members { IsOf table.now members.0.pass × IsOf table.now members.1.pass }
{
    let upper = reply_after_five(table, delegates)?;
    let lower = both_reply(table, members.0, members.1)?;
    Some((upper, lower))
}

// Two leaf batches go in one step on the main word: what their delegates met, and what their members did.
fn two_levels(table: &FunnelTable, mut passes: Vec<Pass>) -> Option<((u64, u64), (u64, u64))>
    requires { AreOpened table.now passes.items }
{
    let delegates = start_two(table, &mut passes, 1, 4)?;
    let members = start_two(table, &mut passes, 2, 8)?;
    both_levels(table, delegates, members)
}

// A step of a call, if it hasn't ended, and its reply once it has.
fn takes_a_step(table: &FunnelTable, call: Option<Pending>, reply: u64) -> (Option<Pending>, u64)
    requires { IfSome call (λ p. IsOf table.now p.pass) }
    ensures { IfSome result.0 (λ p. IsOf table.now p.pass) }
{
    let Some(pending) = call else {
        return (None, reply);
    };
    match pending.step(table) {
        Step::Going(pending) => (Some(pending), reply),
        Step::NotYet(pending, _) => (Some(pending), reply),
        Step::Ready(_, met) => (None, met),
    }
}

// So many of them.
fn takes_steps(table: &FunnelTable, pending: Pending, times: u32) -> (Option<Pending>, u64)
    requires { IsOf table.now pending.pass }
    ensures { IfSome result.0 (λ p. IsOf table.now p.pass) }
{
    let mut call = (Some(pending), 0);
    for _ in 0..times {
        call = takes_a_step(table, call.0, call.1);
    }
    call
}

// A poll of it.
fn takes_a_poll(table: &FunnelTable, call: Option<Pending>, reply: u64) -> (Option<Pending>, u64)
    requires { IfSome call (λ p. IsOf table.now p.pass) }
    ensures { IfSome result.0 (λ p. IsOf table.now p.pass) }
{
    let Some(pending) = call else {
        return (None, reply);
    };
    match pending.poll(table) {
        Turn::NotYet(pending, _) => (Some(pending), reply),
        Turn::Ready(_, met) => (None, met),
    }
}

// Two calls polled in turn, up to four times the first and three times the second: what each met.
fn polled_in_turn(
    table: &FunnelTable,
    first: (Option<Pending>, u64),
    second: (Option<Pending>, u64),
) -> Option<(u64, u64)>
    requires { IfSome first.0 (λ p. IsOf table.now p.pass) × IfSome second.0 (λ p. IsOf table.now p.pass) }
{
    let (mut first, mut second) = (first, second);
    for _ in 0..3 {
        first = takes_a_poll(table, first.0, first.1);
        second = takes_a_poll(table, second.0, second.1);
    }
    let (None, one) = takes_a_poll(table, first.0, first.1) else {
        return None;
    };
    let (None, two) = second else {
        return None;
    };
    Some((one, two))
}

// The first pass stalls after so many steps, and the second goes on: what each met, and the value.
fn stalls_after(table: &FunnelTable, mut passes: Vec<Pass>, steps: u32) -> Option<((u64, u64), u64)>
    requires { AreOpened table.now passes.items }
{
    let mut third = last_of(table, &mut passes)?;
    let second = last_of(table, &mut passes)?;
    let first = last_of(table, &mut passes)?;
    let first = start(table, first, Kind::Add, 1)?;
    let first = takes_steps(table, first, steps);
    let second = start(table, second, Kind::Add, 2)?;
    let second = takes_a_poll(table, Some(second), 0);
    let replies = polled_in_turn(table, first, second)?;
    let _number = third.number();
    Some((replies, load_read(table, &mut third)))
}

#[test]
fn each_stalled_call_ends(rt: HostRuntime) -> Result<(), Fail> {
    for steps in 0..11 {
        if let Ok(shape) = Shape::new(3, 1, 1, 2)
            && let Ok((table, passes)) = FunnelTable::open(rt.alloc(), shape, 0, &[10, 10, 10])
        {
            let told = stalls_after(&table, passes, steps);
            assert!(rt; told == Some(((0, 1), 3)) || told == Some(((2, 0), 3)));
        } else {
            assert!(&rt; false);
        }
    }
    Ok(())
}

#[test]
fn a_member_polls_before_its_delegate(rt: HostRuntime) -> Result<(), Fail> {
    if let Ok(shape) = Shape::new(2, 1, 1, 2)
        && let Ok((table, passes)) = FunnelTable::open(rt.alloc(), shape, 10, &[5, 7])
    {
        let behind = Why::Behind { done: 0, at: 5 };
        assert!(rt; member_first(&table, passes) == Some((behind, (10, 15))));
        return Ok(());
    }
    assert!(&rt; false);
    Ok(())
}

#[test]
fn a_batch_passes_zero_in_its_middle(rt: HostRuntime) -> Result<(), Fail> {
    if let Ok(shape) = Shape::new(2, 1, 1, 2)
        && let Ok((table, passes)) = FunnelTable::open(rt.alloc(), shape, 6, &[4, 4])
    {
        assert_eq!(rt;
            two_replies(&table, passes, Kind::Sub, 4, 4),
            Some((6, 2, 0))
        );
        return Ok(());
    }
    assert!(&rt; false);
    Ok(())
}

#[test]
fn additions_stop_at_the_cap(rt: HostRuntime) -> Result<(), Fail> {
    if let Ok(shape) = Shape::new(2, 1, 1, 2)
        && let Ok((table, passes)) = FunnelTable::open_capped(rt.alloc(), shape, 8, 10, &[20, 20])
    {
        assert_eq!(rt;
            two_replies(&table, passes, Kind::Add, 5, 4),
            Some((8, 10, 10))
        );
        return Ok(());
    }
    assert!(&rt; false);
    Ok(())
}

#[test]
fn an_exchange_is_lost_and_tried_again(rt: HostRuntime) -> Result<(), Fail> {
    if let Ok(shape) = Shape::new(2, 1, 1, 2)
        && let Ok((table, passes)) = FunnelTable::open(rt.alloc(), shape, 6, &[4, 1])
    {
        let lost = Why::Lost {
            loaded: 6,
            found: 7,
        };
        assert_eq!(rt; loses_once(&table, passes), Some((lost, 7)));
        return Ok(());
    }
    assert!(&rt; false);
    Ok(())
}

#[test]
fn rows_run_out_and_come_back(rt: HostRuntime) -> Result<(), Fail> {
    if let Ok(shape) = Shape::new(2, 1, 1, 2)
        && let Ok((table, passes)) = FunnelTable::open(rt.alloc(), shape, 0, &[4, 1])
    {
        let blocked = Blocked {
            level: 1,
            row: 1,
            pass: 1,
            announced: 0,
        };
        let told = comes_back(&table, passes);
        assert!(rt; told == Some(((0, 2), blocked, (1, 3))));
        return Ok(());
    }
    assert!(&rt; false);
    Ok(())
}

#[test]
fn two_leaf_batches_go_in_one_step(rt: HostRuntime) -> Result<(), Fail> {
    if let Ok(shape) = Shape::new(4, 2, 2, 2)
        && let Ok((table, passes)) = FunnelTable::open(rt.alloc(), shape, 100, &[2, 8, 1, 4])
    {
        let told = two_levels(&table, passes);
        assert!(rt; told == Some(((100, 103), (101, 107))));
        return Ok(());
    }
    assert!(&rt; false);
    Ok(())
}

#[test]
fn the_greatest_value_is_reached(rt: HostRuntime) -> Result<(), Fail> {
    let opening = 9223372036854775806;
    if let Ok(shape) = Shape::new(1, 1, 1, 1)
        && let Ok((table, mut passes)) = FunnelTable::open(rt.alloc(), shape, opening, &[1])
        && let Some(pass) = last_of(&table, &mut passes)
        && let Some((pass, reply)) = adds_one(&table, pass)
    {
        assert_eq!(rt; reply, opening);
        assert_eq!(rt; pass.allowance(), 0);
        return Ok(());
    }
    assert!(&rt; false);
    Ok(())
}

#[test]
fn passes_with_a_leaf_each_meet_above(rt: HostRuntime) -> Result<(), Fail> {
    if let Ok(shape) = Shape::new(2, 2, 2, 1)
        && let Ok((table, passes)) = FunnelTable::open(rt.alloc(), shape, 2, &[1, 2])
    {
        assert_eq!(rt;
            two_replies(&table, passes, Kind::Sub, 1, 2),
            Some((2, 1, 0))
        );
        return Ok(());
    }
    assert!(&rt; false);
    Ok(())
}
