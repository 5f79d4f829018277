//! Lines of takes go through a bucket.
ghost use Rattle.std.specs.Prelude.{◌≡◌, ◌≤◌, All, IfOk, IfErr, None, length};
ghost use Rattle.fn_model.specs.declared.TheConstants.{NO_CAP};
ghost use Rattle.quota_bucket.specs.Closed.{history};
ghost use Rattle.quota_bucket.specs.Faults.{bucket_fault};
ghost use Rattle.quota_bucket.specs.Opened.{OpensWith, fresh_desks, IsNew};
ghost use Rattle.text_lines.specs.Text.{lines};
ghost use Rattle.throttle_run.specs.Faults.{IsRefusedFor};
ghost use Rattle.throttle_run.specs.Lines.{AreSound, Fails, throttle_of};
ghost use Rattle.throttle_run.specs.Throttled.{IsThrottled, IsBookOf, TellsThrottle, TellsText};
ghost use Rattle.throttle_run.specs.Work.{Each, IsReady, IsDone, IsSetting, OpensFull};

use crate::allowing::allowances;
use crate::faults::ThrottleFault;
use crate::gathering::{answers, leave};
use crate::lines::ThrottleLine;
use crate::reading::read_lines;
use crate::telling::text_of;
use crate::workers::{Worker, engage, worked};
use quota_bucket::{Bucket, BucketBook, BucketDesk, BucketFault, Taken};
use std::alloc::Global;
use std::sync::Wait;
use std::thread::Threads;
use text_lines::NoMemory;

/// How many workers there are, and what their bucket opens with.
#[derive(Clone, Copy, Debug)]
pub struct Setting {
    pub workers: u32,
    pub burst: u64,
    pub rate: u64,
    pub period: u64,
}

// Opens a full bucket at the moment 0, with allowances at which nothing but memory can fail.
fn open_full(
    alloc: Global,
    setting: Setting,
    allowances: &[u64],
) -> Result<(Bucket, Vec<BucketDesk>), NoMemory>
    requires setting { IsSetting setting }
    requires count { length allowances.now ≡ setting.workers }
    requires sound { bucket_fault setting.burst setting.burst allowances.now ≡ None }
    ensures bucket { IfOk result (λ r. OpensWith setting.burst setting.burst setting.rate setting.period 0 allowances.now r.0) }
    ensures desks { IfOk result (λ r. r.1.items ≡ fresh_desks r.0) }
    ensures new { IfOk result (λ r. All (IsNew r.0) r.1.items) }
{
    let Setting {
        burst,
        rate,
        period,
        ..
    } = setting;
    match Bucket::open(alloc, burst, burst, rate, period, 0, allowances) {
        Ok(opened) => Ok(opened),
        Err(BucketFault::NoMemory) => Err(NoMemory),
        Err(_) => unreachable!(),
    }
}

// The bucket, and its workers with their lines.
fn make_ready(
    alloc: Global,
    lines: &[ThrottleLine],
    setting: Setting,
) -> Result<(Bucket, Vec<Worker>), NoMemory>
    requires setting { IsSetting setting }
    requires sound { AreSound setting.workers setting.burst lines.now }
    ensures opens { IfOk result (λ r. OpensFull setting r.0) }
    ensures count { IfOk result (λ r. length r.1.items ≡ setting.workers) }
    ensures ready { IfOk result (λ r. Each (IsReady r.0 lines.now) r.1.items) }
{
    let allowances = allowances(alloc, lines, setting.workers, setting.burst)?;
    let (bucket, desks) = open_full(alloc, setting, &allowances)?;
    let all = engage(alloc, desks, lines)?;
    Ok((bucket, all))
}

// Closes the bucket of workers that have made the takes of their lines.
fn finish(
    alloc: Global,
    lines: &[ThrottleLine],
    setting: Setting,
    bucket: Bucket,
    all: Vec<Worker>,
) -> Result<(Vec<Taken>, BucketBook), NoMemory>
    requires sound { AreSound setting.workers setting.burst lines.now }
    requires opens { OpensFull setting bucket }
    requires count { length all.items ≡ setting.workers }
    requires done { Each (IsDone bucket lines.now) all.items }
    ensures throttled { IfOk result (λ r. IsThrottled setting.workers setting.burst setting.rate setting.period lines.now r.0.items (history r.1) r.1.ticks.log) }
    ensures book { IfOk result (λ r. IsBookOf setting.workers setting.burst r.1) }
{
    let answers = answers(alloc, lines, &all)?;
    let desks = leave(alloc, all)?;
    Ok((answers, bucket.close(desks)))
}

// Makes the takes of lines on a bucket that opens full at the moment 0, each worker its own lines, in order, and all workers at once: an answer for each line, and what the bucket was.
fn throttle<R: Threads + Wait + Sync, B: Fn(u32, u64) + Sync, A: Fn(u32, u64) + Sync>(
    rt: &R,
    alloc: Global,
    lines: &[ThrottleLine],
    setting: Setting,
    before: &B,
    answered: &A,
) -> Result<(Vec<Taken>, BucketBook), NoMemory>
    requires before { B.IsAlwaysCallable before.now }
    requires answered { A.IsAlwaysCallable answered.now }
    requires setting { IsSetting setting }
    requires sound { AreSound setting.workers setting.burst lines.now }
    ensures throttled { IfOk result (λ r. IsThrottled setting.workers setting.burst setting.rate setting.period lines.now r.0.items (history r.1) r.1.ticks.log) }
    ensures book { IfOk result (λ r. IsBookOf setting.workers setting.burst r.1) }
{
    let (bucket, all) = make_ready(alloc, lines, setting)?;
    let all = worked(rt, &bucket, all, before, answered);
    finish(alloc, lines, setting, bucket, all)
}

// The text of lines and their answers, and of what the bucket was.
fn told(
    alloc: Global,
    lines: &[ThrottleLine],
    setting: Setting,
    answers: &[Taken],
    book: &BucketBook,
) -> Result<Vec<u8>, NoMemory>
    requires throttled { IsThrottled setting.workers setting.burst setting.rate setting.period lines.now answers.now (history book.now) book.now.ticks.log }
    requires book { IsBookOf setting.workers setting.burst book.now }
    ensures { IfOk result (λ text. TellsThrottle setting.workers setting.burst setting.rate setting.period lines.now text.items (history book.now) book.now.ticks.log) }
{
    let text = text_of(alloc, lines, answers, book.tick(), book.value())?;
    Ok(text)
}

// Makes the takes of lines, and tells of them.
fn serve<R: Threads + Wait + Sync, B: Fn(u32, u64) + Sync, A: Fn(u32, u64) + Sync>(
    rt: &R,
    alloc: Global,
    lines: &[ThrottleLine],
    setting: Setting,
    before: &B,
    answered: &A,
) -> Result<(Vec<u8>, BucketBook), NoMemory>
    requires before { B.IsAlwaysCallable before.now }
    requires answered { A.IsAlwaysCallable answered.now }
    requires setting { IsSetting setting }
    requires sound { AreSound setting.workers setting.burst lines.now }
    ensures told { IfOk result (λ r. TellsThrottle setting.workers setting.burst setting.rate setting.period lines.now r.0.items (history r.1) r.1.ticks.log) }
    ensures book { IfOk result (λ r. IsBookOf setting.workers setting.burst r.1) }
{
    let (answers, book) = throttle(rt, alloc, lines, setting, before, answered)?;
    let text = told(alloc, lines, setting, &answers, &book)?;
    Ok((text, book))
}

/// Makes the takes that a text asks for, by so many workers at once, on a bucket of this burst, rate and period that opens full at the moment 0; and tells of them. Before and after the take of a line its worker calls the closures, with its number and the place of the line among the lines with words, from 0. It may wait.
pub fn throttle_text<R: Threads + Wait + Sync, B: Fn(u32, u64) + Sync, A: Fn(u32, u64) + Sync>(
    rt: &R,
    alloc: Global,
    bytes: &[u8],
    workers: u32,
    burst: u64,
    rate: u64,
    period: u64,
    before: &B,
    answered: &A,
) -> Result<(Vec<u8>, BucketBook), ThrottleFault>
    requires before { B.IsAlwaysCallable before.now }
    requires answered { A.IsAlwaysCallable answered.now }
    requires workers { (1 ≤ workers) × (workers ≤ 64) }
    requires burst { (1 ≤ burst) × (burst ≤ NO_CAP) }
    requires rate { 1 ≤ rate }
    requires period { 1 ≤ period }
    ensures told { IfOk result (λ r. TellsText workers burst rate period bytes.now r.0.items (history r.1) r.1.ticks.log) }
    ensures first { IfErr result (λ fault. IsRefusedFor workers burst (lines bytes.now) fault) }
    ensures faults { IfErr result (λ fault. Fails fault (throttle_of workers burst bytes.now)) }
    ensures book { IfOk result (λ r. IsBookOf workers burst r.1) }
{
    let lines = read_lines(alloc, bytes, workers, burst)?;
    let setting = Setting {
        workers,
        burst,
        rate,
        period,
    };
    match serve(rt, alloc, &lines, setting, before, answered) {
        Ok(told) => Ok(told),
        Err(_) => Err(ThrottleFault::NoMemory),
    }
}
