//! The columns of the picture.
ghost use Rattle.std.specs.Prelude.{◌≡◌, ◌<◌, ◌≤◌, ◌+◌, ◌^◌, ◌++◌, OnOk, length, map};
ghost use Rattle.std.specs.List.{All, enumerate_from, flat_map};
ghost use Rattle.picture_marks.specs.Marks.{greatest_of, least_of};
ghost use Rattle.picture_svg.specs.Svg.{column, column_start, column_width, columns_text, first_at, last_at, part, part_height, parts, records, said, span};

use crate::frame::{BASE, LEFT, RISE, ROOM, STRIP, strip_end};
use crate::heading::push_rows;
use crate::shapes::{Area, push_rect};
use picture_marks::{Mark, greatest, least, scaled, shares};
use picture_xml::{push_close_tag, push_number, push_open_tag};
use std::alloc::{AllocError, Global};

// Where a column of so many begins.
fn column_start(count: u64, column: u64) -> u64
    requires { column ≤ count }
    ensures start { result ≡ column_start count column }
    ensures within { result ≤ 960 }
{
    LEFT + scaled(ROOM, count.max(20), column)
}

fn column_width(count: u64, column: u64) -> u64
    requires { column < count }
    ensures { result ≡ column_width count column }
{
    let end = column_start(count, column + 1);
    let gap = column_start(count, column).saturating_add(1);
    end.saturating_sub(gap).max(1)
}

// The record of the first mark.
fn first_at(marks: &[Mark]) -> u64
    ensures { result ≡ first_at marks.now }
{
    match marks.first() {
        Some(mark) => mark.at,
        None => 0,
    }
}

// The record of the last mark.
fn last_at(marks: &[Mark]) -> u64
    ensures { result ≡ last_at marks.now }
{
    match marks.last() {
        Some(mark) => mark.at,
        None => 0,
    }
}

// Appends which records the marks are, and how many.
#[tactic(auto, unfolding(crate::specs::Svg::records))]
fn push_records(text: &mut Vec<u8>, marks: &[Mark]) -> Result<(), AllocError>
    ensures { OnOk result (text.new.items ≡ text.old.items ++ records marks.now) }
{
    if marks.len() == 1 {
        text.extend_from_slice(b"record ")?;
        return push_number(text, first_at(marks));
    }
    text.extend_from_slice(b"records ")?;
    push_number(text, first_at(marks))?;
    text.extend_from_slice(b" to ")?;
    push_number(text, last_at(marks))?;
    text.extend_from_slice(b", ")?;
    push_rows(text, marks.len() as u64)
}

// Appends what is said of a column.
#[tactic(auto, unfolding(crate::specs::Svg::said))]
fn push_said(text: &mut Vec<u8>, marks: &[Mark]) -> Result<(), AllocError>
    ensures { OnOk result (text.new.items ≡ text.old.items ++ said marks.now) }
{
    push_records(text, marks)?;
    text.extend_from_slice(b": least ")?;
    push_number(text, least(marks))?;
    text.extend_from_slice(b", most ")?;
    push_number(text, greatest(marks))
}

// The place of a column.
fn span(peak: u64, x: u64, width: u64, marks: &[Mark]) -> Area
    requires least { least_of marks.now ≤ peak }
    requires greatest { greatest_of marks.now ≤ peak }
    requires peak { 0 < peak }
    ensures { result ≡ span peak x width marks.now }
{
    let high = scaled(RISE, peak, greatest(marks));
    let low = scaled(RISE, peak, least(marks));
    Area {
        x,
        y: BASE.saturating_sub(high),
        width,
        height: high.saturating_sub(low).max(3),
    }
}

// How high the part of a worker with so many of so many rows is.
fn part_height(count: u64, own: u64) -> u64
    requires some { 0 < own }
    requires within { own ≤ count }
    ensures height { result ≡ part_height count own }
    ensures small { result ≤ 32 }
{
    scaled(STRIP, count, own).max(3)
}

// Appends the part of a worker, where it has one.
#[tactic(auto, unfolding(crate::specs::Svg::part), using(std::proofs::lemmas::Fmt::decimal_digit))]
fn push_part(
    text: &mut Vec<u8>,
    x: u64,
    width: u64,
    count: u64,
    worker: u32,
    own: u64,
) -> Result<(), AllocError>
    requires { own ≤ count }
    ensures { OnOk result (text.new.items ≡ text.old.items ++ part x width count (worker, own)) }
{
    if own == 0 {
        return Ok(());
    }
    let height = part_height(count, own);
    let area = Area {
        x,
        y: strip_end(worker) - height,
        width,
        height,
    };
    push_rect(text, &[b'w', b'0' + (worker % 8) as u8], area)
}

// Appends the parts of the workers with a row in a column.
#[tactic(auto, unfolding(crate::specs::Svg::parts))]
fn push_parts(
    text: &mut Vec<u8>,
    alloc: Global,
    workers: u32,
    x: u64,
    width: u64,
    marks: &[Mark],
) -> Result<(), AllocError>
    ensures { OnOk result (text.new.items ≡ text.old.items ++ parts workers x width marks.now) }
{
    let shares = shares(alloc, workers, marks)?;
    push_shares(text, x, width, marks.len() as u64, &shares)
}

// Appends the part of each worker.
fn push_shares(
    text: &mut Vec<u8>,
    x: u64,
    width: u64,
    count: u64,
    shares: &[u64],
) -> Result<(), AllocError>
    requires few { length shares.now < 2 ^ 32 }
    requires within { All (λ own. own ≤ count) shares.now }
    ensures { OnOk result (text.new.items ≡ text.old.items ++ flat_map (part x width count) (enumerate_from 0 shares.now)) }
{
    for (worker, own) in shares.iter().enumerate() {
        push_part(text, x, width, count, worker as u32, *own)?;
    }
    Ok(())
}

// Appends a column, with what is said of it and the workers' parts.
#[tactic(auto, unfolding(crate::specs::Svg::column, picture_xml::specs::Xml::element))]
fn push_column(
    text: &mut Vec<u8>,
    alloc: Global,
    workers: u32,
    peak: u64,
    count: u64,
    i: u64,
    marks: &[Mark],
) -> Result<(), AllocError>
    requires place { i < count }
    requires least { least_of marks.now ≤ peak }
    requires greatest { greatest_of marks.now ≤ peak }
    requires peak { 0 < peak }
    ensures { OnOk result (text.new.items ≡ text.old.items ++ column workers peak count (i, marks.now)) }
{
    let x = column_start(count, i);
    let width = column_width(count, i);
    push_open_tag(text, b"g")?;
    push_open_tag(text, b"title")?;
    push_said(text, marks)?;
    push_close_tag(text, b"title")?;
    push_rect(text, b"span", span(peak, x, width, marks))?;
    push_parts(text, alloc, workers, x, width, marks)?;
    push_close_tag(text, b"g")?;
    text.extend_from_slice(b"\n")
}

/// Appends all columns.
#[tactic(auto, unfolding(crate::specs::Svg::columns_text))]
pub fn push_columns(
    text: &mut Vec<u8>,
    alloc: Global,
    workers: u32,
    peak: u64,
    columns: &[&[Mark]],
) -> Result<(), AllocError>
    requires within { All (λ marks. (least_of marks.now ≤ peak) × (greatest_of marks.now ≤ peak)) columns.now }
    requires peak { 0 < peak }
    ensures { OnOk result (text.new.items ≡ text.old.items ++ columns_text workers peak (map (λ marks. marks.now) columns.now)) }
{
    let count = columns.len() as u64;
    for (i, marks) in columns.iter().enumerate() {
        push_column(text, alloc, workers, peak, count, i as u64, marks)?;
    }
    Ok(())
}
