//! The bars of a line.
ghost use Rattle.std.specs.Prelude.{◌≡◌, ◌≤◌, ◌++◌, OnOk};
ghost use Rattle.std.specs.List.{flat_map};
ghost use Rattle.picture_line.specs.Line.{bar, bars, column_bar, left_by};
ghost use Rattle.picture_marks.specs.Marks.{columns_of, top};

use picture_marks::{Heading, Mark, columns, scaled, top_of};
use std::alloc::{AllocError, Global};

/// The most bars of a line.
pub const MOST_BARS: usize = 60;

// The height of the highest bar above the lowest one.
const HIGHEST: u64 = 7;

/// Appends the bars of some marks, or a dash where there are none.
pub fn push_bars(
    text: &mut Vec<u8>,
    alloc: Global,
    heading: Heading,
    marks: &[Mark],
) -> Result<(), AllocError>
    ensures { OnOk result (text.new.items ≡ text.old.items ++ bars heading marks.now) }
{
    if marks.is_empty() {
        return text.extend_from_slice(b"-");
    }
    push_columns(text, alloc, heading, marks)
}

// Appends a bar for each column.
fn push_columns(
    text: &mut Vec<u8>,
    alloc: Global,
    heading: Heading,
    marks: &[Mark],
) -> Result<(), AllocError>
    ensures { OnOk result (text.new.items ≡ text.old.items ++ flat_map (column_bar (top heading marks.now)) (columns_of MOST_BARS marks.now)) }
{
    let top = top_of(heading, marks);
    let columns = columns(alloc, marks, MOST_BARS)?;
    for column in &columns {
        push_bar(text, scaled(HIGHEST, top, left_by(column)))?;
    }
    Ok(())
}

// The value that the last mark of a column left.
fn left_by(column: &[Mark]) -> u64
    ensures { result ≡ left_by column.now }
{
    match column {
        [.., last] => last.after,
        [] => 0,
    }
}

// Appends the bar of a height.
fn push_bar(text: &mut Vec<u8>, height: u64) -> Result<(), AllocError>
    requires { height ≤ HIGHEST }
    ensures { OnOk result (text.new.items ≡ text.old.items ++ bar height) }
{
    text.extend_from_slice(&[226, 150, 129 + height as u8])
}
