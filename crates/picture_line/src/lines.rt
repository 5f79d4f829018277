//! The line of a tenant.
ghost use Rattle.std.specs.Prelude.{◌≡◌, ◌++◌, OnOk, codes, decimal};
ghost use Rattle.picture_line.specs.Line.{line};

use crate::bars::push_bars;
use itoa::Buffer;
use picture_marks::{Heading, Mark};
use std::alloc::{AllocError, Global};

/// Appends the line of a tenant with these rows: its name and opening, a bar for each of at most
/// `MOST_BARS` columns, and its last value.
pub fn line_text(
    text: &mut Vec<u8>,
    alloc: Global,
    name: &[u8],
    heading: Heading,
    marks: &[Mark],
) -> Result<(), AllocError>
    ensures { OnOk result (text.new.items ≡ text.old.items ++ line name.now heading marks.now) }
{
    text.extend_from_slice(name)?;
    push_spaced(text, heading.opening)?;
    text.extend_from_slice(b" ")?;
    push_bars(text, alloc, heading, marks)?;
    push_spaced(text, heading.last)?;
    text.extend_from_slice(b"\n")
}

// Appends a space and a number.
fn push_spaced(text: &mut Vec<u8>, number: u64) -> Result<(), AllocError>
    ensures { OnOk result (text.new.items ≡ text.old.items ++ codes " " ++ decimal number) }
{
    let mut buffer = Buffer::new();
    text.extend_from_slice(b" ")?;
    text.extend_from_slice(buffer.format(number).as_bytes())
}
