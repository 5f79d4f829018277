//! What is said of all rows: the title, the style and the heading.
ghost use Rattle.std.specs.Prelude.{◌≡◌, ◌++◌, OnOk};
ghost use Rattle.picture_svg.specs.Svg.{head, lines, rows_text, summary, sums};

use crate::shapes::push_label_tag;
use picture_marks::Heading;
use picture_xml::{push_close_tag, push_element, push_number, push_open_tag, push_sum};
use std::alloc::AllocError;

/// The style: the colours for light and dark, and the hues of the workers, which are those of Okabe
/// and Ito, with a grey for black.
pub const STYLE: &[u8] = b"text{font:24px sans-serif;fill:#222}\n\
    .name{font-size:34px;font-weight:bold}\n\
    .end{text-anchor:end}\n\
    .caption{text-anchor:middle;fill:#555}\n\
    .backdrop{fill:#fff}\n\
    .axis{stroke:#777;stroke-width:2}\n\
    .span{fill:#666}\n\
    .track{fill:#eee}\n\
    .w0{fill:#e69f00}\n\
    .w1{fill:#56b4e9}\n\
    .w2{fill:#009e73}\n\
    .w3{fill:#f0e442}\n\
    .w4{fill:#0072b2}\n\
    .w5{fill:#d55e00}\n\
    .w6{fill:#cc79a7}\n\
    .w7{fill:#999}\n\
    @media (prefers-color-scheme:dark){\
    text{fill:#eee}.caption{fill:#bbb}.backdrop{fill:#161616}\
    .axis{stroke:#999}.span{fill:#bbb}.track{fill:#333}}\n";

/// Appends a number of rows.
#[tactic(auto, unfolding(crate::specs::Svg::rows_text))]
pub fn push_rows(text: &mut Vec<u8>, count: u64) -> Result<(), AllocError>
    ensures { OnOk result (text.new.items ≡ text.old.items ++ rows_text count) }
{
    push_number(text, count)?;
    if count == 1 {
        text.extend_from_slice(b" row")
    } else {
        text.extend_from_slice(b" rows")
    }
}

#[tactic(auto, unfolding(crate::specs::Svg::summary))]
fn push_summary(text: &mut Vec<u8>, name: &[u8], count: u64) -> Result<(), AllocError>
    ensures { OnOk result (text.new.items ≡ text.old.items ++ summary name.now count) }
{
    text.extend_from_slice(name)?;
    text.extend_from_slice(b": ")?;
    push_rows(text, count)
}

#[tactic(auto, unfolding(crate::specs::Svg::sums))]
fn push_sums(text: &mut Vec<u8>, heading: Heading) -> Result<(), AllocError>
    ensures { OnOk result (text.new.items ≡ text.old.items ++ sums heading) }
{
    text.extend_from_slice(b"opening ")?;
    push_number(text, heading.opening)?;
    text.extend_from_slice(b", added ")?;
    push_sum(text, heading.added)?;
    text.extend_from_slice(b", taken ")?;
    push_sum(text, heading.taken)?;
    text.extend_from_slice(b", final ")?;
    push_number(text, heading.last)
}

/// Appends the title of the whole and the style.
#[tactic(auto, unfolding(crate::specs::Svg::head, picture_xml::specs::Xml::element))]
pub fn push_head(
    text: &mut Vec<u8>,
    name: &[u8],
    count: u64,
    heading: Heading,
) -> Result<(), AllocError>
    ensures { OnOk result (text.new.items ≡ text.old.items ++ head name.now count heading) }
{
    push_open_tag(text, b"title")?;
    push_summary(text, name, count)?;
    text.extend_from_slice(b", ")?;
    push_sums(text, heading)?;
    push_close_tag(text, b"title")?;
    push_element(text, b"style", STYLE)
}

/// Appends the two lines of the heading.
#[tactic(auto, unfolding(crate::specs::Svg::lines, picture_xml::specs::Xml::element))]
pub fn push_lines(
    text: &mut Vec<u8>,
    name: &[u8],
    count: u64,
    heading: Heading,
) -> Result<(), AllocError>
    ensures { OnOk result (text.new.items ≡ text.old.items ++ lines name.now count heading) }
{
    push_label_tag(text, b"name", 24, 40)?;
    push_summary(text, name, count)?;
    push_close_tag(text, b"text")?;
    push_label_tag(text, b"sums", 24, 76)?;
    push_sums(text, heading)?;
    push_close_tag(text, b"text")
}
