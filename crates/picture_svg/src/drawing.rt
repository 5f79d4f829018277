//! The whole picture.
ghost use Rattle.std.specs.Prelude.{◌≡◌, ◌++◌, true, IfOk, OnOk, codes};
ghost use Rattle.std.specs.List.{list_all};
ghost use Rattle.picture_xml.specs.Xml.{IsElement, is_name_byte, open_tag};
ghost use Rattle.picture_svg.specs.Svg.{svg, svg_attributes, view};

use crate::columns::push_columns;
use crate::frame::{push_backdrop, push_frame, push_tracks, whole};
use crate::heading::{push_head, push_lines};
use picture_marks::{Heading, Mark, columns, top_of};
use picture_xml::{push_attribute, push_close_tag, push_number};
use std::alloc::{AllocError, Global};
use text_lines::NoMemory;

// The most columns of a picture.
const MOST_COLUMNS: usize = 200;

/// The picture of a tenant: its heading, its rows in at most 200 columns in the order of the marks,
/// and below them the share of each worker below `workers` in each column. It has no size of its
/// own: its frame is 1000 wide, and as high as the workers need. A well picture has a name as
/// tenants have.
pub fn svg_text(
    alloc: Global,
    name: &[u8],
    heading: Heading,
    workers: u32,
    marks: &[Mark],
) -> Result<Vec<u8>, NoMemory>
    ensures exact { IfOk result (λ text. text.items ≡ svg name.now heading workers marks.now) }
    ensures well { list_all is_name_byte name.now ≡ true → IfOk result (λ text. IsElement text.items) }
{
    Ok(drawn(alloc, name, heading, workers, marks)?)
}

#[tactic(auto, unfolding(crate::specs::Svg::svg, picture_xml::specs::Xml::element))]
fn drawn(
    alloc: Global,
    name: &[u8],
    heading: Heading,
    workers: u32,
    marks: &[Mark],
) -> Result<Vec<u8>, AllocError>
    ensures { IfOk result (λ text. text.items ≡ svg name.now heading workers marks.now) }
{
    let count = marks.len() as u64;
    let peak = top_of(heading, marks);
    let columns = columns(alloc, marks, MOST_COLUMNS)?;
    let mut text = Vec::new(alloc);
    push_svg_tag(&mut text, workers)?;
    push_head(&mut text, name, count, heading)?;
    push_backdrop(&mut text, workers)?;
    push_lines(&mut text, name, count, heading)?;
    push_frame(&mut text, peak)?;
    text.extend_from_slice(b"\n")?;
    push_tracks(&mut text, workers)?;
    push_columns(&mut text, alloc, workers, peak, &columns)?;
    push_close_tag(&mut text, b"svg")?;
    Ok(text)
}

#[tactic(auto, unfolding(crate::specs::Svg::view, picture_xml::specs::Xml::attribute))]
fn push_view(text: &mut Vec<u8>, workers: u32) -> Result<(), AllocError>
    ensures { OnOk result (text.new.items ≡ text.old.items ++ view workers) }
{
    text.extend_from_slice(b" viewBox=\"0 0 1000 ")?;
    push_number(text, whole(workers))?;
    text.extend_from_slice(b"\"")?;
    Ok(())
}

#[tactic(auto, unfolding(crate::specs::Svg::svg_attributes, picture_xml::specs::Xml::open_tag))]
fn push_svg_tag(text: &mut Vec<u8>, workers: u32) -> Result<(), AllocError>
    ensures { OnOk result (text.new.items ≡ text.old.items ++ open_tag (codes "svg") (svg_attributes workers)) }
{
    text.extend_from_slice(b"<svg")?;
    push_attribute(text, b"xmlns", b"http://www.w3.org/2000/svg")?;
    push_view(text, workers)?;
    push_attribute(text, b"role", b"img")?;
    text.extend_from_slice(b">")
}
