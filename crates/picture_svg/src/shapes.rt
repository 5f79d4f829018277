//! Rectangles and texts at places of the frame.
ghost use Rattle.std.specs.Prelude.{◌≡◌, ◌++◌, OnOk, codes};
ghost use Rattle.picture_xml.specs.Xml.{open_tag};
ghost use Rattle.picture_svg.specs.Svg.{area_attributes, label, label_attributes, rect};

use picture_xml::{push_attribute, push_close_tag, push_number_attribute};
use std::alloc::AllocError;

/// Where a rectangle stands, by its upper left corner, and how large it is.
#[derive(Clone, Copy)]
pub struct Area {
    pub x: u64,
    pub y: u64,
    pub width: u64,
    pub height: u64,
}

#[tactic(auto, unfolding(crate::specs::Svg::area_attributes))]
fn push_area_attributes(text: &mut Vec<u8>, class: &[u8], area: Area) -> Result<(), AllocError>
    ensures { OnOk result (text.new.items ≡ text.old.items ++ area_attributes class.now area) }
{
    push_attribute(text, b"class", class)?;
    push_number_attribute(text, b"x", area.x)?;
    push_number_attribute(text, b"y", area.y)?;
    push_number_attribute(text, b"width", area.width)?;
    push_number_attribute(text, b"height", area.height)
}

/// Appends a rectangle.
#[tactic(auto, unfolding(picture_xml::specs::Xml::leaf))]
pub fn push_rect(text: &mut Vec<u8>, class: &[u8], area: Area) -> Result<(), AllocError>
    ensures { OnOk result (text.new.items ≡ text.old.items ++ rect class.now area) }
{
    text.extend_from_slice(b"<rect")?;
    push_area_attributes(text, class, area)?;
    text.extend_from_slice(b"/>")
}

#[tactic(auto, unfolding(crate::specs::Svg::label_attributes))]
fn push_label_attributes(text: &mut Vec<u8>, class: &[u8], x: u64, y: u64) -> Result<(), AllocError>
    ensures { OnOk result (text.new.items ≡ text.old.items ++ label_attributes class.now x y) }
{
    push_attribute(text, b"class", class)?;
    push_number_attribute(text, b"x", x)?;
    push_number_attribute(text, b"y", y)
}

/// Appends the tag that opens a label.
#[tactic(auto, unfolding(picture_xml::specs::Xml::open_tag))]
pub fn push_label_tag(text: &mut Vec<u8>, class: &[u8], x: u64, y: u64) -> Result<(), AllocError>
    ensures { OnOk result (text.new.items ≡ text.old.items ++ open_tag (codes "text") (label_attributes class.now x y)) }
{
    text.extend_from_slice(b"<text")?;
    push_label_attributes(text, class, x, y)?;
    text.extend_from_slice(b">")
}

/// Appends a whole label.
#[tactic(auto, unfolding(picture_xml::specs::Xml::element))]
pub fn push_label(
    text: &mut Vec<u8>,
    class: &[u8],
    x: u64,
    y: u64,
    inner: &[u8],
) -> Result<(), AllocError>
    ensures { OnOk result (text.new.items ≡ text.old.items ++ label class.now x y inner.now) }
{
    push_label_tag(text, class, x, y)?;
    text.extend_from_slice(inner)?;
    push_close_tag(text, b"text")
}
