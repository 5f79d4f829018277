//! Pieces of an element, each appended to a text.
ghost use Rattle.std.specs.Prelude.{◌≡◌, ◌++◌, [], OnOk, decimal};
ghost use Rattle.picture_xml.specs.Xml.{attribute, close_tag, element, open_tag};

use itoa::Buffer;
use std::alloc::AllocError;

/// Appends a number in decimal digits.
#[inline(always)]
pub fn push_number(text: &mut Vec<u8>, number: u64) -> Result<(), AllocError>
    ensures { OnOk result (text.new.items ≡ text.old.items ++ decimal number) }
{
    let mut buffer = Buffer::new();
    text.extend_from_slice(buffer.format(number).as_bytes())
}

/// Appends a sum in decimal digits.
#[inline(always)]
pub fn push_sum(text: &mut Vec<u8>, sum: u128) -> Result<(), AllocError>
    ensures { OnOk result (text.new.items ≡ text.old.items ++ decimal sum) }
{
    let mut buffer = Buffer::new();
    text.extend_from_slice(buffer.format(sum).as_bytes())
}

/// Appends an attribute.
#[tactic(auto, unfolding(crate::specs::Xml::attribute))]
pub fn push_attribute(text: &mut Vec<u8>, name: &[u8], value: &[u8]) -> Result<(), AllocError>
    ensures { OnOk result (text.new.items ≡ text.old.items ++ attribute name.now value.now) }
{
    text.extend_from_slice(b" ")?;
    text.extend_from_slice(name)?;
    text.extend_from_slice(b"=\"")?;
    text.extend_from_slice(value)?;
    text.extend_from_slice(b"\"")
}

/// Appends an attribute whose value is a number.
#[tactic(auto, unfolding(crate::specs::Xml::attribute))]
pub fn push_number_attribute(text: &mut Vec<u8>, name: &[u8], number: u64) -> Result<(), AllocError>
    ensures { OnOk result (text.new.items ≡ text.old.items ++ attribute name.now (decimal number)) }
{
    text.extend_from_slice(b" ")?;
    text.extend_from_slice(name)?;
    text.extend_from_slice(b"=\"")?;
    push_number(text, number)?;
    text.extend_from_slice(b"\"")
}

/// Appends the tag that opens an element without attributes.
#[tactic(auto, unfolding(crate::specs::Xml::open_tag))]
pub fn push_open_tag(text: &mut Vec<u8>, name: &[u8]) -> Result<(), AllocError>
    ensures { OnOk result (text.new.items ≡ text.old.items ++ open_tag name.now []) }
{
    text.extend_from_slice(b"<")?;
    text.extend_from_slice(name)?;
    text.extend_from_slice(b">")
}

/// Appends the tag that closes an element.
#[tactic(auto, unfolding(crate::specs::Xml::close_tag))]
pub fn push_close_tag(text: &mut Vec<u8>, name: &[u8]) -> Result<(), AllocError>
    ensures { OnOk result (text.new.items ≡ text.old.items ++ close_tag name.now) }
{
    text.extend_from_slice(b"</")?;
    text.extend_from_slice(name)?;
    text.extend_from_slice(b">")
}

/// Appends an element without attributes.
#[tactic(auto, unfolding(crate::specs::Xml::element))]
pub fn push_element(text: &mut Vec<u8>, name: &[u8], inner: &[u8]) -> Result<(), AllocError>
    ensures { OnOk result (text.new.items ≡ text.old.items ++ element name.now [] inner.now) }
{
    push_open_tag(text, name)?;
    text.extend_from_slice(inner)?;
    push_close_tag(text, name)
}
