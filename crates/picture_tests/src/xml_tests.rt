use picture_xml::{
    push_attribute, push_close_tag, push_element, push_number, push_number_attribute,
    push_open_tag, push_sum,
};
use std::test::Fail;

#[test]
fn writes_tags_attributes_and_numbers(rt: HostRuntime) -> Result<(), Fail> {
    let mut text = Vec::new(rt.alloc());
    push_open_tag(&mut text, b"a")?;
    text.extend_from_slice(b"<b")?;
    push_attribute(&mut text, b"class", b"c d")?;
    push_number_attribute(&mut text, b"x", 120)?;
    text.extend_from_slice(b"/>")?;
    push_element(&mut text, b"e", b"f")?;
    push_number(&mut text, 0)?;
    push_sum(
        &mut text,
        340_282_366_920_938_463_463_374_607_431_768_211_455,
    )?;
    push_close_tag(&mut text, b"a")?;
    let whole =
        b"<a><b class=\"c d\" x=\"120\"/><e>f</e>0340282366920938463463374607431768211455</a>";
    assert_eq!(rt; text.as_slice(), whole.as_slice());
    Ok(())
}
