use picture_svg::{Heading, Mark, STYLE, svg_text};
use std::alloc::{AllocError, Global};
use std::test::Fail;

fn mark(worker: u32, at: u64, before: u64, after: u64) -> Mark {
    Mark {
        worker,
        at,
        before,
        after,
    }
}

// What stands before the columns of the small picture.
fn push_top(text: &mut Vec<u8>) -> Result<(), AllocError> {
    text.extend_from_slice(
        b"<svg xmlns=\"http://www.w3.org/2000/svg\" viewBox=\"0 0 1000 580\" role=\"img\">",
    )?;
    text.extend_from_slice(
        b"<title>a.b-c_1: 3 rows, opening 5, added 0, taken 5, final 0</title><style>",
    )?;
    text.extend_from_slice(STYLE)?;
    text.extend_from_slice(
        b"</style><rect class=\"backdrop\" x=\"0\" y=\"0\" width=\"1000\" height=\"580\"/>",
    )?;
    text.extend_from_slice(b"<text class=\"name\" x=\"24\" y=\"40\">a.b-c_1: 3 rows</text>")?;
    text.extend_from_slice(
        b"<text class=\"sums\" x=\"24\" y=\"76\">opening 5, added 0, taken 5, final 0</text>",
    )?;
    text.extend_from_slice(b"<line class=\"axis\" x1=\"160\" y1=\"136\" x2=\"960\" y2=\"136\"/>")?;
    text.extend_from_slice(b"<text class=\"start\" x=\"160\" y=\"128\">5</text>")?;
    text.extend_from_slice(b"<line class=\"axis\" x1=\"160\" y1=\"436\" x2=\"960\" y2=\"436\"/>")?;
    text.extend_from_slice(b"<text class=\"end\" x=\"148\" y=\"444\">0</text>")?;
    text.extend_from_slice(
        b"<text class=\"caption\" x=\"560\" y=\"468\">in the order of the trace</text>\n",
    )?;
    text.extend_from_slice(b"<text class=\"end\" x=\"148\" y=\"512\">worker 0</text>")?;
    text.extend_from_slice(
        b"<rect class=\"track\" x=\"160\" y=\"488\" width=\"800\" height=\"32\"/>\n",
    )?;
    text.extend_from_slice(b"<text class=\"end\" x=\"148\" y=\"552\">worker 1</text>")?;
    text.extend_from_slice(
        b"<rect class=\"track\" x=\"160\" y=\"528\" width=\"800\" height=\"32\"/>\n",
    )?;
    Ok(())
}

// The small picture.
fn small(alloc: Global) -> Result<Vec<u8>, AllocError> {
    let mut text = Vec::new(alloc);
    push_top(&mut text)?;
    text.extend_from_slice(b"<g><title>record 3: least 2, most 5</title>")?;
    text.extend_from_slice(
        b"<rect class=\"span\" x=\"160\" y=\"136\" width=\"39\" height=\"180\"/>",
    )?;
    text.extend_from_slice(b"<rect class=\"w1\" x=\"160\" y=\"528\" width=\"39\" height=\"32\"/>")?;
    text.extend_from_slice(b"</g>\n")?;
    text.extend_from_slice(b"<g><title>record 7: least 2, most 2</title>")?;
    text.extend_from_slice(
        b"<rect class=\"span\" x=\"200\" y=\"316\" width=\"39\" height=\"3\"/>",
    )?;
    text.extend_from_slice(b"<rect class=\"w0\" x=\"200\" y=\"488\" width=\"39\" height=\"32\"/>")?;
    text.extend_from_slice(b"</g>\n")?;
    text.extend_from_slice(b"<g><title>record 9: least 0, most 2</title>")?;
    text.extend_from_slice(
        b"<rect class=\"span\" x=\"240\" y=\"316\" width=\"39\" height=\"120\"/>",
    )?;
    text.extend_from_slice(b"<rect class=\"w1\" x=\"240\" y=\"528\" width=\"39\" height=\"32\"/>")?;
    text.extend_from_slice(b"</g>\n")?;
    text.extend_from_slice(b"</svg>")?;
    Ok(text)
}

#[test]
fn draws_three_rows_of_two_workers(rt: HostRuntime) -> Result<(), Fail> {
    let heading = Heading {
        opening: 5,
        added: 0,
        taken: 5,
        last: 0,
    };
    let marks = [mark(1, 3, 5, 2), mark(0, 7, 2, 2), mark(1, 9, 2, 0)];
    let text = svg_text(rt.alloc(), b"a.b-c_1", heading, 2, &marks)?;
    let wanted = small(rt.alloc())?;
    assert_eq!(rt; text.as_slice(), wanted.as_slice());
    Ok(())
}

#[test]
fn draws_no_rows(rt: HostRuntime) -> Result<(), Fail> {
    let heading = Heading {
        opening: 0,
        added: 0,
        taken: 0,
        last: 0,
    };
    let text = svg_text(rt.alloc(), b"idle", heading, 3, &[])?;
    assert_eq!(rt; text.len(), 1465);
    Ok(())
}

#[test]
fn draws_many_rows_in_few_columns(rt: HostRuntime) -> Result<(), Fail> {
    let mut marks = Vec::new(rt.alloc());
    for i in 0..401u32 {
        let before = u64::from(i);
        marks.push(mark(i % 9, 2 * before + 1, before, before + 1))?;
    }
    let heading = Heading {
        opening: 0,
        added: 401,
        taken: 0,
        last: 401,
    };
    let text = svg_text(rt.alloc(), b"disk", heading, 9, &marks)?;
    assert_eq!(rt; text.len(), 41509);
    Ok(())
}
