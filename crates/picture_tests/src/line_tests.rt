use picture_line::line_text;
use picture_marks::{Heading, Mark};
use std::test::Fail;

const HEADING: Heading = Heading {
    opening: 300,
    added: 0,
    taken: 159,
    last: 141,
};

#[test]
fn draws_a_bar_for_each_row(rt: HostRuntime) -> Result<(), Fail> {
    let marks = [
        Mark {
            worker: 0,
            at: 1,
            before: 300,
            after: 0,
        },
        Mark {
            worker: 1,
            at: 2,
            before: 0,
            after: 150,
        },
        Mark {
            worker: 0,
            at: 4,
            before: 150,
            after: 300,
        },
    ];
    let mut text = Vec::new(rt.alloc());
    line_text(&mut text, rt.alloc(), b"disk", HEADING, &marks)?;
    assert_eq!(rt; text.as_slice(), "disk 300 ▁▄█ 141\n".as_bytes());
    Ok(())
}

#[test]
fn draws_a_dash_for_no_row(rt: HostRuntime) -> Result<(), Fail> {
    let mut text = Vec::new(rt.alloc());
    line_text(&mut text, rt.alloc(), b"disk", HEADING, &[])?;
    assert_eq!(rt; text.as_slice(), b"disk 300 - 141\n".as_slice());
    Ok(())
}
