use script_text::{Order, ScriptFault, ScriptLine, ShapeFault, allowances, read_script};
use std::test::Fail;

// The fault of lines after a first line with two passes.
fn fault_after_two_passes(rt: &HostRuntime, lines: &[u8]) -> Result<Option<ScriptFault>, Fail> {
    let mut text = Vec::from_slice(rt.alloc(), b"funnel 2 1 1 1 0\n")?;
    text.extend_from_slice(lines)?;
    Ok(read_script(rt.alloc(), &text).err())
}

#[test]
fn the_first_fault_is_told(rt: HostRuntime) -> Result<(), Fail> {
    let pass = ScriptFault::Pass { at: 2 };
    let op = ScriptFault::Op { at: 2 };
    let fields = ScriptFault::Fields { at: 2 };
    let amount = ScriptFault::Amount { at: 2 };
    for (lines, fault) in [
        (b"5 sub x".as_slice(), pass),
        (b"5 jump".as_slice(), pass),
        (b"0 jump x y".as_slice(), op),
        (b"0 add".as_slice(), fields),
        (b"2 step x".as_slice(), fields),
        (b"0 add 0".as_slice(), amount),
        (b"0 meet 2".as_slice(), pass),
        (b"0 read 1".as_slice(), fields),
        (b"0".as_slice(), fields),
        (b"0 step\r".as_slice(), op),
        (b"0 add 18446744073709551616".as_slice(), amount),
        (b"0 add 00000000000000000001".as_slice(), amount),
    ] {
        assert_eq!(rt; fault_after_two_passes(&rt, lines)?, Some(fault));
    }
    Ok(())
}

#[test]
fn the_first_line_and_the_total_are_tried(rt: HostRuntime) -> Result<(), Fail> {
    let header = ScriptFault::Header { at: 1 };
    for (text, fault) in [
        (b"".as_slice(), header),
        (b"funnel 2 1 1 1".as_slice(), header),
        (b"funnel 2 1 1 1 0 0".as_slice(), header),
        (
            b" \n\nfunel 1 1 1 1 0".as_slice(),
            ScriptFault::Header { at: 3 },
        ),
        (
            b"\n\nfunnel 1 1 1 1 0\n0 add x".as_slice(),
            ScriptFault::Amount { at: 4 },
        ),
        (
            b"funnel 1 1 1 1 9223372036854775807\n0 add 1\n0 jump".as_slice(),
            ScriptFault::Total { at: 2 },
        ),
        (
            b"funnel 65 1 1 1 0\n".as_slice(),
            ScriptFault::Shape(ShapeFault::Passes(65)),
        ),
        (
            b"funnel 4294967297 1 1 1 0\n".as_slice(),
            ScriptFault::Shape(ShapeFault::Passes(4294967295)),
        ),
        (
            b"funnel 2 3 1 1 0\n".as_slice(),
            ScriptFault::Shape(ShapeFault::Leaves(3)),
        ),
        (
            b"funnel 1 1 4 1 0\n".as_slice(),
            ScriptFault::Shape(ShapeFault::Levels(4)),
        ),
        (
            b"funnel 1 1 1 9 0\n".as_slice(),
            ScriptFault::Shape(ShapeFault::Rows(9)),
        ),
    ] {
        assert_eq!(rt; read_script(rt.alloc(), text).err(), Some(fault));
    }
    Ok(())
}

// A text before so many newlines, and a text after them.
fn around_newlines(
    rt: &HostRuntime,
    front: &[u8],
    newlines: u32,
    back: &[u8],
) -> Result<Option<ScriptFault>, Fail> {
    let mut text = Vec::from_slice(rt.alloc(), front)?;
    for _ in 0..newlines {
        text.push(b'\n')?;
    }
    text.extend_from_slice(back)?;
    Ok(read_script(rt.alloc(), &text).err())
}

#[test]
fn lines_are_limited(rt: HostRuntime) -> Result<(), Fail> {
    let header = b"funnel 1 1 1 1 0\n".as_slice();
    let too_many = Some(ScriptFault::TooMany { at: 65537 });
    assert_eq!(rt;
        around_newlines(&rt, b"", 65537, b"")?,
        Some(ScriptFault::Header { at: 1 })
    );
    assert_eq!(rt; around_newlines(&rt, b"", 65537, header)?, too_many);
    assert_eq!(rt; around_newlines(&rt, b"", 65536, header)?, too_many);
    assert_eq!(rt;
        around_newlines(&rt, b"", 65536, b"0")?,
        Some(ScriptFault::Header { at: 65537 })
    );
    assert_eq!(rt; around_newlines(&rt, b"", 65535, header)?, None);
    assert_eq!(rt; around_newlines(&rt, header, 65535, b"")?, None);
    assert_eq!(rt; around_newlines(&rt, header, 65536, b"")?, too_many);
    assert_eq!(rt;
        around_newlines(&rt, header, 65535, b"0 jump")?,
        Some(ScriptFault::Op { at: 65537 })
    );
    Ok(())
}

#[test]
fn a_script_is_read(rt: HostRuntime) -> Result<(), Fail> {
    let text = b"\n  funnel 3 1 1 2 010 \r\n0 add 5\n\n 2 meet 0\r\n0   subdirect 07\n1 poll";
    let script = read_script(rt.alloc(), text)?;
    assert_eq!(rt; script.shape.passes(), 3);
    assert_eq!(rt; script.shape.rows(), 2);
    assert_eq!(rt; script.opening, 10);
    assert_eq!(rt;
        script.lines.items.as_slice(),
        [
            ScriptLine {
                at: 3,
                pass: 0,
                order: Order::Add(5)
            },
            ScriptLine {
                at: 5,
                pass: 2,
                order: Order::Meet(0)
            },
            ScriptLine {
                at: 6,
                pass: 0,
                order: Order::SubDirect(7)
            },
            ScriptLine {
                at: 7,
                pass: 1,
                order: Order::Poll
            },
        ]
        .as_slice()
    );
    assert_eq!(rt;
        allowances(rt.alloc(), &script)?.as_slice(),
        [12, 0, 0].as_slice()
    );
    Ok(())
}
