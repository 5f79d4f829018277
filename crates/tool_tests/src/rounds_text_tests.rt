use fn_rounds::*;
use script_text::read_script;
use std::alloc::{AllocGlobal, Global};
use std::random::RandomSource;
use std::sync::Wait;
use std::test::*;

// The text of a script, where it has additions and subtractions alone, and the value of its book.
fn told<R>(rt: &R, alloc: Global, input: &[u8]) -> Option<(Vec<u8>, u64)>
where
    R: Wait + RandomSource + AllocGlobal,
{
    let script = read_script(alloc, input).ok()?;
    match other_order(&script) {
        Some(_) => None,
        None => {
            let (text, book) = rounds_text(rt, alloc, &script).ok()?;
            Some((text, book.value()))
        }
    }
}

#[test]
fn each_line_has_the_reply_of_its_pass(rt: HostRuntime) -> Result<(), Fail> {
    let input = b"funnel 2 1 1 2 10\n0 add 5\n1 add 7\n0 sub 30\n";
    match told(&rt, rt.alloc(), input) {
        Some((text, value)) => {
            assert_eq!(rt;
                text.as_slice(),
                b"reply 2 10\nreply 3 15\nreply 4 22\nvalue 0\n".as_slice()
            );
            assert_eq!(rt; value, 0);
        }
        None => assert!(&rt; false),
    }
    Ok(())
}

#[test]
fn no_line_leaves_the_opening(rt: HostRuntime) -> Result<(), Fail> {
    match told(&rt, rt.alloc(), b"funnel 1 1 1 1 4\n") {
        Some((text, value)) => {
            assert_eq!(rt; text.as_slice(), b"value 4\n".as_slice());
            assert_eq!(rt; value, 4);
        }
        None => assert!(&rt; false),
    }
    Ok(())
}
