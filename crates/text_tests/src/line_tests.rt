use std::test::Fail;
use text_lines::{Lines, Words, number};

#[test]
fn lines_and_words_are_taken(rt: HostRuntime) -> Result<(), Fail> {
    let mut lines = Lines::new(b"  add  5 \r\n\nlast".as_slice());
    let mut words = Words::new(lines.next().unwrap_or(b"".as_slice()));
    assert_eq!(rt; words.next(), Some(b"add".as_slice()));
    assert_eq!(rt; words.next(), Some(b"5".as_slice()));
    assert_eq!(rt; words.next(), None);
    assert_eq!(rt; lines.next(), Some(b"".as_slice()));
    assert_eq!(rt; lines.next(), Some(b"last".as_slice()));
    assert_eq!(rt; lines.next(), None);
    Ok(())
}

#[test]
fn numbers_are_read(rt: HostRuntime) -> Result<(), Fail> {
    for (word, read) in [
        (b"0".as_slice(), Some(0)),
        (b"007".as_slice(), Some(7)),
        (b"9223372036854775807".as_slice(), Some(9223372036854775807)),
        (b"9223372036854775808".as_slice(), None),
        (b"00000000000000000001".as_slice(), None),
        (b"+5".as_slice(), None),
        (b"".as_slice(), None),
    ] {
        assert_eq!(rt; number(word), read);
    }
    Ok(())
}
