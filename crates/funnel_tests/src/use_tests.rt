use std::test::*;
use uses::{count_at_once, hand_over, lend_at_once, lengths, two_ranges};

#[test]
fn the_counter_has_all(rt: HostRuntime) -> Result<(), Fail> {
    assert_eq!(rt; count_at_once(&rt, rt.alloc(), 300, 500), Ok(800));
    assert_eq!(rt; count_at_once(&rt, rt.alloc(), 0, 0), Ok(0));
    Ok(())
}

#[test]
fn the_ranges_lie_side_by_side(rt: HostRuntime) -> Result<(), Fail> {
    match two_ranges(&rt, rt.alloc(), 100) {
        Ok((first, second)) => assert!(rt; first + second == 100 && (first == 0 || second == 0)),
        Err(_) => panic!(rt; "no ranges"),
    }
    Ok(())
}

#[test]
fn the_quota_is_whole_again(rt: HostRuntime) -> Result<(), Fail> {
    match lend_at_once(&rt, rt.alloc(), 10, 7, 20) {
        Ok(lent) => {
            assert!(rt; lent.first <= 7 && lent.second <= 10);
            assert!(rt; lent.first > 0 || lent.second > 0);
            assert_eq!(rt; lent.left, 10);
        }
        Err(_) => panic!(rt; "no quota"),
    }
    Ok(())
}

#[test]
fn the_item_is_handed_over(rt: HostRuntime) -> Result<(), Fail> {
    assert_eq!(rt; hand_over(&rt, rt.alloc(), 'w')?, ('w', 1));
    Ok(())
}

#[test]
fn the_lines_are_measured(rt: HostRuntime) -> Result<(), Fail> {
    let lines: [&[u8]; 3] = [b"a funnel", b"", b"of three"];
    let Ok(found) = lengths(&rt, rt.alloc(), &lines) else {
        panic!(rt; "nothing found");
    };
    assert_eq!(rt; found.as_slice(), [8, 0, 8].as_slice());
    Ok(())
}
