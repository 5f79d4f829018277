use picture_marks::{
    Heading, Mark, bounds_laws, columns, columns_laws, greatest, least, run_length, scale_laws,
    scaled, shares, shares_laws, top_of,
};
use std::test::Fail;

// Five rows of three workers.
const MARKS: [Mark; 5] = [
    Mark {
        worker: 0,
        at: 3,
        before: 300,
        after: 290,
    },
    Mark {
        worker: 2,
        at: 4,
        before: 290,
        after: 310,
    },
    Mark {
        worker: 0,
        at: 7,
        before: 310,
        after: 310,
    },
    Mark {
        worker: 1,
        at: 8,
        before: 310,
        after: 20,
    },
    Mark {
        worker: 2,
        at: 9,
        before: 20,
        after: 141,
    },
];

#[test]
fn cuts_marks_into_columns(rt: HostRuntime) -> Result<(), Fail> {
    assert_eq!(rt; run_length(2, 5), 3);
    assert_eq!(rt; run_length(200, 0), 1);
    let cut = columns(rt.alloc(), &MARKS, 2)?;
    assert_eq!(rt; cut.len(), 2);
    assert_eq!(rt; cut[0], &MARKS[..3]);
    assert_eq!(rt; cut[1], &MARKS[3..]);
    let own = shares(rt.alloc(), 3, cut[0])?;
    assert_eq!(rt; own.as_slice(), [2, 0, 1].as_slice());
    columns_laws();
    shares_laws();
    Ok(())
}

#[test]
fn bounds_and_scales_marks(rt: HostRuntime) {
    let heading = Heading {
        opening: 300,
        added: 141,
        taken: 300,
        last: 141,
    };
    assert_eq!(rt; least(&MARKS), 20);
    assert_eq!(rt; greatest(&MARKS), 310);
    assert_eq!(rt; top_of(heading, &MARKS), 310);
    assert_eq!(rt; top_of(heading, &[]), 300);
    assert_eq!(rt; scaled(7, 310, 141), 3);
    assert_eq!(rt; scaled(7, 310, 310), 7);
    bounds_laws();
    scale_laws();
}
