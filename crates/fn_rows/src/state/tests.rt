use super::*;
use std::test::Fail;

// Takes the next step of a member without a row, and gives the word that it loads, or 0.
// The number is the weight or the base that the step takes.
fn advance(state: &mut RowState, member: u32, number: u32) -> Option<u64> {
    if member >= state.members || number == 0 || state.total >= 1000 {
        return None;
    }
    match state.stage(member) {
        Stage::Out => Some(state.see(member)),
        Stage::Saw(_) => {
            state.announce(member);
            Some(0)
        }
        Stage::Told(_) => Some(state.arrive(member, number as u64)),
        Stage::Waiting(_) => Some(state.look(member)),
        Stage::Lead(_) => Some(state.close_batch(member)),
        Stage::Shut(_, _) => {
            state.hand_base(member, number as u64);
            Some(0)
        }
        Stage::Late(_) => Some(state.head(member)),
        Stage::Based(_, _, _) => Some(state.head(member)),
        Stage::Got(_, _) => {
            state.leave(member);
            Some(0)
        }
        _ => None,
    }
}

// Takes the next step of a leading member that fills this row, and gives the end that it publishes, or 0.
fn advance_row(state: &mut RowState, member: u32, row: u32) -> Option<u64> {
    let places = state.members as u64 * state.rows as u64;
    if member >= state.members || row as u64 >= places {
        return None;
    }
    match state.stage(member) {
        Stage::Headed(offset, _, _, _) => {
            if row / state.rows != member || !state.is_free(member, row) {
                return None;
            }
            state.fill(member, row, Field::Lo, offset);
            Some(0)
        }
        Stage::FilledLo(_, _, base, _, r) if r == row as u64 => {
            state.fill(member, row, Field::Base, base);
            Some(0)
        }
        Stage::FilledBase(_, _, _, head, r) if r == row as u64 => {
            state.fill(member, row, Field::Prev, head);
            Some(0)
        }
        Stage::Filled(_, _, _, r) if r == row as u64 => {
            state.point(member, row);
            Some(0)
        }
        Stage::Pointed(_, hi, _, _) => {
            state.publish(member, hi);
            Some(hi)
        }
        _ => None,
    }
}

// Gives the word of this row that a late member loads next.
fn walk(state: &mut RowState, member: u32, row: u32) -> Option<u64> {
    if member >= state.members {
        return None;
    }
    match state.stage(member) {
        Stage::At(_, r) if r == row as u64 => Some(state.peek(member, row, Field::Lo)),
        Stage::Over(_, r) if r == row as u64 => Some(state.peek(member, row, Field::Prev)),
        Stage::Hit(_, r, _) if r == row as u64 => Some(state.peek(member, row, Field::Base)),
        _ => None,
    }
}

// Scans the other member, and gives its announcement.
fn scan(state: &mut RowState, member: u32, other: u32) -> Option<u64> {
    if member >= state.members || other >= state.members || member == other {
        return None;
    }
    match state.stage(member) {
        Stage::Out => Some(state.scan(member, other)),
        _ => None,
    }
}

// The member arrives with this weight. Gives the offset.
fn join(state: &mut RowState, member: u32, weight: u32) -> Option<u64> {
    advance(state, member, 1)?;
    advance(state, member, 1)?;
    advance(state, member, weight)
}

// The member that leads closes its batch, and points to it in this row. Gives the end.
fn lead(state: &mut RowState, member: u32, row: u32, base: u32) -> Option<u64> {
    advance(state, member, 1)?;
    let end = advance(state, member, 1)?;
    advance(state, member, base)?;
    advance(state, member, 1)?;
    for _ in 0..4 {
        advance_row(state, member, row)?;
    }
    Some(end)
}

// The base and the place in its batch of a member that has its reply.
fn reply(state: &RowState, member: u32) -> Option<(u64, u64)> {
    if member >= state.members {
        return None;
    }
    match state.stage(member) {
        Stage::Got(base, ahead) => Some((base, ahead)),
        _ => None,
    }
}

// Whether the member may fill this row, and the row's end.
fn row_now(state: &RowState, member: u32, row: u32) -> Option<(bool, u64)> {
    let places = state.members as u64 * state.rows as u64;
    if member >= state.members || row as u64 >= places {
        return None;
    }
    Some((state.is_free(member, row), state.end(row)))
}

// What the member has announced, and whether that lets a row with this end be filled again.
fn announcement(state: &RowState, member: u32, end: u64) -> Option<(u64, bool)> {
    if member >= state.members {
        return None;
    }
    let word = state.announced(member);
    Some((word, lets(word, end)))
}

#[test]
fn a_late_member_walks_over_two_batches(rt: HostRuntime) -> Result<(), Fail> {
    let mut state = RowState::new(rt.alloc(), 3, 1)?;
    state.rows_are_kept();
    assert_eq!(rt; join(&mut state, 0, 5), Some(0));
    assert_eq!(rt; join(&mut state, 1, 7), Some(5));
    assert_eq!(rt; lead(&mut state, 0, 0, 100), Some(12));
    assert_eq!(rt; advance_row(&mut state, 0, 0), Some(12));
    assert_eq!(rt; reply(&state, 0), Some((100, 0)));
    assert_eq!(rt; join(&mut state, 2, 3), Some(12));
    assert_eq!(rt; lead(&mut state, 2, 2, 200), Some(15));

    // `done` is past the offset of member 1, and `last` names row 2, which isn't published.
    assert_eq!(rt; advance(&mut state, 1, 1), Some(12));
    assert_eq!(rt; advance(&mut state, 1, 1), Some(3));
    for (row, word) in [(2, 12), (2, 1), (0, 0), (0, 100)] {
        assert_eq!(rt; walk(&mut state, 1, row), Some(word), "in row {row}");
    }
    assert_eq!(rt; reply(&state, 1), Some((100, 5)));
    Ok(())
}

#[test]
fn a_row_is_filled_again_after_a_scan(rt: HostRuntime) -> Result<(), Fail> {
    let mut state = RowState::new(rt.alloc(), 2, 1)?;
    assert_eq!(rt; join(&mut state, 0, 5), Some(0));
    assert_eq!(rt; lead(&mut state, 0, 0, 100), Some(5));
    assert_eq!(rt; advance(&mut state, 1, 1), Some(0));
    assert_eq!(rt; advance(&mut state, 1, 1), Some(0));
    assert_eq!(rt; advance_row(&mut state, 0, 0), Some(5));
    assert_eq!(rt; advance(&mut state, 0, 1), Some(0));

    // Member 1 has announced 0, and may arrive below the row's end.
    assert_eq!(rt; announcement(&state, 1, 5), Some((1, false)));
    assert_eq!(rt; announcement(&state, 1, 0), Some((1, true)));
    assert_eq!(rt; scan(&mut state, 0, 1), Some(1));
    assert_eq!(rt; row_now(&state, 0, 0), Some((false, 5)));
    assert_eq!(rt; advance(&mut state, 1, 4), Some(5));
    assert_eq!(rt; lead(&mut state, 1, 1, 200), Some(9));
    assert_eq!(rt; advance_row(&mut state, 1, 1), Some(9));
    assert_eq!(rt; advance(&mut state, 1, 1), Some(0));
    assert_eq!(rt; announcement(&state, 1, 5), Some((0, true)));
    assert_eq!(rt; scan(&mut state, 0, 1), Some(0));
    assert_eq!(rt; row_now(&state, 0, 0), Some((true, 5)));
    assert_eq!(rt; join(&mut state, 0, 2), Some(9));
    assert_eq!(rt; lead(&mut state, 0, 0, 300), Some(11));
    assert_eq!(rt; advance_row(&mut state, 0, 0), Some(11));
    assert_eq!(rt; advance(&mut state, 0, 1), Some(0));
    assert_eq!(rt; row_now(&state, 0, 0), Some((false, 11)));
    Ok(())
}

#[test]
fn the_laws_are_called() {
    crate::rows_are_kept();
    crate::scans_are_enough();
}
