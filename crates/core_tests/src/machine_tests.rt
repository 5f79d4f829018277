use fn_core::{Answer, Core, CoreBegun, CoreStep, Event, Kind, Move, Shape};
use std::test::Fail;

#[test]
fn each_call_is_made(rt: HostRuntime) -> Result<(), Fail> {
    let shape = Shape::new(2, 1, 1, 1)?;
    let mut core = Core::new(rt.alloc(), &shape, 8, &[20, 20])?;
    assert_eq!(rt; core.own(0, Kind::Add, 5)?, 8);
    assert!(&rt; core.is_idle(0));
    assert_eq!(rt; core.begin(0, Kind::Add, 4)?, CoreBegun::Waiting);
    assert!(&rt; core.has_call(0));
    assert_eq!(rt; core.step(0)?, CoreStep::Going);
    let glance = Event {
        pass: 1,
        step: Move::Glance,
    };
    assert!(&rt; core.can(&glance));
    assert_eq!(rt; core.apply(&glance)?, Answer::Word(13));
    assert_eq!(rt; core.main(), 13);
    core.log_is_legal();
    Ok(())
}

#[test]
fn a_cap_is_kept_and_the_laws_are_called(rt: HostRuntime) -> Result<(), Fail> {
    let shape = Shape::new(1, 1, 1, 1)?;
    let mut core = Core::new_capped(rt.alloc(), &shape, 8, 10, &[20])?;
    assert_eq!(rt; core.own(0, Kind::Add, 5)?, 8);
    assert_eq!(rt; core.main(), 10);
    fn_core::replies_are_right();
    fn_core::main_is_value();
    fn_core::words_are_small();
    fn_core::batches_follow();
    fn_core::arrivals_have_offsets();
    fn_core::one_step_for_a_tree();
    fn_core::entries_stay();
    fn_core::rows_are_kept();
    fn_core::own_calls_are_in_order();
    fn_core::events_are_local();
    fn_core::steps_tell();
    fn_core::calls_go_on();
    fn_core::logs_go_on();
    fn_core::orders_leave();
    Ok(())
}
