use fn_layout::{Field, Kind, Shape, ShapeFault, shape_for};
use std::test::*;

fn words_of(passes: u32, leaves: u32, levels: u32, rows: u32) -> Option<u32> {
    match Shape::new(passes, leaves, levels, rows) {
        Ok(shape) => Some(shape.words()),
        Err(_) => None,
    }
}

fn fault_of(passes: u32, leaves: u32, levels: u32, rows: u32) -> Option<ShapeFault> {
    match Shape::new(passes, leaves, levels, rows) {
        Ok(_) => None,
        Err(fault) => Some(fault),
    }
}

#[test]
fn words_are_counted(rt: HostRuntime) {
    assert_eq!(rt; words_of(3, 1, 1, 2), Some(49));
    assert_eq!(rt; words_of(64, 32, 3, 8), Some(9937));
    assert_eq!(rt; words_of(64, 16, 2, 4), Some(3473));
}

#[test]
fn the_first_fault_is_told(rt: HostRuntime) {
    assert_eq!(rt; fault_of(65, 1, 1, 1), Some(ShapeFault::Passes(65)));
    assert_eq!(rt; fault_of(0, 0, 0, 0), Some(ShapeFault::Passes(0)));
    assert_eq!(rt; fault_of(2, 3, 1, 1), Some(ShapeFault::Leaves(3)));
    assert_eq!(rt; fault_of(64, 33, 4, 9), Some(ShapeFault::Leaves(33)));
    assert_eq!(rt; fault_of(1, 1, 4, 1), Some(ShapeFault::Levels(4)));
    assert_eq!(rt; fault_of(1, 1, 1, 9), Some(ShapeFault::Rows(9)));
}

#[test]
fn numbers_of_words(rt: HostRuntime) {
    if let Ok(shape) = Shape::new(3, 1, 1, 2) {
        assert_eq!(rt; shape.value_word(Kind::Sub, 1, 0), 4);
        assert_eq!(rt; shape.last_word(Kind::Add, 1, 0), 2);
        assert_eq!(rt; shape.done_word(Kind::Sub, 1, 0), 6);
        assert_eq!(rt; shape.announce_word(2, Kind::Sub, 1), 12);
        assert_eq!(rt; shape.row_of(2, Kind::Sub, 1, 1), 11);
        assert_eq!(rt; shape.row_word(11, Field::Prev), 48);
    }
    if let Ok(shape) = Shape::new(7, 5, 3, 1) {
        assert_eq!(rt; shape.width(2), 3);
        assert_eq!(rt; shape.width(3), 2);
        assert_eq!(rt; shape.aggregator_of(6, 1), 1);
        assert_eq!(rt; shape.aggregator_of(4, 2), 2);
        assert_eq!(rt; shape.aggregator_of(4, 3), 1);
    }
}

#[test]
fn accessors_and_members(rt: HostRuntime) {
    if let Ok(shape) = Shape::new(7, 5, 3, 1) {
        assert_eq!(rt; shape.passes(), 7);
        assert_eq!(rt; shape.leaves(), 5);
        assert_eq!(rt; shape.levels(), 3);
        assert_eq!(rt; shape.rows(), 1);
        assert_eq!(rt; shape.main_word(), 0);
        assert_eq!(rt; shape.members(1, 1), 2);
        assert_eq!(rt; shape.members(2, 0), 4);
        assert_eq!(rt; shape.member(6, 1), 1);
        assert_eq!(rt; shape.pass_of(1, 1, 1), 6);
        assert_eq!(rt; shape.pass_of(2, 0, 2), 5);
    }
}

#[test]
fn shapes_are_for_workers(rt: HostRuntime) {
    for (workers, leaves, levels) in [(1, 1, 1), (4, 1, 1), (5, 2, 2), (64, 16, 2)] {
        assert!(rt; workers >= 1 && workers <= 64);
        let shape = shape_for(workers);
        assert_eq!(rt; shape.passes(), workers);
        assert_eq!(rt; shape.leaves(), leaves);
        assert_eq!(rt; shape.levels(), levels);
        assert_eq!(rt; shape.rows(), 4);
    }
}
