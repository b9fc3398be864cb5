// The three actions at small and at extreme levels.
use crate::level::Refusal;
use crate::lines::Lines;
use crate::matrices::Matrices;
use crate::vectors::{Vector, Vectors};
use modular::action::Action;
use std::test::Fail;

fn is_level(level: u32) -> bool {
    Vectors::new(level).is_ok() && Lines::new(level).is_ok() && Matrices::new(level).is_ok()
}

#[test]
fn levels_are_1_to_200(rt: HostRuntime) {
    assert!(rt;
        is_level(1) && is_level(2) && is_level(3) && is_level(6) && is_level(199) && is_level(200)
    );
}

#[test]
fn other_numbers_are_declined(rt: HostRuntime) {
    assert!(rt; !is_level(0));
    assert!(rt; !is_level(201));
    assert_eq!(rt; Refusal::OutOfRange.number(), 3);
}

#[test]
fn vectors_step(rt: HostRuntime) -> Result<(), Fail> {
    let a = Vectors::new(3)?;
    assert_eq!(rt; a.t(Vector { c: 2, d: 0 }), Vector { c: 2, d: 2 });
    assert_eq!(rt; a.s(Vector { c: 2, d: 0 }), Vector { c: 0, d: 1 });
    let b = Vectors::new(200)?;
    assert_eq!(rt; b.t(Vector { c: 255, d: 255 }), Vector { c: 55, d: 110 });
    Ok(())
}

#[test]
fn lines_step(rt: HostRuntime) -> Result<(), Fail> {
    let a = Lines::new(6)?;
    assert_eq!(rt; a.s(a.first()), Vector { c: 1, d: 0 });
    assert_eq!(rt; a.s(Vector { c: 2, d: 3 }), Vector { c: 3, d: 2 });
    let b = Lines::new(199)?;
    assert_eq!(rt; b.t(Vector { c: 198, d: 0 }), Vector { c: 1, d: 1 });
    Ok(())
}

#[test]
fn matrices_step(rt: HostRuntime) -> Result<(), Fail> {
    let a = Matrices::new(5)?;
    assert_eq!(rt; a.s(a.first()), [[0, 4], [1, 0]]);
    assert_eq!(rt; a.t([[0, 4], [1, 0]]), [[0, 4], [1, 1]]);
    Ok(())
}

#[test]
fn all_is_zero_at_level_1(rt: HostRuntime) -> Result<(), Fail> {
    assert_eq!(rt; Vectors::new(1)?.first(), Vector { c: 0, d: 0 });
    assert_eq!(rt; Lines::new(1)?.first(), Vector { c: 0, d: 0 });
    assert_eq!(rt; Matrices::new(1)?.first(), [[0, 0], [0, 0]]);
    Ok(())
}
