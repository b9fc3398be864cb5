// Origamis of a few squares, of 16, and lists that make none.
use crate::gluing::Gluing;
use crate::origami::Origami;
use modular::action::Action;
use std::test::Fail;

const TURN_OF_16: [u32; 16] = [2, 3, 4, 5, 6, 7, 8, 9, 10, 11, 12, 13, 14, 15, 16, 1];

const TURN_OF_17: [u32; 17] = [2, 3, 4, 5, 6, 7, 8, 9, 10, 11, 12, 13, 14, 15, 16, 17, 1];

// The number of the refusal, if there is one.
fn refused(right: &[u32], up: &[u32]) -> Option<u8> {
    Origami::new(right, up)
        .err()
        .map(|refusal| refusal.number())
}

#[test]
fn four_squares_have_their_least_form(rt: HostRuntime) -> Result<(), Fail> {
    let a = Origami::new(&[2, 3, 1, 4], &[4, 2, 3, 1])?;
    let least = Gluing {
        degree: 4,
        right: [0, 2, 3, 1, 0, 0, 0, 0, 0, 0, 0, 0, 0, 0, 0, 0],
        up: [1, 0, 2, 3, 0, 0, 0, 0, 0, 0, 0, 0, 0, 0, 0, 0],
    };
    assert_eq!(rt; a.least_form(), least);
    assert_eq!(rt; a.gluing().least_form(), least);
    Ok(())
}

#[test]
fn renumbered_squares_are_one_surface(rt: HostRuntime) -> Result<(), Fail> {
    let a = Origami::new(&[2, 3, 1, 4], &[4, 2, 3, 1])?;
    let b = Origami::new(&[1, 3, 4, 2], &[2, 1, 3, 4])?;
    let c = Origami::new(&[2, 3, 1, 4], &[1, 4, 3, 2])?;
    let d = Origami::new(&[2, 3, 4, 1], &[1, 2, 3, 4])?;
    assert!(rt; a.same_surface(&b));
    assert!(rt; a.same_surface(&c));
    assert!(rt; !a.same_surface(&d));
    Ok(())
}

#[test]
fn words_lead_back(rt: HostRuntime) -> Result<(), Fail> {
    let a = Origami::new(&[2, 3, 1, 4], &[4, 2, 3, 1])?;
    let p = a.first();
    assert!(rt; !a.same(a.t(p), p));
    assert!(rt; a.same(a.t(a.t(a.t(p))), p));
    assert!(rt; !a.same(a.s(p), p));
    assert!(rt; a.same(a.s(a.s(p)), p));
    Ok(())
}

#[test]
fn other_records_are_left_alone(rt: HostRuntime) -> Result<(), Fail> {
    let a = Origami::new(&[1], &[1])?;
    let none = Gluing {
        degree: 200,
        right: [255; 16],
        up: [9; 16],
    };
    assert_eq!(rt; a.t(none), none);
    assert_eq!(rt; a.s(none), none);
    Ok(())
}

#[test]
fn lists_are_declined(rt: HostRuntime) {
    assert_eq!(rt; refused(&[], &[]), Some(3));
    assert_eq!(rt; refused(&TURN_OF_16, &TURN_OF_16), None);
    assert_eq!(rt; refused(&TURN_OF_17, &TURN_OF_17), Some(3));
    assert_eq!(rt; refused(&[1, 1], &[1, 2]), Some(4));
    assert_eq!(rt; refused(&[2, 1], &[1, 2, 3]), Some(4));
    assert_eq!(rt; refused(&[2, 1], &[1, 3]), Some(4));
    assert_eq!(rt; refused(&[2, 1], &[0, 1]), Some(4));
    assert_eq!(rt; refused(&[1, 2], &[1, 2]), Some(5));
    assert!(rt; Origami::check_right(&[1, 2]).is_ok());
    assert!(rt; Origami::check_right(&[1, 1]).is_err());
}
