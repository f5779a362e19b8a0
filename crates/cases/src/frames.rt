//! Signs and verdicts of frames that are worked by hand in docs/RULE.md, and cells that are no frame.
use frame::check::{Frame, Misfit};
use frame::sides::Sides;
use frame::sign::{can_be_done, sign};
use std::test::Fail;

const IN_ORDER: [u16; 16] = [1, 2, 3, 4, 5, 6, 7, 8, 9, 10, 11, 12, 13, 14, 15, 0];

/// The frames of docs/RULE.md: one of four by four that can be done and the famous one that can't, one of five by three,
/// and the two that show what goes wrong where the gap is counted as a tile or its row is left out.
const FOUR_BY_FOUR: [u16; 16] = [1, 2, 3, 4, 5, 6, 0, 8, 9, 10, 7, 11, 13, 14, 15, 12];

const LAST_TWO_EXCHANGED: [u16; 16] = [1, 2, 3, 4, 5, 6, 7, 8, 9, 10, 11, 12, 13, 15, 14, 0];

const FIVE_BY_THREE: [u16; 15] = [1, 2, 3, 4, 5, 6, 7, 0, 9, 10, 11, 12, 8, 13, 14];

const GAP_AS_TILE: [u16; 9] = [1, 2, 3, 4, 5, 6, 7, 0, 8];

const ROW_LEFT_OUT: [u16; 16] = [1, 2, 3, 4, 5, 6, 7, 8, 9, 10, 11, 0, 13, 14, 15, 12];

fn sides_of(wide: usize, tall: usize) -> Result<Sides, Fail> {
    Sides::new(wide, tall).ok_or_else(|| Fail::new("no such sides"))
}

/// The sign of a frame, and whether it can be done.
fn told(wide: usize, tall: usize, cells: &[u16]) -> Result<(u16, bool), Fail> {
    let frame = Frame::new(sides_of(wide, tall)?, cells)?;
    Ok((frame.sign(), frame.can_be_done()))
}

/// What keeps cells from being a frame.
fn misfit(sides: Sides, cells: &[u16]) -> Option<Misfit> {
    Frame::new(sides, cells).err()
}

#[test]
fn ordered_signs(rt: HostRuntime) -> Result<(), Fail> {
    for (wide, tall, expected) in [
        (2, 2, 1),
        (4, 4, 1),
        (2, 3, 0),
        (16, 16, 1),
        (3, 2, 0),
        (3, 3, 0),
        (5, 3, 0),
        (15, 16, 0),
    ] {
        assert_eq!(rt; sides_of(wide, tall)?.ordered_sign(), expected);
    }
    assert_eq!(rt; told(2, 2, &[1, 2, 3, 0])?, (1, true));
    assert_eq!(rt; told(2, 3, &[1, 2, 3, 4, 5, 0])?, (0, true));
    assert_eq!(rt; told(3, 2, &[1, 2, 3, 4, 5, 0])?, (0, true));
    assert_eq!(rt; told(4, 4, &IN_ORDER)?, (1, true));
    Ok(())
}

#[test]
fn worked_by_hand(rt: HostRuntime) -> Result<(), Fail> {
    assert_eq!(rt; told(4, 4, &FOUR_BY_FOUR)?, (1, true));
    assert_eq!(rt; told(4, 4, &LAST_TWO_EXCHANGED)?, (0, false));
    assert_eq!(rt; told(5, 3, &FIVE_BY_THREE)?, (0, true));
    assert_eq!(rt; told(3, 3, &GAP_AS_TILE)?, (0, true));
    assert_eq!(rt; told(4, 4, &ROW_LEFT_OUT)?, (1, true));
    assert_eq!(rt; told(3, 3, &[1, 2, 3, 4, 5, 6, 0, 7, 8])?, (0, true));
    assert_eq!(rt; told(3, 3, &[1, 2, 3, 4, 5, 6, 8, 7, 0])?, (1, false));
    assert_eq!(rt; sides_of(4, 4)?.last_tiles(), (14, 15));
    Ok(())
}

#[test]
fn no_frames(rt: HostRuntime) -> Result<(), Fail> {
    let sides = sides_of(2, 2)?;
    assert_eq!(rt; misfit(sides, &[1, 2, 3]), Some(Misfit::Count));
    assert_eq!(rt; misfit(sides, &[1, 2, 3, 4]), Some(Misfit::TooLarge(3)));
    assert_eq!(rt; misfit(sides, &[1, 2, 3, 2]), Some(Misfit::Twice(3, 1)));
    assert_eq!(rt; misfit(sides, &[3, 2, 1, 0]), None);
    assert_eq!(rt; misfit(sides, &[0, 0, 4, 1]), Some(Misfit::Twice(1, 0)));
    assert_eq!(rt; sign(sides, &[0, 0, 4, 1]), Err(Misfit::Twice(1, 0)));
    assert_eq!(rt; sign(sides, &[1, 2, 3, 0]), Ok(1));
    assert_eq!(rt; can_be_done(sides, &[1, 2, 3, 0]), Ok(true));
    assert_eq!(rt; Sides::new(1, 2), None);
    assert_eq!(rt; Sides::new(2, 17), None);
    Ok(())
}
