//! Which frames can be brought to which, and in how many moves, for every size. Each function stands for one statement, which is its contract.
#![tactic(auto)]

ghost use Rattle.slide.specs.Promise.{SignTells, NotTooMany, RowByRow};
ghost use Rattle.reach.specs.Reached.{SevenEach, RoomLeft, AnyToAny, ExchangeMends};

/// With three rows or more, the next tile of the first row can be brought there, and the ones before it stay in the end.
#[tactic(auto, using(crate::proofs::Rows::row_by_row))]
pub fn row_by_row()
    ensures { RowByRow }
{}

/// Of two frames of one size, one can be brought to the other just if their signs are the same.
#[tactic(auto, using(crate::proofs::Promises::sign_tells))]
pub fn sign_tells()
    ensures { SignTells }
{}

/// What can be brought in order can be so in at most 12 moves for each cell times both sides together.
#[tactic(auto, using(crate::proofs::Promises::not_too_many))]
pub fn not_too_many()
    ensures { NotTooMany }
{}

/// 7 in place of 12 are enough.
#[tactic(auto, using(crate::proofs::Promises::seven_each))]
pub fn seven_each()
    ensures { SevenEach }
{}

/// So 20 times the sides together stay free under the promised bound.
#[tactic(auto, using(crate::proofs::Promises::room_left))]
pub fn room_left()
    ensures { RoomLeft }
{}

/// Any frame can be brought to any other of its size and sign, in 7 moves for each cell times both sides together, and the sides once more.
#[tactic(auto, using(crate::proofs::Promises::any_to_any))]
pub fn any_to_any()
    ensures { AnyToAny }
{}

/// A frame that can't be brought in order can be, once any two of its tiles are exchanged.
#[tactic(auto, using(crate::proofs::Promises::exchange_mends))]
pub fn exchange_mends()
    ensures { ExchangeMends }
{}
