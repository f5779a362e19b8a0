//! Frames: whether cells are a frame of their sides, its sign, and whether it can be put in order.
#![tactic(auto)]

pub mod check;
pub mod sides;
pub mod sign;
