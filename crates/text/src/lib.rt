//! Frames as people write them: rows of numbers, read and drawn.
#![tactic(auto)]

pub mod draw;
pub mod fault;
pub mod flaw;
pub mod read;
pub mod verdict;
