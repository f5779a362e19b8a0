//! Calls and answers as bytes: calls and answers read, and answers written.
#![tactic(auto)]

pub mod answer;
pub mod call;
pub mod cells;
pub mod misread;
pub mod refusal;
mod refused;
mod size;
