//! Frames and texts with their answers, run as tests. There is nothing here but tests.
#![tactic(auto)]

#[cfg(test)]
mod bytes;
#[cfg(test)]
mod frames;
#[cfg(test)]
mod texts;
