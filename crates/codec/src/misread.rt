//! Bytes that are no call or no answer.
ghost use Rattle.std.specs.Prelude.{Some};
ghost use Rattle.codec.specs.Says.{misread_text};

use std::error::Error;
use std::fmt;

/// The place of the first byte that does not fit, counted from 0.
#[derive(Clone, Copy, PartialEq, Eq, Debug)]
pub struct Misread {
    pub place: usize,
}

impl Error for Misread {}

// By hand, since a derived `Display` promises no words.
impl fmt::Display for Misread {
    ghost output = { λ e. Some (misread_text e) };

    fn fmt<W: fmt::Write>(&self, f: &mut fmt::Formatter<W>) -> fmt::Result {
        write!(f, "byte {} does not fit", self.place)
    }
}
