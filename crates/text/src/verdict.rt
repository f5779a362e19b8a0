//! Whether rows that were read can be put in order, and what is said of it.
ghost use Rattle.std.specs.Prelude.{Some, MatchResult};
ghost use Rattle.text.specs.Flaws.{Flawed};
ghost use Rattle.text.specs.Says.{verdict_text};
ghost use Rattle.text.specs.Judged.{Judged};

use super::flaw::Flaw;
use super::read::Rows;
use frame::sides::Sides;
use std::fmt;

/// The sign of a frame of these sides, and whether some moves bring it in order.
// The sign is a number as `Frame::sign` is. `can` follows from sides and sign; it is a field, since `judge` promises of it what
// moves do, and a method of `Verdict` would have no rows to promise that of.
#[derive(Clone, Copy, PartialEq, Eq, Debug)]
pub struct Verdict {
    pub sides: Sides,
    pub sign: u16,
    pub can: bool,
}

impl Rows {
    /// The verdict on rows that were read, or what keeps them from being a frame.
    pub fn judge(&self) -> Result<Verdict, Flaw>
        ensures { MatchResult result (Judged self.now) (Flawed self.now) }
    {
        let frame = self.frame()?;
        Ok(Verdict {
            sides: self.sides,
            sign: frame.sign(),
            can: frame.can_be_done(),
        })
    }
}

// By hand, since a derived `Display` promises no words.
impl fmt::Display for Verdict {
    ghost output = { λ v. Some (verdict_text v) };

    fn fmt<W: fmt::Write>(&self, f: &mut fmt::Formatter<W>) -> fmt::Result {
        let sign = self.sign;
        let ordered = self.sides.ordered_sign();
        if self.can {
            return write!(
                f,
                "It can be done: its sign is {sign}, and in order it is {ordered}."
            );
        }
        let (first, second) = self.sides.last_tiles();
        write!(
            f,
            "It can't be done: its sign is {sign}, and in order it is {ordered}.\nBut exchange any two tiles, for instance {first} and {second}, and it can be done."
        )
    }
}
