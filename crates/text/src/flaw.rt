//! What keeps rows that were read from being a frame, and in which line.
ghost use Rattle.std.specs.Prelude.{◌≡◌, ℕ, ◌*◌, true, Some, Option, MatchResult};
ghost use Rattle.slide.specs.Tiles.{proper};
ghost use Rattle.frame.specs.Cells.{framed, FirstMissing};
ghost use Rattle.text.specs.Flaws.{flaw, line_of, number_in, Flawed};
ghost use Rattle.text.specs.Says.{flaw_text, missing_text};

use super::read::Rows;
use frame::check::{Frame, Misfit};
use std::error::Error;
use std::fmt;

/// A misfit of the cells, in the line where it stands, and the smallest number that is missing for it.
// Each case has the numbers that it prints. What two of them share is no struct of its own, since the third has none of it.
#[derive(Clone, Copy, PartialEq, Eq, Debug)]
pub enum Flaw {
    /// There are so many numbers, and not as many as these sides make.
    Count {
        count: usize,
        wide: usize,
        tall: usize,
    },
    /// This line holds this number, and the frame's numbers end at the largest.
    TooLarge {
        line: usize,
        number: u16,
        largest: usize,
        missing: Option<u16>,
    },
    /// This line holds this number, which an earlier cell, in that line, holds too.
    Twice {
        line: usize,
        number: u16,
        earlier: usize,
        missing: Option<u16>,
    },
}

impl Rows {
    // 0 stands for a line or a number that there is not. A misfit may be of other cells, but none of these rows lacks either, so
    // that an `Option` in each case of `Flaw` would be for nothing.

    /// The line of a cell.
    fn line_of(&self, cell: usize) -> usize
        ensures { result ≡ line_of self.now cell }
    {
        self.lines.get(cell / self.sides.wide).copied().unwrap_or(0)
    }

    /// What a cell holds.
    fn number_in(&self, cell: usize) -> u16
        ensures { result ≡ number_in self.now cell }
    {
        self.cells.get(cell).copied().unwrap_or(0)
    }

    /// The misfit of rows that were read, told by lines.
    pub fn flaw(&self, misfit: Misfit) -> Flaw
        ensures { (m : Option ℕ) × FirstMissing (self.now.sides.wide * self.now.sides.tall) self.now.cells.items m × (result ≡ flaw self.now m misfit) }
    {
        let missing = self.sides.missing(self.cells.as_slice());
        match misfit {
            Misfit::Count => Flaw::Count {
                count: self.cells.len(),
                wide: self.sides.wide,
                tall: self.sides.tall,
            },
            Misfit::TooLarge(cell) => Flaw::TooLarge {
                line: self.line_of(cell),
                number: self.number_in(cell),
                largest: self.sides.count() - 1,
                missing,
            },
            Misfit::Twice(cell, earlier) => Flaw::Twice {
                line: self.line_of(cell),
                number: self.number_in(cell),
                earlier: self.line_of(earlier),
                missing,
            },
        }
    }

    /// The frame that the rows are, or what keeps them from being one.
    pub fn frame(&self) -> Result<Frame<'_>, Flaw>
        ensures { MatchResult result
            (λ f. (f ≡ framed self.now.sides self.now.cells.items) × (proper f ≡ true))
            (Flawed self.now) }
    {
        Frame::new(self.sides, self.cells.as_slice()).map_err(|misfit| self.flaw(misfit))
    }
}

impl Error for Flaw {}

// By hand, since a derived `Display` promises no words.
impl fmt::Display for Flaw {
    ghost output = { λ e. Some (flaw_text e) };

    fn fmt<W: fmt::Write>(&self, f: &mut fmt::Formatter<W>) -> fmt::Result {
        match *self {
            Flaw::Count { count, wide, tall } => write!(
                f,
                "{count} numbers are no rows of {wide} by {tall}"
            ),
            Flaw::TooLarge {
                line,
                number,
                largest,
                missing,
            } => {
                let missing = Missing(missing);
                write!(
                    f,
                    "line {line}: {number} is too large: the numbers of this frame are 0 to {largest}{missing}"
                )
            }
            Flaw::Twice {
                line,
                number,
                earlier,
                missing,
            } => {
                let missing = Missing(missing);
                write!(
                    f,
                    "line {line}: {number} stands twice, first in line {earlier}{missing}"
                )
            }
        }
    }
}

/// The number that is missing, as the end of a sentence.
#[derive(Clone, Copy, PartialEq, Eq, Debug)]
struct Missing(Option<u16>);

// By hand, since a derived `Display` promises no words.
impl fmt::Display for Missing {
    ghost output = { λ m. Some (missing_text m.0) };

    fn fmt<W: fmt::Write>(&self, f: &mut fmt::Formatter<W>) -> fmt::Result {
        match self.0 {
            None => Ok(()),
            Some(0) => write!(f, "; there is no gap: 0 is missing"),
            Some(number) => write!(f, "; {number} is missing"),
        }
    }
}
