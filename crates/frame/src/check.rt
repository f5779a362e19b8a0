//! Frames: cells that were checked; and if cells are no frame, why.
ghost use Rattle.std.specs.Prelude.{◌≡◌, ℕ, ◌*◌, ◌<◌, true, false, ◌≢◌, length, MatchOption, MatchResult, slice_index};
ghost use Rattle.slide.specs.Tiles.{proper};
ghost use Rattle.frame.specs.Cells.{framed, Misfits, FirstMissing};

use super::sides::Sides;
use std::marker::Model;

/// A proper frame: its sides, and its cells, which were checked. Contracts see it as the frame that the theorems speak of.
// No `Copy`: a struct with a lifetime and a model can't have it yet. No `==`: it can't be derived here, and nothing compares frames.
#[derive(Clone, Debug, Drop)]
pub struct Frame<'a> {
    pub(crate) sides: Sides,
    pub(crate) cells: &'a [u16],
}

impl<'a> Model for Frame<'a> {
    ghost use Rattle.std.specs.Prelude.{◌≡◌, true};
    ghost use Rattle.slide.specs.Tiles.{Frame, proper};

    ghost Value = { Frame };

    ghost use Rattle.frame.specs.Cells.{framed};

    ghost view = { λ f. framed f.sides f.cells.now };

    ghost invariant = { λ f. proper (framed f.sides f.cells.now) ≡ true };
}

/// What keeps cells from being a frame.
// No `Display`: programs tell a misfit by the lines of a text.
#[derive(Clone, Copy, PartialEq, Eq, Debug)]
pub enum Misfit {
    /// There are not as many as the sides make.
    Count,
    /// This cell holds a number that is too large.
    TooLarge(usize),
    /// This cell holds what that earlier one holds.
    Twice(usize, usize),
}

impl<'a> Frame<'a> {
    /// The frame of these sides that the cells are, or the first misfit.
    pub fn new(sides: Sides, cells: &'a [u16]) -> Result<Frame<'a>, Misfit>
        ensures { MatchResult result
            (λ f. (f ≡ framed sides cells.now) × (proper f ≡ true))
            (λ e. (proper (framed sides cells.now) ≡ false) × Misfits sides cells.now e) }
    {
        let count = sides.count();
        if cells.len() != count {
            return Err(Misfit::Count);
        }
        // A misfit names its cell, so the cells are numbered.
        for (cell, number) in cells.iter().enumerate() {
            if usize::from(*number) >= count {
                return Err(Misfit::TooLarge(cell));
            }
            if let Some(earlier) = find(&cells[..cell], *number) {
                return Err(Misfit::Twice(cell, earlier));
            }
        }
        Ok(Frame { sides, cells })
    }
}

/// The first cell that holds the number.
pub fn find(cells: &[u16], number: u16) -> Option<usize>
    ensures { MatchOption result
        ((k : ℕ) → k < length cells.now → slice_index cells.now k ≢ number)
        (λ k. (k < length cells.now) × (slice_index cells.now k ≡ number) × ((i : ℕ) → i < k → slice_index cells.now i ≢ number)) }
{
    cells.iter().position(|held| *held == number)
}

impl Sides {
    /// The smallest number of a frame of these sides that no cell holds.
    pub fn missing(self, cells: &[u16]) -> Option<u16>
        ensures { FirstMissing (self.wide * self.tall) cells.now result }
    {
        (0..self.count() as u16).find(|number| !cells.contains(number))
    }
}
