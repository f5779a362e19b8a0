//! The sign of a frame, and what it tells: whether the frame can be put in order.
ghost use Rattle.std.specs.Prelude.{◌≡◌, ℕ, ◌+◌, ◌*◌, ◌/◌, ◌%◌, ◌≤◌, ◌&&◌, List, length, MatchResult, ◌==◌, nat_lt};
ghost use Rattle.slide.specs.Tiles.{pick, gap, larger_than, wrong_pairs, sign, ordered};
ghost use Rattle.frame.specs.Cells.{framed, Misfits, SignedBy, DecidedBy, MendedBy};

use super::check::{Frame, Misfit, find};
use super::sides::Sides;

/// Whether two cells, the earlier first, hold tiles that stand the wrong way round: the later one is smaller. The gap is no tile.
fn is_inversion(earlier: u16, later: u16) -> bool
    ensures { result ≡ (nat_lt 0 later && nat_lt later earlier) }
{
    0 < later && later < earlier
}

/// How many of the later cells of a frame hold a tile that is smaller than the earlier one.
// A sum of zeros and ones, as wide as the cells are: `filter` and `count` branch at each cell, and take twice as long.
fn inversions_with(earlier: u16, later: &[u16]) -> u16
    requires { length later.now ≤ 256 }
    ensures value { result ≡ larger_than earlier later.now }
    ensures few { result ≤ length later.now }
{
    later
        .iter()
        .map(|tile| u16::from(is_inversion(earlier, *tile)))
        .sum()
}

impl Frame<'_> {
    /// How many pairs of tiles stand the wrong way round: the one that comes first is the larger.
    fn inversions(&self) -> usize
        ensures value { result ≡ wrong_pairs self.now.cells }
        ensures few { result ≤ 256 * 256 }
    {
        let mut cells = self.cells;
        let mut pairs = 0;
        while let [first, later @ ..] = cells {
            pairs += usize::from(inversions_with(*first, later));
            cells = later;
        }
        pairs
    }

    /// The cell of the gap.
    fn gap(&self) -> usize
        ensures value { result ≡ gap self.now }
        ensures few { result ≤ 256 }
    {
        find(self.cells, 0).unwrap()
    }

    /// The sign, which tells whether the frame can be put in order: the inversions and the row that counts, together even (0)
    /// or odd (1).
    // A number and no enum: it is a sum modulo 2, and an answer has it as two bytes.
    pub fn sign(&self) -> u16
        ensures { SignedBy self.now result }
    {
        let row = self.gap() / self.sides.wide;
        ((self.inversions() + self.sides.counted_row(row)) % 2) as u16
    }

    /// Whether some moves, however many, bring the frame in order.
    pub fn can_be_done(&self) -> bool
        ensures { DecidedBy self.now result }
    {
        self.sign() == self.sides.ordered_sign()
    }
}

/// The sign of any cells as a frame of these sides, or what keeps them from being one.
// Beside the method: whoever has cells asks it of them as they are.
pub fn sign(sides: Sides, cells: &[u16]) -> Result<u16, Misfit>
    ensures { MatchResult result (SignedBy (framed sides cells.now)) (Misfits sides cells.now) }
{
    Ok(Frame::new(sides, cells)?.sign())
}

/// Whether some moves, however many, bring any cells in order as a frame of these sides; or what keeps them from being one.
pub fn can_be_done(sides: Sides, cells: &[u16]) -> Result<bool, Misfit>
    ensures { MatchResult result (DecidedBy (framed sides cells.now)) (Misfits sides cells.now) }
{
    Ok(Frame::new(sides, cells)?.can_be_done())
}

impl Sides {
    /// Whether the gap's row counts in the sign: in frames of even width.
    fn row_counts(self) -> bool
        ensures { result ≡ (self.wide % 2 == 0) }
    {
        self.wide.is_multiple_of(2)
    }

    /// A row from 0, where rows count, and else 0.
    fn counted_row(self, row: usize) -> usize
        ensures value { result ≡ pick (self.wide % 2 == 0) row 0 }
        ensures few { result ≤ row }
    {
        if self.row_counts() { row } else { 0 }
    }

    /// The sign of the frame in order, a number as `Frame::sign` is: there are no inversions, and the gap is in the last row.
    pub fn ordered_sign(self) -> u16
        ensures { result ≡ sign (ordered self.wide self.tall) }
    {
        (self.counted_row(self.tall - 1) % 2) as u16
    }

    /// The two tiles with the largest numbers. Where a frame of these sides can't be put in order, it can once these two are exchanged.
    pub fn last_tiles(self) -> (u16, u16)
        ensures tiles { (result.0 + 2 ≡ self.wide * self.tall) × (result.1 + 1 ≡ self.wide * self.tall) }
        ensures mends { (cs : List ℕ) → MendedBy self cs result.0 result.1 }
    {
        let count = self.count() as u16;
        (count - 2, count - 1)
    }
}
