//! A frame drawn as its rows.
ghost use Rattle.std.specs.Prelude.{◌≡◌, nat_le};
ghost use Rattle.slide.specs.Tiles.{pick};

use frame::sides::Sides;
use std::fmt;

/// Cells to be drawn: a row a line, with columns that line up.
// No `Frame` in place of both, which would ask more of who draws: the rows of a text are drawn as they are.
#[derive(Clone, Copy, PartialEq, Eq, Debug)]
pub struct Drawing<'a> {
    pub sides: Sides,
    pub cells: &'a [u16],
}

/// How many digits the largest of so many numbers from 0 on has.
fn digits(count: usize) -> usize
    ensures { result ≡ pick (nat_le count 10) 1 (pick (nat_le count 100) 2 3) }
{
    match count {
        0..=10 => 1,
        11..=100 => 2,
        _ => 3,
    }
}

/// One row, and the end of its line.
fn draw_row<W: fmt::Write>(f: &mut fmt::Formatter<W>, row: &[u16], width: usize) -> fmt::Result {
    let mut blank = "";
    for cell in row {
        write!(f, "{blank}{cell:>width$}")?;
        blank = " ";
    }
    writeln!(f)
}

// By hand, since a derived `Display` draws no rows.
impl fmt::Display for Drawing<'_> {
    fn fmt<W: fmt::Write>(&self, f: &mut fmt::Formatter<W>) -> fmt::Result {
        let width = digits(self.sides.count());
        for row in self.cells.chunks(self.sides.wide) {
            draw_row(f, row, width)?;
        }
        Ok(())
    }
}
