//! A frame's rows read from a text: a row a line, numbers separated by blanks.
ghost use Rattle.std.specs.Prelude.{◌≡◌, ℕ, List, ◌++◌, length, Some, None, ◌↔◌, IsTrue, MatchOption, MatchResult};
ghost use Rattle.frame.specs.Range.{InRange};
ghost use Rattle.text.specs.Rows.{Numbers, WordFault, IsComment, GoesOn, RowFault, LineFault, Fails, Written};
ghost use Rattle.text.specs.Taken.{Taken};

use super::fault::Fault;
use frame::sides::Sides;
use std::alloc::Global;

/// The numbers of a line behind the cells; how many they are.
fn read_row(line: usize, text: &str, cells: &mut Vec<u16>) -> Result<usize, Fault>
    ensures { MatchResult result
        (λ count. (ns : List ℕ) × Numbers text.now ns × (count ≡ length ns) × (cells.new.items ≡ cells.old.items ++ ns))
        (WordFault line text.now) }
{
    let before = cells.len();
    for word in text.split_whitespace() {
        let Ok(number) = word.parse::<u8>() else {
            return Err(Fault::NotANumber {
                line,
                word: cells.len() - before + 1,
            });
        };
        cells.push(u16::from(number))?;
    }
    Ok(cells.len() - before)
}

/// Whether a line is a comment: it begins with `#`.
fn is_comment(text: &str) -> bool
    ensures { IsTrue result ↔ IsComment text.now }
{
    text.starts_with('#')
}

/// The rows read so far: their cells, the line of each, and how many numbers each has, from the first row on.
// Two vectors, as in `Rows`. Nothing compares or prints it.
#[derive(Drop)]
struct Reading {
    cells: Vec<u16>,
    lines: Vec<usize>,
    wide: Option<usize>,
}

impl Reading {
    /// Whether a line of so many numbers can be the next row.
    fn check_row(&self, line: usize, count: usize) -> Result<(), Fault>
        ensures { MatchResult result
            (λ _. GoesOn self.now.wide (length self.now.lines.items) count)
            (RowFault line self.now.wide (length self.now.lines.items) count) }
    {
        match self.wide {
            None if (2..=16).contains(&count) => Ok(()),
            None => Err(Fault::Columns { line, count }),
            Some(wide) if count != wide => Err(Fault::Ragged { line, count, wide }),
            Some(_) if self.lines.len() >= 16 => Err(Fault::TooMany { line }),
            Some(_) => Ok(()),
        }
    }

    /// The sides that the rows make, if each is in range.
    fn sides(&self) -> Option<Sides>
        ensures { MatchOption result
            ((w : ℕ) → self.now.wide ≡ Some w → InRange w (length self.now.lines.items) → ⊥)
            (λ s. (self.now.wide ≡ Some s.wide) × (s.tall ≡ length self.now.lines.items)) }
    {
        Sides::new(self.wide?, self.lines.len())
    }

    /// Reads the line of this number, which holds one row more or none.
    fn take_line(&mut self, line: usize, text: &str) -> Result<(), Fault>
        ensures { MatchResult result
            (λ _. Taken line text.now self.old self.new)
            (LineFault line text.now self.old.wide (length self.old.lines.items)) }
    {
        if is_comment(text) {
            return Ok(());
        }
        let count = read_row(line, text, &mut self.cells)?;
        if count == 0 {
            return Ok(());
        }
        self.check_row(line, count)?;
        self.wide = Some(count);
        self.lines.push(line)?;
        Ok(())
    }
}

/// A frame's rows as they were written: the sides that they make, their cells, and the line of each row, from 1.
// Cells and lines are no parallel vectors: a frame lends all cells as one slice, and there is a line for each row.
#[derive(PartialEq, Eq, Debug, Drop)]
pub struct Rows {
    pub sides: Sides,
    pub cells: Vec<u16>,
    pub lines: Vec<usize>,
}

impl Rows {
    /// The rows that a text holds. Empty lines and lines that begin with `#` are passed over.
    pub fn read(heap: Global, text: &str) -> Result<Rows, Fault>
        ensures { MatchResult result
            (λ s. Written text.now s.sides s.cells.items s.lines.items)
            (Fails 1 text.now None 0) }
    {
        let mut reading = Reading {
            cells: Vec::new(heap),
            lines: Vec::new(heap),
            wide: None,
        };
        // The last line read, for a text that ends too early; to count the lines would be to read it twice.
        let mut last = 1;
        for (index, row) in text.lines().enumerate() {
            last = index + 1;
            reading.take_line(last, row)?;
        }
        let sides = reading.sides().ok_or(Fault::TooFew {
            line: last,
            rows: reading.lines.len(),
        })?;
        let Reading { cells, lines, .. } = reading;
        Ok(Rows {
            sides,
            cells,
            lines,
        })
    }
}
