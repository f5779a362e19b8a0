//! What is wrong with a text that should hold a frame, and in which line. Lines and words are counted from 1.
ghost use Rattle.std.specs.Prelude.{◌≡◌, Some};
ghost use Rattle.text.specs.declared.fault.Fault.TheVariants.{Memory};
ghost use Rattle.text.specs.Says.{fault_text};

use std::alloc::AllocFailed;
use std::error::Error;
use std::fmt;

/// Why a text is no frame.
// The line stands in each case that has one, since a want of memory has none.
#[derive(Clone, Copy, PartialEq, Eq, Debug)]
pub enum Fault {
    /// There is no memory to hold it.
    Memory,
    /// This word of this line is no number from 0 to 255.
    NotANumber {
        line: usize,
        word: usize,
    },
    /// This line has so many numbers, and the first row that many.
    Ragged {
        line: usize,
        count: usize,
        wide: usize,
    },
    /// The first row, in this line, has too few or too many numbers.
    Columns {
        line: usize,
        count: usize,
    },
    /// The text ends after this line, with so many rows.
    TooFew {
        line: usize,
        rows: usize,
    },
    /// This line holds a row more than a frame can have.
    TooMany {
        line: usize,
    },
}

impl<T: Drop> From<AllocFailed<T>> for Fault {
    ghost from_gives = { λ _ r. r ≡ Memory };

    fn from(_: AllocFailed<T>) -> Fault {
        Fault::Memory
    }
}

impl Error for Fault {}

// By hand, since a derived `Display` promises no words.
impl fmt::Display for Fault {
    ghost output = { λ e. Some (fault_text e) };

    fn fmt<W: fmt::Write>(&self, f: &mut fmt::Formatter<W>) -> fmt::Result {
        match *self {
            Fault::Memory => write!(f, "out of memory"),
            Fault::NotANumber { line, word } => write!(
                f,
                "line {line}: word {word} is not a number from 0 to 255"
            ),
            Fault::Ragged { line, count, wide } => write!(
                f,
                "line {line}: {count} numbers, where the first row has {wide}"
            ),
            Fault::Columns { line, count } => write!(
                f,
                "line {line}: a frame has 2 to 16 columns, and this row {count}"
            ),
            Fault::TooFew { line, rows } => write!(
                f,
                "line {line}: a frame has 2 to 16 rows, and the text ends with {rows}"
            ),
            Fault::TooMany { line } => write!(
                f,
                "line {line}: a frame has 2 to 16 rows, and this is the 17th"
            ),
        }
    }
}
