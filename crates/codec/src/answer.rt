//! Answers, and how they are written as bytes and read from them.
ghost use Rattle.std.specs.Prelude.{◌≡◌, ◌+◌, ◌*◌, ◌<◌, ◌≤◌, ◌++◌, length, drop, IfOk, MatchOption, MatchResult};
ghost use Rattle.encoding.specs.Bytes.{twos, words};
ghost use Rattle.encoding.specs.Formats.{StopsAt};
ghost use Rattle.encoding.specs.AnswerBytes.{AnswerFits, answer_bytes, AnswerWriting, read_answer_by, read_answer};
ghost use Rattle.codec.specs.Meaning.{told, told_in, size, HasRoom, Written, as_read};

use super::misread::Misread;
use super::refusal::Refusal;
use super::size::{behind_first, exactly, exactly_cells};

/// What the desk answers.
// It holds no reference, since memory is lent and there is no heap: cells to be written lie beside it as numbers, cells that
// were read lie in the bytes, and the moves of a way stand in the lent bytes already.
#[derive(Clone, Copy, PartialEq, Eq, Debug)]
pub enum Answer {
    /// The call is turned away.
    Refused(Refusal),
    /// The sign, or the move that was made.
    // A number and no enum: the bytes have one kind of answer for both.
    Number(u16),
    /// The cells, which are beside it.
    Cells,
    /// So many moves, which stand in the answer's bytes, from the sixth on.
    Way(u32),
    /// No moves bring the frame in order.
    Never,
}

/// Writes each cell in two bytes, low byte first.
#[tactic(auto, using(encoding::proofs::Numbers::twos_more, std::proofs::lemmas::Slice::overwrites), unfolding(encoding::specs::Bytes::twos))]
fn write_cells(cells: &[u16], out: &mut [u8])
    requires { length out.old ≡ 2 * length cells.now }
    ensures { out.new ≡ twos cells.now }
{
    // By index: tried with `chunks_exact_mut`, the proof does not close, as the library does not say what lent chunks end as.
    for (index, cell) in cells.iter().enumerate() {
        out[2 * index..2 * index + 2].copy_from_slice(&cell.to_le_bytes());
    }
}

impl Answer {
    /// How many bytes the answer takes, with so many cells beside it.
    fn size(self, cells: u16) -> usize
        ensures { result ≡ size self cells }
    {
        match self {
            Answer::Refused(_) => 7,
            Answer::Number(_) => 3,
            Answer::Cells => 3 + 2 * usize::from(cells),
            Answer::Way(count) => 5 + count as usize,
            Answer::Never => 1,
        }
    }

    /// Writes the answer, for which there is room. The moves of a way stand there already.
    fn write(self, cells: &[u16], out: &mut [u8])
        requires { HasRoom self (length cells.now) (length out.old) }
        ensures bytes { out.new ≡ answer_bytes (told self cells.now out.old) ++ drop (size self (length cells.now)) out.old }
        ensures fits { AnswerFits (told self cells.now out.old) }
    {
        match self {
            Answer::Refused(refusal) => {
                out[0] = 0;
                out[1..3].copy_from_slice(&refusal.number().to_le_bytes());
                out[3..7].copy_from_slice(&refusal.place().to_le_bytes());
            }
            Answer::Number(number) => {
                out[0] = 1;
                out[1..3].copy_from_slice(&number.to_le_bytes());
            }
            Answer::Cells => {
                let count = cells.len();
                out[0] = 2;
                out[1..3].copy_from_slice(&(count as u16).to_le_bytes());
                write_cells(cells, &mut out[3..3 + 2 * count]);
            }
            Answer::Way(count) => {
                out[0] = 3;
                out[1..5].copy_from_slice(&count.to_le_bytes());
            }
            Answer::Never => out[0] = 4,
        }
    }

    /// Writes the answer, with the cells beside it if it is these, and says how many bytes it takes; what is behind them stays.
    /// The moves of a way are those that stand there already, from the sixth byte on. None, and nothing is written, where there
    /// are too few bytes, or more cells than two bytes can count.
    // The bytes are lent: it answers how many it wrote, since there is no heap for a vector of them.
    pub fn encode(self, cells: &[u16], out: &mut [u8]) -> Option<usize>
        ensures { MatchOption result
            ((HasRoom self (length cells.now) (length out.old) → ⊥) × (out.new ≡ out.old))
            (Written self cells.now out.old out.new) }
    {
        let count = u16::try_from(cells.len()).ok()?;
        let size = self.size(count);
        if out.len() < size {
            return None;
        }
        self.write(cells, out);
        Some(size)
    }

    /// The answer that bytes are of which the first is this number, or the place of the first byte that does not fit.
    // By that byte: an enum of the five numbers would list the answers twice.
    #[tactic(auto, using(encoding::proofs::Numbers::words_read, std::proofs::lemmas::Grind::common_steps))]
    fn decode_by(number: u8, bytes: &[u8]) -> Result<Self, Misread>
        ensures value { as_read (told_in bytes.now) result ≡ read_answer_by number bytes.now }
        ensures whole { IfOk result (λ a. size a (length (words (drop 3 bytes.now))) ≡ length bytes.now) }
    {
        match number {
            0 => Ok(Answer::Refused(Refusal::decode(bytes)?)),
            1 => {
                let number = u16::from_le_bytes(behind_first(bytes)?);
                exactly(bytes, 3)?;
                Ok(Answer::Number(number))
            }
            2 => {
                exactly_cells(bytes)?;
                Ok(Answer::Cells)
            }
            3 => {
                let count = u32::from_le_bytes(behind_first(bytes)?);
                exactly(bytes, 5 + count as usize)?;
                Ok(Answer::Way(count))
            }
            4 => {
                exactly(bytes, 1)?;
                Ok(Answer::Never)
            }
            _ => Err(Misread { place: 0 }),
        }
    }

    /// The answer that the bytes are, or the place of the first that does not fit. Cells stand from the fourth byte on, two bytes
    /// each, and the moves of a way from the sixth on.
    // No `TryFrom`, and no trait with `Call`: see there.
    pub fn decode(bytes: &[u8]) -> Result<Self, Misread>
        ensures value { as_read (told_in bytes.now) result ≡ read_answer bytes.now }
        ensures whole { IfOk result (λ a. size a (length (words (drop 3 bytes.now))) ≡ length bytes.now) }
        ensures law { MatchResult result
            (λ a. AnswerFits (told_in bytes.now a) × (answer_bytes (told_in bytes.now a) ≡ bytes.now))
            (λ e. StopsAt AnswerWriting bytes.now e.place) }
    {
        let number = bytes.first().ok_or(Misread { place: 0 })?;
        Answer::decode_by(*number, bytes)
    }
}
