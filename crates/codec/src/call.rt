//! Calls, and how they are read from bytes.
ghost use Rattle.std.specs.Prelude.{◌≡◌, ◌≤◌, IfOk, IfErr, MatchResult};
ghost use Rattle.encoding.specs.Formats.{StopsAt};
ghost use Rattle.encoding.specs.CallBytes.{CallFits, call_bytes, CallWriting, read_call_by, read_call};
ghost use Rattle.codec.specs.Meaning.{meant, PartOf, as_read};

use super::misread::Misread;
use super::size::{behind_first, exactly, exactly_cells};

/// What is asked of the desk.
#[derive(Clone, Copy, PartialEq, Eq, Debug)]
pub enum Call<'a> {
    /// These cells in place of those that are there. They stay where they are in the request: two bytes each, low byte first.
    Lay(&'a [u8]),
    /// One move, 0 to 3. Any byte is read: whether it is a move is said by another refusal.
    Move(u8),
    /// The cells.
    Show,
    /// Moves that bring the frame in order.
    Solve,
    /// The fewest of them.
    Shortest,
}

impl<'a> Call<'a> {
    /// The call that bytes are of which the first is this number, or the place of the first byte that does not fit.
    // By that byte: an enum of the five numbers would list the calls twice.
    fn decode_by(number: u8, request: &'a [u8]) -> Result<Self, Misread>
        ensures value { as_read meant result ≡ read_call_by number request.now }
        ensures part { IfOk result (PartOf request.now) }
        ensures range { IfErr result (λ e. e.place ≤ 131073) }
    {
        match number {
            0 => {
                exactly_cells(request)?;
                Ok(Call::Lay(&request[3..]))
            }
            1 => {
                let [step] = behind_first::<1>(request)?;
                exactly(request, 2)?;
                Ok(Call::Move(step))
            }
            2 => {
                exactly(request, 1)?;
                Ok(Call::Show)
            }
            3 => {
                exactly(request, 1)?;
                Ok(Call::Solve)
            }
            4 => {
                exactly(request, 1)?;
                Ok(Call::Shortest)
            }
            _ => Err(Misread { place: 0 }),
        }
    }

    /// The call that the bytes are, or the place of the first that does not fit.
    // No `TryFrom`: its callers would see one fact without a name in place of these. And no trait with `Answer`: these two lines
    // are the same there, but what they ensure is not.
    pub fn decode(request: &'a [u8]) -> Result<Self, Misread>
        ensures value { as_read meant result ≡ read_call request.now }
        ensures part { IfOk result (PartOf request.now) }
        ensures range { IfErr result (λ e. e.place ≤ 131073) }
        ensures law { MatchResult result
            (λ c. CallFits (meant c) × (call_bytes (meant c) ≡ request.now))
            (λ e. StopsAt CallWriting request.now e.place) }
    {
        let number = request.first().ok_or(Misread { place: 0 })?;
        Call::decode_by(*number, request)
    }
}
