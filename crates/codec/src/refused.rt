//! How refusals are read from bytes.
ghost use Rattle.std.specs.Prelude.{◌≡◌, ◌<◌, length, MatchOption, OnOk};
ghost use Rattle.encoding.specs.AnswerBytes.{stands, misfit, read_refusal};
ghost use Rattle.codec.specs.Meaning.{turned_away, as_read};

use super::misread::Misread;
use super::refusal::Refusal;
use super::size::{behind_first, exactly};

/// Whether this byte can stand at this place, 1 to 6, of a refusal of this number.
// By the byte of the number, which may be one that no refusal has: an enum has no case for that.
fn stands(number: u8, place: usize, byte: u8) -> bool
    ensures { result ≡ stands number place byte }
{
    let range = match (place, number) {
        (1, _) => 1..=5,
        (2, _) => 0..=0,
        (_, 1) => 0..=255,
        (3, 3) => 0..=1,
        _ => 0..=0,
    };
    range.contains(&byte)
}

/// The place of the first byte, behind the 0, that can't stand there in a refusal, if there is one.
fn first_misfit(bytes: &[u8]) -> Option<usize>
    ensures { MatchOption result
        (misfit bytes.now 1 6 ≡ 7)
        (λ p. (p < length bytes.now) × (p ≡ misfit bytes.now 1 6)) }
{
    (1..bytes.len().min(7)).find(|place| !stands(bytes[1], *place, bytes[*place]))
}

impl Refusal {
    /// The refusal that an answer's bytes are, of which the first is 0; or the place of the first that does not fit.
    pub(super) fn decode(bytes: &[u8]) -> Result<Self, Misread>
        ensures value { as_read turned_away result ≡ read_refusal bytes.now }
        ensures whole { OnOk result (length bytes.now ≡ 7) }
    {
        // Where a byte can't stand, the bytes should have ended before it.
        exactly(bytes, first_misfit(bytes).unwrap_or(7))?;
        let number = u16::from_le_bytes(behind_first(bytes)?);
        let place = u32::from_le_bytes(behind_first(&bytes[2..])?);
        // Bytes that can stand where they do are a refusal of the list.
        Ok(Refusal::listed(number, place).unwrap())
    }
}
