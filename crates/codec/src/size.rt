//! How many bytes there should be, and where those that there are end or go on.
ghost use Rattle.std.specs.Prelude.{◌≡◌, ◌+◌, ◌*◌, ◌<◌, ◌≤◌, min, ◌≢◌, length, take, drop, MatchResult};
ghost use Rattle.encoding.specs.Bytes.{two_at};
ghost use Rattle.encoding.specs.Formats.{sized};

use super::misread::Misread;

/// Nothing where there are just so many bytes; else the place where they end too early or go on.
pub fn exactly(bytes: &[u8], size: usize) -> Result<(), Misread>
    ensures { MatchResult result
        (λ _. length bytes.now ≡ size)
        (λ e. (length bytes.now ≢ size) × (e.place ≡ min (length bytes.now) size)) }
{
    if bytes.len() == size {
        return Ok(());
    }
    Err(Misread {
        place: bytes.len().min(size),
    })
}

/// The N bytes behind the first, such as a count; or the place where the bytes end before these do.
pub fn behind_first<const N: usize>(bytes: &[u8]) -> Result<[u8; N], Misread>
    ensures { MatchResult result
        (λ r. (N < length bytes.now) × (r ≡ take N (drop 1 bytes.now)))
        (λ e. (length bytes.now ≤ N) × (e.place ≡ length bytes.now)) }
{
    let end = Misread { place: bytes.len() };
    let (_, rest) = bytes.split_first().ok_or(end)?;
    rest.first_chunk().copied().ok_or(end)
}

/// Nothing where the bytes are a number, a count in two bytes, and so many cells; else the place where they end too early or go on.
pub fn exactly_cells(bytes: &[u8]) -> Result<(), Misread>
    ensures { MatchResult result
        (λ _. length bytes.now ≡ 3 + 2 * two_at bytes.now 1)
        (λ e. (length bytes.now ≢ sized bytes.now 3 (2 * two_at bytes.now 1)) × (e.place ≡ min (length bytes.now) (sized bytes.now 3 (2 * two_at bytes.now 1))) × (e.place ≤ 131073)) }
{
    let count = u16::from_le_bytes(behind_first(bytes)?);
    exactly(bytes, 3 + 2 * usize::from(count))
}
