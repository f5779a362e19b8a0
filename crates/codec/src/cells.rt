//! Cells in two bytes each, low byte first.
ghost use Rattle.std.specs.Prelude.{◌≡◌, ◌*◌, ◌<◌, ◌≤◌, length, MatchOption, slice_index};
ghost use Rattle.encoding.specs.Bytes.{twos, words};

/// The cell of this index, if there are so many.
#[tactic(auto, using(encoding::proofs::Numbers::words_read, std::proofs::lemmas::Grind::common_steps))]
pub fn cell(cells: &[u8], index: usize) -> Option<u16>
    ensures { MatchOption result
        (length (words cells.now) ≤ index)
        (λ c. (index < length (words cells.now)) × (c ≡ slice_index (words cells.now) index)) }
{
    let (pairs, _) = cells.as_chunks::<2>();
    pairs.get(index).map(|pair| u16::from_le_bytes(*pair))
}
