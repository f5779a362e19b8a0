//! Refusals: their numbers and places.
ghost use Rattle.std.specs.Prelude.{◌≡◌, true, false, MatchOption};
ghost use Rattle.encoding.specs.AnswerBytes.{refusal};
ghost use Rattle.codec.specs.Meaning.{number_of, place_of};

/// Why a call is turned away.
#[derive(Clone, Copy, PartialEq, Eq, Debug)]
pub enum Refusal {
    /// A call that can't be read: the place of the first byte that does not fit.
    Unreadable(u32),
    /// Cells that are no frame, or a move above 3.
    Improper,
    /// At opening, a side out of range.
    Side,
    /// At opening, less memory than is asked for.
    Memory,
    /// A move that can't be made.
    Blocked,
    /// The fewest moves of a frame of more than 9 cells.
    TooManyCells,
}

impl Refusal {
    /// The number in the list of refusals.
    pub fn number(self) -> u16
        ensures { result ≡ number_of self }
    {
        match self {
            Refusal::Unreadable(_) => 1,
            Refusal::Improper => 2,
            Refusal::Side | Refusal::Memory => 3,
            Refusal::Blocked => 4,
            Refusal::TooManyCells => 5,
        }
    }

    /// The place that is told with it.
    pub fn place(self) -> u32
        ensures { result ≡ place_of self }
    {
        match self {
            Refusal::Unreadable(place) => place,
            Refusal::Memory => 1,
            _ => 0,
        }
    }

    /// The refusal that has this number and place, if one of the list has.
    // No `TryFrom` of the pair: there is one way to be none, so that an error would say no more.
    pub fn listed(number: u16, place: u32) -> Option<Self>
        ensures { MatchOption result
            (refusal number place ≡ false)
            (λ e. (refusal number place ≡ true) × (number_of e ≡ number) × (place_of e ≡ place)) }
    {
        match (number, place) {
            (1, _) => Some(Refusal::Unreadable(place)),
            (2, 0) => Some(Refusal::Improper),
            (3, 0) => Some(Refusal::Side),
            (3, 1) => Some(Refusal::Memory),
            (4, 0) => Some(Refusal::Blocked),
            (5, 0) => Some(Refusal::TooManyCells),
            _ => None,
        }
    }
}
