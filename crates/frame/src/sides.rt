//! How wide and how tall a frame is.
ghost use Rattle.std.specs.Prelude.{◌≡◌, ◌*◌, ◌≤◌, MatchOption};
ghost use Rattle.frame.specs.Range.{InRange};

/// The sides of a frame, each 2 to 16.
#[derive(Clone, Copy, PartialEq, Eq, Debug)]
pub struct Sides {
    pub wide: usize,
    pub tall: usize,
    ghost range: { InRange wide tall },
}

impl Sides {
    /// The sides, or none where one is out of range.
    pub fn new(wide: usize, tall: usize) -> Option<Sides>
        ensures { MatchOption result (InRange wide tall → ⊥) (λ s. (s.wide ≡ wide) × (s.tall ≡ tall)) }
    {
        let range = 2..=16;
        if range.contains(&wide) && range.contains(&tall) {
            Some(Sides { wide, tall })
        } else {
            None
        }
    }

    /// How many cells a frame of these sides has.
    pub fn count(self) -> usize
        ensures value { result ≡ self.wide * self.tall }
        ensures range { (4 ≤ result) × (result ≤ 256) }
    {
        self.wide * self.tall
    }
}
