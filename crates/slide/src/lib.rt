//! What holds of every frame of every size. Each function stands for one statement, which is its contract.
#![tactic(auto)]

ghost use Rattle.slide.specs.Promise.{MadeBack, HalfOfAll, AtLeast};
ghost use Rattle.slide.specs.Examples.{TwiceToTheLeft, LastTwoNever};

/// Every move can be made back, and a frame stays one.
#[tactic(auto, using(crate::proofs::Back::moved_proper, crate::proofs::Back::back_can, crate::proofs::Back::back_moved))]
pub fn made_back()
    ensures { MadeBack }
{}

/// Two tiles exchanged make the sign the other one.
#[tactic(auto, using(crate::proofs::Sign::exchanged_proper, crate::proofs::Sign::exchanged_sign))]
pub fn half_of_all()
    ensures { HalfOfAll }
{}

/// No way in order is shorter than all tiles' distances together.
#[tactic(auto, using(crate::proofs::Distance::at_least))]
pub fn at_least()
    ensures { AtLeast }
{}

/// Of 3 by 3, `1 2 3, 4 5 6, 0 7 8` is brought in order by two moves to the left and by nothing shorter.
#[tactic(auto, using(crate::proofs::Worked::twice_to_the_left))]
pub fn twice_to_the_left()
    ensures { TwiceToTheLeft }
{}

/// Of 3 by 3, `1 2 3, 4 5 6, 8 7 0` is brought in order by no moves at all.
#[tactic(auto, using(crate::proofs::Worked::last_two_never))]
pub fn last_two_never()
    ensures { LastTwoNever }
{}
