ghost use Rattle.ladder.specs.Eithers.{either, either_priced};

use super::rungs::Ladder;

/// A ladder of one of two kinds, so that one list can hold both.
// A type of our own: neither kind is an error, as in a `Result`, the library has no other type for one of two,
// and another crate's would be one more to trust.
#[derive(Drop)]
pub enum Either<A, B> {
    Left(A),
    Right(B),
}

// Each question is passed on by itself: Rust has no shorter form.
impl<A: Ladder, B: Ladder> Ladder for Either<A, B> {
    ghost rungs = { either A.Ladder.rungs B.Ladder.rungs };

    ghost priced = { either_priced A.Ladder.rungs B.Ladder.rungs A.Ladder.priced B.Ladder.priced };

    fn is_rung(&self, p: u32) -> bool {
        match self {
            Either::Left(ladder) => ladder.is_rung(p),
            Either::Right(ladder) => ladder.is_rung(p),
        }
    }

    #[tactic(auto, using(crate::proofs::Sides::sides))]
    fn at_or_above(&self, p: u32) -> Option<u32> {
        match self {
            Either::Left(ladder) => ladder.at_or_above(p),
            Either::Right(ladder) => ladder.at_or_above(p),
        }
    }

    #[tactic(auto, using(crate::proofs::Sides::sides))]
    fn at_or_below(&self, p: u32) -> Option<u32> {
        match self {
            Either::Left(ladder) => ladder.at_or_below(p),
            Either::Right(ladder) => ladder.at_or_below(p),
        }
    }
}
