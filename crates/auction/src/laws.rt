ghost use Rattle.auction.specs.Laws.{SearchIs, OneAnswer, AnyRange};

/// Does nothing. Its contract has the laws of the auction price: the search meets the statement, the statement leaves
/// one answer, and it does not matter how far the search goes beyond the rungs.
#[tactic(auto, using(crate::proofs::Answering::auction_is, crate::proofs::Answering::one_auction))]
pub fn auction_laws()
    ensures search { SearchIs }
    ensures one { OneAnswer }
    ensures any { AnyRange }
{}
