ghost use Rattle.ladder.specs.Laws.{OneLowest, OneHighest, WholeSteps, OneRow};

/// Does nothing. Its contract has the laws of the definitions that ladders rest on.
#[tactic(auto, using(crate::proofs::Roundings::whole_steps, crate::proofs::Starts::one_row))]
pub fn ladder_laws()
    ensures lowest { OneLowest }
    ensures highest { OneHighest }
    ensures steps { WholeSteps }
    ensures rows { OneRow }
{}
