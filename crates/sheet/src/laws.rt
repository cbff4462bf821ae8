ghost use Rattle.sheet.specs.Laws.{AtMost28, AverageBetween, EmptyKeeps, Kept, NearestAverage, OneOrSeveral, SheetAndDate, TooFewWiden, WidensOnce};

/// Does nothing. Its contract has the laws of the definitions that the sheet rests on.
#[tactic(auto, using(crate::proofs::Summing::empty_keeps, crate::proofs::Widening::too_few_widen, crate::proofs::Widening::widens_once, crate::proofs::Deciding::sheet_and_date, crate::proofs::Stepping::one_or_several, crate::proofs::Keeping::next_sound, crate::proofs::Keeping::at_most_28))]
pub fn sheet_laws()
    ensures nearest { NearestAverage }
    ensures between { AverageBetween }
    ensures empty { EmptyKeeps }
    ensures few { TooFewWiden }
    ensures once { WidensOnce }
    ensures decided { SheetAndDate }
    ensures several { OneOrSeveral }
    ensures kept { Kept }
    ensures widest { AtMost28 }
{}
