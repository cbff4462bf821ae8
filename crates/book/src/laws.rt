ghost use Rattle.book.specs.Laws.{RemovalSound, PostingSound, EntrySound, PriorityKept};

/// Does nothing. Its contract has the laws of the definitions that order lines and fills rest on.
#[tactic(auto, using(crate::proofs::Keeping::removal_sound, crate::proofs::Keeping::posting_sound, crate::proofs::Keeping::entry_sound, crate::proofs::Priority::priority_kept))]
pub fn book_laws()
    ensures removal { RemovalSound }
    ensures posting { PostingSound }
    ensures entry { EntrySound }
    ensures priority { PriorityKept }
{}
