ghost use Rattle.auction.specs.Found.{Foremost, three};
ghost use Rattle.auction.specs.Marks.{leads as leads_by_merit, mark_apart, trades as trades_a_share};
ghost use Rattle.auction.specs.Ranks.{leads_one, leads_carries};
ghost use Rattle.std.proofs.Common.{rules};

use super::mark::RungMark;
use book::{Distinct, Merit, Test, first_by_merit};

impl Distinct for RungMark {
    ghost apart = { mark_apart };
}

/// The merit of rungs by their marks, which may be missing. One that is missing comes before nothing.
#[derive(Clone, Copy)]
pub struct RungMerit;

impl Merit<Option<RungMark>> for RungMerit {
    ghost before = { λ _. leads_by_merit };

    ghost never_itself = { Prim.search rules };

    ghost one_first = { λ m x y. leads_one x y };

    ghost carries = { λ m x y z. leads_carries x y z };

    fn comes_before(&self, a: &Option<RungMark>, b: &Option<RungMark>) -> bool {
        match (a, b) {
            (Some(first), Some(second)) => first.leads(second),
            _ => false,
        }
    }
}

/// The test of a mark that may be missing: it is there, and a share trades.
#[derive(Clone, Copy)]
pub struct Trades;

impl Test<Option<RungMark>> for Trades {
    ghost passed = { λ _. trades_a_share };

    fn passes(&self, mark: &Option<RungMark>) -> bool {
        mark.is_some_and(|mark| mark.trades())
    }
}

// The first by merit of the marks at which a share trades.
fn foremost(marks: &[Option<RungMark>]) -> Option<RungMark>
    ensures { Foremost marks.now result }
{
    let first = first_by_merit(marks, &RungMerit, &Trades)?;
    marks[first]
}

/// The foremost of the best mark so far and two more, each of which may be missing.
pub(crate) fn foremost_of(
    best: Option<RungMark>,
    lower: Option<RungMark>,
    upper: Option<RungMark>,
) -> Option<RungMark>
    ensures { Foremost (three best lower upper) result }
{
    foremost(&[best, lower, upper])
}
