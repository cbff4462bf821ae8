ghost use Rattle.std.specs.Prelude.{◌≡◌, ◌<◌, Bool, true, false, not, length};
ghost use Rattle.std.specs.Option.{IfSome};
ghost use Rattle.book.specs.Merits.{Chosen, Tests, both_apart};

/// Items of which some two are told apart, as orders of one side by their numbers.
pub trait Distinct {
    ghost apart: { Self → Self → Bool };
}

/// An item that may be missing: one that is missing is told apart from nothing.
impl<T: Distinct> Distinct for Option<T> {
    ghost apart = { both_apart T.Distinct.apart };
}

/// A merit: of two items, which one comes first.
pub trait Merit<T: Distinct> {
    ghost before: { Self → T → T → Bool };

    /// Whether `a` comes before `b`.
    fn comes_before(&self, a: &T, b: &T) -> bool
        ensures { result ≡ before self.now a.now b.now };

    // Nothing comes before itself.
    ghost never_itself: { (m : Self) (x : T) → before m x x ≡ false };

    // If two items are told apart, one of them comes first and the other does not.
    ghost one_first: { (m : Self) (x y : T) → T.Distinct.apart x y ≡ true → before m x y ≡ not (before m y x) };

    // An item also comes before whatever its followers come before.
    ghost carries: { (m : Self) (x y z : T) → before m x y ≡ true → before m y z ≡ true → before m x z ≡ true };
}

/// A test that an item passes or fails.
// A trait with a law, where the caller chooses: that a closure may be called at all only a `requires` can ask.
pub trait Test<T> {
    ghost passed: { Self → T → Bool };

    /// Whether the item passes.
    fn passes(&self, item: &T) -> bool
        ensures { result ≡ passed self.now item.now };
}

/// The place of the first by merit among the items that pass the test: no other that passes comes before it.
pub fn first_by_merit<T: Distinct, M: Merit<T>, E: Test<T>>(
    items: &[T],
    merit: &M,
    eligible: &E,
) -> Option<usize>
    ensures { Chosen (E.Test.passed eligible.now) (M.Merit.before merit.now) items.now (length items.now) result }
{
    first_among(items, merit, |item: &T| eligible.passes(item))
}

/// The same where a closure is the test.
pub(crate) fn first_among<T: Distinct, M: Merit<T>, E: Fn(&T) -> bool>(
    items: &[T],
    merit: &M,
    eligible: E,
) -> Option<usize>
    requires { E.IsAlwaysCallable eligible }
    ensures within { IfSome result (λ i. i < length items.now) }
    ensures first { (test : T → Bool) → Tests E.Fn test eligible → Chosen test (M.Merit.before merit.now) items.now (length items.now) result }
{
    // With its place, by which the contract and the callers name the item.
    let mut first = None;
    for (i, item) in items.iter().enumerate() {
        if first.is_none_or(|best: usize| merit.comes_before(item, &items[best]))
            && eligible(item)
        {
            first = Some(i);
        }
    }
    first
}
