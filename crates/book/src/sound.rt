ghost use Rattle.std.specs.Prelude.{◌≡◌, ◌≤◌, true, length, take};
ghost use Rattle.terms.specs.Refusals.{Passed};
ghost use Rattle.terms.specs.declared.refusal.Refusal.TheVariants.{UnsoundLines};
ghost use Rattle.book.specs.Sounds.{in_range, is_book, is_sound, may_follow, standing};
ghost use Rattle.terms.specs.Dates.{is_date};
ghost use Rattle.terms.specs.Prices.{within};

use super::order::Order;
use terms::{Date, Refusal, is_price};

/// The most order lines that a book has.
pub const MAX_LINES: usize = 1024;

// The highest member number, and the most shares that an order may be entered with.
const MAX_MEMBER: u32 = 65_535;

const MAX_SHARES: u32 = 100_000;

/// The used order lines, sound: few enough, every field in its range, numbers that rise and are below the next.
#[derive(Clone, Copy)]
pub struct Book<'a> {
    pub lines: &'a [Order],
    /// The number that the next order is given.
    pub next: u64,
    ghost sound: { is_book next lines.now ≡ true },
}

// Whether a number is from 1 to `most`. A function of its own, as is the next one: with all ranges written out the proof of `in_range` does not close.
fn up_to(most: u32, n: u32) -> bool
    ensures { result ≡ within 1 most n }
{
    (1..=most).contains(&n)
}

// Whether a number is a date.
fn is_date(n: u32) -> bool
    ensures { result ≡ is_date n }
{
    Date::try_from(u64::from(n)).is_ok()
}

// Whether each field of a used line, but for its number, is in its range.
#[tactic(auto, unfolding(crate::specs::Sounds::in_range))]
fn in_range(order: &Order) -> bool
    ensures { result ≡ in_range order.now }
{
    up_to(MAX_MEMBER, order.member)
        && up_to(2, order.side)
        && is_price(u64::from(order.limit))
        && up_to(MAX_SHARES, order.entered)
        && up_to(order.entered, order.left)
        && is_date(order.last_day)
}

// Whether a line may stand behind one with the number `last`.
fn follows(line: &Order, last: u32, next: u64) -> bool
    ensures { result ≡ may_follow last next line.now }
{
    last < line.number && u64::from(line.number) < next && in_range(line)
}

// Whether each line may stand behind the one before it.
fn stand(lines: &[Order], next: u64) -> bool
    ensures test { result ≡ standing 0 next lines.now }
    ensures book { length lines.now ≤ 1024 → result ≡ is_book next lines.now }
{
    let mut last = 0;
    for line in lines {
        if !follows(line, last, next) {
            return false;
        }
        last = line.number;
    }
    true
}

impl<'a> Book<'a> {
    // The three come apart, from C and from the caller's memory; the book is what holds them together.
    /// The book of the first `used` lines, where `next` is the number that the next order is given. Refuses lines that are not sound.
    pub fn new(lines: &'a [Order], used: usize, next: u64) -> Result<Book<'a>, Refusal>
        ensures { Passed UnsoundLines (is_sound used next lines.now) result (λ b. (used ≤ length lines.now) × (b.lines.now ≡ take used lines.now) × (b.next ≡ next)) }
    {
        if lines.len() > MAX_LINES || used > lines.len() {
            return Err(Refusal::UnsoundLines);
        }
        let lines = &lines[..used];
        if stand(lines, next) {
            Ok(Book { lines, next })
        } else {
            Err(Refusal::UnsoundLines)
        }
    }
}
