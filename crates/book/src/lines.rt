ghost use Rattle.std.specs.Prelude.{◌≡◌, Bool, ◌+◌, ◌-◌, ◌<◌, ◌≤◌, map, length, take, drop, filter, nat_lt, slice_set};
ghost use Rattle.terms.specs.Refusals.{Passed};
ghost use Rattle.terms.specs.declared.refusal.Refusal.TheVariants.{NoFreeLine};
ghost use Rattle.book.specs.Edits.{Leaves, lapsed, lasts_to, ended, ends_on, without, other_than, posted, is_unfilled, less_fills};
ghost use Rattle.book.specs.Fills.{gained};
ghost use Rattle.book.specs.LineEdits.{Appended, in_use, Left};
ghost use Rattle.book.specs.Merits.{Tests};
ghost use Rattle.book.specs.Orders.{free};

use super::fill::Fill;
use super::order::Order;
use terms::{Date, Refusal};

impl Order {
    // Whether it still stands on a day.
    fn lasts_to(&self, day: u32) -> bool
        ensures { result ≡ lasts_to day self.now }
    {
        self.last_day >= day
    }

    // Whether a day is its last.
    fn ends_on(&self, day: u32) -> bool
        ensures { result ≡ ends_on day self.now }
    {
        self.last_day == day
    }

    // Whether it has another number.
    fn is_other_than(&self, number: u32) -> bool
        ensures { result ≡ other_than number self.now }
    {
        self.number != number
    }

    // Whether it has shares left.
    fn is_unfilled(&self) -> bool
        ensures { result ≡ is_unfilled self.now }
    {
        self.left > 0
    }
}

// Puts an item that is kept into the next place, and says which place comes after it.
fn keep<T: Copy>(items: &mut [T], place: usize, item: T) -> usize
    requires { place < length items.old }
    ensures kept { items.new ≡ slice_set items.old place item }
    ensures next { result ≡ place + 1 }
{
    items[place] = item;
    place + 1
}

// Moves the items that pass the test to the front, in their order, and says how many there are.
// What is asked of the test, and that it makes one, stands at each function that hands it on: a closure has no other place for it.
fn compact<T: Copy, P: Fn(&T) -> bool>(items: &mut [T], test: P) -> usize
    requires { P.IsAlwaysCallable test }
    ensures within { result ≤ length items.old }
    ensures long { length items.new ≡ length items.old }
    ensures front { (passed : T → Bool) → Tests P.Fn passed test → take result items.new ≡ filter passed items.old }
{
    let mut count = 0;
    // An index, since the loop writes to the slice that it reads.
    for i in 0..items.len() {
        let item = items[i];
        if test(&item) {
            count = keep(items, count, item);
        }
    }
    count
}

// Keeps of the first `used` lines those that pass the test, in their order, and says how many there are.
// The others close up, and the lines freed become blank.
// Not a method: a proof does not see what a part of the slice in a field holds once it is given back.
fn retain<P: Fn(&Order) -> bool>(lines: &mut [Order], used: usize, test: P) -> usize
    requires { P.IsAlwaysCallable test }
    ensures { (passed : Order → Bool) → Tests P.Fn passed test → Leaves free used lines.old (filter passed (take used lines.old)) result lines.new }
{
    let end = used.min(lines.len());
    let kept = compact(&mut lines[..end], test);
    lines[kept..end].fill(Order::FREE);
    kept
}

// The shares that are left of `left` once the fills of an order are taken off.
fn less_fills(left: u32, number: u32, fills: &[Fill]) -> u32
    ensures { result ≡ left - gained number fills.now }
{
    let mut rest = left;
    for fill in fills {
        if fill.number == number {
            rest = rest.saturating_sub(fill.shares);
        }
    }
    rest
}

// Takes fills off all lines of a part.
fn reduce(lines: &mut [Order], fills: &[Fill])
    ensures { lines.new ≡ map (less_fills fills.now) lines.old }
{
    for line in lines.iter_mut() {
        line.left = less_fills(line.left, line.number, fills);
    }
}

// Takes fills off the first `used` lines. Not a method, for the reason that `retain` gives.
fn take_off(lines: &mut [Order], used: usize, fills: &[Fill])
    ensures front { take used lines.new ≡ map (less_fills fills.now) (take used lines.old) }
    ensures back { drop used lines.new ≡ drop used lines.old }
    ensures long { length (take used lines.new) ≡ length (take used lines.old) }
{
    let end = used.min(lines.len());
    reduce(&mut lines[..end], fills);
}

/// Order lines in memory that the caller brings: those in use stand first.
// That the memory stays the same is a clause of each edit: of a loan in a field a caller knows nothing else.
#[derive(Drop)]
pub struct Lines<'a> {
    pub slots: &'a mut [Order],
    /// How many are in use.
    pub used: usize,
}

impl Lines<'_> {
    // Keeps the used lines that pass the test.
    fn retain<P: Fn(&Order) -> bool>(&mut self, test: P)
        requires { P.IsAlwaysCallable test }
        ensures same_memory { self.new.slots.ghost_name ≡ self.old.slots.ghost_name }
        ensures kept { (passed : Order → Bool) → Tests P.Fn passed test → Left self.old (filter passed (in_use self.old)) self.new }
    {
        self.used = retain(self.slots, self.used, test);
    }

    /// Takes out the orders whose last day is before a date.
    pub fn lapse_before(&mut self, date: Date)
        ensures same_memory { self.new.slots.ghost_name ≡ self.old.slots.ghost_name }
        ensures lapsed { Left self.old (lapsed date.number (in_use self.old)) self.new }
    {
        let day = date.number();
        self.retain(|order: &Order| order.lasts_to(day));
    }

    /// Takes out the orders whose last day is a date.
    pub fn lapse_on(&mut self, date: Date)
        ensures same_memory { self.new.slots.ghost_name ≡ self.old.slots.ghost_name }
        ensures ended { Left self.old (ended date.number (in_use self.old)) self.new }
    {
        let day = date.number();
        self.retain(|order: &Order| !order.ends_on(day));
    }

    /// Takes out the order of a number, if it is there.
    pub fn remove(&mut self, number: u32)
        ensures same_memory { self.new.slots.ghost_name ≡ self.old.slots.ghost_name }
        ensures removed { Left self.old (without number (in_use self.old)) self.new }
    {
        self.retain(|order: &Order| order.is_other_than(number));
    }

    /// Writes an order behind the used lines; refuses it where none is free.
    pub fn append(&mut self, order: Order) -> Result<(), Refusal>
        ensures same_memory { self.new.slots.ghost_name ≡ self.old.slots.ghost_name }
        ensures answered { Passed NoFreeLine (nat_lt self.old.used (length self.old.slots.now)) result (λ _. self.new.used ≡ self.old.used + 1) }
        ensures entered { Appended order self.old result self.new }
    {
        if self.used >= self.slots.len() {
            return Err(Refusal::NoFreeLine);
        }
        self.slots[self.used] = order;
        self.used += 1;
        Ok(())
    }

    /// Takes fills off the used lines, and takes out those that are filled whole.
    pub fn settle(&mut self, fills: &[Fill])
        ensures same_memory { self.new.slots.ghost_name ≡ self.old.slots.ghost_name }
        ensures settled { Left self.old (posted fills.now (in_use self.old)) self.new }
    {
        take_off(self.slots, self.used, fills);
        self.retain(|order: &Order| order.is_unfilled());
    }
}
