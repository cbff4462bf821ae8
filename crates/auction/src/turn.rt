ghost use Rattle.std.specs.Prelude.{◌≡◌, ◌≤◌};
ghost use Rattle.auction.specs.Turns.{turn as turn_of};

use book::{Order, Side};

/// The lowest price at which an order stops or starts to accept: a buy just above its limit, a sell at its limit.
pub(crate) fn turn(line: &Order) -> u32
    requires { line.now.limit ≤ 1000000000 }
    ensures { result ≡ turn_of line.now }
{
    if line.is_on(Side::Buy) {
        line.limit + 1
    } else {
        line.limit
    }
}
