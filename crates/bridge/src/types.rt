ghost use Rattle.std.specs.Prelude.{◌≡◌};
ghost use Rattle.bridge.specs.Calls.{found_of};

use auction::RungMark;

/// A ladder with a limit over it. Band 0 means the flat ladder of the step, bands 1 to 6 those of the tick table.
// A kind of ladder is a number here, since C passes it so.
#[repr(C)]
#[derive(Clone, Copy)]
pub struct Auction {
    pub band: u32,
    pub step: u32,
    pub reference: u32,
    pub percent: u32,
}

/// An auction price and what trades there; all zeros where nothing trades.
#[repr(C)]
#[derive(Clone, Copy, Default)]
pub struct Found {
    pub price: u32,
    pub shares: u32,
    pub surplus: u32,
}

impl From<Option<RungMark>> for Found {
    ghost from_gives = { λ mark f. f ≡ found_of mark };

    fn from(mark: Option<RungMark>) -> Found {
        mark.map(|mark| Found {
            price: mark.price,
            shares: mark.shares,
            surplus: mark.surplus,
        })
        .unwrap_or_default()
    }
}
