use sheet::{FoundingSheet, Gate, Listing, Sheet};
use std::process::Abort;
use std::test::Fail;
use terms::{Date, Refusal, Trade};

fn bank() -> FoundingSheet {
    FoundingSheet {
        gate: 1,
        float: 1,
        choice: 1000,
        circulation: 1_000_000,
        reference: 100_000,
        cap: 100,
        first: 1,
    }
}

// The bank's share, with a period that started on 5 January 2024.
fn started(founding: FoundingSheet) -> Result<Listing, Refusal> {
    let mut listing = Listing::new(founding)?;
    listing.open(Date::try_from(20240105)?)?;
    Ok(listing)
}

// The sheet after one trade and a call on a later date.
fn later(founding: FoundingSheet, price: u32, shares: u32, date: u64) -> Result<Sheet, Refusal> {
    let mut listing = started(founding)?;
    listing.post(Trade::new(price, shares));
    listing.open(Date::try_from(date)?)?;
    Ok(listing.sheet())
}

#[test]
fn a_threshold_is_reached(rt: HostRuntime) -> Result<(), Fail> {
    let mut listing = started(bank())?;
    listing.post(Trade::new(100_000, 9_999));
    assert_eq!(rt; listing.sheet().volume, 9_999);
    listing.post(None);
    assert_eq!(rt; listing.sheet().start, Some(Date::try_from(20240105)?));
    listing.post(Trade::new(100_000, 1));
    assert_eq!(rt; listing.sheet().start, None);
    assert_eq!(rt; listing.sheet().gate, Gate::Two);
    assert_eq!(rt; listing.limit_1(), 6);
    Ok(())
}

#[test]
fn a_small_float_lowers_thresholds(rt: HostRuntime) -> Result<(), Fail> {
    let halved = FoundingSheet { float: 2, ..bank() };
    let quartered = FoundingSheet { float: 3, ..bank() };
    assert_eq!(rt; later(halved, 100_000, 499, 20240308)?.limit, 12);
    assert_eq!(rt; later(halved, 100_000, 500, 20240308)?.limit, 8);
    assert_eq!(rt; later(quartered, 100_000, 249, 20240308)?.limit, 12);
    assert_eq!(rt; later(quartered, 100_000, 250, 20240308)?.limit, 8);
    assert_eq!(rt; later(halved, 100_000, 5_000, 20240106)?.volume, 0);
    assert_eq!(rt; later(quartered, 100_000, 2_500, 20240106)?.volume, 0);
    Ok(())
}

#[test]
fn the_average_is_the_next_reference(rt: HostRuntime) -> Result<(), Fail> {
    let mut listing = started(bank())?;
    listing.post(Trade::new(100_000, 4_000));
    listing.post(Trade::new(101_000, 6_000));
    assert_eq!(rt; listing.reference(), 100_600);
    assert_eq!(rt; listing.limit_2(), 6);
    let mut listing = started(bank())?;
    listing.post(Trade::new(100_000, 1));
    listing.post(Trade::new(100_001, 1));
    listing.open(Date::try_from(20250110)?)?;
    assert_eq!(rt; listing.reference(), 100_001);
    Ok(())
}

#[test]
fn intermediate_periods_widen_the_limit(rt: HostRuntime) -> Result<(), Fail> {
    assert_eq!(rt; later(bank(), 100_000, 999, 20240301)?.intermediate, 1);
    assert_eq!(rt; later(bank(), 100_000, 999, 20240308)?.intermediate, 2);
    assert_eq!(rt; later(bank(), 100_000, 999, 20240308)?.limit, 12);
    assert_eq!(rt; later(bank(), 100_000, 1_000, 20240308)?.limit, 8);
    let sixth = later(bank(), 100_000, 999, 20250103)?;
    assert_eq!(rt; sixth.intermediate, 6);
    assert_eq!(rt; sixth.limit, 28);
    assert_eq!(rt; sixth.recent, 0);
    let anew = later(bank(), 100_000, 999, 20250110)?;
    assert_eq!(rt; anew.start, Some(Date::try_from(20250110)?));
    assert_eq!(rt; anew.limit, 8);
    Ok(())
}

// What a sheet says, in the order of the example in docs/RULES.md.
fn check_line(rt: &impl Abort, sheet: Sheet, gate: Gate, numbers: [u64; 5]) {
    assert_eq!(rt; sheet.gate, gate);
    assert_eq!(rt;
        [
            u64::from(sheet.limit),
            u64::from(sheet.reference),
            sheet.volume,
            u64::from(sheet.intermediate),
            sheet.recent,
        ],
        numbers
    );
}

#[test]
fn the_example_of_the_rules(rt: HostRuntime) -> Result<(), Fail> {
    let mut listing = started(bank())?;
    check_line(&rt, listing.sheet(), Gate::One, [8, 100_000, 0, 1, 0]);
    listing.post(Trade::new(100_000, 999));
    check_line(&rt, listing.sheet(), Gate::One, [8, 100_000, 999, 1, 999]);
    listing.open(Date::try_from(20240308)?)?;
    check_line(&rt, listing.sheet(), Gate::One, [12, 100_000, 999, 2, 0]);
    listing.post(Trade::new(101_000, 1_000));
    check_line(
        &rt,
        listing.sheet(),
        Gate::One,
        [12, 100_000, 1_999, 2, 1_000],
    );
    listing.open(Date::try_from(20240510)?)?;
    check_line(&rt, listing.sheet(), Gate::One, [12, 100_000, 1_999, 3, 0]);
    listing.post(Trade::new(102_000, 8_001));
    check_line(&rt, listing.sheet(), Gate::Two, [6, 101_700, 0, 1, 0]);
    listing.open(Date::try_from(20240517)?)?;
    check_line(&rt, listing.sheet(), Gate::Two, [6, 101_700, 0, 1, 0]);
    Ok(())
}

#[test]
fn gate_3_stays(rt: HostRuntime) -> Result<(), Fail> {
    let third = FoundingSheet { gate: 3, ..bank() };
    let within = later(third, 100_000, 1, 20240304)?;
    assert_eq!(rt; within.volume, 1);
    assert_eq!(rt; within.limit, 8);
    let over = later(third, 120_000, 1, 20240305)?;
    assert_eq!(rt; over.gate, Gate::Three);
    assert_eq!(rt; over.volume, 0);
    assert_eq!(rt; over.reference, 120_000);
    let mut listing = started(third)?;
    listing.post(Trade::new(110_000, 4_999));
    assert_eq!(rt; listing.reference(), 100_000);
    listing.post(Trade::new(110_000, 1));
    assert_eq!(rt; listing.reference(), 110_000);
    Ok(())
}

#[test]
fn a_period_without_shares_keeps_its_reference(rt: HostRuntime) -> Result<(), Fail> {
    let mut listing = started(bank())?;
    listing.open(Date::try_from(20241231)?)?;
    assert_eq!(rt; listing.limit_1(), 28);
    listing.open(Date::try_from(20250105)?)?;
    assert_eq!(rt; listing.reference(), 100_000);
    assert_eq!(rt; listing.limit_1(), 8);
    assert_eq!(rt; listing.sheet().gate, Gate::One);
    Ok(())
}

#[test]
fn the_cap_narrows_limit_2(rt: HostRuntime) -> Result<(), Fail> {
    let listing = Listing::new(FoundingSheet { cap: 5, ..bank() })?;
    assert_eq!(rt; listing.limit_1(), 8);
    assert_eq!(rt; listing.limit_2(), 5);
    Ok(())
}

#[test]
fn openings_go_forward(rt: HostRuntime) -> Result<(), Fail> {
    let mut listing = started(bank())?;
    assert_eq!(rt;
        listing.open(Date::try_from(20240105)?),
        Err(Refusal::NotLater)
    );
    assert_eq!(rt;
        listing.open(Date::try_from(20240104)?),
        Err(Refusal::NotLater)
    );
    assert_eq!(rt; listing.last(), Some(Date::try_from(20240105)?));
    assert_eq!(rt; listing.open(Date::try_from(20240106)?), Ok(()));
    Ok(())
}

#[test]
fn founding_values_out_of_range_are_refused(rt: HostRuntime) {
    let refused = [
        FoundingSheet { gate: 0, ..bank() },
        FoundingSheet { gate: 4, ..bank() },
        FoundingSheet { float: 4, ..bank() },
        FoundingSheet {
            choice: 1100,
            ..bank()
        },
        FoundingSheet {
            circulation: 0,
            ..bank()
        },
        FoundingSheet {
            circulation: 1_000_000_001,
            ..bank()
        },
        FoundingSheet {
            reference: 0,
            ..bank()
        },
        FoundingSheet { cap: 101, ..bank() },
        FoundingSheet { first: 0, ..bank() },
        FoundingSheet {
            first: 4_294_967_296,
            ..bank()
        },
    ];
    for founding in refused {
        assert_eq!(rt; Listing::new(founding).err(), Some(Refusal::Parameter));
    }
    assert!(rt; Listing::new(bank()).is_ok());
}

#[test]
fn numbers_that_are_no_date_are_refused(rt: HostRuntime) {
    for day in [20240229, 20000229, 20000101, 20991231] {
        assert!(rt; Date::try_from(day).is_ok());
    }
    for day in [
        20230229,
        20240431,
        20240100,
        20241301,
        20240001,
        19991231,
        21000101,
        0,
        u64::MAX,
    ] {
        assert_eq!(rt; Date::try_from(day).err(), Some(Refusal::InvalidDate));
    }
}

#[test]
fn months_are_whole(rt: HostRuntime) -> Result<(), Fail> {
    let start = Date::try_from(20240131)?;
    assert_eq!(rt; Date::try_from(20240228)?.months_since(start), 0);
    assert_eq!(rt; Date::try_from(20240331)?.months_since(start), 2);
    assert_eq!(rt; Date::try_from(20250130)?.months_since(start), 11);
    assert_eq!(rt; Date::try_from(20250131)?.months_since(start), 12);
    assert_eq!(rt; start.months_since(Date::try_from(20250131)?), 0);
    Ok(())
}
