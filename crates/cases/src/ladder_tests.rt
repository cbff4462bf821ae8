use ladder::{Either, Flat, Ladder, Limit, Table};
use std::test::Fail;
use terms::Refusal;

#[test]
fn the_table_answers(rt: HostRuntime) -> Result<(), Fail> {
    let table = Table::new(2)?;
    assert_eq!(rt; table.at_or_above(99_801), Some(100_000));
    assert_eq!(rt; table.at_or_below(99_999), Some(99_800));
    assert!(rt; table.is_rung(100_500));
    assert!(rt; !table.is_rung(100_200));
    assert_eq!(rt; table.at_or_below(1), None);
    assert_eq!(rt; table.at_or_above(1_000_000_001), None);
    Ok(())
}

#[test]
fn the_limit_answers(rt: HostRuntime) -> Result<(), Fail> {
    let limit = Limit::new(Flat::new(1)?, 100_000, 8)?;
    assert!(rt; limit.is_rung(92_000));
    assert!(rt; !limit.is_rung(91_999));
    assert_eq!(rt; limit.at_or_above(0), Some(92_000));
    assert_eq!(rt; limit.at_or_below(u32::MAX), Some(108_000));
    Ok(())
}

#[test]
fn ladders_are_laid_over_ladders(rt: HostRuntime) -> Result<(), Fail> {
    let mixed = [Either::Left(Flat::new(250)?), Either::Right(Table::new(2)?)];
    let flat = Limit::new(Limit::new(&mixed[0], 100_000, 20)?, 100_000, 8)?;
    assert_eq!(rt; flat.at_or_below(99_999), Some(99_750));
    assert_eq!(rt; flat.at_or_above(108_001), None);
    let table = Limit::new(Limit::new(&mixed[1], 100_000, 8)?, 100_000, 20)?;
    assert_eq!(rt; table.at_or_below(99_999), Some(99_800));
    assert_eq!(rt; table.at_or_above(108_001), None);
    Ok(())
}

#[test]
fn values_out_of_range_are_refused(rt: HostRuntime) -> Result<(), Fail> {
    assert_eq!(rt; Flat::new(0).err(), Some(Refusal::Parameter));
    assert_eq!(rt; Flat::new(1_000_001).err(), Some(Refusal::Parameter));
    assert_eq!(rt; Table::new(7).err(), Some(Refusal::Parameter));
    let flat = Flat::new(1)?;
    assert!(rt; Limit::new(flat, 1_000_000_001, 8).is_err());
    assert!(rt; Limit::new(flat, 1, 101).is_err());
    Ok(())
}
