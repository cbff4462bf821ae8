use auction::price_within;
use book::{Book, Fill, Lines, Order, PriceTime, Side};
use ladder::{Flat, Limit, Table};
use std::test::Fail;
use terms::{Date, Refusal};

fn order(number: u32, side: Side, limit: u32, shares: u32, last_day: u32) -> Order {
    Order {
        number,
        member: 11,
        side: u32::from(side),
        limit,
        entered: shares,
        left: shares,
        last_day,
    }
}

fn four() -> [Order; 4] {
    [
        order(1, Side::Buy, 102_000, 100, 20240105),
        order(2, Side::Buy, 100_000, 50, 20240112),
        order(3, Side::Sell, 99_800, 80, 20240105),
        order(4, Side::Sell, 101_000, 120, 20240119),
    ]
}

fn fill(number: u32, shares: u32) -> Fill {
    Fill { number, shares }
}

#[test]
fn four_orders_find_their_price(rt: HostRuntime) -> Result<(), Fail> {
    let lines = four();
    let book = Book::new(&lines, 4, 5)?;
    assert_eq!(rt; book.depth(100_000), (150, 80));
    assert_eq!(rt; book.depth(0), (150, 0));
    let limit = Limit::new(Table::new(2)?, 100_000, 8)?;
    let mark = price_within(&book, &limit).ok_or("no price")?;
    assert_eq!(rt; mark.price, 101_000);
    assert_eq!(rt; mark.shares, 100);
    assert_eq!(rt; mark.surplus, 100);
    let mut fills = [fill(9, 9); 5];
    assert_eq!(rt;
        book.fill(&PriceTime, mark.price, mark.shares, &mut fills)?,
        3
    );
    assert_eq!(rt;
        fills,
        [
            fill(1, 100),
            fill(3, 80),
            fill(4, 20),
            fill(9, 9),
            fill(9, 9),
        ]
    );
    Ok(())
}

#[test]
fn a_tie_goes_to_the_higher_rung(rt: HostRuntime) -> Result<(), Fail> {
    let lines = [
        order(1, Side::Buy, 101_000, 100, 20240105),
        order(2, Side::Sell, 99_000, 100, 20240105),
        order(7, Side::Buy, 90_000, 100, 20240105),
    ];
    let book = Book::new(&lines, 3, 8)?;
    let table = Limit::new(Table::new(2)?, 100_250, 8)?;
    assert_eq!(rt;
        price_within(&book, &table).ok_or("no price")?.price,
        100_500
    );
    let flat = Limit::new(Flat::new(7)?, 100_250, 8)?;
    assert_eq!(rt;
        price_within(&book, &flat).ok_or("no price")?.price,
        100_247
    );
    let none = Limit::new(Flat::new(1_000_000)?, 100_250, 8)?;
    assert!(rt; price_within(&book, &none).is_none());
    Ok(())
}

#[test]
fn merit_is_price_then_number(rt: HostRuntime) -> Result<(), Fail> {
    let lines = [
        order(1, Side::Buy, 100, 5, 20240105),
        order(2, Side::Buy, 101, 5, 20240105),
        order(3, Side::Buy, 101, 5, 20240105),
        order(4, Side::Sell, 90, 9, 20240105),
    ];
    let book = Book::new(&lines, 4, 5)?;
    let mut fills = [fill(0, 0); 4];
    assert_eq!(rt; book.fill(&PriceTime, 100, 9, &mut fills)?, 3);
    assert_eq!(rt; fills, [fill(2, 5), fill(3, 4), fill(4, 9), fill(0, 0)]);
    let mut few = [fill(0, 0); 3];
    assert_eq!(rt;
        book.fill(&PriceTime, 100, 9, &mut few),
        Err(Refusal::TooFewRecords)
    );
    Ok(())
}

#[test]
fn orders_are_entered_and_removed(rt: HostRuntime) -> Result<(), Fail> {
    let [first, second, third, _] = four();
    let mut slots = [Order::FREE; 3];
    let mut lines = Lines {
        slots: &mut slots,
        used: 0,
    };
    lines.append(first)?;
    assert_eq!(rt; lines.used, 1);
    lines.append(second)?;
    assert_eq!(rt; lines.used, 2);
    lines.append(third)?;
    assert_eq!(rt; lines.used, 3);
    assert_eq!(rt; lines.append(first), Err(Refusal::NoFreeLine));
    lines.remove(2);
    assert_eq!(rt; lines.used, 2);
    assert_eq!(rt; &*lines.slots, [first, third, Order::FREE].as_slice());
    lines.remove(2);
    assert_eq!(rt; lines.used, 2);
    lines.used = 9;
    lines.remove(1);
    assert_eq!(rt; lines.used, 2, "free lines are taken for used ones");
    Ok(())
}

#[test]
fn orders_lapse_by_their_last_day(rt: HostRuntime) -> Result<(), Fail> {
    let mut slots = four();
    let [_, second, _, fourth] = slots;
    let mut lines = Lines {
        slots: &mut slots,
        used: 4,
    };
    lines.lapse_before(Date::try_from(20240105)?);
    assert_eq!(rt; lines.used, 4);
    lines.lapse_on(Date::try_from(20240105)?);
    assert_eq!(rt; lines.used, 2);
    assert_eq!(rt;
        &*lines.slots,
        [second, fourth, Order::FREE, Order::FREE].as_slice()
    );
    lines.lapse_before(Date::try_from(20240113)?);
    assert_eq!(rt; lines.used, 1);
    assert_eq!(rt; slots, [fourth, Order::FREE, Order::FREE, Order::FREE]);
    Ok(())
}

#[test]
fn fills_are_settled(rt: HostRuntime) {
    let mut slots = four();
    let [_, second, _, mut fourth] = slots;
    fourth.left = 100;
    let mut lines = Lines {
        slots: &mut slots,
        used: 4,
    };
    lines.settle(&[fill(1, 100), fill(3, 80), fill(4, 20)]);
    assert_eq!(rt; lines.used, 2);
    assert_eq!(rt; slots, [second, fourth, Order::FREE, Order::FREE]);
}

#[test]
fn unsound_lines_are_refused(rt: HostRuntime) {
    let unsound = Some(Refusal::UnsoundLines);
    assert_eq!(rt;
        Book::new(&four(), 4, 4).err(),
        unsound,
        "the next number is in use"
    );
    assert_eq!(rt;
        Book::new(&four(), 5, 9).err(),
        unsound,
        "fewer lines than used"
    );
    let mut lines = four();
    lines[3].number = 3;
    assert_eq!(rt; Book::new(&lines, 4, 9).err(), unsound, "two of one number");
    assert_eq!(rt;
        Book::new(&lines, 3, 9).err(),
        None,
        "a free line may hold anything"
    );
    lines[0].left = 101;
    assert_eq!(rt;
        Book::new(&lines, 3, 9).err(),
        unsound,
        "more left than entered"
    );
    lines[0] = Order::FREE;
    assert_eq!(rt;
        Book::new(&lines, 3, 9).err(),
        unsound,
        "a free line among the used"
    );
}
