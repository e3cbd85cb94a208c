// Months that are opened, fixed and posted; the expected numbers are worked out by hand.
use crate::fixed::FixedPaper;
use crate::fixing::fix;
use crate::opening::open;
use crate::paper::Readout;
use crate::posting::post;
use book::book::Book;
use book::records::{Meter, Terms};
use book::tables::Places;
use sharing::amount::Megajoules;
use sharing::key::{ByArea, ByPower, SharingKey, SubMeters};
use sharing::refusal::Refusal;
use sharing::rounding::Nearest;
use std::alloc::Global;
use std::test::Fail;
use tariff::estimate::{Estimate, Formula};
use tariff::row::{Prices, Row};

const PRICES: Prices = Prices {
    power: 2_580_396,
    fixed: 1_200_000,
    energy: 3_165,
    variable: 1_000,
    carrier: 1_430,
};

// Places for three objects and so many lines.
fn places(lines: usize) -> Places {
    Places {
        rows: 1,
        recipients: 3,
        nodes: 2,
        objects: 3,
        lines,
    }
}

// Row 0, 100 kW and so much area.
fn terms(area: u64) -> Terms {
    Terms {
        row: 0,
        power: 100,
        area,
    }
}

// Node 0 at month 228 and register 0 with three objects of 100 kW, of which only the second has an area, and node 1 with none.
fn town(heap: Global, places: Places) -> Result<Book, Refusal> {
    let mut book = Book::new(heap, places);
    book.enter_row(Row::Plain(PRICES))?;
    book.enter_node(228, 0)?;
    book.enter_node(1_199, 0)?;
    for area in [0, 5, 0] {
        let recipient = book.enter_recipient()?;
        book.enter_object(0, recipient, terms(area))?;
    }
    Ok(book)
}

fn fixed(
    book: &Book,
    node: usize,
    water: u64,
    closing: Option<u64>,
    estimate: Option<Estimate>,
) -> Result<FixedPaper, Refusal> {
    let paper = open(book, node)?;
    let readout = Readout {
        water,
        closing,
        estimate,
    };
    Ok(fix(book, paper, readout)?)
}

fn why_not(
    book: &Book,
    water: u64,
    closing: Option<u64>,
    estimate: Option<Estimate>,
) -> Option<Refusal> {
    fixed(book, 0, water, closing, estimate).err()
}

fn posted<K: SharingKey>(book: &mut Book, paper: FixedPaper, key: &K) -> Result<(), Refusal> {
    Ok(post(book, paper, key, &Nearest)?)
}

#[test]
fn a_month_is_shared_and_charged(rt: HostRuntime) -> Result<(), Fail> {
    let mut book = town(rt.alloc(), places(3))?;
    let paper = fixed(&book, 0, 1_000, Some(100_000), None)?;
    assert_eq!(rt; paper.fixing.heat, 100_000);
    assert_eq!(rt; posted(&mut book, paper, &ByPower), Ok(()));
    let expected = [
        (33_333, 333, 21_503, 105_499, 476, 170_811),
        (33_334, 334, 21_504, 105_502, 478, 170_818),
        (33_333, 333, 21_503, 105_499, 476, 170_811),
    ];
    let tables = book.tables();
    for (i, (heat, water, power, energy, carrier, balance)) in expected.iter().enumerate() {
        assert!(rt; i < tables.lines.len() && i < tables.recipients.len());
        let line = tables.lines[i];
        assert_eq!(rt; line.object, i);
        assert_eq!(rt; line.recipient, i);
        assert_eq!(rt; line.month, 228);
        assert_eq!(rt; line.weight, 100);
        assert_eq!(rt; line.heat, *heat);
        assert_eq!(rt; line.water, *water);
        assert_eq!(rt; line.amounts.power, *power);
        assert_eq!(rt; line.amounts.fixed, 10_000);
        assert_eq!(rt; line.amounts.energy, *energy);
        assert_eq!(rt; line.amounts.variable, *heat);
        assert_eq!(rt; line.amounts.carrier, *carrier);
        assert_eq!(rt; line.amounts.other, 0);
        assert_eq!(rt; tables.recipients[i].balance, *balance);
    }
    assert!(rt; tables.nodes.len() == 2);
    assert_eq!(rt; tables.nodes[0].month, 229);
    assert_eq!(rt; tables.nodes[0].register, 100_000);
    Ok(())
}

#[test]
fn nothing_used_costs_the_power(rt: HostRuntime) -> Result<(), Fail> {
    let mut book = town(rt.alloc(), places(3))?;
    let paper = fixed(&book, 0, 0, Some(0), None)?;
    assert_eq!(rt; posted(&mut book, paper, &ByPower), Ok(()));
    let tables = book.tables();
    assert!(rt; tables.lines.len() == 3 && tables.recipients.len() == 3);
    assert_eq!(rt; tables.lines[1].heat, 0);
    assert_eq!(rt; tables.lines[1].amounts.energy, 0);
    assert_eq!(rt; tables.recipients[0].balance, 31_503);
    assert_eq!(rt; tables.recipients[1].balance, 31_504);
    assert_eq!(rt; tables.recipients[2].balance, 31_503);
    Ok(())
}

#[test]
fn a_weight_of_nothing_gets_nothing(rt: HostRuntime) -> Result<(), Fail> {
    let mut book = town(rt.alloc(), places(3))?;
    let paper = fixed(&book, 0, 1_000, Some(100_000), None)?;
    assert_eq!(rt; posted(&mut book, paper, &ByArea), Ok(()));
    let lines = &book.tables().lines;
    assert!(rt; lines.len() == 3);
    assert_eq!(rt; lines[0].heat, 0);
    assert_eq!(rt; lines[1].heat, 100_000);
    assert_eq!(rt; lines[1].water, 1_000);
    assert_eq!(rt; lines[2].heat, 0);
    assert_eq!(rt; lines[2].amounts.power, 21_503);
    Ok(())
}

#[test]
fn a_faulted_month_takes_an_estimate(rt: HostRuntime) -> Result<(), Fail> {
    let mut book = town(rt.alloc(), places(3))?;
    let agreed = Some(Estimate::Agreed(Megajoules::new(600)));
    assert_eq!(rt; why_not(&book, 0, None, None), Some(Refusal::NotAsDue));
    let refused = why_not(&book, 0, Some(0), agreed);
    assert_eq!(rt; refused, Some(Refusal::NotAsDue));
    book.report_fault(0, 400)?;
    assert_eq!(rt; why_not(&book, 0, None, None), Some(Refusal::NotAsDue));
    let refused = why_not(&book, 0, Some(400), agreed);
    assert_eq!(rt; refused, Some(Refusal::NotAsDue));
    let paper = fixed(&book, 0, 0, None, agreed)?;
    assert_eq!(rt; paper.fixing.heat, 1_000);
    assert_eq!(rt; paper.fixing.estimate, 600);
    assert_eq!(rt; posted(&mut book, paper, &ByPower), Ok(()));
    assert!(rt; book.tables().nodes.len() == 2);
    let node = book.tables().nodes[0];
    assert_eq!(rt; node.register, 400);
    assert_eq!(rt; node.carried, 0);
    assert_eq!(rt; node.events, 0);
    assert_eq!(rt; node.meter, Meter::Faulted);
    Ok(())
}

#[test]
fn given_numbers_are_refused(rt: HostRuntime) -> Result<(), Fail> {
    let mut book = town(rt.alloc(), places(3))?;
    let far = 1_000_000_000_000;
    let refused = why_not(&book, 100_000_001, Some(0), None);
    assert_eq!(rt; refused, Some(Refusal::OutOfRange));
    let refused = why_not(&book, 0, Some(far + 1), None);
    assert_eq!(rt; refused, Some(Refusal::OutOfRange));
    let refused = why_not(&book, 0, Some(100_000_001), None);
    assert_eq!(rt; refused, Some(Refusal::TooMuchHeat));
    book.report_fault(0, 5)?;
    book.repair(0, 7)?;
    let refused = why_not(&book, 0, Some(6), None);
    assert_eq!(rt; refused, Some(Refusal::RegisterFalls));
    let warm = Estimate::Formula(Formula {
        qow: Megajoules::new(1_000),
        qcwt: Megajoules::new(0),
        tw: 200,
        tb: 0,
        to: 200,
        hb: 10,
        ho: 30,
    });
    let refused = why_not(&book, 0, Some(7), Some(warm));
    assert_eq!(rt; refused, Some(Refusal::NotColder));
    Ok(())
}

#[test]
fn a_paper_goes_out_of_date(rt: HostRuntime) -> Result<(), Fail> {
    let mut book = town(rt.alloc(), places(3))?;
    let first = fixed(&book, 0, 0, Some(10), None)?;
    let second = fixed(&book, 0, 0, Some(20), None)?;
    assert_eq!(rt; posted(&mut book, first, &ByPower), Ok(()));
    let refused = posted(&mut book, second, &ByPower);
    assert_eq!(rt; refused, Err(Refusal::Full));
    let mut book = town(rt.alloc(), places(6))?;
    let first = fixed(&book, 0, 0, Some(10), None)?;
    let second = fixed(&book, 0, 0, Some(20), None)?;
    assert_eq!(rt; posted(&mut book, first, &ByPower), Ok(()));
    let refused = posted(&mut book, second, &ByPower);
    assert_eq!(rt; refused, Err(Refusal::OutOfDate));
    let third = fixed(&book, 0, 0, Some(30), None)?;
    book.report_fault(0, 30)?;
    let refused = posted(&mut book, third, &ByPower);
    assert_eq!(rt; refused, Err(Refusal::OutOfDate));
    assert_eq!(rt; book.tables().lines.len(), 3);
    Ok(())
}

#[test]
fn a_month_wants_objects_and_weights(rt: HostRuntime) -> Result<(), Fail> {
    let mut book = town(rt.alloc(), places(3))?;
    let paper = fixed(&book, 1, 0, Some(0), None)?;
    let refused = posted(&mut book, paper, &ByPower);
    assert_eq!(rt; refused, Err(Refusal::NoObjects));
    let paper = fixed(&book, 0, 0, Some(0), None)?;
    let refused = posted(&mut book, paper, &SubMeters { readings: &[] });
    assert_eq!(rt; refused, Err(Refusal::NoWeight));
    book.change_object(1, terms(0))?;
    let paper = fixed(&book, 0, 0, Some(0), None)?;
    let refused = posted(&mut book, paper, &ByArea);
    assert_eq!(rt; refused, Err(Refusal::NoWeight));
    assert_eq!(rt; book.tables().lines.len(), 0);
    Ok(())
}
