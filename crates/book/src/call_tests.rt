// The office's and the meter staff's calls at their edges.
use crate::book::Book;
use crate::records::{Meter, Terms};
use crate::tables::Places;
use sharing::refusal::Refusal;
use std::alloc::Global;
use std::test::Fail;
use tariff::row::{Prices, Row};

const PRICES: Prices = Prices {
    power: 0,
    fixed: 0,
    energy: 100_000,
    variable: 0,
    carrier: 0,
};

const DEAR: Prices = Prices {
    power: 0,
    fixed: 0,
    energy: 100_001,
    variable: 0,
    carrier: 0,
};

const PLACES: Places = Places {
    rows: 2,
    recipients: 2,
    nodes: 2,
    objects: 80,
    lines: 0,
};

// A book with a row, a recipient and a node at month 228 and register 500.
fn station(heap: Global, places: Places) -> Result<Book, Refusal> {
    let mut book = Book::new(heap, places);
    book.enter_row(Row::Plain(PRICES))?;
    book.enter_recipient()?;
    book.enter_node(228, 500)?;
    Ok(book)
}

fn terms(row: usize, power: u64, area: u64) -> Terms {
    Terms { row, power, area }
}

#[test]
fn tables_are_full_at_their_places(rt: HostRuntime) -> Result<(), Fail> {
    let heap = rt.alloc();
    let none = Places {
        rows: 0,
        recipients: 0,
        nodes: 0,
        objects: 0,
        lines: 0,
    };
    let mut book = Book::new(heap, none);
    assert_eq!(rt; book.enter_row(Row::Plain(DEAR)), Err(Refusal::Full));
    assert_eq!(rt; book.enter_recipient(), Err(Refusal::Full));
    assert_eq!(rt; book.enter_node(9_999, 0), Err(Refusal::Full));
    assert_eq!(rt; book.enter_object(0, 0, terms(0, 0, 0)), Err(Refusal::Full));
    let one = Places {
        rows: 1,
        recipients: 1,
        nodes: 1,
        objects: 1,
        lines: 0,
    };
    let mut book = station(heap, one)?;
    assert_eq!(rt;
        book.enter_object(0, 0, terms(0, 100_000, 1_000_000)),
        Ok(0)
    );
    assert_eq!(rt; book.enter_row(Row::Plain(PRICES)), Err(Refusal::Full));
    assert_eq!(rt; book.enter_recipient(), Err(Refusal::Full));
    assert_eq!(rt; book.enter_node(0, 0), Err(Refusal::Full));
    assert_eq!(rt; book.enter_object(0, 0, terms(0, 0, 0)), Err(Refusal::Full));
    assert_eq!(rt; book.tables().objects.len(), 1);
    Ok(())
}

#[test]
fn given_numbers_have_limits(rt: HostRuntime) -> Result<(), Fail> {
    let mut book = station(rt.alloc(), PLACES)?;
    assert_eq!(rt; book.enter_row(Row::Plain(DEAR)), Err(Refusal::OutOfRange));
    assert_eq!(rt; book.enter_node(1_201, 0), Err(Refusal::OutOfRange));
    let far = 1_000_000_000_000;
    assert_eq!(rt; book.enter_node(0, far + 1), Err(Refusal::OutOfRange));
    assert_eq!(rt; book.enter_node(1_200, far), Ok(1));
    let refused = book.enter_object(0, 0, terms(0, 100_001, 0));
    assert_eq!(rt; refused, Err(Refusal::OutOfRange));
    let refused = book.enter_object(0, 0, terms(0, 0, 1_000_001));
    assert_eq!(rt; refused, Err(Refusal::OutOfRange));
    assert_eq!(rt; book.enter_object(1, 0, terms(0, 7, 8)), Ok(0));
    let refused = book.change_object(0, terms(0, 100_001, 0));
    assert_eq!(rt; refused, Err(Refusal::OutOfRange));
    let refused = book.report_fault(1, far + 1);
    assert_eq!(rt; refused, Err(Refusal::OutOfRange));
    assert_eq!(rt; book.repair(1, far + 1), Err(Refusal::OutOfRange));
    Ok(())
}

// Two conditions at once: the smaller number is answered.
#[test]
fn unknown_numbers_come_first(rt: HostRuntime) -> Result<(), Fail> {
    let mut book = station(rt.alloc(), PLACES)?;
    for (node, recipient, row) in [(1, 0, 0), (0, 1, 0), (0, 0, 1)] {
        let refused = book.enter_object(node, recipient, terms(row, 100_001, 0));
        assert_eq!(rt; refused, Err(Refusal::Unknown));
    }
    let refused = book.change_object(0, terms(0, 100_001, 0));
    assert_eq!(rt; refused, Err(Refusal::Unknown));
    assert_eq!(rt; book.report_fault(1, u64::MAX), Err(Refusal::Unknown));
    assert_eq!(rt; book.repair(1, u64::MAX), Err(Refusal::Unknown));
    assert_eq!(rt; book.repair(0, u64::MAX), Err(Refusal::OutOfRange));
    assert_eq!(rt; book.repair(0, 0), Err(Refusal::WrongMeterState));
    Ok(())
}

#[test]
fn a_change_keeps_node_and_recipient(rt: HostRuntime) -> Result<(), Fail> {
    let mut book = station(rt.alloc(), PLACES)?;
    assert_eq!(rt; book.enter_recipient(), Ok(1));
    assert_eq!(rt; book.enter_row(Row::Plain(PRICES)), Ok(1));
    assert_eq!(rt; book.enter_object(0, 1, terms(0, 7, 8)), Ok(0));
    assert_eq!(rt;
        book.change_object(0, terms(2, 9, 10)),
        Err(Refusal::Unknown)
    );
    assert_eq!(rt; book.change_object(0, terms(1, 9, 10)), Ok(()));
    let objects = &book.tables().objects;
    assert!(rt; objects.len() == 1);
    let object = objects[0];
    assert_eq!(rt; object.node, 0);
    assert_eq!(rt; object.recipient, 1);
    assert_eq!(rt; object.row, 1);
    assert_eq!(rt; object.power, 9);
    assert_eq!(rt; object.area, 10);
    Ok(())
}

#[test]
fn a_node_takes_64_objects(rt: HostRuntime) -> Result<(), Fail> {
    let mut book = station(rt.alloc(), PLACES)?;
    assert_eq!(rt; book.enter_node(0, 0), Ok(1));
    for number in 0..64 {
        assert_eq!(rt; book.enter_object(0, 0, terms(0, 1, 1)), Ok(number));
    }
    assert_eq!(rt;
        book.enter_object(0, 0, terms(0, 1, 1)),
        Err(Refusal::NodeFull)
    );
    assert_eq!(rt; book.enter_object(1, 0, terms(0, 1, 1)), Ok(64));
    Ok(())
}

#[test]
fn a_rise_is_carried_to_its_limit(rt: HostRuntime) -> Result<(), Fail> {
    let mut book = station(rt.alloc(), PLACES)?;
    assert_eq!(rt; book.report_fault(0, 499), Err(Refusal::RegisterFalls));
    let refused = book.report_fault(0, 100_000_501);
    assert_eq!(rt; refused, Err(Refusal::TooMuchHeat));
    assert_eq!(rt; book.report_fault(0, 100_000_500), Ok(()));
    let refused = book.report_fault(0, 100_000_500);
    assert_eq!(rt; refused, Err(Refusal::WrongMeterState));
    assert_eq!(rt; book.repair(0, 7), Ok(()));
    assert_eq!(rt; book.report_fault(0, 8), Err(Refusal::TooMuchHeat));
    let nodes = &book.tables().nodes;
    assert!(rt; nodes.len() == 1);
    let node = nodes[0];
    assert_eq!(rt; node.month, 228);
    assert_eq!(rt; node.register, 7);
    assert_eq!(rt; node.carried, 100_000_000);
    assert_eq!(rt; node.events, 2);
    assert!(rt; matches!(node.meter, Meter::Working));
    Ok(())
}

#[test]
fn a_node_has_62_events(rt: HostRuntime) -> Result<(), Fail> {
    let mut book = station(rt.alloc(), PLACES)?;
    for _ in 0..31 {
        assert_eq!(rt; book.report_fault(0, 500), Ok(()));
        assert_eq!(rt; book.repair(0, 500), Ok(()));
    }
    assert_eq!(rt; book.report_fault(0, 0), Err(Refusal::TooManyEvents));
    assert_eq!(rt; book.repair(0, 0), Err(Refusal::WrongMeterState));
    Ok(())
}

#[test]
fn reserved_memory_keeps_what_is_held(rt: HostRuntime) -> Result<(), Fail> {
    let mut book = station(rt.alloc(), PLACES)?;
    assert_eq!(rt; book.reserve(), Ok(()));
    assert_eq!(rt; book.tables().nodes.len(), 1);
    assert!(rt; book.tables().objects.capacity() >= 80);
    Ok(())
}
