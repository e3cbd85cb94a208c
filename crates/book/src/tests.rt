// Opening stored tables with one fault of each sort.
use crate::book::Book;
use crate::records::{Amounts, Kind, Line, Meter, Node, Object, Recipient};
use crate::tables::{Places, Tables};
use sharing::refusal::Refusal;
use std::alloc::{AllocError, Global};
use std::test::Fail;
use tariff::row::{Prices, Row};

const PRICES: Prices = Prices {
    power: 0,
    fixed: 0,
    energy: 100_000,
    variable: 0,
    carrier: 0,
};

const RECIPIENT: Recipient = Recipient {
    balance: 100_000_000_000_000_000,
};

const NODE: Node = Node {
    month: 1_200,
    register: 1_000_000_000_000,
    carried: 100_000_000,
    events: 62,
    meter: Meter::Faulted,
};

const OBJECT: Object = Object {
    node: 0,
    recipient: 0,
    row: 0,
    power: 100_000,
    area: 1_000_000,
};

const MOST: i64 = 1_000_000_000_000;

const AMOUNTS: Amounts = Amounts {
    power: MOST,
    fixed: -MOST,
    energy: MOST,
    variable: 0,
    carrier: 0,
    other: 0,
};

const LINE: Line = Line {
    kind: Kind::Month,
    node: 0,
    month: 1_199,
    object: 0,
    recipient: 0,
    row: 0,
    kw: 100_000,
    weight: 100_000_000,
    heat: -MOST,
    water: 100_000_000,
    amounts: AMOUNTS,
};

const PLACES: Places = Places {
    rows: 1,
    recipients: 1,
    nodes: 1,
    objects: 100,
    lines: 1,
};

fn stored(
    heap: Global,
    prices: Prices,
    recipient: Recipient,
    node: Node,
    object: Object,
    line: Line,
) -> Result<Tables, AllocError> {
    Ok(Tables {
        rows: vec![in heap; Row::Plain(prices)]?,
        recipients: vec![in heap; recipient]?,
        nodes: vec![in heap; node]?,
        objects: vec![in heap; object]?,
        lines: vec![in heap; line]?,
        places: PLACES,
    })
}

fn opens(tables: Tables) -> bool {
    Book::from_tables(tables).is_ok()
}

#[test]
fn numbers_at_their_limits_pass(rt: HostRuntime) -> Result<(), Fail> {
    let heap = rt.alloc();
    assert!(rt; opens(stored(heap, PRICES, RECIPIENT, NODE, OBJECT, LINE)?));
    let debtor = Recipient {
        balance: -100_000_000_000_000_000,
    };
    assert!(rt; opens(stored(heap, PRICES, debtor, NODE, OBJECT, LINE)?));
    let payment = Line {
        kind: Kind::Payment,
        node: 9,
        object: 9,
        row: 9,
        ..LINE
    };
    assert!(rt; opens(stored(heap, PRICES, RECIPIENT, NODE, OBJECT, payment)?));
    Ok(())
}

#[test]
fn stored_numbers_past_their_limits_are_refused(rt: HostRuntime) -> Result<(), Fail> {
    let heap = rt.alloc();
    let dear = Prices {
        energy: 100_001,
        ..PRICES
    };
    assert!(rt; !opens(stored(heap, dear, RECIPIENT, NODE, OBJECT, LINE)?));
    for balance in [100_000_000_000_000_001, -100_000_000_000_000_001] {
        assert!(rt; !opens(stored(heap, PRICES, Recipient { balance }, NODE, OBJECT, LINE)?));
    }
    let nodes = [
        Node {
            month: 1_201,
            ..NODE
        },
        Node {
            register: 1_000_000_000_001,
            ..NODE
        },
        Node {
            carried: 100_000_001,
            ..NODE
        },
        Node { events: 63, ..NODE },
    ];
    for node in nodes {
        assert!(rt; !opens(stored(heap, PRICES, RECIPIENT, node, OBJECT, LINE)?));
    }
    Ok(())
}

#[test]
fn objects_that_disagree_are_refused(rt: HostRuntime) -> Result<(), Fail> {
    let heap = rt.alloc();
    let objects = [
        Object { node: 1, ..OBJECT },
        Object {
            recipient: 1,
            ..OBJECT
        },
        Object { row: 1, ..OBJECT },
        Object {
            power: 100_001,
            ..OBJECT
        },
        Object {
            area: 1_000_001,
            ..OBJECT
        },
    ];
    for object in objects {
        assert!(rt; !opens(stored(heap, PRICES, RECIPIENT, NODE, object, LINE)?));
    }
    Ok(())
}

#[test]
fn lines_that_disagree_are_refused(rt: HostRuntime) -> Result<(), Fail> {
    let heap = rt.alloc();
    let lines = [
        Line { node: 1, ..LINE },
        Line { object: 1, ..LINE },
        Line {
            row: 1,
            kind: Kind::Correction,
            ..LINE
        },
        Line {
            recipient: 1,
            kind: Kind::Discount,
            ..LINE
        },
        Line {
            month: 1_200,
            ..LINE
        },
        Line {
            kw: 100_001,
            ..LINE
        },
        Line {
            weight: 100_000_001,
            ..LINE
        },
        Line {
            heat: MOST + 1,
            ..LINE
        },
        Line {
            water: 100_000_001,
            ..LINE
        },
        Line {
            amounts: Amounts {
                power: MOST + 1,
                ..AMOUNTS
            },
            ..LINE
        },
        Line {
            amounts: Amounts {
                other: -MOST - 1,
                ..AMOUNTS
            },
            ..LINE
        },
    ];
    for line in lines {
        assert!(rt; !opens(stored(heap, PRICES, RECIPIENT, NODE, OBJECT, line)?));
    }
    Ok(())
}

#[test]
fn nodes_have_64_objects(rt: HostRuntime) -> Result<(), Fail> {
    let heap = rt.alloc();
    let mut tables = stored(heap, PRICES, RECIPIENT, NODE, OBJECT, LINE)?;
    tables.objects = vec![in heap; OBJECT; 64]?;
    assert!(rt; opens(tables));
    let mut tables = stored(heap, PRICES, RECIPIENT, NODE, OBJECT, LINE)?;
    tables.objects = vec![in heap; OBJECT; 65]?;
    assert!(rt; !opens(tables));
    Ok(())
}

#[test]
fn counts_past_their_places_are_refused_and_given_back(rt: HostRuntime) -> Result<(), Fail> {
    let heap = rt.alloc();
    let mut tables = stored(heap, PRICES, RECIPIENT, NODE, OBJECT, LINE)?;
    tables.places = Places { lines: 0, ..PLACES };
    match Book::from_tables(tables) {
        Ok(_) => Err(Fail::new("accepted")),
        Err(refused) => {
            assert_eq!(rt; refused.refusal, Refusal::Unsound);
            assert_eq!(rt; refused.given.lines.len(), 1);
            assert_eq!(rt; refused.given.places.lines, 0);
            Ok(())
        }
    }
}
