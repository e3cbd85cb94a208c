// Examples and edges; the expected numbers are worked out by hand.
use crate::charge::Charge;
use crate::charges::{Use, charges};
use crate::estimate::{Estimate, Formula, estimated_heat};
use crate::row::{Mix, MixPart, Prices, Row};
use crate::rows::Rows;
use sharing::amount::{Litres, Megajoules};
use sharing::refusal::Refusal;

// A plain row with one price for all charges.
fn plain(price: u64) -> Row {
    Row::Plain(level(price))
}

fn level(price: u64) -> Prices {
    Prices {
        power: price,
        fixed: price,
        energy: price,
        variable: price,
        carrier: price,
    }
}

fn mixed(a: usize, of_a: u64, b: usize, of_b: u64, addend: u64) -> Row {
    Row::Mixed(Mix {
        a: MixPart {
            row: a,
            thousandths: of_a,
        },
        b: MixPart {
            row: b,
            thousandths: of_b,
        },
        addend: level(addend),
    })
}

// The check of a row above rows that keep the rules.
fn checked(rows: &[Row], row: Row) -> Result<(), Refusal> {
    Rows::new(rows)?.check(&row)
}

fn price(rows: &[Row], row: usize) -> Result<u64, Refusal> {
    Rows::new(rows)?.price(row, Charge::Energy)
}

#[test]
fn prices_are_mixed(rt: HostRuntime) {
    let rows = [
        plain(1_000),
        plain(2_000),
        mixed(0, 644, 1, 356, 20),
        plain(0),
        plain(1),
        mixed(3, 500, 4, 500, 0),
    ];
    assert_eq!(rt; price(&rows, 0), Ok(1_000));
    assert_eq!(rt; price(&rows, 2), Ok(1_376));
    assert_eq!(rt; price(&rows, 5), Ok(1));
    assert_eq!(rt; price(&rows, 6), Err(Refusal::Unknown));
    assert_eq!(rt;
        price(&[mixed(0, 500, 0, 500, 0)], 0),
        Err(Refusal::Unsound)
    );
}

#[test]
fn rows_are_checked(rt: HostRuntime) {
    let rows = [plain(100_000), plain(0)];
    assert_eq!(rt; checked(&rows, plain(100_000)), Ok(()));
    assert_eq!(rt; checked(&rows, plain(100_001)), Err(Refusal::OutOfRange));
    assert_eq!(rt; checked(&rows, mixed(1, 500, 1, 500, 100_000)), Ok(()));
    assert_eq!(rt;
        checked(&rows, mixed(1, 500, 1, 500, 100_001)),
        Err(Refusal::OutOfRange)
    );
    assert_eq!(rt;
        checked(&rows, mixed(2, 500, 1, 500, 100_001)),
        Err(Refusal::Unknown)
    );
    assert_eq!(rt;
        checked(&rows, mixed(0, 501, 1, 500, 0)),
        Err(Refusal::WrongMix)
    );
    assert_eq!(rt;
        checked(&rows, mixed(0, u64::MAX, 1, 1_001, 0)),
        Err(Refusal::WrongMix)
    );
    assert_eq!(rt;
        checked(&rows, mixed(0, 1_000, 1, 0, 1)),
        Err(Refusal::PriceTooHigh)
    );
    assert_eq!(rt;
        checked(&rows, mixed(0, 999, 1, 0, 1)),
        Err(Refusal::WrongMix)
    );
}

#[test]
fn rows_stand_four_deep(rt: HostRuntime) {
    let rows = [
        plain(7),
        mixed(0, 500, 0, 500, 0),
        mixed(1, 1_000, 0, 0, 0),
        mixed(0, 0, 2, 1_000, 0),
    ];
    assert_eq!(rt; checked(&rows, mixed(3, 500, 1, 500, 0)), Ok(()));
    let deep = [
        plain(7),
        mixed(0, 500, 0, 500, 0),
        mixed(1, 1_000, 0, 0, 0),
        mixed(0, 0, 2, 1_000, 0),
        mixed(3, 500, 1, 500, 0),
    ];
    assert_eq!(rt; price(&deep, 4), Ok(7));
    assert_eq!(rt;
        checked(&deep, mixed(4, 500, 0, 500, 0)),
        Err(Refusal::WrongMix)
    );
}

const MONTH: [Row; 1] = [Row::Plain(Prices {
    power: 2_580_396,
    fixed: 1_200_000,
    energy: 3_165,
    variable: 1_000,
    carrier: 1_430,
})];

fn used(heat: u64, water: u64) -> Use {
    Use {
        kw: 100,
        heat: Megajoules::new(heat),
        water: Litres::new(water),
        row: 0,
    }
}

// The first three charges, 0 where there are no more.
fn charged(charge: Charge, uses: &[Use]) -> Result<(u64, u64, u64), Refusal> {
    let parts = charges(Rows::new(&MONTH)?, charge, uses)?;
    let count = |i: usize| parts.get(i).map_or(0, |part| part.0);
    Ok((count(0), count(1), count(2)))
}

#[test]
fn objects_are_charged(rt: HostRuntime) {
    let uses = [used(33_333, 333), used(33_334, 334), used(33_333, 333)];
    assert_eq!(rt; charged(Charge::Power, &uses), Ok((21_503, 21_504, 21_503)));
    assert_eq!(rt; charged(Charge::Fixed, &uses), Ok((10_000, 10_000, 10_000)));
    assert_eq!(rt;
        charged(Charge::Energy, &uses),
        Ok((105_499, 105_502, 105_499))
    );
    assert_eq!(rt;
        charged(Charge::Variable, &uses),
        Ok((33_333, 33_334, 33_333))
    );
    assert_eq!(rt; charged(Charge::Carrier, &uses), Ok((476, 478, 476)));
    assert_eq!(rt; charged(Charge::Carrier, &[]), Ok((0, 0, 0)));
}

#[test]
fn charges_are_refused(rt: HostRuntime) {
    let good = used(100_000_000, 100_000_000);
    let strong = Use {
        kw: 100_001,
        ..good
    };
    let hot = used(100_000_001, 0);
    let wet = used(0, 100_000_001);
    let strange = Use { row: 1, ..hot };
    assert_eq!(rt; charged(Charge::Energy, &[good]), Ok((316_500_000, 0, 0)));
    assert_eq!(rt;
        charged(Charge::Energy, &[good, strong]),
        Err(Refusal::OutOfRange)
    );
    assert_eq!(rt; charged(Charge::Power, &[hot]), Err(Refusal::OutOfRange));
    assert_eq!(rt; charged(Charge::Power, &[wet]), Err(Refusal::OutOfRange));
    assert_eq!(rt; charged(Charge::Power, &[strange]), Err(Refusal::Unknown));
    assert_eq!(rt; charged(Charge::Power, &[good; 65]), Err(Refusal::NodeFull));
}

fn winter() -> Formula {
    Formula {
        qow: Megajoules::new(600_000),
        qcwt: Megajoules::new(90_000),
        tw: 200,
        tb: -10,
        to: 50,
        hb: 10,
        ho: 30,
    }
}

fn by_formula(formula: Formula) -> Result<u64, Refusal> {
    let heat = estimated_heat(&Estimate::Formula(formula))?;
    Ok(heat.0)
}

#[test]
fn heat_is_estimated(rt: HostRuntime) {
    assert_eq!(rt; by_formula(winter()), Ok(310_000));
    let small = Formula {
        qow: Megajoules::new(5),
        qcwt: Megajoules::new(0),
        tw: 200,
        tb: 100,
        to: 50,
        hb: 31,
        ho: 28,
    };
    assert_eq!(rt; by_formula(small), Ok(4));
    assert_eq!(rt;
        by_formula(Formula {
            tb: 200,
            ..winter()
        }),
        Ok(30_000)
    );
    assert_eq!(rt;
        by_formula(Formula {
            tb: 201,
            ..winter()
        }),
        Ok(30_000)
    );
    assert_eq!(rt; by_formula(Formula { hb: 0, ..winter() }), Ok(0));
    assert_eq!(rt;
        estimated_heat(&Estimate::Agreed(Megajoules::new(100_000_000))),
        Ok(Megajoules::new(100_000_000))
    );
}

#[test]
fn estimates_are_refused(rt: HostRuntime) {
    assert_eq!(rt;
        estimated_heat(&Estimate::Agreed(Megajoules::new(100_000_001))),
        Err(Refusal::OutOfRange)
    );
    assert_eq!(rt;
        by_formula(Formula {
            to: 200,
            ..winter()
        }),
        Err(Refusal::NotColder)
    );
    assert_eq!(rt;
        by_formula(Formula {
            to: 500,
            tw: 501,
            ..winter()
        }),
        Err(Refusal::OutOfRange)
    );
    assert_eq!(rt;
        by_formula(Formula {
            tb: -501,
            ..winter()
        }),
        Err(Refusal::OutOfRange)
    );
    assert_eq!(rt;
        by_formula(Formula { ho: 0, ..winter() }),
        Err(Refusal::OutOfRange)
    );
    assert_eq!(rt;
        by_formula(Formula { hb: 32, ..winter() }),
        Err(Refusal::OutOfRange)
    );
    assert_eq!(rt;
        by_formula(Formula {
            qow: Megajoules::new(u64::MAX),
            ..winter()
        }),
        Err(Refusal::OutOfRange)
    );
    let fierce = Formula {
        qow: Megajoules::new(100_000_000),
        qcwt: Megajoules::new(100_000_000),
        tw: 500,
        tb: -500,
        to: 499,
        hb: 31,
        ho: 1,
    };
    assert_eq!(rt; by_formula(fierce), Err(Refusal::TooMuchHeat));
}
