// Examples and edges; the expected numbers are worked out by hand.
use crate::amount::{Amount, Grosz, Litres, Megajoules, Money, PerObject, Unit, Water};
use crate::cut::Cut;
use crate::key::{Basis, ByArea, ByPower, SharingKey, SubMeters, SubReading};
use crate::limits::{MOST_DIVIDEND, MOST_DIVISOR, MOST_OBJECTS, MOST_QUANTITY};
use crate::refusal::Refusal;
use crate::rounding::{Down, Fraction, Nearest, Rounding};
use crate::share::shares;
use crate::weigh::weigh;
use std::marker::PhantomData;
use std::test::Fail;

// The counts of the first four parts, 0 where there are no more.
fn counts<U>(parts: Result<PerObject<Amount<U>>, Refusal>) -> Result<[u64; 4], Refusal> {
    let parts = parts?;
    let count = |i: usize| parts.get(i).map_or(0, |part| part.0);
    Ok([count(0), count(1), count(2), count(3)])
}

#[test]
fn fractions_are_rounded(rt: HostRuntime) {
    // number, divisor, down, nearest
    let cases: [[u64; 4]; 7] = [
        [0, 1, 0, 0],
        [1, 3, 0, 0],
        [1, 2, 0, 1],
        [3, 2, 1, 2],
        [200_000, 3, 66_666, 66_667],
        [14_999_999_999, 30_000_000_000, 0, 0],
        [
            3_000_000_000_000_000_000,
            30_000_000_000,
            100_000_000,
            100_000_000,
        ],
    ];
    for [number, divisor, down, nearest] in cases {
        assert!(rt; number <= MOST_DIVIDEND && divisor >= 1 && divisor <= MOST_DIVISOR);
        let fraction = Fraction { number, divisor };
        assert_eq!(rt; Down.round(fraction), down);
        assert_eq!(rt; Nearest.round(fraction), nearest);
    }
}

#[test]
fn totals_are_shared(rt: HostRuntime) {
    let thirds = [1u32, 1, 1];
    assert_eq!(rt;
        counts(shares(&Nearest, Megajoules::new(100_000), &thirds)),
        Ok([33_333, 33_334, 33_333, 0])
    );
    assert_eq!(rt;
        counts(shares(&Down, Litres::new(100_000), &thirds)),
        Ok([33_333, 33_333, 33_334, 0])
    );
    assert_eq!(rt;
        counts(shares(&Nearest, Grosz::new(0), &thirds)),
        Ok([0, 0, 0, 0])
    );
    assert_eq!(rt;
        counts(shares(&Nearest, Litres::new(7), &[0, 5, 0, 5])),
        Ok([0, 4, 0, 3])
    );
    let most = [MOST_QUANTITY; MOST_OBJECTS];
    assert_eq!(rt;
        counts(shares(&Down, Megajoules::new(100_000_000), &most)),
        Ok([1_562_500, 1_562_500, 1_562_500, 1_562_500])
    );
}

#[test]
fn sharing_is_refused(rt: HostRuntime) {
    let one = Megajoules::new(1);
    assert_eq!(rt;
        counts(shares(&Down, Megajoules::new(100_000_001), &[1])),
        Err(Refusal::OutOfRange)
    );
    assert_eq!(rt;
        counts(shares(&Down, one, &[1, 100_000_001])),
        Err(Refusal::OutOfRange)
    );
    assert_eq!(rt;
        counts(shares(&Down, one, &[1; 65])),
        Err(Refusal::NodeFull)
    );
    assert_eq!(rt;
        counts(shares(&Down, one, &[100_000_001; 65])),
        Err(Refusal::OutOfRange)
    );
    assert_eq!(rt; counts(shares(&Down, one, &[0, 0])), Err(Refusal::NoWeight));
    assert_eq!(rt; counts(shares(&Down, one, &[])), Err(Refusal::NoWeight));
}

#[test]
fn sums_are_cut(rt: HostRuntime) -> Result<(), Fail> {
    let charge: Cut<Nearest, Money> = Cut::new(&Nearest, 12_000)?;
    assert_eq!(rt;
        counts(charge.parts(&[258_039_600; 3])),
        Ok([21_503, 21_504, 21_503, 0])
    );
    assert_eq!(rt; counts(charge.parts(&[])), Ok([0, 0, 0, 0]));
    assert_eq!(rt;
        counts(charge.parts(&[MOST_DIVIDEND])),
        Ok([250_000_000_000_000, 0, 0, 0])
    );
    assert_eq!(rt;
        counts(charge.parts(&[MOST_DIVIDEND, 1])),
        Err(Refusal::OutOfRange)
    );
    assert_eq!(rt;
        counts(charge.parts(&[u64::MAX, u64::MAX])),
        Err(Refusal::OutOfRange)
    );
    assert_eq!(rt; counts(charge.parts(&[0; 65])), Err(Refusal::NodeFull));
    let none: Result<Cut<Down, Water>, Refusal> = Cut::new(&Down, 0);
    assert!(rt; none.is_err());
    let wide: Result<Cut<Down, Water>, Refusal> = Cut::new(&Down, MOST_DIVISOR + 1);
    assert!(rt; wide.is_err());
    Ok(())
}

#[test]
fn keys_weigh_objects(rt: HostRuntime) {
    let basis = Basis {
        object: 7,
        power: 40,
        area: 900,
    };
    assert_eq!(rt; ByPower.ask(basis), Some(40));
    assert_eq!(rt; ByArea.ask(basis), Some(900));
    assert_eq!(rt; SubMeters { readings: &[] }.ask(basis), None);
    let readings = [
        SubReading {
            object: 6,
            heat: Megajoules::new(1),
        },
        SubReading {
            object: 7,
            heat: Megajoules::new(100_000_000),
        },
        SubReading {
            object: 7,
            heat: Megajoules::new(2),
        },
        SubReading {
            object: 8,
            heat: Megajoules::new(100_000_001),
        },
        SubReading {
            object: 8,
            heat: Megajoules::new(3),
        },
    ];
    let meters = SubMeters {
        readings: &readings,
    };
    assert_eq!(rt; meters.ask(basis), Some(100_000_000));
    assert_eq!(rt;
        meters.ask(Basis {
            object: 8,
            power: 40,
            area: 900,
        }),
        None
    );
    assert_eq!(rt;
        meters.ask(Basis {
            object: 9,
            power: 40,
            area: 900,
        }),
        None
    );
}

#[test]
fn weighing_is_refused(rt: HostRuntime) {
    let good = Basis {
        object: 0,
        power: 100_000,
        area: 1_000_000,
    };
    let idle = Basis {
        object: 1,
        power: 0,
        area: 0,
    };
    let strong = Basis {
        object: 2,
        power: 100_001,
        area: 0,
    };
    let wide = Basis {
        object: 3,
        power: 0,
        area: 1_000_001,
    };
    assert_eq!(rt; first(weigh(&ByPower, &[idle, good])), Ok((0, 100_000)));
    assert_eq!(rt; first(weigh(&ByArea, &[good, idle])), Ok((1_000_000, 0)));
    assert_eq!(rt;
        first(weigh(&ByArea, &[good, strong])),
        Err(Refusal::OutOfRange)
    );
    assert_eq!(rt;
        first(weigh(&ByPower, &[good, wide])),
        Err(Refusal::OutOfRange)
    );
    assert_eq!(rt; first(weigh(&ByPower, &[good; 65])), Err(Refusal::NodeFull));
    assert_eq!(rt;
        first(weigh(&ByPower, &[idle, idle])),
        Err(Refusal::NoWeight)
    );
    assert_eq!(rt;
        first(weigh(&SubMeters { readings: &[] }, &[good])),
        Err(Refusal::NoWeight)
    );
}

// The first two weights, 0 where there are no more.
fn first(weights: Result<PerObject<u32>, Refusal>) -> Result<(u32, u32), Refusal> {
    let weights = weights?;
    let weight = |i: usize| weights.get(i).map_or(0, |w| *w);
    Ok((weight(0), weight(1)))
}

#[test]
fn refusals_are_numbered(rt: HostRuntime) {
    assert_eq!(rt; Refusal::Full.number(), 1);
    assert_eq!(rt; Refusal::NoWeight.number(), 16);
    assert_eq!(rt; Refusal::Unsound.number(), 22);
    assert_eq!(rt; Refusal::Memory.number(), 255);
}

// An amount in a constant.
const NORM: Megajoules = Amount(600_000, PhantomData);

// A unit of a caller's own.
struct Power;

impl Unit for Power {
    const NAME: &'static str = "Kilowatts";
}

#[test]
fn amounts_show_their_units(rt: HostRuntime) -> Result<(), Fail> {
    let heap = rt.alloc();
    let Amount(count, _) = NORM;
    assert_eq!(rt; count, 600_000);
    let shown = format!(in heap; "{NORM:?} {:?} {:?}", Litres::new(3), Grosz::default())?;
    assert_eq!(rt; shown.as_str(), "Megajoules(600000) Litres(3) Grosz(0)");
    let ordered: Amount<Power> = Amount::new(7);
    let shown = format!(in heap; "{ordered:?}")?;
    assert_eq!(rt; shown.as_str(), "Kilowatts(7)");
    Ok(())
}
