// The rows that the list of calls enters: two plain ones, and one mixed from them.
use tariff::row::{Mix, MixPart, Prices, Row};

const PRICES: Prices = Prices {
    power: 2_000_000,
    fixed: 900_000,
    energy: 4_000,
    variable: 1_500,
    carrier: 1_500,
};

const NOTHING: Prices = Prices {
    power: 0,
    fixed: 0,
    energy: 0,
    variable: 0,
    carrier: 0,
};

pub const PLAIN: Row = Row::Plain(PRICES);

pub const MIXED: Row = Row::Mixed(Mix {
    a: MixPart {
        row: 0,
        thousandths: 644,
    },
    b: MixPart {
        row: 1,
        thousandths: 356,
    },
    addend: NOTHING,
});
