// A mixed row above the rows that it names.
ghost use Rattle.std.specs.Prelude.{◌≡◌, ◌+◌, ◌<◌, true, length, nat_le};
ghost use Rattle.std.specs.List.{list_all};
ghost use Rattle.tariff.specs.Charges.{five, most_price};
ghost use Rattle.tariff.specs.Rows.{Mixed, depth, depth_over, price, price_over, prices_within, whole};

use crate::charge::{Charge, FIVE};
use crate::row::Mix;
use crate::rows::Rows;
use sharing::rounding::{Fraction, Nearest, Rounding};

// The thousandths in a whole.
pub(crate) const WHOLE: u64 = 1_000;

// A mix of rows in use by thousandths that make a whole, with an addend within its limits.
#[derive(Clone, Copy)]
pub(crate) struct Mixing<'a> {
    pub(crate) rows: Rows<'a>,
    pub(crate) mix: &'a Mix,
    ghost known: { (mix.now.a.row < length rows.rows.now) × (mix.now.b.row < length rows.rows.now) },
    ghost addend: { prices_within mix.now.addend ≡ true },
    ghost thousand: { mix.now.a.thousandths + mix.now.b.thousandths ≡ whole },
}

impl<'a> Mixing<'a> {
    // Thousandths of two prices, halves up, plus the addend.
    #[cycle(price)]
    pub(crate) fn price(&self, charge: Charge) -> u64
        ensures { result ≡ price_over charge (price charge self.now.rows.rows.now) (Mixed self.now.mix.now) }
    {
        let mix = self.mix;
        let price_a = self.rows.price_of(mix.a.row, charge);
        let price_b = self.rows.price_of(mix.b.row, charge);
        let number = mix.a.thousandths * price_a + mix.b.thousandths * price_b;
        Nearest.round(Fraction {
            number,
            divisor: WHOLE,
        }) + mix.addend.of(charge)
    }

    // Whether every price is within its limit; a trait over these and given prices would be longer than both tests.
    pub(crate) fn within(&self) -> bool
        ensures { result ≡ list_all (λ c. nat_le (price_over c (price c self.now.rows.rows.now) (Mixed self.now.mix.now)) (most_price c)) five }
    {
        FIVE.iter()
            .all(|charge| self.price(*charge) <= charge.most_price())
    }

    // One more than its deeper part.
    #[cycle(depth)]
    pub(crate) fn depth(&self) -> u64
        ensures { result ≡ depth_over (depth self.now.rows.rows.now) (Mixed self.now.mix.now) }
    {
        let mix = self.mix;
        self.rows
            .depth_of(mix.a.row)
            .max(self.rows.depth_of(mix.b.row))
            + 1
    }
}
