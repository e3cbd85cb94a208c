// Rows that keep the rules, by their type, and what they are asked.
ghost use Rattle.std.specs.Prelude.{◌≡◌, ◌<◌, true, is_ok, length, MatchResult};
ghost use Rattle.sharing.specs.Refusals.{decided};
ghost use Rattle.sharing.specs.declared.refusal.Refusal.TheVariants.{Unsound};
ghost use Rattle.tariff.specs.Rows.{PriceLaw, depth, price, price_why, rows_good};

use crate::charge::Charge;
use crate::mixing::Mixing;
use crate::row::Row;
use crate::rules::keep_rules;
use sharing::refusal::Refusal;

// Rows of which each keeps the rules above the rows below it.
#[derive(Clone, Copy)]
pub struct Rows<'a> {
    pub rows: &'a [Row],
    ghost good: { rows_good rows.now ≡ true },
}

impl<'a> Rows<'a> {
    // The rows, if each keeps the rules.
    pub fn new(rows: &'a [Row]) -> Result<Self, Refusal>
        ensures test { is_ok result ≡ rows_good rows.now }
        ensures cases { MatchResult result (λ r. r.rows.now ≡ rows.now) (λ f. f ≡ Unsound) }
    {
        if !keep_rules(rows) {
            return Err(Refusal::Unsound);
        }
        Ok(Rows { rows })
    }

    // The price of a row that a charge goes by.
    pub fn price(&self, row: usize, charge: Charge) -> Result<u64, Refusal>
        ensures value { result ≡ decided (price_why self.now.rows.now row) (price charge self.now.rows.now row) }
        ensures law { PriceLaw self.now.rows.now }
    {
        if row >= self.rows.len() {
            return Err(Refusal::Unknown);
        }
        Ok(self.price_of(row, charge))
    }

    // The price of a row in use, by recursion over mixed rows with falling row number.
    #[cycle(price)]
    pub(crate) fn price_of(&self, row: usize, charge: Charge) -> u64
        requires { row < length self.now.rows.now }
        ensures { result ≡ price charge self.now.rows.now row }
    {
        match &self.rows[row] {
            Row::Plain(prices) => prices.of(charge),
            Row::Mixed(mix) => Mixing { rows: *self, mix }.price(charge),
        }
    }

    // How many mixed rows stand on one another down to a row in use; one recursion for prices and depths would take both ends as closures.
    #[cycle(depth)]
    pub(crate) fn depth_of(&self, row: usize) -> u64
        requires { row < length self.now.rows.now }
        ensures { result ≡ depth self.now.rows.now row }
    {
        match &self.rows[row] {
            Row::Plain(_) => 0,
            Row::Mixed(mix) => Mixing { rows: *self, mix }.depth(),
        }
    }
}
