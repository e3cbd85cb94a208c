// Whether a row keeps the rules above the rows below it.
ghost use Rattle.std.specs.Prelude.{◌≡◌};
ghost use Rattle.sharing.specs.Refusals.{decided};
ghost use Rattle.tariff.specs.Rows.{Mixed, row_why};

use crate::mixing::{Mixing, WHOLE};
use crate::row::{Mix, Row};
use crate::rows::Rows;
use sharing::refusal::Refusal;

// How many mixed rows may stand on one another.
const MOST_DEPTH: u64 = 4;

impl<'a> Rows<'a> {
    // Whether a row may be entered above these.
    pub fn check(&self, row: &Row) -> Result<(), Refusal>
        ensures { result ≡ decided (row_why self.now.rows.now row.now) tt }
    {
        match row {
            Row::Plain(prices) => {
                if !prices.within() {
                    return Err(Refusal::OutOfRange);
                }
                Ok(())
            }
            Row::Mixed(mix) => self.check_mix(mix),
        }
    }

    fn check_mix(&self, mix: &Mix) -> Result<(), Refusal>
        ensures { result ≡ decided (row_why self.now.rows.now (Mixed mix.now)) tt }
    {
        if mix.a.row >= self.rows.len() || mix.b.row >= self.rows.len() {
            return Err(Refusal::Unknown);
        }
        if !mix.addend.within() {
            return Err(Refusal::OutOfRange);
        }
        if mix.a.thousandths.checked_add(mix.b.thousandths) != Some(WHOLE) {
            return Err(Refusal::WrongMix);
        }
        let mixing = Mixing { rows: *self, mix };
        if mixing.depth() > MOST_DEPTH {
            return Err(Refusal::WrongMix);
        }
        if !mixing.within() {
            return Err(Refusal::PriceTooHigh);
        }
        Ok(())
    }
}
