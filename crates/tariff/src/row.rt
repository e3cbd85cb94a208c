// A row: the five prices that an object is charged by, given or mixed from two lower rows.
ghost use Rattle.std.specs.Prelude.{◌≡◌};
ghost use Rattle.tariff.specs.Rows.{price_in, prices_within};

use crate::charge::{Charge, FIVE};

// Power and fixed in grosz per MW and year, energy and variable in grosz per GJ, carrier in grosz per m³.
#[derive(Clone, Copy, Debug, PartialEq, Eq)]
pub struct Prices {
    pub power: u64,
    pub fixed: u64,
    pub energy: u64,
    pub variable: u64,
    pub carrier: u64,
}

// A lower row, and how many thousandths of its prices go into a mixed row.
#[derive(Clone, Copy, Debug, PartialEq, Eq)]
pub struct MixPart {
    pub row: usize,
    pub thousandths: u64,
}

// Two parts, and what is added to each of the mixed prices.
#[derive(Clone, Copy, Debug, PartialEq, Eq)]
pub struct Mix {
    pub a: MixPart,
    pub b: MixPart,
    pub addend: Prices,
}

#[derive(Clone, Copy, Debug, PartialEq, Eq)]
pub enum Row {
    Plain(Prices),
    Mixed(Mix),
}

impl Prices {
    // The price that a charge goes by.
    pub fn of(&self, charge: Charge) -> u64
        ensures { result ≡ price_in charge self.now }
    {
        match charge {
            Charge::Power => self.power,
            Charge::Fixed => self.fixed,
            Charge::Energy => self.energy,
            Charge::Variable => self.variable,
            Charge::Carrier => self.carrier,
        }
    }

    // Whether every price is within its limit.
    pub fn within(&self) -> bool
        ensures { result ≡ prices_within self.now }
    {
        FIVE.iter()
            .all(|charge| self.of(*charge) <= charge.most_price())
    }
}
