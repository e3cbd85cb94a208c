// The estimate of heat that no meter counted.
ghost use Rattle.std.specs.Prelude.{◌≡◌, ◌≤◌, true, false, int_le};
ghost use Rattle.sharing.specs.Amounts.{megajoules};
ghost use Rattle.sharing.specs.Refusals.{decided};
ghost use Rattle.tariff.specs.Estimates.{above, days_within, estimate_why, estimated, formula_heat, formula_within, heats_within, temperature, temperatures_within};

use crate::limits::{MOST_DAYS, MOST_TENTHS};
use sharing::amount::Megajoules;
use sharing::limits::MOST_QUANTITY;
use sharing::refusal::Refusal;
use sharing::rounding::{Fraction, Nearest, Rounding};

// The formula for a damaged meter; temperatures are in tenths of °C.
#[derive(Clone, Copy)]
pub struct Formula {
    // weather-dependent heat of the month before the damage
    pub qow: Megajoules,
    // weather-independent heat of that month
    pub qcwt: Megajoules,
    // indoor temperature
    pub tw: i64,
    // mean outdoor temperature of the days without metering
    pub tb: i64,
    // mean outdoor temperature of the month before
    pub to: i64,
    // days without metering
    pub hb: u64,
    // days of the month before
    pub ho: u64,
}

// An amount that was agreed on, or the formula.
#[derive(Clone, Copy)]
pub enum Estimate {
    Agreed(Megajoules),
    Formula(Formula),
}

// The heat that an estimate comes to.
pub fn estimated_heat(estimate: &Estimate) -> Result<Megajoules, Refusal>
    ensures { result ≡ decided (estimate_why estimate.now) (megajoules (estimated estimate.now)) }
{
    match estimate {
        Estimate::Agreed(heat) => {
            if heat.0 > u64::from(MOST_QUANTITY) {
                return Err(Refusal::OutOfRange);
            }
            Ok(*heat)
        }
        Estimate::Formula(formula) => {
            if !formula.within() {
                return Err(Refusal::OutOfRange);
            }
            if formula.to >= formula.tw {
                return Err(Refusal::NotColder);
            }
            let heat = formula.heat();
            if heat > u64::from(MOST_QUANTITY) {
                return Err(Refusal::TooMuchHeat);
            }
            Ok(Megajoules::new(heat))
        }
    }
}

impl Formula {
    // Whether every number is within its limits.
    pub fn within(&self) -> bool
        ensures { result ≡ formula_within self.now }
    {
        self.heats_within() && self.temperatures_within() && self.days_within()
    }

    fn heats_within(&self) -> bool
        ensures { result ≡ heats_within self.now }
    {
        self.qow.0 <= u64::from(MOST_QUANTITY) && self.qcwt.0 <= u64::from(MOST_QUANTITY)
    }

    fn temperatures_within(&self) -> bool
        ensures { result ≡ temperatures_within self.now }
    {
        is_temperature(self.tw) && is_temperature(self.tb) && is_temperature(self.to)
    }

    fn days_within(&self) -> bool
        ensures { result ≡ days_within self.now }
    {
        self.hb <= MOST_DAYS as u64 && (1..=MOST_DAYS as u64).contains(&self.ho)
    }

    // The whole formula as one fraction, rounded once.
    fn heat(&self) -> u64
        requires within { formula_within self.now ≡ true }
        requires colder { int_le self.now.tw self.now.to ≡ false }
        ensures { result ≡ formula_heat self.now }
    {
        let colder = degrees_above(self.tw, self.to);
        let heating = self.qow.0 * degrees_above(self.tw, self.tb);
        let number = (heating + self.qcwt.0 * colder) * self.hb;
        Nearest.round(Fraction {
            number,
            divisor: colder * self.ho,
        })
    }
}

fn is_temperature(tenths: i64) -> bool
    ensures { result ≡ temperature tenths }
{
    (-MOST_TENTHS..=MOST_TENTHS).contains(&tenths)
}

// How far x is above y, and 0 where it is not.
fn degrees_above(x: i64, y: i64) -> u64
    requires { (temperature x ≡ true) × (temperature y ≡ true) }
    ensures value { result ≡ above x y }
    ensures bound { result ≤ 1_000 }
    ensures some { int_le x y ≡ false → 1 ≤ result }
{
    (x - y).max(0) as u64
}
