// The weather: days by their temperatures, and the mean of a period in tenths of °C.
ghost use Rattle.std.specs.Prelude.{◌≡◌, ◌*◌, ◌≤◌, true, pos, neg_ℤ, ◌≤ℤ◌, IfOk};
ghost use Rattle.sharing.specs.Refusals.{decided};
ghost use Rattle.tariff.specs.Weather.{Bounded, degree, halves_up, line_good, line_why, middle, most_days, most_tenths, observed, period_mean, period_why, tenths};

use crate::limits::{MOST_DAYS, MOST_DEGREES};
use sharing::refusal::Refusal;
use std::num::saturating_f64_to_i32;

// A day's lowest and highest temperature, °C.
#[derive(Clone, Copy)]
pub struct Extremes {
    pub lowest: f64,
    pub highest: f64,
}

// A day: its mean temperature in °C, its extremes, or no observation.
#[derive(Clone, Copy)]
pub enum WeatherLine {
    Mean(f64),
    Extremes(Extremes),
    Missing,
}

impl Extremes {
    // Half the sum.
    pub fn mean(&self) -> f64
        ensures { result ≡ middle self.now }
    {
        (self.lowest + self.highest) / 2.0
    }
}

impl WeatherLine {
    // Whether its temperatures are within their limit, and the lowest is not above the highest.
    fn is_good(&self) -> bool
        ensures { result ≡ line_good self.now }
    {
        match self {
            WeatherLine::Mean(mean) => is_degree(*mean),
            WeatherLine::Extremes(Extremes { lowest, highest }) => {
                is_degree(*lowest) && is_degree(*highest) && *lowest <= *highest
            }
            WeatherLine::Missing => true,
        }
    }
}

// Whether a temperature is within its limit; what is not a number fails both comparisons.
fn is_degree(celsius: f64) -> bool
    ensures { result ≡ degree celsius }
{
    (-MOST_DEGREES..=MOST_DEGREES).contains(&celsius)
}

// The nearest tenth, halves away from zero.
fn in_tenths(celsius: f64) -> i32
    requires { degree celsius ≡ true }
    ensures { result ≡ tenths celsius }
{
    saturating_f64_to_i32((celsius * 10.0).round())
}

// A day's temperature in tenths of °C, if it was observed.
pub fn day_tenths(line: &WeatherLine) -> Result<Option<i32>, Refusal>
    ensures { result ≡ decided (line_why line.now) (observed line.now) }
{
    if !line.is_good() {
        return Err(Refusal::OutOfRange);
    }
    match line {
        WeatherLine::Mean(mean) => Ok(Some(in_tenths(*mean))),
        WeatherLine::Extremes(extremes) => Ok(Some(in_tenths(extremes.mean()))),
        WeatherLine::Missing => Ok(None),
    }
}

// The mean of a period's observed days in tenths of °C, halves up.
pub fn period_mean(lines: &[WeatherLine]) -> Result<i32, Refusal>
    ensures value { result ≡ decided (period_why lines.now) (period_mean lines.now) }
    ensures within { IfOk result Bounded }
{
    if lines.len() > MOST_DAYS {
        return Err(Refusal::OutOfRange);
    }
    let mut sum: i32 = 0;
    let mut days: u16 = 0;
    for line in lines {
        if let Some(tenths) = day_tenths(line)? {
            sum += tenths;
            days += 1;
        }
    }
    if days == 0 {
        return Err(Refusal::NoObservation);
    }
    Ok(rounded_mean(sum, days))
}

// The sum over the days to the nearest whole number, halves up.
fn rounded_mean(sum: i32, days: u16) -> i32
    requires few { (1 ≤ days) × (days ≤ most_days) }
    requires low { neg_ℤ (pos (most_tenths * days)) ≤ℤ sum }
    requires high { sum ≤ℤ pos (most_tenths * days) }
    ensures value { result ≡ halves_up sum days }
    ensures within { Bounded result }
{
    let days = i32::from(days);
    (2 * sum + days).div_euclid(2 * days)
}
