// A month with a damaged meter: the outdoor mean from weather lines, and the estimate.
use crate::stop::Stop;
use sharing::amount::Megajoules;
use std::io;
use tariff::estimate::{Estimate, Formula, estimated_heat};
use tariff::weather::{Extremes, WeatherLine, day_tenths, period_mean};

// The days without metering that the weather service reported.
const LINES: [WeatherLine; 4] = [
    WeatherLine::Mean(-1.5),
    WeatherLine::Extremes(Extremes {
        lowest: -3.0,
        highest: 2.0,
    }),
    WeatherLine::Missing,
    WeatherLine::Mean(-1.0),
];

// Indoor temperature, and the outdoor mean of the month before, in tenths of °C.
const INDOOR: i64 = 200;

const BEFORE: i64 = 50;

pub fn estimate(rt: &HostRuntime) -> Result<(), Stop> {
    println!(rt; "weather without metering, in tenths of a degree:")?;
    for (day, line) in LINES.iter().enumerate() {
        show_day(rt, day, day_tenths(line)?)?;
    }
    let tb = i64::from(period_mean(&LINES)?);
    println!(rt; "  mean of the observed days: {tb}")?;
    let formula = Formula {
        qow: Megajoules::new(600_000),
        qcwt: Megajoules::new(90_000),
        tw: INDOOR,
        tb,
        to: BEFORE,
        hb: 10,
        ho: 30,
    };
    let heat = estimated_heat(&Estimate::Formula(formula))?;
    let heat = heat.0;
    let now = INDOOR.saturating_sub(tb);
    let before = INDOOR.saturating_sub(BEFORE);
    println!(rt;
        "estimate for 10 days after a month of 30: (600000 x {now} / {before} + 90000) x 10 / 30"
    )?;
    println!(rt; "  heat: {heat} MJ")?;
    Ok(())
}

fn show_day(rt: &HostRuntime, day: usize, tenths: Option<i32>) -> io::Result<()> {
    match tenths {
        Some(tenths) => println!(rt; "  day {day}: {tenths}"),
        None => println!(rt; "  day {day}: no observation"),
    }
}
