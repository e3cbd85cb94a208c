// Examples and edges of the weather; the expected numbers are worked out by hand.
use crate::weather::{Extremes, WeatherLine, day_tenths, period_mean};
use sharing::refusal::Refusal;

fn between(lowest: f64, highest: f64) -> WeatherLine {
    WeatherLine::Extremes(Extremes { lowest, highest })
}

#[test]
fn days_are_rounded(rt: HostRuntime) {
    let cases = [
        (WeatherLine::Mean(1.25), 13),
        (WeatherLine::Mean(-1.25), -13),
        (WeatherLine::Mean(-0.0), 0),
        (WeatherLine::Mean(50.0), 500),
        (WeatherLine::Mean(-50.0), -500),
        (between(1.0, 2.0), 15),
        (between(-3.5, -3.5), -35),
        (between(-50.0, 50.0), 0),
    ];
    for (line, tenths) in cases {
        assert_eq!(rt; day_tenths(&line), Ok(Some(tenths)));
    }
    assert_eq!(rt; day_tenths(&WeatherLine::Missing), Ok(None));
}

#[test]
fn days_are_refused(rt: HostRuntime) {
    let no_number = 0.0 / 0.0;
    let infinite = 1.0 / 0.0;
    let cases = [
        WeatherLine::Mean(50.00000000000001),
        WeatherLine::Mean(-50.00000000000001),
        WeatherLine::Mean(no_number),
        WeatherLine::Mean(infinite),
        WeatherLine::Mean(-infinite),
        between(2.0, 1.0),
        between(no_number, 1.0),
        between(1.0, no_number),
        between(-infinite, 1.0),
        between(1.0, 50.00000000000001),
    ];
    for line in cases {
        assert_eq!(rt; day_tenths(&line), Err(Refusal::OutOfRange));
        let period = [WeatherLine::Missing, line];
        assert_eq!(rt; period_mean(&period), Err(Refusal::OutOfRange));
    }
}

#[test]
fn periods_have_means(rt: HostRuntime) {
    let missing = WeatherLine::Missing;
    let mild = WeatherLine::Mean(1.9);
    let two = WeatherLine::Mean(2.0);
    assert_eq!(rt; period_mean(&[mild, two]), Ok(20));
    assert_eq!(rt; period_mean(&[missing, mild, missing, two]), Ok(20));
    let frost = [WeatherLine::Mean(-1.9), WeatherLine::Mean(-2.0)];
    assert_eq!(rt; period_mean(&frost), Ok(-19));
    assert_eq!(rt; period_mean(&[between(-50.0, -50.0); 31]), Ok(-500));
    assert_eq!(rt; period_mean(&[two; 31]), Ok(20));
    assert_eq!(rt; period_mean(&[two; 32]), Err(Refusal::OutOfRange));
    assert_eq!(rt; period_mean(&[missing; 32]), Err(Refusal::OutOfRange));
    assert_eq!(rt; period_mean(&[missing; 31]), Err(Refusal::NoObservation));
    assert_eq!(rt; period_mean(&[]), Err(Refusal::NoObservation));
}
