// The limits of days and temperatures, each named once here and once in specs/Limits.antt.

// The days of the longest month, and the lines of a period.
pub const MOST_DAYS: usize = 31;

// A temperature in °C is from minus this to this.
pub const MOST_DEGREES: f64 = 50.0;

// The same in tenths.
pub const MOST_TENTHS: i64 = 500;
