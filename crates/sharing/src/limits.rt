// The limits of the quantities, each named once here and once in specs/Limits.antt.

// A month's heat (MJ) or water (litres), and a weight.
pub const MOST_QUANTITY: u32 = 100_000_000;

// Ordered power, kW.
pub const MOST_POWER: u32 = 100_000;

// Floor area, m².
pub const MOST_AREA: u32 = 1_000_000;

// The objects of one node.
pub const MOST_OBJECTS: usize = 64;

// What a rounding rule is asked: a number over a divisor of at least 1.
pub const MOST_DIVIDEND: u64 = 3_000_000_000_000_000_000;

pub const MOST_DIVISOR: u64 = 30_000_000_000;
