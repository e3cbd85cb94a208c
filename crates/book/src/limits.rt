// The limits of tables and stored numbers, each named once here and once in specs/Limits.antt.

// The places that a table may have at most.
pub const MOST_ROWS: usize = 256;

pub const MOST_RECIPIENTS: usize = 4_096;

pub const MOST_NODES: usize = 1_024;

pub const MOST_OBJECTS: usize = 8_192;

pub const MOST_LINES: usize = 65_536;

// Months are numbered below this, from January 2000.
pub const MONTHS: u16 = 1_200;

// A register, MJ.
pub const MOST_REGISTER: u64 = 1_000_000_000_000;

// Faults and repairs of a node since its last posting.
pub const MOST_EVENTS: u8 = 62;

// The heat (MJ) and each amount (grosz) of a journal line, either way.
pub const MOST_AMOUNT: i64 = 1_000_000_000_000;

// A balance, either way, grosz.
pub const MOST_BALANCE: i64 = 100_000_000_000_000_000;
