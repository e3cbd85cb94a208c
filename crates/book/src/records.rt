// What the tables hold. Items are numbered from 0 as they were entered.
ghost use Rattle.std.specs.Prelude.{◌≡◌, Some};
ghost use Rattle.book.specs.Records.{amounts_in, kind_number, meter_word};
ghost use Rattle.book.specs.Sound.{of_a_month};

use std::fmt;

#[derive(Clone, Copy, Debug, PartialEq, Eq)]
pub struct Recipient {
    // grosz
    pub balance: i64,
}

#[derive(Clone, Copy, Debug, PartialEq, Eq)]
pub enum Meter {
    Working,
    Faulted,
}

impl fmt::Display for Meter {
    ghost output = { λ m. Some (meter_word m) };

    fn fmt<W: fmt::Write>(&self, f: &mut fmt::Formatter<W>) -> fmt::Result {
        match self {
            Meter::Working => f.write_str("working"),
            Meter::Faulted => f.write_str("faulted"),
        }
    }
}

// What the meter staff reports of a meter.
#[derive(Clone, Copy, Debug, PartialEq, Eq)]
pub enum MeterEvent {
    Fault,
    Repair,
}

// A heat station with one meter.
#[derive(Clone, Copy, Debug, PartialEq, Eq)]
pub struct Node {
    // the next month to be posted
    pub month: u16,
    // MJ
    pub register: u64,
    // heat that was counted and is not yet posted, MJ
    pub carried: u32,
    // faults and repairs since the last posting
    pub events: u8,
    pub meter: Meter,
}

// A building behind a node.
#[derive(Clone, Copy, Debug, PartialEq, Eq)]
pub struct Object {
    pub node: usize,
    pub recipient: usize,
    pub row: usize,
    // kW
    pub power: u32,
    // m²
    pub area: u32,
}

// What an object is charged by, as it is given.
#[derive(Clone, Copy, Debug, PartialEq, Eq)]
pub struct Terms {
    pub row: usize,
    // kW
    pub power: u64,
    // m²
    pub area: u64,
}

// What a journal line is of, by its number.
#[derive(Clone, Copy, Debug, Default, PartialEq, Eq)]
pub enum Kind {
    #[default]
    Month = 1,
    Correction = 2,
    Discount = 3,
    Extra = 4,
    Payment = 5,
}

impl Kind {
    // The number under which it is listed; `u8::from(kind)` would not say that.
    pub fn number(self) -> u8
        ensures { result ≡ kind_number self }
    {
        self as u8
    }

    // Whether a line of it is of a month, or corrects one.
    pub(crate) fn is_of_a_month(self) -> bool
        ensures { result ≡ of_a_month self }
    {
        matches!(self, Kind::Month | Kind::Correction)
    }
}

// The amounts of a line, grosz.
#[derive(Clone, Copy, Debug, Default, PartialEq, Eq)]
pub struct Amounts {
    pub power: i64,
    pub fixed: i64,
    pub energy: i64,
    pub variable: i64,
    pub carrier: i64,
    pub other: i64,
}

impl Amounts {
    // All six, in the order of the journal.
    pub fn list(&self) -> [i64; 6]
        ensures { result ≡ amounts_in self.now }
    {
        [
            self.power,
            self.fixed,
            self.energy,
            self.variable,
            self.carrier,
            self.other,
        ]
    }
}

// A journal line.
#[derive(Clone, Copy, Debug, Default, PartialEq, Eq)]
pub struct Line {
    pub kind: Kind,
    pub node: usize,
    pub month: u16,
    pub object: usize,
    pub recipient: usize,
    pub row: usize,
    pub kw: u32,
    pub weight: u32,
    // MJ
    pub heat: i64,
    // litres
    pub water: u32,
    pub amounts: Amounts,
}
