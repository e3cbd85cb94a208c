// Why a call is refused.
ghost use Rattle.std.specs.Prelude.{◌≡◌, Some};
ghost use Rattle.sharing.specs.Order.{Ascend};
ghost use Rattle.sharing.specs.Refusals.{number, words, Smallest};

use std::fmt;

// Each case with its number, smaller numbers first; docs/REFUSALS.md says when each is answered.
#[derive(Clone, Copy, Debug, PartialEq, Eq)]
pub enum Refusal {
    // a table has no places for all that the call would add
    Full = 1,
    // a number names something that is not in use
    Unknown = 2,
    // a given number is outside its limits or no number, or a lowest is above its highest
    OutOfRange = 3,
    // thousandths that do not make 1,000, or mixed rows too deep
    WrongMix = 4,
    // more objects than a node may have
    NodeFull = 5,
    // a mixed price passes its limit
    PriceTooHigh = 6,
    // a fault on a faulted meter, or a repair on a working one
    WrongMeterState = 7,
    // more faults and repairs than a month may have
    TooManyEvents = 8,
    // a register below the stored one
    RegisterFalls = 9,
    // a closing register or an estimate that is not due, or a missing one that is
    NotAsDue = 10,
    // the month before was outdoors not colder than it is indoors
    NotColder = 11,
    // heat that was worked out passes its limit
    TooMuchHeat = 12,
    // no day of the period was observed
    NoObservation = 13,
    // the paper's month or event count is not the node's
    OutOfDate = 14,
    // a node without objects
    NoObjects = 15,
    // an object without a weight, or weights that are all 0
    NoWeight = 16,
    // a month of a node without month lines
    NotPosted = 17,
    // the node's last month is posted
    NoMonthLeft = 18,
    // the names line of a readings file is wrong or missing
    WrongNames = 19,
    // a line of a readings file has not three fields
    WrongFieldCount = 20,
    // a field of a readings file is no value
    NotAValue = 21,
    // stored tables that disagree, or a number that the call would leave past its limit
    Unsound = 22,
    // want of memory
    Memory = 255,
}

impl Refusal {
    // The number by which the refusal is reported; `u8::from(refusal)` would not say that.
    pub fn number(self) -> u8
        ensures { result ≡ number self }
    {
        self as u8
    }

    // What it means, in a few words.
    pub fn meaning(self) -> &'static str
        ensures { result.now ≡ words self }
    {
        match self {
            Refusal::Full => "table full",
            Refusal::Unknown => "number not in use",
            Refusal::OutOfRange => "outside its limits",
            Refusal::WrongMix => "wrong mix of rows",
            Refusal::NodeFull => "node full",
            Refusal::PriceTooHigh => "mixed price past its limit",
            Refusal::WrongMeterState => "meter already in that state",
            Refusal::TooManyEvents => "too many faults and repairs",
            Refusal::RegisterFalls => "register falls",
            Refusal::NotAsDue => "closing register or estimate not as due",
            Refusal::NotColder => "month before not colder than indoors",
            Refusal::TooMuchHeat => "too much heat",
            Refusal::NoObservation => "no day observed",
            Refusal::OutOfDate => "paper out of date",
            Refusal::NoObjects => "node without objects",
            Refusal::NoWeight => "no weight",
            Refusal::NotPosted => "month not posted",
            Refusal::NoMonthLeft => "no month left",
            Refusal::WrongNames => "wrong line of names",
            Refusal::WrongFieldCount => "not three fields",
            Refusal::NotAValue => "not a value",
            Refusal::Unsound => "tables disagree or a number past its limit",
            Refusal::Memory => "want of memory",
        }
    }
}

// A call's refusal, and what was given to the call, as it was.
#[derive(Clone, Copy, Debug, PartialEq, Eq, Drop)]
pub struct Refused<T> {
    pub given: T,
    pub refusal: Refusal,
}

impl<T: Drop> From<Refused<T>> for Refusal {
    ghost from_gives = { λ x y. y ≡ x.refusal };

    fn from(refused: Refused<T>) -> Refusal {
        refused.refusal
    }
}

impl fmt::Display for Refusal {
    ghost output = { λ x. Some (words x) };

    fn fmt<W: fmt::Write>(&self, f: &mut fmt::Formatter<W>) -> fmt::Result {
        f.write_str(self.meaning())
    }
}

// Of all the conditions that hold, the call answers the one with the smallest number. The function does nothing: its contract is the statement.
pub fn smallest_is_answered()
    ensures smallest { Smallest }
    ensures ascend { Ascend }
{}
