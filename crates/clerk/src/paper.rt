// What papers say, in plain numbers, and what is read for them.
use tariff::estimate::Estimate;

// A paper for a node's month on which no heat is fixed yet. Only opening makes one.
#[derive(Drop)]
pub struct OpenedPaper {
    pub(crate) node: usize,
    pub(crate) month: u16,
}

// What is read of a month, and the estimate where one is due.
#[derive(Clone, Copy)]
pub struct Readout {
    // litres
    pub water: u64,
    // MJ, where the meter works
    pub closing: Option<u64>,
    pub estimate: Option<Estimate>,
}

// What a fixing puts on a paper.
#[derive(Clone, Copy, Debug, PartialEq, Eq)]
pub struct Fixing {
    pub node: usize,
    pub month: u16,
    // the month's heat, MJ
    pub heat: u32,
    // litres
    pub water: u32,
    // the part of the heat that was estimated, MJ
    pub estimate: u32,
    // the closing register, where the meter worked
    pub closing: Option<u64>,
    // the node's event count
    pub events: u8,
}
