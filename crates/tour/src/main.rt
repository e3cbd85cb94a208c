#![tactic(auto)]
// A tour: one node's month is divided among three objects and charged, and each step is printed.
mod damage;
mod month;
mod prices;
mod show;
mod stop;

use stop::Stop;

fn main(rt: HostRuntime) -> Result<(), Stop> {
    let end = tour(&rt);
    if let Err(Stop::Refused(refusal)) = &end {
        let number = refusal.number();
        eprintln!(rt; "refused with {number}")?;
    }
    end
}

fn tour(rt: &HostRuntime) -> Result<(), Stop> {
    let uses = month::divide(rt)?;
    prices::charge(rt, &uses)?;
    damage::estimate(rt)
}
