// A node's month, divided among its objects.
use crate::show;
use crate::stop::Stop;
use sharing::amount::{Litres, Megajoules, PerObject};
use sharing::key::{Basis, ByPower};
use sharing::refusal::Refusal;
use sharing::rounding::Nearest;
use sharing::share::shares;
use sharing::weigh::weigh;
use tariff::charges::Use;

pub const OBJECTS: usize = 3;

const KW: u32 = 100;

const HEAT: u64 = 100_000;

const WATER: u64 = 1_000;

// The heat and water of each object, shared by ordered power.
pub fn divide(rt: &HostRuntime) -> Result<PerObject<Use>, Stop> {
    println!(rt;
        "month of node 0: {HEAT} MJ and {WATER} l over {OBJECTS} objects, by power and nearest"
    )?;
    let objects = [served(0), served(1), served(2)];
    let weights = weigh(&ByPower, &objects)?;
    show::weights(rt, &objects, &weights)?;
    let heats = shares(&Nearest, Megajoules::new(HEAT), &weights)?;
    println!(rt; "heat in MJ: {HEAT} times the running weights, over their sum")?;
    show::cut(rt, &times(HEAT, &weights), &heats)?;
    let waters = shares(&Nearest, Litres::new(WATER), &weights)?;
    println!(rt; "water in l: {WATER} times the running weights, over their sum")?;
    show::cut(rt, &times(WATER, &weights), &waters)?;
    let mut uses = PerObject::new();
    for (heat, water) in heats.iter().zip(waters.iter()) {
        uses.try_push(used(*heat, *water))
            .map_err(|_| Refusal::NodeFull)?;
    }
    Ok(uses)
}

fn served(object: usize) -> Basis {
    Basis {
        object,
        power: KW,
        area: 0,
    }
}

fn used(heat: Megajoules, water: Litres) -> Use {
    Use {
        kw: KW,
        heat,
        water,
        row: 0,
    }
}

// Each number times the factor.
fn times(factor: u64, numbers: &[u32]) -> [u64; OBJECTS] {
    let mut products = [0u64; OBJECTS];
    for (product, number) in products.iter_mut().zip(numbers.iter()) {
        *product = factor.saturating_mul(u64::from(*number));
    }
    products
}
