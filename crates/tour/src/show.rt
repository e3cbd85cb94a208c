// How amounts are printed.
use sharing::amount::Amount;
use sharing::key::Basis;
use std::io;

// The weight that the key gave to each object, and their sum.
pub fn weights(rt: &HostRuntime, objects: &[Basis], weights: &[u32]) -> io::Result<()> {
    println!(rt; "weights asked of the key:")?;
    let mut sum: u64 = 0;
    for (basis, weight) in objects.iter().zip(weights.iter()) {
        let object = basis.object;
        let power = basis.power;
        println!(rt; "  object {object} of recipient {object}: {power} kW, weight {weight}")?;
        sum = sum.saturating_add(u64::from(*weight));
    }
    println!(rt; "  sum of the weights: {sum}")
}

// Each running sum with the part that goes out at it, and what has gone out in the end.
pub fn cut<U>(rt: &HostRuntime, addends: &[u64], parts: &[Amount<U>]) -> io::Result<()> {
    let mut sum: u64 = 0;
    let mut given: u64 = 0;
    for (object, (addend, part)) in addends.iter().zip(parts.iter()).enumerate() {
        let count = part.0;
        sum = sum.saturating_add(*addend);
        given = given.saturating_add(count);
        println!(rt; "  object {object}: running sum {sum}, part {count}, given out {given}")?;
    }
    println!(rt; "  sum of the parts: {given}")
}
