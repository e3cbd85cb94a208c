// A total shared by weights.
ghost use Rattle.std.specs.Prelude.{◌≡◌, ◌*◌, ◌≤◌, map, length, IfOk, sum, nat_le};
ghost use Rattle.std.specs.List.{list_all};
ghost use Rattle.sharing.specs.Amounts.{amount, counts, per_object};
ghost use Rattle.sharing.specs.Cuts.{shared};
ghost use Rattle.sharing.specs.Limits.{most_objects, most_quantity};
ghost use Rattle.sharing.specs.Refusals.{decided};
ghost use Rattle.sharing.specs.Sharings.{Fair, sharing_why};

use crate::amount::{Amount, PerObject};
use crate::cut::Cut;
use crate::limits::{MOST_OBJECTS, MOST_QUANTITY};
use crate::refusal::Refusal;
use crate::rounding::Rounding;

// The part of `total` that goes to each weight, in their order.
pub fn shares<R: Rounding, U>(
    rule: &R,
    total: Amount<U>,
    weights: &[u32],
) -> Result<PerObject<Amount<U>>, Refusal>
    ensures value { result ≡ decided (sharing_why total.0 weights.now) (per_object (map amount (shared (R.meaning rule.now) total.0 weights.now))) }
    ensures fair { IfOk result (λ ps. Fair (R.meaning rule.now) total.0 weights.now (counts ps.items)) }
{
    check(total.0, weights)?;
    let cut: Cut<R, U> = Cut::new(rule, weight_of(weights))?;
    Ok(cut.parts_within(&weighted(total.0, weights)))
}

// Whether a total may be shared by the weights.
fn check(total: u64, weights: &[u32]) -> Result<(), Refusal>
    ensures { result ≡ decided (sharing_why total weights.now) tt }
{
    if total > u64::from(MOST_QUANTITY) || !all_light(weights) {
        return Err(Refusal::OutOfRange);
    }
    if weights.len() > MOST_OBJECTS {
        return Err(Refusal::NodeFull);
    }
    if weight_of(weights) == 0 {
        return Err(Refusal::NoWeight);
    }
    Ok(())
}

// Whether no weight passes its limit.
fn all_light(weights: &[u32]) -> bool
    ensures { result ≡ list_all (λ w. nat_le w most_quantity) weights.now }
{
    weights.iter().all(|w| *w <= MOST_QUANTITY)
}

// The sum of the weights. That a list is short is asked of weights, addends and objects apart: a type for short lists would be taken apart at once.
pub(crate) fn weight_of(weights: &[u32]) -> u64
    requires { length weights.now ≤ most_objects }
    ensures { result ≡ sum weights.now }
{
    weights.iter().map(|w| u64::from(*w)).sum()
}

// Each weight times the total.
fn weighted(total: u64, weights: &[u32]) -> PerObject<u64>
    requires few { length weights.now ≤ most_objects }
    requires limit { total ≤ most_quantity }
    ensures { result ≡ per_object (map (λ w. total * w) weights.now) }
{
    let mut products = PerObject::new();
    for weight in weights {
        products.push(total * u64::from(*weight));
    }
    products
}
