// The weights of a node's objects, asked of a key.
ghost use Rattle.std.specs.Prelude.{◌≡◌, ◌≤◌, not, [], ◌∷◌, length, is_some, IfOk};
ghost use Rattle.std.specs.List.{list_all, AllByRecursion};
ghost use Rattle.sharing.specs.Amounts.{per_object};
ghost use Rattle.sharing.specs.Keys.{asked, in_range, weighing_why, weights_of};
ghost use Rattle.sharing.specs.Limits.{most_objects, most_quantity};
ghost use Rattle.sharing.specs.Refusals.{NoWeight, decided};

use crate::amount::PerObject;
use crate::key::{Basis, SharingKey};
use crate::limits::MOST_OBJECTS;
use crate::refusal::Refusal;
use crate::share::weight_of;

// The weight of each object by the key, in their order.
pub fn weigh<K: SharingKey>(key: &K, objects: &[Basis]) -> Result<PerObject<u32>, Refusal>
    ensures value { result ≡ decided (weighing_why (K.weight key.now) objects.now) (per_object (weights_of (K.weight key.now) objects.now)) }
    ensures small { IfOk result (λ ws. AllByRecursion (λ w. w ≤ most_quantity) ws.items) }
{
    if !all_in_range(objects) {
        return Err(Refusal::OutOfRange);
    }
    if objects.len() > MOST_OBJECTS {
        return Err(Refusal::NodeFull);
    }
    let weights = weights_by(key, objects)?;
    if weight_of(&weights) == 0 {
        return Err(Refusal::NoWeight);
    }
    Ok(weights)
}

// Whether power and area of every object are within their limits.
fn all_in_range(objects: &[Basis]) -> bool
    ensures { result ≡ list_all in_range objects.now }
{
    objects.iter().all(Basis::in_range)
}

// The weights, unless an object has none.
fn weights_by<K: SharingKey>(key: &K, objects: &[Basis]) -> Result<PerObject<u32>, Refusal>
    requires { length objects.now ≤ most_objects }
    ensures { result ≡ decided ((not (list_all (λ o. is_some (asked (K.weight key.now) o)) objects.now), NoWeight) ∷ []) (per_object (weights_of (K.weight key.now) objects.now)) }
{
    let mut weights = PerObject::new();
    for object in objects {
        let weight = key.ask(*object).ok_or(Refusal::NoWeight)?;
        weights.push(weight);
    }
    Ok(weights)
}
