// Sharing keys: what a node's heat is divided by.
ghost use Rattle.std.specs.Prelude.{◌≡◌, ◌==◌, find, option_map};
ghost use Rattle.std.proofs.Common.{le_trans, lit≤};
ghost use Rattle.sharing.specs.Keys.{Key, Light, allowed, by_area, by_power, by_sub_meter, in_range};
ghost use Rattle.sharing.specs.Light.{by_sub_meter_light};

use crate::amount::Megajoules;
use crate::limits::{MOST_AREA, MOST_POWER, MOST_QUANTITY};

// An object by what a key may weigh it by: its number, ordered power (kW) and floor area (m²).
#[derive(Clone, Copy, Default)]
pub struct Basis {
    pub object: usize,
    pub power: u32,
    pub area: u32,
}

impl Basis {
    // Whether power and area are within their limits.
    pub fn in_range(&self) -> bool
        ensures { result ≡ in_range self.now }
    {
        self.power <= MOST_POWER && self.area <= MOST_AREA
    }
}

pub trait SharingKey {
    // The weight of an object by its number, power and area, if it has one.
    ghost weight: { Self → Key };

    // No weight passes its limit where power and area do not pass theirs.
    ghost light: { Light weight };

    fn ask(&self, basis: Basis) -> Option<u32>
        ensures { result ≡ weight self.now basis.object basis.power basis.area };
}

// By ordered power.
#[derive(Clone, Copy)]
pub struct ByPower;

impl SharingKey for ByPower {
    ghost weight = { λ _. by_power };

    ghost light = { λ _ object power area low _. le_trans low (lit≤ tt) };

    fn ask(&self, basis: Basis) -> Option<u32> {
        Some(basis.power)
    }
}

// By floor area: another impl of the one trait, which has the law for both.
#[derive(Clone, Copy)]
pub struct ByArea;

impl SharingKey for ByArea {
    ghost weight = { λ _. by_area };

    ghost light = { λ _ object power area _ low. le_trans low (lit≤ tt) };

    fn ask(&self, basis: Basis) -> Option<u32> {
        Some(basis.area)
    }
}

// What the sub-meter of one object showed.
#[derive(Clone, Copy)]
pub struct SubReading {
    pub object: usize,
    pub heat: Megajoules,
}

// By sub-meter: the first reading that names the object counts.
#[derive(Clone, Copy)]
pub struct SubMeters<'a> {
    pub readings: &'a [SubReading],
}

impl<'a> SharingKey for SubMeters<'a> {
    ghost weight = { λ s. by_sub_meter s.readings.now };

    ghost light = { λ s object power area _ _. by_sub_meter_light s.readings.now object power area };

    fn ask(&self, basis: Basis) -> Option<u32> {
        self.heat_of(basis.object).and_then(allowed)
    }
}

impl<'a> SubMeters<'a> {
    // What the first reading that names an object showed.
    fn heat_of(&self, object: usize) -> Option<Megajoules>
        ensures { result ≡ option_map (λ r. r.heat) (find (λ r. r.object == object) self.now.readings.now) }
    {
        self.readings
            .iter()
            .find(|reading| reading.object == object)
            .map(|reading| reading.heat)
    }
}

// The heat of a sub-meter as a weight, unless it is above the limit.
fn allowed(heat: Megajoules) -> Option<u32>
    ensures { result ≡ allowed heat.0 }
{
    if heat.0 <= u64::from(MOST_QUANTITY) {
        Some(heat.0 as u32)
    } else {
        None
    }
}
