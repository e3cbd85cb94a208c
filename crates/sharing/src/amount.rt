// Amounts: whole numbers of one unit, and the unit is part of the type.
ghost use Rattle.std.specs.Prelude.{◌≡◌};
ghost use Rattle.sharing.specs.Amounts.{amount};

use crate::limits::MOST_OBJECTS;
use arrayvec::ArrayVec;
use std::fmt;
use std::marker::PhantomData;

// So many units; U says of what. Both fields are public, so that an amount can stand in a constant and in a pattern.
#[derive(Clone, Copy, PartialEq, Eq)]
pub struct Amount<U>(pub u64, pub PhantomData<U>);

// A unit, with the name under which `{:?}` shows its amounts.
pub trait Unit {
    const NAME: &'static str;
}

#[derive(Clone, Copy, Debug, Default, PartialEq, Eq)]
pub struct Heat;

impl Unit for Heat {
    const NAME: &'static str = "Megajoules";
}

#[derive(Clone, Copy, Debug, Default, PartialEq, Eq)]
pub struct Water;

impl Unit for Water {
    const NAME: &'static str = "Litres";
}

#[derive(Clone, Copy, Debug, Default, PartialEq, Eq)]
pub struct Money;

impl Unit for Money {
    const NAME: &'static str = "Grosz";
}

// Heat, MJ.
pub type Megajoules = Amount<Heat>;

// Water, litres.
pub type Litres = Amount<Water>;

// Money, 1/100 zł.
pub type Grosz = Amount<Money>;

impl<U> Amount<U> {
    pub fn new(count: u64) -> Self
        ensures value { result ≡ amount count }
        ensures counted { result.0 ≡ count }
    {
        Amount(count, PhantomData)
    }
}

// By hand: a derive would ask that the unit has a default.
impl<U> Default for Amount<U> {
    ghost is_default = { λ a. a ≡ amount 0 };

    fn default() -> Self {
        Amount::new(0)
    }
}

// Shown like a tuple struct with the name of the unit, as `Litres(3)`.
impl<U: Unit> fmt::Debug for Amount<U> {
    fn fmt<W: fmt::Write>(&self, f: &mut fmt::Formatter<W>) -> fmt::Result {
        f.debug_tuple(U::NAME).field(&self.0).finish()
    }
}

// At most one value for each object of a node. `ArrayVec` fills the places that are not used with defaults, which nobody sees.
pub type PerObject<T> = ArrayVec<T, MOST_OBJECTS>;
