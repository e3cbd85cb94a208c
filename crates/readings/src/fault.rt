// Where and why a readings file stops: a field's fault inside a line's inside the import's. Places are bytes, from 0.
ghost use Rattle.std.specs.Prelude.{◌≡◌};
ghost use Rattle.readings.specs.Faults.{layer_number, report};
ghost use Rattle.readings.specs.declared.fault.LineFault.TheVariants.{Field};
ghost use Rattle.readings.specs.declared.fault.ImportFault.TheVariants.{Line};

use sharing::refusal::Refusal;

// A field that is not a value, and where it starts.
#[derive(Clone, Copy, Debug, PartialEq, Eq)]
pub struct FieldFault {
    pub place: usize,
}

// What is wrong with a line, and where it starts.
#[derive(Clone, Copy, Debug, PartialEq, Eq)]
pub enum LineFault {
    // a wrong names line, or none
    Names { place: usize },
    // a line of values that has not three fields
    Fields { place: usize },
    Field(FieldFault),
}

#[derive(Clone, Copy, Debug, PartialEq, Eq)]
pub enum ImportFault {
    Line(LineFault),
    // the book refuses one of the calls of the line that starts there
    Book { place: usize, refusal: Refusal },
}

// What a fault is about.
#[derive(Clone, Copy, Debug, PartialEq, Eq)]
pub enum Layer {
    Field = 1,
    Line = 2,
    Book = 3,
}

impl Layer {
    // The number by which the layer is reported; `u8::from(layer)` would not say that.
    pub fn number(self) -> u8
        ensures { result ≡ layer_number self }
    {
        self as u8
    }
}

impl From<FieldFault> for LineFault {
    ghost from_gives = { λ x y. y ≡ Field x };

    fn from(fault: FieldFault) -> LineFault {
        LineFault::Field(fault)
    }
}

impl From<LineFault> for ImportFault {
    ghost from_gives = { λ x y. y ≡ Line x };

    fn from(fault: LineFault) -> ImportFault {
        ImportFault::Line(fault)
    }
}

impl ImportFault {
    // The number by which the fault is reported.
    pub fn number(self) -> u8
        ensures { result ≡ (report self).number }
    {
        let refusal = match self {
            ImportFault::Line(LineFault::Names { .. }) => Refusal::WrongNames,
            ImportFault::Line(LineFault::Fields { .. }) => Refusal::WrongFieldCount,
            ImportFault::Line(LineFault::Field(_)) => Refusal::NotAValue,
            ImportFault::Book { refusal, .. } => refusal,
        };
        refusal.number()
    }

    // The byte that it is about.
    pub fn place(self) -> usize
        ensures { result ≡ (report self).place }
    {
        match self {
            ImportFault::Line(LineFault::Names { place } | LineFault::Fields { place }) => place,
            ImportFault::Line(LineFault::Field(FieldFault { place })) => place,
            ImportFault::Book { place, .. } => place,
        }
    }

    // What it is about.
    pub fn layer(self) -> Layer
        ensures { result ≡ (report self).layer }
    {
        match self {
            ImportFault::Line(LineFault::Field(_)) => Layer::Field,
            ImportFault::Line(_) => Layer::Line,
            ImportFault::Book { .. } => Layer::Book,
        }
    }
}
