// What an import answers.
ghost use Rattle.std.specs.Prelude.{◌≡◌};
ghost use Rattle.readings.specs.Faults.{stopped, went_through};

use crate::fault::ImportFault;

// How many lines of values were taken, and what stopped it, if anything did.
#[derive(Clone, Copy, Debug, PartialEq, Eq)]
pub struct ImportAnswer {
    pub taken: usize,
    pub stop: Option<Stop>,
}

// The first line with a fault, counted from 1, and its first fault.
#[derive(Clone, Copy, Debug, PartialEq, Eq)]
pub struct Stop {
    pub line: usize,
    pub fault: ImportFault,
}

impl ImportAnswer {
    // Every line was taken.
    pub fn through(taken: usize) -> Self
        ensures { result ≡ went_through taken }
    {
        ImportAnswer { taken, stop: None }
    }

    // A line has a fault.
    pub fn stop(taken: usize, line: usize, fault: ImportFault) -> Self
        ensures { result ≡ stopped taken line fault }
    {
        let stop = Some(Stop { line, fault });
        ImportAnswer { taken, stop }
    }
}
