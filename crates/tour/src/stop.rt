// Why the tour stops.
use sharing::refusal::Refusal;
use std::io;

#[derive(Debug, Drop)]
pub enum Stop {
    Output(io::Error),
    Refused(Refusal),
}

impl From<io::Error> for Stop {
    fn from(error: io::Error) -> Self {
        Stop::Output(error)
    }
}

impl From<Refusal> for Stop {
    fn from(refusal: Refusal) -> Self {
        Stop::Refused(refusal)
    }
}
