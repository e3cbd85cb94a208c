// The calls of a list, and their answers.
ghost use Rattle.std.specs.Prelude.{◌≡◌};
ghost use Rattle.agreement.specs.declared.call.Failure.TheVariants.{Refused};

use book::records::Terms;
use clerk::paper::Readout;
use readings::answer::ImportAnswer;
use sharing::refusal::Refusal;
use tariff::row::Row;

// Papers are named by the number, from 0, in which the list opened them.
#[derive(Drop)]
pub enum Call<K, R> {
    EnterRow {
        row: Row,
    },
    EnterRecipient,
    EnterNode {
        month: u64,
        register: u64,
    },
    EnterObject {
        node: usize,
        recipient: usize,
        terms: Terms,
    },
    ChangeObject {
        object: usize,
        terms: Terms,
    },
    ReportFault {
        node: usize,
        register: u64,
    },
    Repair {
        node: usize,
        register: u64,
    },
    Open {
        node: usize,
    },
    Fix {
        paper: usize,
        readout: Readout,
    },
    Post {
        paper: usize,
        key: K,
        rule: R,
    },
    // a readings file
    Import {
        file: Vec<u8>,
    },
}

// What a call did.
#[derive(Clone, Copy, Debug, PartialEq, Eq)]
pub enum Answer {
    Done,
    // the number of what was entered
    Entered(usize),
    // the number of the paper
    Opened(usize),
    // the month's heat, MJ
    Fixed(u32),
    Imported(ImportAnswer),
}

// Why it did nothing.
#[derive(Clone, Copy, Debug, PartialEq, Eq)]
pub enum Failure {
    Refused(Refusal),
    // no paper of that number in the state that the call needs
    NoPaper,
}

impl From<Refusal> for Failure {
    ghost from_gives = { λ x y. y ≡ Refused x };

    fn from(refusal: Refusal) -> Failure {
        Failure::Refused(refusal)
    }
}
