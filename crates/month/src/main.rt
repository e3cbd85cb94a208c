#![tactic(auto)]
// Imports a readings file from standard input into a book of one node, and prints the journal.
use agreement::call::{Answer, Call, Failure};
use agreement::desk::Desk;
use agreement::run::run;
use book::records::Terms;
use book::tables::Places;
use readings::answer::{ImportAnswer, Stop};
use readings::listing::Listing;
use sharing::key::ByPower;
use sharing::rounding::Nearest;
use std::io;
use std::io::Read;
use tariff::row::{Prices, Row};

// How much of the input is read.
const MOST_BYTES: u64 = 65_536;

const PLACES: Places = Places {
    rows: 1,
    recipients: 3,
    nodes: 1,
    objects: 3,
    lines: 300,
};

const PRICES: Prices = Prices {
    power: 2_580_396,
    fixed: 1_200_000,
    energy: 3_165,
    variable: 1_000,
    carrier: 1_430,
};

const CALLS: usize = 9;

// A row, three recipients, a node, an object of each recipient, and the import.
fn calls(file: Vec<u8>) -> [Call<ByPower, Nearest>; CALLS] {
    [
        Call::EnterRow {
            row: Row::Plain(PRICES),
        },
        Call::EnterRecipient,
        Call::EnterRecipient,
        Call::EnterRecipient,
        Call::EnterNode {
            month: 228,
            register: 0,
        },
        object_of(0),
        object_of(1),
        object_of(2),
        Call::Import { file },
    ]
}

// As in the list of `calls`: the programs share no crate of their own, and one for this would be no plainer.
fn object_of(recipient: usize) -> Call<ByPower, Nearest> {
    let terms = Terms {
        row: 0,
        power: 100,
        area: 0,
    };
    Call::EnterObject {
        node: 0,
        recipient,
        terms,
    }
}

fn main(rt: HostRuntime) -> anyhow::Result<()> {
    settle(&rt)
}

fn settle(rt: &HostRuntime) -> anyhow::Result<()> {
    let heap = rt.alloc();
    let mut file = Vec::new(heap);
    rt.stdin().take(MOST_BYTES).read_to_end(&mut file)?;
    let calls = calls(file);
    let mut answers = [Err(Failure::NoPaper); CALLS];
    let desk = run(Desk::new(heap, PLACES), &calls, &mut answers);
    let last = answers[CALLS - 1];
    if let Ok(Answer::Imported(answer)) = last {
        show_stop(rt, answer)?;
    }
    let listing = Listing {
        lines: &desk.book.tables.lines,
    };
    print!(rt; "{listing}")?;
    Ok(())
}

fn show_stop(rt: &HostRuntime, answer: ImportAnswer) -> io::Result<()> {
    let Some(Stop { line, fault }) = answer.stop else {
        return Ok(());
    };
    let taken = answer.taken;
    let number = fault.number();
    let place = fault.place();
    let layer = fault.layer().number();
    eprintln!(rt;
        "stopped after {taken} lines: fault {number} in line {line} at byte {place}, layer {layer}"
    )
}
