#![tactic(auto)]
// A book is filled by a list of calls, some of them refused, and each call is printed with its answer.
mod rows;
mod show;

use agreement::call::{Answer, Call};
use agreement::desk::Desk;
use agreement::run::run;
use book::records::Terms;
use book::tables::Places;
use rows::{MIXED, PLAIN};
use sharing::key::ByPower;
use sharing::rounding::Nearest;

const PLACES: Places = Places {
    rows: 3,
    recipients: 3,
    nodes: 1,
    objects: 4,
    lines: 300,
};

const COUNT: usize = 20;

// Some of them are refused.
fn calls() -> [Call<ByPower, Nearest>; COUNT] {
    [
        Call::EnterRow { row: PLAIN },
        Call::EnterRow { row: PLAIN },
        Call::EnterRow { row: MIXED },
        Call::EnterRow { row: PLAIN },
        Call::EnterRecipient,
        Call::EnterRecipient,
        Call::EnterRecipient,
        Call::EnterNode {
            month: 228,
            register: 0,
        },
        object_of(0),
        object_of(1),
        object_of(2),
        object_of(3),
        changed_to(120),
        changed_to(100_001),
        repair_at(0),
        fault_at(40_000),
        fault_at(50_000),
        repair_at(10),
        fault_at(5),
        fault_at(100_000_000),
    ]
}

fn object_of(recipient: usize) -> Call<ByPower, Nearest> {
    let terms = Terms {
        row: 0,
        power: 100,
        area: 0,
    };
    Call::EnterObject {
        node: 0,
        recipient,
        terms,
    }
}

fn changed_to(power: u64) -> Call<ByPower, Nearest> {
    let terms = Terms {
        row: 2,
        power,
        area: 0,
    };
    Call::ChangeObject { object: 2, terms }
}

fn fault_at(register: u64) -> Call<ByPower, Nearest> {
    Call::ReportFault { node: 0, register }
}

fn repair_at(register: u64) -> Call<ByPower, Nearest> {
    Call::Repair { node: 0, register }
}

fn main(rt: HostRuntime) -> anyhow::Result<()> {
    make(&rt)
}

// Makes the calls and prints each with its answer, and then what the node holds.
fn make(rt: &HostRuntime) -> anyhow::Result<()> {
    let calls = calls();
    let mut answers = [Ok(Answer::Done); COUNT];
    let desk = run(Desk::new(rt.alloc(), PLACES), &calls, &mut answers);
    println!(rt; "calls on a new book:")?;
    for (call, answer) in calls.iter().zip(answers.iter()) {
        show::call(rt, call)?;
        show::answer(rt, answer)?;
    }
    show::nodes(rt, &desk.book)?;
    Ok(())
}
