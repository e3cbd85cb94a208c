// Calls, answers and nodes in words.
use agreement::call::{Answer, Call, Failure};
use book::book::Book;
use book::records::{Node, Terms};
use sharing::key::ByPower;
use sharing::rounding::Nearest;
use std::io;
use tariff::row::Row;

// What a call asks, in the words of this program alone.
pub fn call(rt: &HostRuntime, call: &Call<ByPower, Nearest>) -> io::Result<()> {
    match call {
        Call::EnterRow { row } => match row {
            Row::Plain(_) => print!(rt; "  enter a plain row: "),
            Row::Mixed(_) => print!(rt; "  enter a mixed row: "),
        },
        Call::EnterRecipient => print!(rt; "  enter a recipient: "),
        Call::EnterNode { month, register } => {
            print!(rt; "  enter a node at month {month}, register {register}: ")
        }
        Call::EnterObject {
            node,
            recipient,
            terms,
        } => {
            print!(rt; "  enter an object of node {node}, recipient {recipient}, ")?;
            show_terms(rt, terms)
        }
        Call::ChangeObject { object, terms } => {
            print!(rt; "  change object {object} to ")?;
            show_terms(rt, terms)
        }
        Call::ReportFault { node, register } => {
            print!(rt; "  report a fault of node {node} at register {register}: ")
        }
        Call::Repair { node, register } => {
            print!(rt; "  repair node {node} at register {register}: ")
        }
        Call::Open { node } => print!(rt; "  open a month of node {node}: "),
        Call::Fix { paper, .. } => print!(rt; "  fix paper {paper}: "),
        Call::Post { paper, .. } => print!(rt; "  post paper {paper}: "),
        Call::Import { .. } => print!(rt; "  import a readings file: "),
    }
}

fn show_terms(rt: &HostRuntime, terms: &Terms) -> io::Result<()> {
    let Terms { row, power, area } = *terms;
    print!(rt; "row {row}, {power} kW, {area} m2: ")
}

pub fn answer(rt: &HostRuntime, answer: &Result<Answer, Failure>) -> io::Result<()> {
    match answer {
        Ok(Answer::Done) => println!(rt; "done"),
        Ok(Answer::Entered(number)) => println!(rt; "entered as {number}"),
        Ok(Answer::Opened(number)) => println!(rt; "opened as paper {number}"),
        Ok(Answer::Fixed(heat)) => println!(rt; "fixed at {heat} MJ"),
        Ok(Answer::Imported(end)) => println!(rt; "imported {} lines", end.taken),
        Err(Failure::Refused(refusal)) => {
            println!(rt; "refused with {}, {refusal}", refusal.number())
        }
        Err(Failure::NoPaper) => println!(rt; "no such paper"),
    }
}

pub fn nodes(rt: &HostRuntime, book: &Book) -> io::Result<()> {
    for (number, node) in book.tables().nodes.iter().enumerate() {
        let Node {
            month,
            register,
            carried,
            events,
            meter,
        } = *node;
        println!(rt;
            "  node {number}: month {month}, register {register}, carried {carried} MJ, {events} events, meter {meter}"
        )?;
    }
    Ok(())
}
