// Files and journals worked out by hand.
use crate::answer::{ImportAnswer, Stop};
use crate::columns::start;
use crate::fault::ImportFault;
use crate::listing::listed;
use crate::reading::{Reading, read_values};
use book::records::{Amounts, Kind, Line};
use sharing::refusal::Refusal;
use std::process::Abort;
use std::test::Fail;

const NO_READING: Reading = Reading {
    node: 0,
    closing: 0,
    water: 0,
};

// What reading alone answers of a file of few lines, and the last reading.
fn read(file: &[u8]) -> (ImportAnswer, Reading) {
    let mut last = NO_READING;
    let (columns, mut lines) = match start(file) {
        Ok(started) => started,
        Err(fault) => return (ImportAnswer::stop(0, 1, fault.into()), last),
    };
    for taken in 0..9 {
        let Some(line) = lines.next() else {
            return (ImportAnswer::through(taken), last);
        };
        match read_values(columns, line) {
            Ok(reading) => last = reading,
            Err(fault) => return (ImportAnswer::stop(taken, taken + 2, fault.into()), last),
        }
    }
    (ImportAnswer::through(9), last)
}

// The lines taken, and the fault's number, line, place and layer, or zeros.
fn reported(answer: ImportAnswer) -> (usize, u8, usize, usize, u8) {
    match answer.stop {
        Some(Stop { line, fault }) => (
            answer.taken,
            fault.number(),
            line,
            fault.place(),
            fault.layer().number(),
        ),
        None => (answer.taken, 0, 0, 0, 0),
    }
}

fn check_fault(
    rt: &impl Abort,
    file: &[u8],
    taken: usize,
    number: u8,
    line: usize,
    place: usize,
    layer: u8,
) {
    let (answer, _) = read(file);
    assert_eq!(rt; reported(answer), (taken, number, line, place, layer));
}

#[test]
fn files_end_with_or_without_a_line_feed(rt: HostRuntime) {
    check_fault(&rt, b"node;closing;water", 0, 0, 0, 0, 0);
    check_fault(&rt, b"node;closing;water\n", 0, 0, 0, 0, 0);
    check_fault(&rt, b"node;closing;water\n1;2;3", 1, 0, 0, 0, 0);
    check_fault(&rt, b"node;closing;water\n1;2;3\n", 1, 0, 0, 0, 0);
    check_fault(&rt, b"node;closing;water\n1;2;3\n4;5;6", 2, 0, 0, 0, 0);
    check_fault(&rt, b"node;closing;water\n1;2;3\n\n4;5;6", 1, 20, 3, 25, 2);
    check_fault(&rt, b"node;closing;water\n\n", 0, 20, 2, 19, 2);
}

#[test]
fn wrong_names_are_refused(rt: HostRuntime) {
    let files: [&[u8]; 10] = [
        b"",
        b"\n",
        b"\nnode;closing;water\n",
        b"node;closing;water\r\n1;2;3\r\n",
        b"node;closing;closing\n",
        b"node;node;water\n",
        b"node;closing;water;node\n",
        b"node;closing\n",
        b"node;closing;Water\n",
        b"node;closing;waters\n",
    ];
    for file in files {
        check_fault(&rt, file, 0, 19, 1, 0, 2);
    }
}

#[test]
fn names_come_in_any_order(rt: HostRuntime) {
    // the names line with a line of values, and what it says of node, closing and water
    let cases: [(&[u8], [u64; 3]); 6] = [
        (b"node;closing;water\n1;22;333", [1, 22, 333]),
        (b"node;water;closing\n1;22;333", [1, 333, 22]),
        (b"closing;node;water\n1;22;333", [22, 1, 333]),
        (b"closing;water;node\n1;22;333", [333, 1, 22]),
        (b"water;node;closing\n1;22;333", [22, 333, 1]),
        (b"water;closing;node\n1;22;333", [333, 22, 1]),
    ];
    for (file, [node, closing, water]) in cases {
        let (answer, reading) = read(file);
        assert_eq!(rt; answer, ImportAnswer::through(1));
        let said = Reading {
            node,
            closing,
            water,
        };
        assert_eq!(rt; reading, said);
    }
}

#[test]
fn values_have_one_to_thirteen_digits(rt: HostRuntime) {
    let good: [&[u8]; 4] = [
        b"node;closing;water\n0;0;0\n",
        b"node;closing;water\n7;1000000000000;10\n",
        b"node;closing;water\n999999999999;1;1000000000000",
        b"node;closing;water\n1000000000000;9;100",
    ];
    for file in good {
        check_fault(&rt, file, 1, 0, 0, 0, 0);
    }
    // the first field that is no value is reported
    check_fault(&rt, b"node;closing;water\n00;2;3\n", 0, 21, 2, 19, 1);
    check_fault(&rt, b"node;closing;water\n1;01;x\n", 0, 21, 2, 21, 1);
    check_fault(
        &rt,
        b"node;closing;water\n1;2;1000000000001\n",
        0,
        21,
        2,
        23,
        1,
    );
    check_fault(
        &rt,
        b"node;closing;water\n1;10000000000000;3\n",
        0,
        21,
        2,
        21,
        1,
    );
    check_fault(
        &rt,
        b"node;closing;water\n1;2;99999999999999999999\n",
        0,
        21,
        2,
        23,
        1,
    );
    check_fault(&rt, b"node;closing;water\n1;;3\n", 0, 21, 2, 21, 1);
    check_fault(&rt, b"node;closing;water\n1;2;-3\n", 0, 21, 2, 23, 1);
    check_fault(&rt, b"node;closing;water\n1;2;3\n1; 2;3\n", 1, 21, 3, 27, 1);
    check_fault(&rt, b"node;closing;water\n1;2;3\r\n", 0, 21, 2, 23, 1);
}

#[test]
fn lines_have_three_fields(rt: HostRuntime) {
    check_fault(&rt, b"node;closing;water\n1;2\n", 0, 20, 2, 19, 2);
    check_fault(&rt, b"node;closing;water\n1;2;3\n1;2;3;\n", 1, 20, 3, 25, 2);
    check_fault(
        &rt,
        b"node;closing;water\n1;2;3\nx;y;z;1\n",
        1,
        20,
        3,
        25,
        2,
    );
    check_fault(&rt, b"node;closing;water\n1;2;3\n;;\n", 1, 21, 3, 25, 1);
}

#[test]
fn refused_calls_are_of_layer_3(rt: HostRuntime) {
    let fault = ImportFault::Book {
        place: 19,
        refusal: Refusal::NoObjects,
    };
    assert_eq!(rt;
        reported(ImportAnswer::stop(0, 2, fault)),
        (0, 15, 2, 19, 3)
    );
}

#[test]
fn journals_are_listed(rt: HostRuntime) -> Result<(), Fail> {
    let amounts = Amounts {
        power: -7,
        fixed: 0,
        energy: 1_000_000_000_000,
        variable: -1_000_000_000_000,
        carrier: 15,
        other: -1,
    };
    let line = Line {
        kind: Kind::Correction,
        node: 0,
        month: 1_199,
        object: 12,
        recipient: 3,
        row: 2,
        kw: 100,
        weight: 40,
        heat: -25,
        water: 900,
        amounts,
    };
    let payment = Line {
        kind: Kind::Payment,
        heat: 0,
        ..line
    };
    let names = listed(rt.alloc(), &[])?;
    assert_eq!(rt;
        names.as_str(),
        "line;kind;node;month;object;recipient;row;kw;weight;heat;water;power;fixed;energy;variable;carrier;other\n"
    );
    let text = listed(rt.alloc(), &[line, payment])?;
    assert_eq!(rt;
        text.as_str(),
        "line;kind;node;month;object;recipient;row;kw;weight;heat;water;power;fixed;energy;variable;carrier;other\n0;2;0;1199;12;3;2;100;40;-25;900;-7;0;1000000000000;-1000000000000;15;-1\n1;5;0;1199;12;3;2;100;40;0;900;-7;0;1000000000000;-1000000000000;15;-1\n"
    );
    Ok(())
}
