// A line of values.
ghost use Rattle.std.specs.Prelude.{◌≡◌};
ghost use Rattle.readings.specs.Formats.{reading_of, value_of};
ghost use Rattle.readings.specs.Texts.{text};

use crate::columns::Columns;
use crate::fault::{FieldFault, LineFault};
use crate::fields::three_fields;
use crate::piece::Piece;

const MOST_DIGITS: usize = 13;

const MOST_VALUE: u64 = 1_000_000_000_000;

// What a line says of a node: its closing register and its water.
#[derive(Clone, Copy, Debug, PartialEq, Eq)]
pub struct Reading {
    pub node: u64,
    pub closing: u64,
    pub water: u64,
}

// What a line of values says, or its first fault.
pub fn read_values(columns: Columns, line: Piece<'_>) -> Result<Reading, LineFault>
    ensures { result ≡ reading_of columns (text line.entry) }
{
    let Some((first, second, third)) = three_fields(line) else {
        return Err(LineFault::Fields { place: line.place });
    };
    let values = [value(first)?, value(second)?, value(third)?];
    Ok(Reading {
        node: columns.node.of(values),
        closing: columns.closing.of(values),
        water: columns.water.of(values),
    })
}

// The value that a field holds.
fn value(field: Piece<'_>) -> Result<u64, FieldFault>
    ensures { result ≡ value_of (text field.entry) }
{
    let fault = FieldFault { place: field.place };
    let digits = field.bytes;
    if matches!(digits, [] | [b'0', _, ..]) || digits.len() > MOST_DIGITS {
        return Err(fault);
    }
    // a loop, since `parse` would take a plus too
    let mut n: u64 = 0;
    for digit in digits {
        if !digit.is_ascii_digit() {
            return Err(fault);
        }
        n = n * 10 + u64::from(*digit - b'0');
    }
    if n > MOST_VALUE {
        return Err(fault);
    }
    Ok(n)
}
