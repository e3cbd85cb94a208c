// The names line.
ghost use Rattle.std.specs.Prelude.{◌≡◌, drop, option_map, position, MatchResult, slice_index};
ghost use Rattle.std.specs.Str.{bytes_eq};
ghost use Rattle.readings.specs.Formats.{column_at, column_number, columns_by, columns_of};
ghost use Rattle.readings.specs.Texts.{first, lines_from, lines_left, text};

use crate::fault::LineFault;
use crate::fields::three_fields;
use crate::lines::Lines;
use crate::piece::Piece;

// One of the three fields of a line.
#[derive(Clone, Copy, Debug, PartialEq, Eq)]
pub enum Column {
    First,
    Second,
    Third,
}

impl Column {
    // A column by its number, from 0, as `position` counts the three fields of a line.
    fn at(number: usize) -> Column
        ensures { result ≡ column_at number }
    {
        match number {
            0 => Column::First,
            1 => Column::Second,
            _ => Column::Third,
        }
    }

    // The value in this column.
    pub(crate) fn of(self, values: [u64; 3]) -> u64
        ensures { result ≡ slice_index values (column_number self) }
    {
        values[self as usize]
    }
}

// Which field of a line is which value.
#[derive(Clone, Copy, Debug, PartialEq, Eq)]
pub struct Columns {
    pub node: Column,
    pub closing: Column,
    pub water: Column,
}

// A file's columns by its first line, and the lines of values after it.
pub fn start(file: &[u8]) -> Result<(Columns, Lines<'_>), LineFault>
    ensures { MatchResult result (λ p. (columns_by (first (lines_from 0 file.now)) ≡ Ok p.0) × (lines_left p.1 ≡ drop 1 (lines_from 0 file.now))) (λ f. columns_by (first (lines_from 0 file.now)) ≡ Err f) }
{
    let mut lines = Lines::new(file);
    let line = lines.next().ok_or(LineFault::Names { place: 0 })?;
    let columns = read_names(line)?;
    Ok((columns, lines))
}

// The columns that a names line gives: each name once, in any order.
pub fn read_names(line: Piece<'_>) -> Result<Columns, LineFault>
    ensures { result ≡ columns_of (text line.entry) }
{
    let wrong = LineFault::Names { place: line.place };
    let Some((first, second, third)) = three_fields(line) else {
        return Err(wrong);
    };
    let fields = [first, second, third];
    Ok(Columns {
        node: named(&fields, b"node").ok_or(wrong)?,
        closing: named(&fields, b"closing").ok_or(wrong)?,
        water: named(&fields, b"water").ok_or(wrong)?,
    })
}

// The field that is this name, if one is.
fn named(fields: &[Piece<'_>], name: &[u8]) -> Option<Column>
    ensures { result ≡ option_map column_at (position (λ f. bytes_eq f.bytes.now name.now) fields.now) }
{
    find(fields, name).map(Column::at)
}

// How many fields stand before the first that is this name, if one is.
fn find(fields: &[Piece<'_>], name: &[u8]) -> Option<usize>
    ensures { result ≡ position (λ f. bytes_eq f.bytes.now name.now) fields.now }
{
    fields.iter().position(|field| field.bytes == name)
}
