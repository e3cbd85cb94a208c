// The journal as text.
ghost use Rattle.std.specs.Prelude.{◌≡◌, IfOk, Some, string_bytes};
ghost use Rattle.readings.specs.Listing.{line_bytes, listing};

use book::records::Line;
use std::alloc::{AllocError, Global};
use std::fmt;

const NAMES: &str =
    "line;kind;node;month;object;recipient;row;kw;weight;heat;water;power;fixed;energy;variable;carrier;other\n";

// A journal line with its number in the journal.
#[derive(Clone, Copy)]
pub struct Entry {
    pub number: usize,
    pub line: Line,
}

impl fmt::Display for Entry {
    ghost output = { λ x. Some (line_bytes x.number x.line) };

    fn fmt<W: fmt::Write>(&self, f: &mut fmt::Formatter<W>) -> fmt::Result {
        let number = self.number;
        let line = self.line;
        let kind = line.kind.number();
        let amounts = line.amounts;
        write!(
            f,
            "{number};{kind};{};{};{};{};",
            line.node, line.month, line.object, line.recipient
        )?;
        write!(
            f,
            "{};{};{};{};{};",
            line.row, line.kw, line.weight, line.heat, line.water
        )?;
        write!(
            f,
            "{};{};{};{};{};{}\n",
            amounts.power,
            amounts.fixed,
            amounts.energy,
            amounts.variable,
            amounts.carrier,
            amounts.other
        )
    }
}

// Journal lines, the first with number 0, under the names of their fields.
#[derive(Clone, Copy)]
pub struct Listing<'a> {
    pub lines: &'a [Line],
}

impl<'a> fmt::Display for Listing<'a> {
    ghost output = { λ x. Some (listing x.lines.now) };

    fn fmt<W: fmt::Write>(&self, f: &mut fmt::Formatter<W>) -> fmt::Result {
        f.write_str(NAMES)?;
        for (number, &line) in self.lines.iter().enumerate() {
            write!(f, "{}", Entry { number, line })?;
        }
        Ok(())
    }
}

// The listing as text of its own.
pub fn listed(heap: Global, lines: &[Line]) -> Result<String, AllocError>
    ensures { IfOk result (λ s. string_bytes s ≡ listing lines.now) }
{
    format!(in heap; "{}", Listing { lines })
}
