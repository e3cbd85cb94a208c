// The import of a readings file.
ghost use Rattle.std.specs.Prelude.{◌≡◌};
ghost use Rattle.book.specs.Calls.{Outcome};
ghost use Rattle.book.specs.World.{store};
ghost use Rattle.readings.specs.Formats.{reading_of};
ghost use Rattle.readings.specs.Imports.{Imported, TakenLine, reading_entry};
ghost use Rattle.readings.specs.Texts.{text};

use crate::answer::ImportAnswer;
use crate::columns::{Columns, start};
use crate::fault::ImportFault;
use crate::piece::Piece;
use crate::reading::{Reading, read_values};
use book::book::Book;
use clerk::fixing::fix;
use clerk::opening::open;
use clerk::paper::Readout;
use clerk::posting::post;
use sharing::key::ByPower;
use sharing::refusal::Refusal;
use sharing::rounding::Nearest;

// Takes the lines of values one by one, each opened, fixed and posted by power and nearest, up to the first fault; `?` would lose how many were taken.
pub fn import(book: &mut Book, file: &[u8]) -> ImportAnswer
    ensures { Imported file.now (store book.old.tables) result (store book.new.tables) }
{
    let (columns, lines) = match start(file) {
        Ok(begun) => begun,
        Err(fault) => return ImportAnswer::stop(0, 1, fault.into()),
    };
    let mut taken: usize = 0;
    for line in lines {
        match take(book, columns, line) {
            Ok(()) => taken += 1,
            Err(fault) => return ImportAnswer::stop(taken, taken + 2, fault),
        }
    }
    ImportAnswer::through(taken)
}

// Takes one line.
fn take(book: &mut Book, columns: Columns, line: Piece<'_>) -> Result<(), ImportFault>
    ensures { TakenLine (text line.entry) (reading_of columns (text line.entry)) (store book.old.tables) (store book.new.tables) result }
{
    let reading = read_values(columns, line)?;
    settle(book, reading).map_err(|refusal| ImportFault::Book {
        place: line.place,
        refusal,
    })
}

// Opens, fixes and posts the month of a reading.
fn settle(book: &mut Book, reading: Reading) -> Result<(), Refusal>
    ensures { Outcome (reading_entry reading) (store book.old.tables) (store book.new.tables) result }
{
    let paper = open(book, reading.node as usize)?;
    let readout = Readout {
        water: reading.water,
        closing: Some(reading.closing),
        estimate: None,
    };
    let fixed = fix(book, paper, readout)?;
    post(book, fixed, &ByPower, &Nearest)?;
    Ok(())
}
