// A file line by line.
ghost use Rattle.std.specs.Prelude.{◌≡◌};
ghost use Rattle.std.specs.Iterator.{YieldsFirstBy, item_count};
ghost use Rattle.readings.specs.Texts.{lines_from, lines_left, text};

use crate::piece::Piece;

// What is left after the last line; it is empty, so its place is of no account.
const END: Piece<'static> = Piece {
    place: 0,
    bytes: b"",
};

// The lines of a file from a place on: each ends in LF, and the last LF may be absent.
#[derive(Clone, Copy)]
pub struct Lines<'a> {
    rest: Piece<'a>,
}

impl<'a> Lines<'a> {
    pub fn new(file: &'a [u8]) -> Self
        ensures { lines_left result ≡ lines_from 0 file.now }
    {
        Lines {
            rest: Piece {
                place: 0,
                bytes: file,
            },
        }
    }
}

impl<'a> Iterator for Lines<'a> {
    type Item = Piece<'a>;

    ghost next_gives = { YieldsFirstBy text lines_left };

    ghost remaining = { item_count lines_left };

    // The next line without its LF, if there is one.
    fn next(&mut self) -> Option<Piece<'a>> {
        let rest = self.rest;
        if rest.bytes.is_empty() {
            return None;
        }
        let (line, after) = rest.split_once(b'\n').unwrap_or((rest, END));
        self.rest = after;
        Some(line)
    }
}
