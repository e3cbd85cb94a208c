// The tables of a book, and the places that their owner grants.
ghost use Rattle.std.specs.Prelude.{◌≡◌};
ghost use Rattle.book.specs.World.{allowed, in_use, world};

use crate::limits::{MOST_LINES, MOST_NODES, MOST_OBJECTS, MOST_RECIPIENTS, MOST_ROWS};
use crate::records::{Line, Node, Object, Recipient};
use tariff::row::Row;

// How many items each table may hold, as far as its owner grants it.
#[derive(Clone, Copy, Debug, PartialEq, Eq)]
pub struct Places {
    pub rows: usize,
    pub recipients: usize,
    pub nodes: usize,
    pub objects: usize,
    pub lines: usize,
}

impl Places {
    // The places that may be filled: those granted, and no more than a table may have.
    pub fn allowed(self) -> Places
        ensures { result ≡ allowed self }
    {
        Places {
            rows: self.rows.min(MOST_ROWS),
            recipients: self.recipients.min(MOST_RECIPIENTS),
            nodes: self.nodes.min(MOST_NODES),
            objects: self.objects.min(MOST_OBJECTS),
            lines: self.lines.min(MOST_LINES),
        }
    }
}

#[derive(Drop)]
pub struct Tables {
    pub rows: Vec<Row>,
    pub recipients: Vec<Recipient>,
    pub nodes: Vec<Node>,
    pub objects: Vec<Object>,
    pub lines: Vec<Line>,
    pub places: Places,
}

// How many items of the tables that others name are in use.
#[derive(Clone, Copy)]
pub struct InUse {
    pub rows: usize,
    pub recipients: usize,
    pub nodes: usize,
    pub objects: usize,
}

impl Tables {
    pub(crate) fn in_use(&self) -> InUse
        ensures { result ≡ in_use (world self.now) }
    {
        InUse {
            rows: self.rows.len(),
            recipients: self.recipients.len(),
            nodes: self.nodes.len(),
            objects: self.objects.len(),
        }
    }
}
