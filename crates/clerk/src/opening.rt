// Opening a month.
ghost use Rattle.std.specs.Prelude.{◌≡◌};
ghost use Rattle.sharing.specs.Refusals.{decided};
ghost use Rattle.book.specs.World.{world};
ghost use Rattle.clerk.specs.Fixings.{open_why, opened};

use crate::paper::OpenedPaper;
use book::book::Book;
use book::limits::MONTHS;
use sharing::refusal::Refusal;

// A paper for the node's next month.
pub fn open(book: &Book, node: usize) -> Result<OpenedPaper, Refusal>
    ensures { result ≡ decided (open_why node (world book.now.tables)) (opened node (world book.now.tables)) }
{
    let month = book.tables.nodes.get(node).ok_or(Refusal::Unknown)?.month;
    if month >= MONTHS {
        return Err(Refusal::NoMonthLeft);
    }
    Ok(OpenedPaper { node, month })
}
