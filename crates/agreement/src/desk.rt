// A book, and the papers that a list of calls opens on it.
use book::book::Book;
use clerk::fixed::FixedPaper;
use clerk::paper::OpenedPaper;

// Where a paper of the list is.
#[derive(Drop)]
pub enum Slot {
    Opened(OpenedPaper),
    Fixed(FixedPaper),
    Posted,
}

#[derive(Drop)]
pub struct Desk {
    pub book: Book,
    // in the order in which they were opened
    pub papers: Vec<Slot>,
}
