// A run of a list of calls.
ghost use Rattle.std.specs.Prelude.{◌≡◌, []};
ghost use Rattle.book.specs.World.{empty};
ghost use Rattle.agreement.specs.Desks.{state};
ghost use Rattle.agreement.specs.Law.{Agreement};
ghost use Rattle.agreement.specs.Runs.{Fixes, Opens, Posts, Stepped, paper_at};

use crate::call::{Answer, Call, Failure};
use crate::desk::{Desk, Slot};
use book::book::Book;
use book::tables::Places;
use clerk::fixing::fix;
use clerk::opening::open;
use clerk::paper::Readout;
use clerk::posting::post;
use readings::import::import;
use sharing::key::SharingKey;
use sharing::refusal::Refusal;
use sharing::rounding::Rounding;
use std::alloc::Global;
use std::mem;

impl Desk {
    // A new book without papers.
    pub fn new(heap: Global, places: Places) -> Desk
        ensures { ((state result).store.world ≡ empty places) × ((state result).papers ≡ []) }
    {
        Desk {
            book: Book::new(heap, places),
            papers: Vec::new(heap),
        }
    }

    // Opens a month under the next number.
    fn open(&mut self, node: usize) -> Result<Answer, Failure>
        ensures { Opens node (state self.old) result (state self.new) }
    {
        let paper = open(&self.book, node)?;
        let number = self.papers.len();
        self.papers
            .push(Slot::Opened(paper))
            .map_err(|_| Refusal::Memory)?;
        Ok(Answer::Opened(number))
    }

    // Fixes the paper with a number; `match` and not `?`, since a refused paper goes back to its slot.
    fn fix(&mut self, number: usize, readout: Readout) -> Result<Answer, Failure>
        ensures { Fixes number readout (paper_at number (state self.old)) (state self.old) result (state self.new) }
    {
        let slot = self.papers.get_mut(number).ok_or(Failure::NoPaper)?;
        let paper = match mem::replace(slot, Slot::Posted) {
            Slot::Opened(paper) => paper,
            other => {
                *slot = other;
                return Err(Failure::NoPaper);
            }
        };
        match fix(&self.book, paper, readout) {
            Ok(fixed) => {
                let heat = fixed.fixing().heat;
                *slot = Slot::Fixed(fixed);
                Ok(Answer::Fixed(heat))
            }
            Err(refused) => {
                *slot = Slot::Opened(refused.given);
                Err(refused.refusal.into())
            }
        }
    }

    // Posts the paper with a number, like `fix` but from another state to another; one function over both would take the states as closures.
    fn post<K: SharingKey, R: Rounding>(
        &mut self,
        number: usize,
        key: &K,
        rule: &R,
    ) -> Result<Answer, Failure>
        ensures { Posts number (K.weight key.now) (R.meaning rule.now) (paper_at number (state self.old)) (state self.old) result (state self.new) }
    {
        let slot = self.papers.get_mut(number).ok_or(Failure::NoPaper)?;
        let paper = match mem::replace(slot, Slot::Posted) {
            Slot::Fixed(paper) => paper,
            other => {
                *slot = other;
                return Err(Failure::NoPaper);
            }
        };
        match post(&mut self.book, paper, key, rule) {
            Ok(()) => Ok(Answer::Done),
            Err(refused) => {
                *slot = Slot::Fixed(refused.given);
                Err(refused.refusal.into())
            }
        }
    }

    // Makes one call.
    fn make<K: SharingKey, R: Rounding>(&mut self, call: &Call<K, R>) -> Result<Answer, Failure>
        ensures { Stepped K.weight R.meaning (state self.old) call.now result (state self.new) }
    {
        let book = &mut self.book;
        Ok(match call {
            Call::EnterRow { row } => Answer::Entered(book.enter_row(*row)?),
            Call::EnterRecipient => Answer::Entered(book.enter_recipient()?),
            Call::EnterNode { month, register } => {
                Answer::Entered(book.enter_node(*month, *register)?)
            }
            Call::EnterObject {
                node,
                recipient,
                terms,
            } => Answer::Entered(book.enter_object(*node, *recipient, *terms)?),
            Call::ChangeObject { object, terms } => {
                book.change_object(*object, *terms)?;
                Answer::Done
            }
            Call::ReportFault { node, register } => {
                book.report_fault(*node, *register)?;
                Answer::Done
            }
            Call::Repair { node, register } => {
                book.repair(*node, *register)?;
                Answer::Done
            }
            Call::Open { node } => self.open(*node)?,
            Call::Fix { paper, readout } => self.fix(*paper, *readout)?,
            Call::Post { paper, key, rule } => self.post(*paper, key, rule)?,
            Call::Import { file } => Answer::Imported(import(book, file)),
        })
    }
}

// Makes the calls one after the other, as many as there are places for answers, and writes the answer to each; the desk goes on from what it is.
pub fn run<K: SharingKey, R: Rounding>(
    mut desk: Desk,
    calls: &[Call<K, R>],
    answers: &mut [Result<Answer, Failure>],
) -> Desk
    ensures { Agreement K.weight R.meaning (state desk) calls.now answers.old answers.new (state result) }
{
    let count = calls.len().min(answers.len());
    // by the index: a proof knows nothing of what is written through a `zip`
    for (i, call) in calls[..count].iter().enumerate() {
        answers[i] = desk.make(call);
    }
    desk
}
