// Fixing a month's heat.
ghost use Rattle.std.specs.Prelude.{◌≡◌, false, ◌||◌, [], ◌∷◌, Some, None, MatchResult, nat_lt};
ghost use Rattle.sharing.specs.Limits.{most_quantity};
ghost use Rattle.sharing.specs.Refusals.{decided, refusal};
ghost use Rattle.sharing.specs.declared.refusal.Refusal.TheVariants.{NotColder, RegisterFalls, TooMuchHeat};
ghost use Rattle.tariff.specs.Estimates.{estimate_outside, estimate_warm, estimated};
ghost use Rattle.book.specs.Limits.{most_register};
ghost use Rattle.book.specs.World.{world};
ghost use Rattle.clerk.specs.Fixings.{as_due, estimate_heat, fix_why, fixing_of, rise_to};
ghost use Rattle.clerk.specs.Papers.{given};

use crate::fixed::FixedPaper;
use crate::paper::{Fixing, OpenedPaper, Readout};
use book::book::Book;
use book::limits::MOST_REGISTER;
use book::records::{Meter, Node};
use sharing::limits::MOST_QUANTITY;
use sharing::refusal::{Refusal, Refused};
use tariff::estimate::{Estimate, estimated_heat};

// Fixes the heat of an opened month: what is carried, the rise to the closing register, and the estimate.
pub fn fix(
    book: &Book,
    paper: OpenedPaper,
    readout: Readout,
) -> Result<FixedPaper, Refused<OpenedPaper>>
    ensures { MatchResult result (λ f. (refusal (fix_why paper readout.water readout.closing readout.estimate (world book.now.tables)) ≡ None) × (f.fixing ≡ fixing_of paper readout.water readout.closing readout.estimate (world book.now.tables))) (λ e. (e.given ≡ paper) × (refusal (fix_why paper readout.water readout.closing readout.estimate (world book.now.tables)) ≡ Some e.refusal)) }
{
    let fixing = readout.fixing(book, &paper).map_err(|refusal| Refused {
        given: paper,
        refusal,
    })?;
    Ok(FixedPaper { fixing })
}

impl Readout {
    // What a paper says once this is read.
    fn fixing(&self, book: &Book, paper: &OpenedPaper) -> Result<Fixing, Refusal>
        ensures { result ≡ decided (fix_why paper.now self.now.water self.now.closing self.now.estimate (world book.now.tables)) (fixing_of paper.now self.now.water self.now.closing self.now.estimate (world book.now.tables)) }
    {
        let node = book.tables.nodes.get(paper.node).ok_or(Refusal::Unknown)?;
        if self.is_outside() {
            return Err(Refusal::OutOfRange);
        }
        let risen = self.rise_over(node)?;
        if !self.is_due(node) {
            return Err(Refusal::NotAsDue);
        }
        let estimated = self.heat_estimated()?;
        let heat = u64::from(node.carried) + risen + estimated;
        if heat > u64::from(MOST_QUANTITY) {
            return Err(Refusal::TooMuchHeat);
        }
        if paper.month != node.month {
            return Err(Refusal::OutOfDate);
        }
        Ok(Fixing {
            node: paper.node,
            month: paper.month,
            heat: heat as u32,
            water: self.water as u32,
            estimate: estimated as u32,
            closing: self.closing,
            events: node.events,
        })
    }

    // Whether a number that is read is outside its limits.
    fn is_outside(&self) -> bool
        ensures { result ≡ (nat_lt most_quantity self.now.water || (given (λ r. nat_lt most_register r) self.now.closing || given estimate_outside self.now.estimate)) }
    {
        self.water > u64::from(MOST_QUANTITY)
            || self
                .closing
                .is_some_and(|register| register > MOST_REGISTER)
            || self.estimate.is_some_and(|estimate| past_limits(&estimate))
    }

    // What the closing register rises by over the node's.
    fn rise_over(&self, node: &Node) -> Result<u64, Refusal>
        ensures { result ≡ decided ((given (λ r. nat_lt r node.now.register) self.now.closing, RegisterFalls) ∷ []) (rise_to node.now self.now.closing) }
    {
        let Some(register) = self.closing else {
            return Ok(0);
        };
        register
            .checked_sub(node.register)
            .ok_or(Refusal::RegisterFalls)
    }

    // Whether a closing register and an estimate stand exactly where they are due.
    fn is_due(&self, node: &Node) -> bool
        ensures { result ≡ as_due node.now self.now.closing self.now.estimate }
    {
        match node.meter {
            Meter::Working => {
                self.closing.is_some() && self.estimate.is_some() == (node.events > 0)
            }
            Meter::Faulted => self.closing.is_none() && self.estimate.is_some(),
        }
    }

    // The heat that the estimate comes to, where there is one.
    fn heat_estimated(&self) -> Result<u64, Refusal>
        requires { given estimate_outside self.now.estimate ≡ false }
        ensures { result ≡ decided ((given estimate_warm self.now.estimate, NotColder) ∷ (given (λ e. nat_lt most_quantity (estimated e)) self.now.estimate, TooMuchHeat) ∷ []) (estimate_heat self.now.estimate) }
    {
        let Some(estimate) = self.estimate else {
            return Ok(0);
        };
        Ok(estimated_heat(&estimate)?.0)
    }
}

// Whether a number of an estimate is outside its limits.
fn past_limits(estimate: &Estimate) -> bool
    ensures { result ≡ estimate_outside estimate.now }
{
    match estimate {
        Estimate::Agreed(heat) => heat.0 > u64::from(MOST_QUANTITY),
        Estimate::Formula(formula) => !formula.within(),
    }
}
