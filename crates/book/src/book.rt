// A book: tables that are sound by its type.
ghost use Rattle.std.specs.Prelude.{◌≡◌, true, false, MatchResult};
ghost use Rattle.sharing.specs.declared.refusal.Refusal.TheVariants.{Unsound};
ghost use Rattle.book.specs.Sound.{sound};
ghost use Rattle.book.specs.World.{empty, world};

use crate::tables::{Places, Tables};
use sharing::refusal::{Refusal, Refused};
use std::alloc::Global;

// Whoever writes the tables shows that they stay sound.
#[derive(Drop)]
pub struct Book {
    pub tables: Tables,
    ghost sound: { sound (world tables) ≡ true },
}

impl Book {
    // A new book: nothing is in use.
    #[tactic(auto, using(crate::proofs::Soundness::sound_empty))]
    pub fn new(heap: Global, places: Places) -> Book
        ensures { world result.tables ≡ empty places }
    {
        Book {
            tables: Tables {
                rows: Vec::new(heap),
                recipients: Vec::new(heap),
                nodes: Vec::new(heap),
                objects: Vec::new(heap),
                lines: Vec::new(heap),
                places,
            },
        }
    }

    // A book over stored tables; tables that are not sound are given back as they are.
    pub fn from_tables(tables: Tables) -> Result<Book, Refused<Tables>>
        ensures { MatchResult result (λ b. (b.tables ≡ tables) × (sound (world tables) ≡ true)) (λ e. (e.given ≡ tables) × ((e.refusal ≡ Unsound) × (sound (world tables) ≡ false))) }
    {
        if tables.is_sound() {
            Ok(Book { tables })
        } else {
            Err(Refused {
                given: tables,
                refusal: Refusal::Unsound,
            })
        }
    }

    // What the book holds.
    pub fn tables(&self) -> &Tables
        ensures { result.now ≡ self.now.tables }
    {
        &self.tables
    }

    // The tables, to be kept and opened again.
    pub fn into_tables(self) -> Tables
        ensures { (result ≡ self.tables) × (sound (world result) ≡ true) }
    {
        let Book { tables } = self;
        tables
    }
}
