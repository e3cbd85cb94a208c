// Memory for the places of the tables.
ghost use Rattle.std.specs.Prelude.{◌≡◌, ◌<◌, ◌≤◌, MatchResult, vec_capacity};
ghost use Rattle.sharing.specs.declared.refusal.Refusal.TheVariants.{Memory};
ghost use Rattle.book.specs.Calls.{Provided};
ghost use Rattle.book.specs.World.{store};

use crate::book::Book;
use sharing::refusal::Refusal;

// The table has, or gets, memory for so many items.
fn make_room<T>(table: &mut Vec<T>, places: usize) -> Result<(), Refusal>
    ensures items { table.new.items ≡ table.old.items }
    ensures kept { vec_capacity table.old ≤ vec_capacity table.new }
    ensures cases { MatchResult result (λ _. places ≤ vec_capacity table.new) (λ e. (e ≡ Memory) × (vec_capacity table.old < places)) }
{
    let more = places.saturating_sub(table.len());
    table.reserve_exact(more).map_err(|_| Refusal::Memory)
}

impl Book {
    // Gets memory for every place granted, so that no later call wants any for the tables.
    pub fn reserve(&mut self) -> Result<(), Refusal>
        ensures { Provided (store self.old.tables) (store self.new.tables) result }
    {
        let tables = &mut self.tables;
        let places = tables.places.allowed();
        make_room(&mut tables.rows, places.rows)?;
        make_room(&mut tables.recipients, places.recipients)?;
        make_room(&mut tables.nodes, places.nodes)?;
        make_room(&mut tables.objects, places.objects)?;
        make_room(&mut tables.lines, places.lines)
    }
}
