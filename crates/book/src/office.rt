// The office's calls.
ghost use Rattle.std.specs.Prelude.{◌≡◌, ◌||◌, [], ◌∷◌, leb, length, ltb};
ghost use Rattle.sharing.specs.Limits.{most_area, most_power};
ghost use Rattle.sharing.specs.Refusals.{decided};
ghost use Rattle.sharing.specs.declared.refusal.Refusal.TheVariants.{Full, OutOfRange};
ghost use Rattle.book.specs.Calls.{Added, Outcome, Sure};
ghost use Rattle.book.specs.Office.{change_entry, node_entry, object_entry, object_on, recipient_entry, row_entry};
ghost use Rattle.book.specs.Sound.{crowd};
ghost use Rattle.book.specs.World.{new_node, store, world};

use crate::book::Book;
use crate::limits::{MONTHS, MOST_REGISTER};
use crate::records::{Meter, Node, Object, Recipient, Terms};
use crate::tables::Tables;
use sharing::limits::{MOST_AREA, MOST_OBJECTS as MOST_BEHIND_NODE, MOST_POWER};
use sharing::refusal::Refusal;
use tariff::row::Row;
use tariff::rows::Rows;

// Refuses a table that has no place left.
fn not_full<T>(table: &[T], places: usize) -> Result<(), Refusal>
    ensures { result ≡ decided ((leb places (length table.now), Full) ∷ []) tt }
{
    if table.len() < places {
        Ok(())
    } else {
        Err(Refusal::Full)
    }
}

// One item more and its number, or want of memory with the table as it was.
fn add<T: Copy>(table: &mut Vec<T>, item: T) -> Result<usize, Refusal>
    ensures { Added table.old item table.new result }
{
    let number = table.len();
    table.push(item).map_err(|_| Refusal::Memory)?;
    Ok(number)
}

// How many objects the node has.
fn crowd_of(objects: &[Object], node: usize) -> usize
    ensures { result ≡ crowd node objects.now }
{
    let mut count: usize = 0;
    // a loop: a chain of `filter` and `count` takes twice the time, and one of `map` and `sum` would ask that there are few objects
    for object in objects {
        if object.node == node {
            count += 1;
        }
    }
    count
}

impl Terms {
    // An object on these terms; a struct of node and recipient would be an object without them.
    fn object(self, node: usize, recipient: usize) -> Result<Object, Refusal>
        ensures { result ≡ decided ((ltb most_power self.power || ltb most_area self.area, OutOfRange) ∷ []) (object_on node recipient self) }
    {
        if self.power > u64::from(MOST_POWER) || self.area > u64::from(MOST_AREA) {
            return Err(Refusal::OutOfRange);
        }
        Ok(Object {
            node,
            recipient,
            row: self.row,
            power: self.power as u32,
            area: self.area as u32,
        })
    }
}

impl Tables {
    // The node to be entered.
    fn new_node(&self, month: u64, register: u64) -> Result<Node, Refusal>
        ensures { result ≡ decided (node_entry month register (world self.now)).why (new_node month register) }
    {
        not_full(&self.nodes, self.places.allowed().nodes)?;
        if month > u64::from(MONTHS) || register > MOST_REGISTER {
            return Err(Refusal::OutOfRange);
        }
        Ok(Node {
            month: month as u16,
            register,
            carried: 0,
            events: 0,
            meter: Meter::Working,
        })
    }

    // The object to be entered.
    fn new_object(&self, node: usize, recipient: usize, terms: Terms) -> Result<Object, Refusal>
        ensures { let object = object_on node recipient terms in result ≡ decided (object_entry object (world self.now)).why object }
    {
        not_full(&self.objects, self.places.allowed().objects)?;
        if node >= self.nodes.len()
            || recipient >= self.recipients.len()
            || terms.row >= self.rows.len()
        {
            return Err(Refusal::Unknown);
        }
        let object = terms.object(node, recipient)?;
        if crowd_of(&self.objects, node) >= MOST_BEHIND_NODE {
            return Err(Refusal::NodeFull);
        }
        Ok(object)
    }
}

impl Book {
    // Whether a row may be entered.
    #[tactic(auto, unfolding(crate::specs::Sound::sound))]
    fn check_row(&self, row: &Row) -> Result<(), Refusal>
        ensures { result ≡ decided (row_entry row.now (world self.now.tables)).why tt }
    {
        let tables = &self.tables;
        not_full(&tables.rows, tables.places.allowed().rows)?;
        let rows = Rows { rows: &tables.rows };
        rows.check(row)
    }

    // Enters a row above those in use, and answers its number.
    pub fn enter_row(&mut self, row: Row) -> Result<usize, Refusal>
        ensures { Outcome (row_entry row) (store self.old.tables) (store self.new.tables) result }
    {
        self.check_row(&row)?;
        add(&mut self.tables.rows, row)
    }

    // Enters a recipient with the balance 0, and answers its number.
    pub fn enter_recipient(&mut self) -> Result<usize, Refusal>
        ensures { Outcome recipient_entry (store self.old.tables) (store self.new.tables) result }
    {
        let tables = &mut self.tables;
        not_full(&tables.recipients, tables.places.allowed().recipients)?;
        add(&mut tables.recipients, Recipient { balance: 0 })
    }

    // Enters a node whose meter works, and answers its number.
    pub fn enter_node(&mut self, month: u64, register: u64) -> Result<usize, Refusal>
        ensures { Outcome (node_entry month register) (store self.old.tables) (store self.new.tables) result }
    {
        let node = self.tables.new_node(month, register)?;
        add(&mut self.tables.nodes, node)
    }

    // Enters an object behind a node, and answers its number.
    pub fn enter_object(
        &mut self,
        node: usize,
        recipient: usize,
        terms: Terms,
    ) -> Result<usize, Refusal>
        ensures { Outcome (object_entry (object_on node recipient terms)) (store self.old.tables) (store self.new.tables) result }
    {
        let object = self.tables.new_object(node, recipient, terms)?;
        add(&mut self.tables.objects, object)
    }

    // Puts an object on other terms for months not yet posted.
    pub fn change_object(&mut self, object: usize, terms: Terms) -> Result<(), Refusal>
        ensures { Sure (change_entry object terms.row terms.power terms.area) (store self.old.tables) (store self.new.tables) result }
    {
        let tables = &mut self.tables;
        if object >= tables.objects.len() || terms.row >= tables.rows.len() {
            return Err(Refusal::Unknown);
        }
        let old = tables.objects[object];
        tables.objects[object] = terms.object(old.node, old.recipient)?;
        Ok(())
    }
}
