// Whether stored tables are sound.
ghost use Rattle.std.specs.Prelude.{◌≡◌, Bool, true, nat_le, nat_lt};
ghost use Rattle.std.specs.List.{list_all};
ghost use Rattle.sharing.specs.Limits.{most_objects};
ghost use Rattle.book.specs.Limits.{most_nodes};
ghost use Rattle.book.specs.Records.{amounts_in};
ghost use Rattle.book.specs.Sound.{amount_good, balance_good, counts_good, crowd, line_good, names_good, node_good, numbers_good, object_good, recipient_good, records_good, sound};
ghost use Rattle.book.specs.World.{in_use, world};
ghost use Rattle.book.specs.declared.tables.InUse.{InUse};

use crate::limits::{MONTHS, MOST_AMOUNT, MOST_BALANCE, MOST_EVENTS, MOST_NODES, MOST_REGISTER};
use crate::records::{Amounts, Line, Node, Object, Recipient};
use crate::tables::{InUse, Tables};
use sharing::limits::{MOST_AREA, MOST_OBJECTS as MOST_BEHIND_NODE, MOST_POWER, MOST_QUANTITY};
use tariff::rules::keep_rules;

// A record of a table, which is good among so many items in use.
trait Stored {
    ghost good: { InUse → Self → Bool };

    fn is_good(&self, used: InUse) -> bool
        ensures { result ≡ good used self.now };
}

impl Stored for Recipient {
    ghost good = { λ _ r. recipient_good r };

    fn is_good(&self, _used: InUse) -> bool {
        is_balance(self.balance)
    }
}

impl Stored for Node {
    ghost good = { λ _ n. node_good n };

    fn is_good(&self, _used: InUse) -> bool {
        self.month <= MONTHS
            && self.register <= MOST_REGISTER
            && self.carried <= MOST_QUANTITY
            && self.events <= MOST_EVENTS
    }
}

impl Stored for Object {
    ghost good = { object_good };

    fn is_good(&self, used: InUse) -> bool {
        self.node < used.nodes
            && self.recipient < used.recipients
            && self.row < used.rows
            && self.power <= MOST_POWER
            && self.area <= MOST_AREA
    }
}

impl Stored for Line {
    ghost good = { line_good };

    fn is_good(&self, used: InUse) -> bool {
        self.names_used(used) && self.numbers_within() && self.amounts.within()
    }
}

impl Line {
    // Whether what the line names is in use.
    fn names_used(&self, used: InUse) -> bool
        ensures { result ≡ names_good used self.now }
    {
        self.recipient < used.recipients
            && (!self.kind.is_of_a_month()
                || (self.node < used.nodes && self.object < used.objects && self.row < used.rows))
    }

    fn numbers_within(&self) -> bool
        ensures { result ≡ numbers_good self.now }
    {
        self.month < MONTHS
            && self.kw <= MOST_POWER
            && self.weight <= MOST_QUANTITY
            && is_amount(self.heat)
            && self.water <= MOST_QUANTITY
    }
}

impl Amounts {
    // Whether each is within its limit.
    fn within(&self) -> bool
        ensures { result ≡ list_all amount_good (amounts_in self.now) }
    {
        self.list().iter().all(|amount| is_amount(*amount))
    }
}

// Whether an amount, or a heat, is within its limit.
fn is_amount(amount: i64) -> bool
    ensures { result ≡ amount_good amount }
{
    (-MOST_AMOUNT..=MOST_AMOUNT).contains(&amount)
}

// Whether a balance is within its limit; the limit as a parameter would have to be turned into its negative first.
pub fn is_balance(balance: i64) -> bool
    ensures { result ≡ balance_good balance }
{
    (-MOST_BALANCE..=MOST_BALANCE).contains(&balance)
}

// Whether every record of a table is good.
fn all_good<T: Stored>(items: &[T], used: InUse) -> bool
    ensures { result ≡ list_all (T.good used) items.now }
{
    items.iter().all(|item| item.is_good(used))
}

// Whether every line is good among what the tables have in use.
pub fn lines_good(tables: &Tables, lines: &[Line]) -> bool
    ensures { result ≡ list_all (line_good (in_use (world tables.now))) lines.now }
{
    all_good(lines, tables.in_use())
}

// Whether no node has more objects than it may have: they are counted node by node in one pass.
#[tactic(auto, using(crate::proofs::Crowds::node_low))]
fn not_crowded(objects: &[Object]) -> bool
    requires { list_all (λ o. nat_lt o.node most_nodes) objects.now ≡ true }
    ensures { result ≡ list_all (λ o. nat_le (crowd o.node objects.now) most_objects) objects.now }
{
    // a chain over `crowd_of` would not be one pass: it counts all objects for each
    let mut counts = [0usize; MOST_NODES];
    for object in objects {
        let count = &mut counts[object.node];
        if *count >= MOST_BEHIND_NODE {
            return false;
        }
        *count += 1;
    }
    true
}

impl Tables {
    // Whether the tables are sound.
    #[tactic(auto, unfolding(crate::specs::Sound::sound))]
    pub(crate) fn is_sound(&self) -> bool
        ensures { result ≡ sound (world self.now) }
    {
        self.counts_within()
            && keep_rules(&self.rows)
            && self.records_good()
            && not_crowded(&self.objects)
    }

    // Whether no table holds more than its owner grants and than it may.
    fn counts_within(&self) -> bool
        ensures { result ≡ counts_good (world self.now) }
    {
        let most = self.places.allowed();
        self.rows.len() <= most.rows
            && self.recipients.len() <= most.recipients
            && self.nodes.len() <= most.nodes
            && self.objects.len() <= most.objects
            && self.lines.len() <= most.lines
    }

    // Whether every record is good.
    fn records_good(&self) -> bool
        ensures { result ≡ records_good (world self.now) }
    {
        let used = self.in_use();
        all_good(&self.recipients, used)
            && all_good(&self.nodes, used)
            && all_good(&self.objects, used)
            && all_good(&self.lines, used)
    }
}
