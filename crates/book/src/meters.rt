// The meter staff's calls.
ghost use Rattle.std.specs.Prelude.{◌≡◌, ◌≤◌, ◌+◌, [], ◌∷◌, ltb};
ghost use Rattle.sharing.specs.Limits.{most_quantity};
ghost use Rattle.sharing.specs.Refusals.{decided};
ghost use Rattle.sharing.specs.declared.refusal.Refusal.TheVariants.{OutOfRange, RegisterFalls, TooMuchHeat};
ghost use Rattle.book.specs.Calls.{Sure};
ghost use Rattle.book.specs.Limits.{most_register};
ghost use Rattle.book.specs.Meters.{event_why, meter_entry, node_after, rise};
ghost use Rattle.book.specs.Records.{Fault, Repair};
ghost use Rattle.book.specs.World.{store};

use crate::book::Book;
use crate::limits::{MOST_EVENTS, MOST_REGISTER};
use crate::records::{Meter, MeterEvent, Node};
use sharing::limits::MOST_QUANTITY;
use sharing::refusal::Refusal;

impl Node {
    // The node after a fault report or a repair that names a register.
    fn after(&self, event: MeterEvent, register: u64) -> Result<Node, Refusal>
        ensures { result ≡ decided ((ltb most_register register, OutOfRange) ∷ event_why event self.now register) (node_after event self.now register) }
    {
        if register > MOST_REGISTER {
            return Err(Refusal::OutOfRange);
        }
        let meter = match (self.meter, event) {
            (Meter::Working, MeterEvent::Fault) => Meter::Faulted,
            (Meter::Faulted, MeterEvent::Repair) => Meter::Working,
            (Meter::Faulted, MeterEvent::Fault) | (Meter::Working, MeterEvent::Repair) => {
                return Err(Refusal::WrongMeterState);
            }
        };
        if self.events >= MOST_EVENTS {
            return Err(Refusal::TooManyEvents);
        }
        let carried = match event {
            MeterEvent::Fault => self.carried_to(register)?,
            MeterEvent::Repair => self.carried,
        };
        Ok(Node {
            register,
            carried,
            events: self.events + 1,
            meter,
            ..*self
        })
    }

    // What is carried with the rise to the last good register.
    fn carried_to(&self, register: u64) -> Result<u32, Refusal>
        requires { register ≤ most_register }
        ensures { let carried = self.now.carried + rise self.now register in result ≡ decided ((ltb register self.now.register, RegisterFalls) ∷ (ltb most_quantity carried, TooMuchHeat) ∷ []) carried }
    {
        if register < self.register {
            return Err(Refusal::RegisterFalls);
        }
        let carried = u64::from(self.carried) + (register - self.register);
        if carried > u64::from(MOST_QUANTITY) {
            return Err(Refusal::TooMuchHeat);
        }
        Ok(carried as u32)
    }
}

impl Book {
    // Reports a fault of a working meter, with its last good register.
    pub fn report_fault(&mut self, node: usize, register: u64) -> Result<(), Refusal>
        ensures { Sure (meter_entry Fault node register) (store self.old.tables) (store self.new.tables) result }
    {
        self.note_event(MeterEvent::Fault, node, register)
    }

    // Reports the repair of a faulted meter, with its new register.
    pub fn repair(&mut self, node: usize, register: u64) -> Result<(), Refusal>
        ensures { Sure (meter_entry Repair node register) (store self.old.tables) (store self.new.tables) result }
    {
        self.note_event(MeterEvent::Repair, node, register)
    }

    // Both reports, which differ in the event; a node and a register are two numbers, and a struct of them would say no more.
    fn note_event(&mut self, event: MeterEvent, node: usize, register: u64) -> Result<(), Refusal>
        ensures { Sure (meter_entry event node register) (store self.old.tables) (store self.new.tables) result }
    {
        let nodes = &mut self.tables.nodes;
        if node >= nodes.len() {
            return Err(Refusal::Unknown);
        }
        nodes[node] = nodes[node].after(event, register)?;
        Ok(())
    }
}
