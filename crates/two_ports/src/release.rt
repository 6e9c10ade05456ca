//! Release on a card with two ports: a live message ends as that of the card that its port sees, and what that card does not have moves beside it,
//! the common bases and the other port; a dead message only ends.
ghost use Rattle.std.specs.Prelude.{◌≡◌, OnOk, OnErr, length};
ghost use Rattle.rules.specs.Refusal.{refusal_of};
ghost use Rattle.rules.specs.Refusals.{none};
ghost use Rattle.card.specs.Exchange.{fields};
ghost use Rattle.card.specs.Release.{bases_after, first32, release_refusal as card_release_refusal, memory_after};
ghost use Rattle.two_ports.specs.State.{view, view_from};
ghost use Rattle.two_ports.specs.Ports.{acted_beside, ports_release_refusal, switched_on, switched_off, switched, release_live, release_dead, release_near, released_ports, memory_near, memory_after_ports};

use crate::{PortRecord, Ports};
use card::Card;
use card::release::bases_after;
use rules::Name;
use rules::refusal::Refusal;

impl PortRecord {
    // A port switched on: a message that is open stays as it was, live or dead.
    fn switch_on(&mut self)
        ensures { self.new ≡ switched_on self.old }
    {
        self.active = true;
    }

    // A port switched off: an open message is dropped and forgotten, and the port knows only that it is selected.
    fn switch_off(&mut self)
        ensures { self.new ≡ switched_off self.old }
    {
        let selected = self.port.message.opened;
        self.active = false;
        self.dropped = selected;
        self.held = PortRecord::NO_BASES;
        self.empty(selected);
    }

    // ACTIVATE and DEACTIVATE act on the other port.
    #[tactic(auto, unfolding(crate::specs::Ports::switched))]
    fn switch(&mut self, code: u8)
        ensures { self.new ≡ switched self.old code }
    {
        if rules::is_command(code, Name::Activate) {
            self.switch_on();
        } else if rules::is_command(code, Name::Deactivate) {
            self.switch_off();
        }
    }
}

impl Ports {
    // What an accepted message does that its own card does not: ACTIVATE and DEACTIVATE act on the other port, and RESET and CONFIG move the common
    // bases as they stand by now, and not those that the message was judged by: the other port may have moved them meanwhile.
    fn act(&mut self, card: &Card)
        ensures { self.new ≡ acted_beside self.old card.now }
    {
        let code = card.token_of().fields().code;
        self.far.switch(code);
        self.bases = bases_after(self.bases, code, card.first32_of());
    }

    // A live message ends as that of the card that the port sees; what that card does not have, the common bases and the other port, moves beside it.
    #[tactic(auto, unfolding(crate::specs::Ports::release_live, crate::specs::Ports::bases_moved, crate::specs::Ports::far_moved, card::specs::Release::release_accepts, card::specs::Release::released))]
    fn release_live(&mut self, memory: &mut [u16], left: u8) -> Result<(), Refusal>
        requires { card_release_refusal (view self.old) (length memory.old) left ≡ none }
        ensures answer { refusal_of result ≡ none }
        ensures after { self.new ≡ release_live self.old (length memory.old) left }
        ensures memory_after { memory.new ≡ memory_after (view self.old) memory.old left }
    {
        let mut card = self.view();
        if card.accepts(memory.len(), left) {
            self.act(&card);
        }
        let released = card.release(memory, left);
        self.time = card.time;
        self.near.dropped = false;
        self.near.held = PortRecord::NO_BASES;
        self.near.port = card.port;
        released
    }

    // A dead message only ends.
    #[tactic(auto, unfolding(crate::specs::Ports::release_dead))]
    fn release_dead(&mut self)
        ensures { self.new ≡ release_dead self.old }
    {
        self.near.dropped = false;
        self.near.held = PortRecord::NO_BASES;
        self.near.empty(false);
    }

    #[tactic(auto, unfolding(crate::specs::Ports::release_near, crate::specs::Ports::memory_near))]
    fn release_near(&mut self, memory: &mut [u16], left: u8) -> Result<(), Refusal>
        requires { card_release_refusal (view self.old) (length memory.old) left ≡ none }
        ensures answer { refusal_of result ≡ none }
        ensures after { self.new ≡ release_near self.old (length memory.old) left }
        ensures memory_after { memory.new ≡ memory_near self.old memory.old left }
    {
        if self.near.is_live() {
            return self.release_live(memory, left);
        }
        self.release_dead();
        Ok(())
    }

    #[tactic(auto, unfolding(crate::specs::Ports::ports_release_refusal))]
    fn release_refusal(&self, port: u8, size: usize, left: u8) -> Result<(), Refusal>
        ensures answer { refusal_of result ≡ ports_release_refusal self.now port size left }
        ensures seen { OnOk result (card_release_refusal (view_from port self.now) size left ≡ none) }
    {
        let seen = self.view_from(port).release_refusal(size, left);
        self.answer_at(port, size == self.size, seen)
    }

    /// Ends a port's message, with `left` bits, 0 to 15, of an unfinished word left over. Only here may memory change. Refused with State, Size,
    /// Closed or Argument.
    #[tactic(auto, unfolding(crate::specs::Ports::released_ports, crate::specs::Ports::memory_after_ports))]
    pub fn release(&mut self, port: u8, memory: &mut [u16], left: u8) -> Result<(), Refusal>
        ensures answer { refusal_of result ≡ (released_ports self.old port (length memory.old) left).refusal }
        ensures after { self.new ≡ (released_ports self.old port (length memory.old) left).ports }
        ensures memory_after { memory.new ≡ memory_after_ports self.old port memory.old left }
        ensures refused { OnErr result ((self.new ≡ self.old) × (memory.new ≡ memory.old)) }
    {
        self.release_refusal(port, memory.len(), left)?;
        self.turn(port);
        let released = self.release_near(memory, left);
        self.turn(port);
        released
    }
}
