//! The calls of the card with two ports but release: power-up, module state, select, tell and take. Each but the first two names its port.
ghost use Rattle.std.specs.Prelude.{◌≡◌, IfOk, OnOk, OnErr, length};
ghost use Rattle.rules.specs.Refusal.{refusal_of};
ghost use Rattle.rules.specs.Refusals.{none};
ghost use Rattle.card.specs.Card.{word_refusal as card_word_refusal};
ghost use Rattle.two_ports.specs.State.{fresh_ports, view, view_from};
ghost use Rattle.two_ports.specs.Ports.{powered_ports, powered_up_ports, ports_module_refusal, module_ports, ports_select_refusal, select_near, selected_ports, ports_word_refusal, tell_near, word_near, told_ports, take_near, took_ports};

use crate::{PortRecord, Ports};
use card::{Card, Port};
use rules::refusal::Refusal;

impl PortRecord {
    // At power-up it is active, and all else as for a card with one port.
    const FRESH: PortRecord = PortRecord {
        active: true,
        dropped: false,
        held: PortRecord::NO_BASES,
        port: Port::FRESH,
    };
}

// `OFF` is what its docstring says.
fn off_ports() -> Ports
    ensures { result ≡ fresh_ports 0 }
{
    Ports::OFF
}

impl Ports {
    // ---- power-up

    /// Before power-up: the power-up state of size 0.
    pub const OFF: Ports = Ports {
        size: 0,
        time: 0,
        bases: PortRecord::NO_BASES,
        stf: false,
        module_state: 0,
        near: PortRecord::FRESH,
        far: PortRecord::FRESH,
    };

    /// The card that a power-up with a memory of `size` words, 1 to 32,768, gives: both ports active, and all else as the card with one port has it.
    /// A refused one gives the state of size 0. Refused with Size.
    #[tactic(auto, unfolding(crate::specs::Ports::powered_ports, crate::specs::State::fresh_ports, card::specs::Card::powered, card::specs::State::fresh))]
    pub fn powered(size: usize) -> (Ports, Result<(), Refusal>)
        ensures answer { refusal_of result.1 ≡ (powered_ports size).refusal }
        ensures ports { result.0 ≡ (powered_ports size).ports }
    {
        let (card, answer) = Card::powered(size);
        let fresh = PortRecord {
            port: card.port,
            ..PortRecord::FRESH
        };
        let ports = Ports {
            size: card.size,
            near: fresh,
            far: fresh,
            ..off_ports()
        };
        (ports, answer)
    }

    /// Powers it up with a memory of `size` words, 1 to 32,768, whatever it was. Refused with Size.
    #[tactic(auto, unfolding(crate::specs::Ports::powered_up_ports))]
    pub fn power_up(&mut self, size: usize) -> Result<(), Refusal>
        ensures answer { refusal_of result ≡ (powered_up_ports self.old size).refusal }
        ensures after { self.new ≡ (powered_up_ports self.old size).ports }
        ensures refused { OnErr result (self.new ≡ self.old) }
    {
        let (ports, answer) = Ports::powered(size);
        answer?;
        *self = ports;
        Ok(())
    }

    // ---- module state

    #[tactic(auto, unfolding(crate::specs::Ports::ports_module_refusal))]
    fn module_refusal(&self, state: u8) -> Result<(), Refusal>
        ensures { refusal_of result ≡ ports_module_refusal self.now state }
    {
        if self.is_out_of_range() {
            return Err(Refusal::State);
        }
        if self.near.port.message.opened || self.far.port.message.opened {
            return Err(Refusal::Open);
        }
        if state <= 15 {
            return Ok(());
        }
        Err(Refusal::Argument)
    }

    /// Sets STF and the module state, 0 to 15, which both ports show. Refused with State, Open (a message on either port, dead or live) or
    /// Argument.
    // As a card's own, in the fields of another struct.
    #[tactic(auto, unfolding(crate::specs::Ports::module_ports))]
    pub fn set_module(&mut self, stf: bool, state: u8) -> Result<(), Refusal>
        ensures answer { refusal_of result ≡ (module_ports self.old stf state).refusal }
        ensures after { self.new ≡ (module_ports self.old stf state).ports }
        ensures refused { OnErr result (self.new ≡ self.old) }
    {
        self.module_refusal(state)?;
        self.stf = stf;
        self.module_state = state;
        Ok(())
    }

    // ---- select

    #[tactic(auto, unfolding(crate::specs::Ports::ports_select_refusal))]
    fn select_refusal(&self, port: u8) -> Result<(), Refusal>
        ensures { refusal_of result ≡ ports_select_refusal self.now port }
    {
        let mut card = self.view_from(port);
        self.answer_at(port, true, card.select())
    }

    // An active port gets an empty message and the bases as they stand. An inactive one is only selected: its message is dead, and stays so when
    // the port is switched on.
    #[tactic(auto, unfolding(crate::specs::Ports::select_near))]
    fn select_near(&mut self)
        ensures { self.new ≡ select_near self.old }
    {
        let active = self.near.active;
        self.near.dropped = !active;
        self.near.held = if active {
            self.bases
        } else {
            PortRecord::NO_BASES
        };
        self.near.empty(true);
    }

    /// Opens a message on a port, 0 or 1. Refused with State, Open or Argument.
    #[tactic(auto, unfolding(crate::specs::Ports::selected_ports))]
    pub fn select(&mut self, port: u8) -> Result<(), Refusal>
        ensures answer { refusal_of result ≡ (selected_ports self.old port).refusal }
        ensures after { self.new ≡ (selected_ports self.old port).ports }
        ensures refused { OnErr result (self.new ≡ self.old) }
    {
        self.select_refusal(port)?;
        self.turn(port);
        self.select_near();
        self.turn(port);
        Ok(())
    }

    // ---- tell and take

    /// The refusal of tell and take, for lent memory of `size` words: State, Size, Closed or Argument.
    #[tactic(auto, unfolding(crate::specs::Ports::ports_word_refusal))]
    pub fn word_refusal(&self, port: u8, size: usize) -> Result<(), Refusal>
        ensures answer { refusal_of result ≡ ports_word_refusal self.now port size }
        ensures seen { OnOk result (card_word_refusal (view_from port self.now) size ≡ none) }
    {
        let seen = self.view_from(port).word_refusal(size);
        self.answer_at(port, size == self.size, seen)
    }

    // A live message's word is the one of the card that the port sees; a dead message's is 0, and leaves no note.
    #[tactic(auto, unfolding(crate::specs::Ports::tell_near, crate::specs::Ports::word_near, card::specs::Exchange::told))]
    fn tell_near(&mut self, memory: &[u16]) -> Result<u16, Refusal>
        requires { card_word_refusal (view self.old) (length memory.now) ≡ none }
        ensures answer { refusal_of result ≡ none }
        ensures word { IfOk result (λ word. word ≡ word_near self.old memory.now) }
        ensures after { self.new ≡ tell_near self.old memory.now }
    {
        if !self.near.is_live() {
            return Ok(0);
        }
        let mut card = self.view();
        let word = card.tell(memory);
        self.set_near_port(card.port);
        word
    }

    /// Tells the word that a port will send, and changes nothing but the note of it. A dead message's word is 0. Refused with State, Size, Closed or
    /// Argument.
    #[tactic(auto, unfolding(crate::specs::Ports::told_ports))]
    pub fn tell(&mut self, port: u8, memory: &[u16]) -> Result<u16, Refusal>
        ensures answer { refusal_of result ≡ (told_ports self.old port memory.now).refusal }
        ensures word { IfOk result (λ word. word ≡ (told_ports self.old port memory.now).word) }
        ensures after { self.new ≡ (told_ports self.old port memory.now).ports }
        ensures refused { OnErr result (self.new ≡ self.old) }
    {
        self.word_refusal(port, memory.len())?;
        self.turn(port);
        let word = self.tell_near(memory);
        self.turn(port);
        word
    }

    // A dead message counts no word.
    #[tactic(auto, unfolding(crate::specs::Ports::take_near, card::specs::Exchange::took))]
    fn take_near(&mut self, memory: &[u16], word: u16) -> Result<(), Refusal>
        requires { card_word_refusal (view self.old) (length memory.now) ≡ none }
        ensures answer { refusal_of result ≡ none }
        ensures after { self.new ≡ take_near self.old memory.now word }
    {
        if !self.near.is_live() {
            return Ok(());
        }
        let mut card = self.view();
        let taken = card.take(memory, word);
        self.set_near_port(card.port);
        taken
    }

    /// Takes the word received at a port. A dead message counts none. Refused with State, Size, Closed or Argument.
    #[tactic(auto, unfolding(crate::specs::Ports::took_ports))]
    pub fn take(&mut self, port: u8, memory: &[u16], word: u16) -> Result<(), Refusal>
        ensures answer { refusal_of result ≡ (took_ports self.old port memory.now word).refusal }
        ensures after { self.new ≡ (took_ports self.old port memory.now word).ports }
        ensures refused { OnErr result (self.new ≡ self.old) }
    {
        self.word_refusal(port, memory.len())?;
        self.turn(port);
        let taken = self.take_near(memory, word);
        self.turn(port);
        taken
    }
}
