//! What every call of the card with two ports shares: what a port sees, the state with another near port, and the order of the refusals. A call
//! names its port, turns the two so that the port is the near one, and turns them back behind it.
ghost use Rattle.std.specs.Prelude.{◌≡◌, OnOk};
ghost use Rattle.rules.specs.Refusals.{none};
ghost use Rattle.rules.specs.Refusal.{refusal_of};
ghost use Rattle.two_ports.specs.State.{live, out_of_range, seen_from, view, view_from, with_emptied, with_near, with_near_port, with_port};
ghost use Rattle.two_ports.specs.Ports.{refusal_at};

use crate::{PortRecord, Ports};
use card::{Card, Message, Port};
use judge::Bases;
use rules::refusal::Refusal;
use std::mem;

/// A port with no word received, its message open or not; status bits and last token stay.
pub fn with_emptied(port: Port, opened: bool) -> Port
    ensures { result ≡ with_emptied port opened }
{
    let mut next = port;
    next.message = Message::empty(opened);
    next
}

impl PortRecord {
    /// What a port keeps of bases while no live message is open.
    pub const NO_BASES: Bases = Bases {
        write_base: 0,
        read_base: 0,
    };

    /// Its message goes on: any other is dead, and the port sends zeros.
    #[tactic(auto, unfolding(crate::specs::State::live))]
    pub fn is_live(&self) -> bool
        ensures { result ≡ live self.now }
    {
        self.active && self.port.message.opened && !self.dropped
    }

    /// No word received, its message open or not; status bits and last token stay.
    pub fn empty(&mut self, opened: bool)
        ensures { self.new ≡ with_port self.old (with_emptied self.old.port opened) }
    {
        self.port.message = Message::empty(opened);
    }
}

impl Ports {
    // ---- what a port sees

    /// As it is seen from a port: that port is near. Twice is not at all.
    #[tactic(auto, unfolding(crate::specs::State::seen_from))]
    pub fn turn(&mut self, port: u8)
        ensures { self.new ≡ seen_from port self.old }
    {
        if port == 1 {
            mem::swap(&mut self.near, &mut self.far);
        }
    }

    /// The card with one port that the near port sees. While it is selected the bases are those of its select, whatever the other port has moved.
    #[tactic(auto, unfolding(crate::specs::State::view))]
    pub fn view(&self) -> Card
        ensures { result ≡ view self.now }
    {
        let near = self.near;
        let bases = if near.port.message.opened {
            near.held
        } else {
            self.bases
        };
        Card {
            size: self.size,
            time: self.time,
            bases,
            stf: self.stf,
            module_state: self.module_state,
            port: near.port,
        }
    }

    /// The card with one port that a port sees.
    pub fn view_from(&self, port: u8) -> Card
        ensures { result ≡ view_from port self.now }
    {
        let mut seen = *self;
        seen.turn(port);
        seen.view()
    }

    /// It with another near port, and all else as it is.
    pub fn with_near(self, near: PortRecord) -> Ports
        ensures { result ≡ with_near self near }
    {
        let mut next = self;
        next.near = near;
        next
    }

    /// The near port with another message, status or last token.
    pub fn set_near_port(&mut self, port: Port)
        ensures { self.new ≡ with_near_port self.old port }
    {
        self.near.port = port;
    }

    // ---- refusals

    /// The size (1 to 32,768), a word count (at most 67) or the module state (at most 15) lies outside its range, or both ports are inactive.
    #[tactic(auto, unfolding(crate::specs::State::out_of_range, card::specs::State::sized))]
    pub fn is_out_of_range(&self) -> bool
        ensures { result ≡ out_of_range self.now }
    {
        let active = self.near.active || self.far.active;
        self.size < 1
            || 32768 < self.size
            || 67 < self.near.port.message.count
            || 67 < self.far.port.message.count
            || 15 < self.module_state
            || !active
    }

    /// The number of what a call on a port refuses, 0 for none: State comes first; then, for a port that there is, the number of the card that it
    /// sees. For any other port, Size where lent memory has another size, and Argument.
    // `answer_at` by number: it answers for every number, and an answer has those of the refusals alone.
    #[tactic(auto, unfolding(crate::specs::Ports::refusal_at, crate::specs::State::is_port))]
    pub fn refusal_at(&self, port: u8, size_fits: bool, number: u8) -> u8
        ensures { result ≡ refusal_at self.now port size_fits number }
    {
        if self.is_out_of_range() {
            Refusal::State.number()
        } else if port < 2 {
            number
        } else if size_fits {
            Refusal::Argument.number()
        } else {
            Refusal::Size.number()
        }
    }

    /// What a call on a port refuses: State comes first; then, for a port that there is, what the card that it sees answers.
    #[tactic(auto, unfolding(crate::specs::Ports::refusal_at, crate::specs::State::is_port))]
    pub(crate) fn answer_at(
        &self,
        port: u8,
        size_fits: bool,
        answer: Result<(), Refusal>,
    ) -> Result<(), Refusal>
        ensures answer { refusal_of result ≡ refusal_at self.now port size_fits (refusal_of answer) }
        ensures seen { OnOk result (refusal_of answer ≡ none) }
    {
        if self.is_out_of_range() {
            return Err(Refusal::State);
        }
        if port <= 1 {
            return answer;
        }
        if size_fits {
            return Err(Refusal::Argument);
        }
        Err(Refusal::Size)
    }
}
