//! The calls at the pins of a card with two ports, each behind its own bit shifter: power-up, module state, select, each bit and release.
ghost use Rattle.std.specs.Prelude.{◌≡◌, ◌≤◌, IfOk, OnErr, OnOk, length};
ghost use Rattle.rules.specs.Refusal.{refusal_of};
ghost use Rattle.rules.specs.Refusals.{none};
ghost use Rattle.card.specs.Card.{word_refusal};
ghost use Rattle.shifter.specs.Shifter.{cleared};
ghost use Rattle.two_ports.specs.State.{fresh_ports, seen_from, view};
ghost use Rattle.two_pins.specs.PortPins.{port_pins_of, pins_from, behind_shifters, left_at, powered_port_pins, powered_up_port_pins, module_port_pins, selected_port_pins, clock_near, bit_near, clocked_port, released_port_pins, memory_after_port_pins};

use crate::PortPins;
use pins::Pins;
use rules::refusal::Refusal;
use shifter::Shifter;
use std::mem;
use two_ports::Ports;

// `OFF` is what its docstring says.
fn off_port_pins() -> PortPins
    ensures { result ≡ port_pins_of (fresh_ports 0) cleared cleared }
{
    PortPins::OFF
}

impl PortPins {
    /// Before power-up: the power-up state of size 0.
    pub const OFF: PortPins = PortPins {
        ports: Ports::OFF,
        near: Shifter::CLEARED,
        far: Shifter::CLEARED,
    };

    // As it is seen from a port: that port and its shifter are near. Twice is not at all.
    #[tactic(auto, unfolding(crate::specs::PortPins::pins_from, two_ports::specs::State::seen_from))]
    fn turn(&mut self, port: u8)
        ensures turned { self.new ≡ pins_from port self.old }
        ensures ports { self.new.ports ≡ seen_from port self.old.ports }
    {
        if port == 1 {
            self.ports.turn(port);
            mem::swap(&mut self.near, &mut self.far);
        }
    }

    // The refusal of either shifter comes before the card's, whichever port is called.
    #[tactic(auto, unfolding(crate::specs::PortPins::behind_shifters))]
    fn shifters_ready(&self) -> Result<(), Refusal>
        ensures answer { refusal_of result ≡ behind_shifters self.now none }
        ensures near { OnOk result (self.now.near.count ≤ 15) }
        ensures far { OnOk result (self.now.far.count ≤ 15) }
    {
        self.near.left()?;
        self.far.left()?;
        Ok(())
    }

    /// The card that a power-up with a memory of `size` words, 1 to 32,768, gives, behind clear shifters. A refused one gives the state of size 0.
    /// Refused with Size.
    #[tactic(auto, unfolding(crate::specs::PortPins::powered_port_pins))]
    pub fn powered(size: usize) -> (PortPins, Result<(), Refusal>)
        ensures answer { refusal_of result.1 ≡ (powered_port_pins size).refusal }
        ensures pins { result.0 ≡ (powered_port_pins size).pins }
    {
        let (ports, answer) = Ports::powered(size);
        let pins = PortPins {
            ports,
            ..off_port_pins()
        };
        (pins, answer)
    }

    /// Powers it up with a memory of `size` words, 1 to 32,768, behind clear shifters, whatever all were. Refused with Size.
    #[tactic(auto, unfolding(crate::specs::PortPins::powered_up_port_pins))]
    pub fn power_up(&mut self, size: usize) -> Result<(), Refusal>
        ensures answer { refusal_of result ≡ (powered_up_port_pins self.old size).refusal }
        ensures after { self.new ≡ (powered_up_port_pins self.old size).pins }
        ensures refused { OnErr result (self.new ≡ self.old) }
    {
        let (pins, answer) = PortPins::powered(size);
        answer?;
        *self = pins;
        Ok(())
    }

    /// Sets STF and the module state, 0 to 15. The shifters stay. Refused with State, Open or Argument.
    #[tactic(auto, unfolding(crate::specs::PortPins::module_port_pins, crate::specs::PortPins::behind_shifters))]
    pub fn set_module(&mut self, stf: bool, state: u8) -> Result<(), Refusal>
        ensures answer { refusal_of result ≡ (module_port_pins self.old stf state).refusal }
        ensures after { self.new ≡ (module_port_pins self.old stf state).pins }
        ensures refused { OnErr result (self.new ≡ self.old) }
    {
        self.shifters_ready()?;
        self.ports.set_module(stf, state)
    }

    /// Opens a message on a port, 0 or 1, and clears its shifter. The other port may be in the middle of a word, and its shifter stays. Refused with
    /// State, Open or Argument.
    #[tactic(auto, unfolding(crate::specs::PortPins::selected_port_pins, crate::specs::PortPins::behind_shifters, crate::specs::PortPins::pins_from, two_ports::specs::State::seen_from))]
    pub fn select(&mut self, port: u8) -> Result<(), Refusal>
        ensures answer { refusal_of result ≡ (selected_port_pins self.old port).refusal }
        ensures after { self.new ≡ (selected_port_pins self.old port).pins }
        ensures refused { OnErr result (self.new ≡ self.old) }
    {
        self.shifters_ready()?;
        self.ports.select(port)?;
        if port == 1 {
            self.far = Shifter::CLEARED;
        } else {
            self.near = Shifter::CLEARED;
        }
        Ok(())
    }

    // A live message's bit goes as that of the card that the port sees, behind its shifter. With a dead message the port sends 0 from the next bit on,
    // in the middle of a word too, and takes nothing.
    #[tactic(auto, unfolding(crate::specs::PortPins::clock_near, crate::specs::PortPins::bit_near, pins::specs::Pins::clocked, pins::specs::Pins::behind_shifter, pins::specs::Pins::shifter_refusal, shifter::specs::Shifter::left_over))]
    fn clock_near(&mut self, memory: &[u16], bit: bool) -> Result<bool, Refusal>
        requires count { self.old.near.count ≤ 15 }
        requires word { word_refusal (view self.old.ports) (length memory.now) ≡ none }
        ensures answer { refusal_of result ≡ none }
        ensures bit { IfOk result (λ sent. sent ≡ bit_near self.old memory.now bit) }
        ensures after { self.new ≡ clock_near self.old memory.now bit }
    {
        if !self.ports.near.is_live() {
            return Ok(false);
        }
        let mut pins = Pins {
            card: self.ports.view(),
            shifter: self.near,
        };
        let sent = pins.clock(memory, bit);
        self.ports.set_near_port(pins.card.port);
        self.near = pins.shifter;
        sent
    }

    /// Takes one bit at a port, and sends one: 0 with a dead message. Refused with State, Size, Closed or Argument.
    #[tactic(auto, unfolding(crate::specs::PortPins::clocked_port, crate::specs::PortPins::behind_shifters, crate::specs::PortPins::pins_from))]
    pub fn clock(&mut self, port: u8, memory: &[u16], bit: bool) -> Result<bool, Refusal>
        ensures answer { refusal_of result ≡ (clocked_port self.old port memory.now bit).refusal }
        ensures bit { IfOk result (λ sent. sent ≡ (clocked_port self.old port memory.now bit).bit) }
        ensures after { self.new ≡ (clocked_port self.old port memory.now bit).pins }
        ensures refused { OnErr result (self.new ≡ self.old) }
    {
        self.shifters_ready()?;
        self.ports.word_refusal(port, memory.len())?;
        self.turn(port);
        let sent = self.clock_near(memory, bit);
        self.turn(port);
        sent
    }

    // The bits of an unfinished word at a port.
    #[tactic(auto, unfolding(crate::specs::PortPins::pins_from, shifter::specs::Shifter::left_over))]
    fn left_at(&self, port: u8) -> u8
        requires near { self.now.near.count ≤ 15 }
        requires far { self.now.far.count ≤ 15 }
        ensures { result ≡ left_at self.now port }
    {
        let shifter = if port == 1 { self.far } else { self.near };
        shifter.count
    }

    /// Ends a port's message, with the count of its shifter as left-over bits. Only here may memory change, and not where a shifter is refused. The
    /// shifters stay. Refused with State, Size, Closed or Argument.
    #[tactic(auto, unfolding(crate::specs::PortPins::released_port_pins, crate::specs::PortPins::memory_after_port_pins, crate::specs::PortPins::behind_shifters))]
    pub fn release(&mut self, port: u8, memory: &mut [u16]) -> Result<(), Refusal>
        ensures answer { refusal_of result ≡ (released_port_pins self.old port (length memory.old)).refusal }
        ensures after { self.new ≡ (released_port_pins self.old port (length memory.old)).pins }
        ensures memory_after { memory.new ≡ memory_after_port_pins self.old port memory.old }
        ensures refused { OnErr result ((self.new ≡ self.old) × (memory.new ≡ memory.old)) }
    {
        self.shifters_ready()?;
        let left = self.left_at(port);
        self.ports.release(port, memory, left)
    }
}
