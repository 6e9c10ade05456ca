// What a released message does: it is judged, and where it is accepted its command acts.
ghost use Rattle.std.specs.Prelude.{◌≡◌, ◌+◌, ◌^◌, ◌≤◌, length, OnOk, OnErr, if◌then◌else◌, nat_eq};
ghost use Rattle.judge.specs.Judge.{word_place};
ghost use Rattle.rules.specs.Refusal.{refusal_of};
ghost use Rattle.rules.specs.Rules.{tick, write};
ghost use Rattle.card.specs.Release.{release_refusal, release_accepts, released, memory_after, bases_after, time_after, first32, first64, silent, judged, acted, noted, stored, ended, ended_memory};
ghost use Rattle.bits.specs.Buffers.{written};
ghost use Rattle.card.specs.Exchange.{fields};

use crate::{Card, Message};
use judge::Bases;
use rules::Name;
use rules::refusal::Refusal;
use token::command::Command;
use token::response::Status;

// ---- effects

/// The bases after a command of some code, whose payload's first two words are a value of 32 bits.
#[tactic(auto, unfolding(crate::specs::Release::bases_after))]
pub fn bases_after(bases: Bases, code: u8, value: u32) -> Bases
    ensures { result ≡ bases_after bases code value }
{
    if rules::is_command(code, Name::Reset) {
        return Bases {
            write_base: 0,
            read_base: 0,
        };
    }
    if rules::is_command(code, Name::ConfigWrite) {
        return Bases {
            write_base: value,
            ..bases
        };
    }
    if rules::is_command(code, Name::ConfigRead) {
        return Bases {
            read_base: value,
            ..bases
        };
    }
    bases
}

fn power_of_two(index: u8) -> u64
    requires { index ≤ 63 }
    ensures { result ≡ 2 ^ index }
{
    1u64 << index
}

/// Step 2 has refused an index above 63.
#[tactic(auto, unfolding(crate::specs::Release::time_after))]
fn time_after(time: u64, fields: Command, value: u64) -> u64
    requires { fields.code ≡ tick.code → fields.sub_address ≤ 63 }
    ensures { result ≡ time_after time fields value }
{
    if rules::is_command(fields.code, Name::Synch) {
        return value;
    }
    if rules::is_command(fields.code, Name::Tick) {
        return std::num::wrapping_add_u64(time, power_of_two(fields.sub_address));
    }
    time
}

/// The block goes into memory from a place onward.
#[tactic(auto, unfolding(bits::specs::Buffers::written))]
fn put(memory: &mut [u16], place: usize, block: &[u16])
    requires { place + length block.now ≤ length memory.old }
    ensures { memory.new ≡ written memory.old place block.now }
{
    memory[place..place + block.len()].copy_from_slice(block);
}

// ---- the message

impl Card {
    /// The payload's first two words as 32 bits, the first high.
    pub fn first32_of(&self) -> u32
        ensures { result ≡ first32 self.now }
    {
        let words = &self.port.message.words;
        u32::from(words[2]) * 65536 + u32::from(words[3])
    }

    /// The payload's first four words as 64 bits, the first highest.
    fn first64_of(&self) -> u64
        ensures { result ≡ first64 self.now }
    {
        let words = &self.port.message.words;
        (u64::from(self.first32_of()) * 65536 + u64::from(words[4])) * 65536 + u64::from(words[5])
    }

    #[tactic(auto, unfolding(crate::specs::Release::silent))]
    fn is_silent(&self, left: u8) -> bool
        ensures { result ≡ silent self.now left }
    {
        self.port.message.count == 0 && left == 0
    }

    /// Steps 1 to 5 of the words received.
    #[tactic(auto, unfolding(crate::specs::Release::judged))]
    fn judged_status(&self, left: u8) -> Status
        requires { self.now.port.message.count ≤ 67 }
        ensures { result ≡ judged self.now left }
    {
        let count = self.port.message.count;
        judge::judgement(
            self.size,
            self.bases,
            &self.port.message.words[..count],
            left,
        )
    }

    /// Step 6 but for the memory: the command acts on the card, the status bits become 0, and its token becomes the last token.
    #[tactic(auto, unfolding(crate::specs::Release::acted))]
    fn act(&mut self)
        requires { (fields self.old).code ≡ tick.code → (fields self.old).sub_address ≤ 63 }
        ensures { self.new ≡ acted self.old }
    {
        let token = self.token_of();
        let fields = token.fields();
        self.time = time_after(self.time, fields, self.first64_of());
        self.bases = bases_after(self.bases, fields.code, self.first32_of());
        self.port.status = judge::CLEAN;
        self.port.last = token;
        self.port.message = Message::empty(false);
    }

    /// A refused message sets its bits, and changes nothing else.
    #[tactic(auto, unfolding(crate::specs::Release::noted))]
    fn note(&mut self, status: Status)
        ensures { self.new ≡ noted self.old status }
    {
        self.port.status = status;
        self.port.message = Message::empty(false);
    }

    /// The block of a WRITE goes into memory. Step 3 has found that it lies inside.
    #[tactic(auto, unfolding(crate::specs::Release::stored))]
    fn store(&self, memory: &mut [u16])
        requires { (fields self.now).code ≡ write.code → word_place self.now.bases.write_base (fields self.now).sub_address + (fields self.now).length ≤ length memory.old }
        ensures { memory.new ≡ (if nat_eq (fields self.now).code write.code then stored self.now memory.old else memory.old) }
    {
        let fields = self.token_of().fields();
        if rules::is_command(fields.code, Name::Write) {
            let place = judge::word_place(self.bases.write_base, fields.sub_address);
            let end = fields.length as usize + 2;
            put(memory, place, &self.port.message.words[2..end]);
        }
    }

    /// A message of no bits changes nothing, a refused one sets its bits, and an accepted one acts.
    #[tactic(auto, unfolding(crate::specs::Release::ended, crate::specs::Release::ended_memory, crate::specs::Release::writes, crate::specs::Release::is_accepted))]
    fn end(&mut self, memory: &mut [u16], left: u8)
        requires { (length memory.old ≡ self.old.size) × (self.old.port.message.count ≤ 67) }
        ensures value { self.new ≡ ended self.old left }
        ensures memory_after { memory.new ≡ ended_memory self.old memory.old left }
    {
        if self.is_silent(left) {
            self.port.message = Message::empty(false);
            return;
        }
        let status = self.judged_status(left);
        if status.any_set() {
            self.note(status);
            return;
        }
        self.store(memory);
        self.act();
    }

    /// What release refuses, for lent memory of some size in words: State, Size, Closed, Argument.
    #[tactic(auto, unfolding(crate::specs::Release::release_refusal))]
    pub fn release_refusal(&self, size: usize, left: u8) -> Result<(), Refusal>
        ensures answer { refusal_of result ≡ release_refusal self.now size left }
        ensures lent { OnOk result ((size ≡ self.now.size) × (self.now.port.message.count ≤ 67)) }
    {
        self.word_refusal(size)?;
        if left <= 15 {
            return Ok(());
        }
        Err(Refusal::Argument)
    }

    /// Whether release is not refused, and finds the message accepted: what a caller asks who has more to do then than the card itself.
    #[tactic(auto, unfolding(crate::specs::Release::release_accepts, crate::specs::Release::is_accepted))]
    pub fn accepts(&self, size: usize, left: u8) -> bool
        ensures { result ≡ release_accepts self.now size left }
    {
        if self.release_refusal(size, left).is_err() {
            return false;
        }
        !self.is_silent(left) && !self.judged_status(left).any_set()
    }

    /// Ends the message, with up to 15 bits of an unfinished word left over: judges it, and acts where it is accepted: State, Size,
    /// Closed, Argument. Only here may memory change.
    #[tactic(auto, unfolding(crate::specs::Release::released, crate::specs::Release::memory_after))]
    pub fn release(&mut self, memory: &mut [u16], left: u8) -> Result<(), Refusal>
        ensures answer { refusal_of result ≡ (released self.old (length memory.old) left).refusal }
        ensures after { self.new ≡ (released self.old (length memory.old) left).card }
        ensures memory_after { memory.new ≡ memory_after self.old memory.old left }
        ensures refused { OnErr result ((self.new ≡ self.old) × (memory.new ≡ memory.old)) }
    {
        self.release_refusal(memory.len(), left)?;
        self.end(memory, left);
        Ok(())
    }
}
