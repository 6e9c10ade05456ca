//! The sure write: READBACK, WRITE, READBACK.
ghost use Rattle.std.specs.Prelude.{◌≡◌, ◌≤◌, true, false, length, IfOk, OnOk, MatchResult};
ghost use Rattle.std.specs.Bool.{OnTrue};
ghost use Rattle.rules.specs.Refusal.{refusal_of};
ghost use Rattle.rules.specs.Rules.{write};
ghost use Rattle.rules.specs.declared.refusal.Refusal.TheVariants.{State};
ghost use Rattle.token.specs.Command.{command, command_fits};
ghost use Rattle.controller.specs.Sure.{write_command, started_gives, started, out_of_range, asked, asked_buffer, given, verdict_gives, verdict_of};
ghost use Rattle.controller.specs.Turns.{number_of_turn};

use crate::turn::{Message, Turn};
use rules::Name;
use rules::refusal::Refusal;
use token::command::{Command, CommandToken};

/// A sure write that goes on: length and sub-address of its WRITE, and the number of the turn that comes next (`Turn`).
///
/// A caller may hand in any numbers. Where the length is above 63, the sub-address above 255 or the turn above 7, each call answers `State`.
#[derive(Clone, Copy, Debug, PartialEq, Eq)]
pub struct SureWrite {
    pub length: u32,
    pub sub_address: u32,
    pub turn: u8,
}

/// What a state says.
#[derive(Clone, Copy, Debug, PartialEq, Eq)]
pub enum Verdict {
    NotYet,
    Done,
    Unsure,
}

// Whether a WRITE of so many words at a sub-address has a token.
#[tactic(auto, unfolding(token::specs::Command::command_fits))]
fn write_fits(length: u32, sub_address: u32) -> bool
    ensures fits { result ≡ command_fits (command write.code length sub_address) }
    ensures small { OnTrue result ((length ≤ 63) × (sub_address ≤ 255)) }
{
    (length <= CommandToken::MOST_LENGTH) & (sub_address <= CommandToken::MOST_SUB_ADDRESS)
}

impl SureWrite {
    /// Starts a sure write of a block of so many words, at most 63, at a sub-address, at most 255: else `Argument`.
    #[tactic(auto, unfolding(crate::specs::Sure::started))]
    pub fn start(length: u32, sub_address: u32) -> Result<SureWrite, Refusal>
        ensures { started_gives result ≡ started length sub_address }
    {
        if !write_fits(length, sub_address) {
            return Err(Refusal::Argument);
        }
        Ok(SureWrite {
            length,
            sub_address,
            turn: Turn::Ask(Message::First).into(),
        })
    }

    // The turn of a state in its range. `State` for any other.
    #[tactic(auto, unfolding(crate::specs::Sure::out_of_range))]
    fn in_turn(&self) -> Result<Turn, Refusal>
        ensures answer { MatchResult result (λ turn. (number_of_turn turn ≡ self.now.turn) × (out_of_range self.now ≡ false)) (λ e. (e ≡ State) × (out_of_range self.now ≡ true)) }
        ensures fits { OnOk result ((self.now.length ≤ 63) × (self.now.sub_address ≤ 255)) }
    {
        let turn = Turn::try_from(self.turn)?;
        if !write_fits(self.length, self.sub_address) {
            return Err(Refusal::State);
        }
        Ok(turn)
    }

    // Its WRITE, with the code from the table.
    fn write_command(&self) -> Command
        requires length { self.now.length ≤ 63 }
        requires sub_address { self.now.sub_address ≤ 255 }
        ensures { result ≡ write_command self.now }
    {
        let row = rules::row(Name::Write);
        Command {
            code: row.code,
            length: self.length as u8,
            sub_address: self.sub_address as u8,
        }
    }

    /// Asks for the next message, and gives the number of its words. The block is given with the WRITE, and an empty one with each
    /// READBACK.
    ///
    /// `State`; `Turn` where words are to be given, or the verdict was said; else as the builder refuses. A refusal leaves state and
    /// buffer as they were.
    #[tactic(auto, unfolding(crate::specs::Sure::asked, crate::specs::Sure::asked_buffer, crate::specs::Sure::ask_refusal, crate::specs::Builder::message_built, crate::specs::Builder::buffer_after))]
    pub fn ask(&mut self, block: &[u16], buffer: &mut [u16]) -> Result<usize, Refusal>
        ensures answer { refusal_of result ≡ (asked self.old block.now (length buffer.old)).refusal }
        ensures words { IfOk result (λ n. n ≡ (asked self.old block.now (length buffer.old)).words) }
        ensures after { self.new ≡ (asked self.old block.now (length buffer.old)).state }
        ensures buffer_after { buffer.new ≡ asked_buffer self.old block.now buffer.old }
    {
        let message = self.in_turn()?.asks()?;
        let words = message.build(self.write_command(), block, buffer)?;
        self.turn = Turn::Give(message).into();
        Ok(words)
    }

    /// Gives the words that came back with the message asked for last.
    ///
    /// `State`; `Turn` where a message is to be asked for, or the verdict was said; `Count` where the words are not as many as were sent.
    /// A refusal leaves the state as it was.
    #[tactic(auto, unfolding(crate::specs::Sure::given, crate::specs::Sure::give_refusal))]
    pub fn give(&mut self, words: &[u16]) -> Result<(), Refusal>
        ensures answer { refusal_of result ≡ (given self.old words.now).refusal }
        ensures after { self.new ≡ (given self.old words.now).state }
    {
        let message = self.in_turn()?.gives()?;
        let turn = message.turn_given(self.write_command(), words)?;
        self.turn = turn.into();
        Ok(())
    }

    /// Done or Unsure once a turn said so, and not yet before. `State` for a state outside its range.
    #[tactic(auto, unfolding(crate::specs::Sure::verdict_of))]
    pub fn verdict(&self) -> Result<Verdict, Refusal>
        ensures { verdict_gives result ≡ verdict_of self.now }
    {
        Ok(match self.in_turn()? {
            Turn::Done => Verdict::Done,
            Turn::Unsure => Verdict::Unsure,
            Turn::Ask(_) | Turn::Give(_) => Verdict::NotYet,
        })
    }
}
