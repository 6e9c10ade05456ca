//! The turns of a command between two READBACKs. The rules hold for any command in the middle, of which WRITE is one use.
ghost use Rattle.std.specs.Prelude.{◌≡◌, ◌+◌, ◌≤◌, cond, eqb, length, get_or, IfOk};
ghost use Rattle.rules.specs.Refusals as refusal;
ghost use Rattle.rules.specs.Refusal.{refusal_of};
ghost use Rattle.rules.specs.Rules.{message_words};
ghost use Rattle.token.specs.Command.{token_of};
ghost use Rattle.controller.specs.Builder.{message_built, buffer_after};
ghost use Rattle.controller.specs.Sure.{readback_command, command_at, is_ask, is_give, read_good, passes, is_token, confirms, turn_after};
ghost use Rattle.controller.specs.Turns.{number_of_turn, NamesTurn};
ghost use Rattle.controller.specs.declared.turn.Turn.TheVariants.{Ask, Give};

use crate::builder::build;
use crate::reader::read_answer;
use rules::Name;
use rules::refusal::Refusal;
use token::command::{Command, CommandToken};

/// The three messages of a round, in their order: READBACK, the command, READBACK.
#[derive(Clone, Copy, Debug, PartialEq, Eq)]
pub enum Message {
    First,
    Command,
    Last,
}

/// Each message is asked for, and then the words that came back with it are given. `Done` and `Unsure` are the verdicts.
#[derive(Clone, Copy, Debug, PartialEq, Eq)]
pub enum Turn {
    Ask(Message),
    Give(Message),
    Done,
    Unsure,
}

/// The turn of a number from 0 to 7. `State` for any other.
impl TryFrom<u8> for Turn {
    type Error = Refusal;

    ghost try_from_gives = { λ number r. NamesTurn number r };

    fn try_from(number: u8) -> Result<Self, Refusal> {
        match number {
            0 => Ok(Turn::Ask(Message::First)),
            1 => Ok(Turn::Give(Message::First)),
            2 => Ok(Turn::Ask(Message::Command)),
            3 => Ok(Turn::Give(Message::Command)),
            4 => Ok(Turn::Ask(Message::Last)),
            5 => Ok(Turn::Give(Message::Last)),
            6 => Ok(Turn::Done),
            7 => Ok(Turn::Unsure),
            _ => Err(Refusal::State),
        }
    }
}

/// A turn's number, as states have it.
impl From<Turn> for u8 {
    ghost from_gives = { λ turn number. number ≡ number_of_turn turn };

    fn from(turn: Turn) -> u8 {
        match turn {
            Turn::Ask(Message::First) => 0,
            Turn::Give(Message::First) => 1,
            Turn::Ask(Message::Command) => 2,
            Turn::Give(Message::Command) => 3,
            Turn::Ask(Message::Last) => 4,
            Turn::Give(Message::Last) => 5,
            Turn::Done => 6,
            Turn::Unsure => 7,
        }
    }
}

// READBACK, with its code and length from the table.
fn readback() -> Command
    ensures { result ≡ readback_command }
{
    let row = rules::row(Name::Readback);
    Command {
        code: row.code,
        length: row.most_length,
        sub_address: 0,
    }
}

// The two words that a good answer to READBACK shows as its payload.
fn shown_token(words: &[u16]) -> CommandToken
    requires { 4 ≤ length words.now }
    ensures { result ≡ token_of (get_or words.now 2 0) (get_or words.now 3 0) }
{
    CommandToken {
        first: words[2],
        second: words[3],
    }
}

// Whether a token is that of a command. A command that does not fit has none.
#[tactic(auto, unfolding(crate::specs::Sure::is_token, token::specs::Command::command_built))]
fn is_token(command: Command, shown: CommandToken) -> bool
    ensures { result ≡ is_token command shown.first shown.second }
{
    let Ok(token) = CommandToken::new(
        command.code as u32,
        command.length as u32,
        command.sub_address as u32,
    ) else {
        return false;
    };
    shown == token
}

// The turn after the first READBACK's words. A refused READBACK brings zeros, whose CRC-16 agrees: so the payload has
// to be a good command token too.
#[tactic(auto, unfolding(crate::specs::Sure::passes, crate::specs::Sure::read_good, token::specs::Command::command_read, rules::specs::Rules::message_words))]
fn after_first(words: &[u16]) -> Turn
    ensures { number_of_turn result ≡ cond (passes words.now) 2 7 }
{
    let Ok(_) = read_answer(words, readback().length as u32) else {
        return Turn::Unsure;
    };
    let Ok(_) = shown_token(words).read() else {
        return Turn::Unsure;
    };
    Turn::Ask(Message::Command)
}

// The turn after the last READBACK's words.
#[tactic(auto, unfolding(crate::specs::Sure::confirms, crate::specs::Sure::read_good, rules::specs::Rules::message_words))]
fn after_last(middle: Command, words: &[u16]) -> Turn
    ensures { number_of_turn result ≡ cond (confirms middle words.now) 6 7 }
{
    let Ok(fields) = read_answer(words, readback().length as u32) else {
        return Turn::Unsure;
    };
    let sure = !fields.status.any_set() & is_token(middle, shown_token(words));
    if sure { Turn::Done } else { Turn::Unsure }
}

impl Turn {
    /// The message that is asked for at the turn. `Turn` where none is.
    #[tactic(auto, unfolding(crate::specs::Sure::is_ask))]
    pub fn asks(self) -> Result<Message, Refusal>
        ensures answer { refusal_of result ≡ cond (is_ask (number_of_turn self)) refusal.none refusal.turn }
        ensures turn { IfOk result (λ message. number_of_turn (Ask message) ≡ number_of_turn self) }
        ensures next { IfOk result (λ message. number_of_turn (Give message) ≡ number_of_turn self + 1) }
    {
        match self {
            Turn::Ask(message) => Ok(message),
            _ => Err(Refusal::Turn),
        }
    }

    /// The message whose words are given at the turn. `Turn` where none are.
    #[tactic(auto, unfolding(crate::specs::Sure::is_give))]
    pub fn gives(self) -> Result<Message, Refusal>
        ensures answer { refusal_of result ≡ cond (is_give (number_of_turn self)) refusal.none refusal.turn }
        ensures turn { IfOk result (λ message. number_of_turn (Give message) ≡ number_of_turn self) }
    {
        match self {
            Turn::Give(message) => Ok(message),
            _ => Err(Refusal::Turn),
        }
    }
}

impl Message {
    /// The message's command, with this one in the middle.
    #[tactic(auto, unfolding(crate::specs::Sure::command_at))]
    pub fn command(self, middle: Command) -> Command
        ensures asked { result ≡ command_at middle (number_of_turn (Ask self)) }
        ensures given { result ≡ command_at middle (number_of_turn (Give self)) }
    {
        match self {
            Message::Command => middle,
            Message::First | Message::Last => readback(),
        }
    }

    /// Lays the message in a lent buffer, and gives the number of its words. A refusal is the builder's, and leaves the buffer as it was.
    pub fn build(self, middle: Command, block: &[u16], buffer: &mut [u16]) -> Result<usize, Refusal>
        ensures answer { refusal_of result ≡ (message_built (command_at middle (number_of_turn (Ask self))) block.now (length buffer.old)).refusal }
        ensures words { IfOk result (λ n. n ≡ (message_built (command_at middle (number_of_turn (Ask self))) block.now (length buffer.old)).words) }
        ensures buffer_after { buffer.new ≡ buffer_after (command_at middle (number_of_turn (Ask self))) block.now buffer.old }
    {
        build_command(self.command(middle), block, buffer)
    }

    /// The turn after the words that came back with the message. Those of the command are not judged.
    #[tactic(auto, unfolding(crate::specs::Sure::turn_after))]
    pub fn turn_after(self, middle: Command, words: &[u16]) -> Turn
        ensures { number_of_turn result ≡ turn_after middle (number_of_turn (Give self)) words.now }
    {
        match self {
            Message::First => after_first(words),
            Message::Command => Turn::Ask(Message::Last),
            Message::Last => after_last(middle, words),
        }
    }

    /// The same, for words that are counted first. `Count` where they are not as many as the message has.
    pub fn turn_given(self, middle: Command, words: &[u16]) -> Result<Turn, Refusal>
        ensures answer { refusal_of result ≡ cond (eqb (length words.now) (message_words (command_at middle (number_of_turn (Give self))).length)) refusal.none refusal.count }
        ensures turn { IfOk result (λ turn. number_of_turn turn ≡ turn_after middle (number_of_turn (Give self)) words.now) }
    {
        if words.len() != rules::message_words(self.command(middle).length) {
            return Err(Refusal::Count);
        }
        Ok(self.turn_after(middle, words))
    }
}

// Lays a command's message.
fn build_command(command: Command, block: &[u16], buffer: &mut [u16]) -> Result<usize, Refusal>
    ensures answer { refusal_of result ≡ (message_built command block.now (length buffer.old)).refusal }
    ensures words { IfOk result (λ n. n ≡ (message_built command block.now (length buffer.old)).words) }
    ensures buffer_after { buffer.new ≡ buffer_after command block.now buffer.old }
{
    build(
        command.code as u32,
        command.length as u32,
        command.sub_address as u32,
        block,
        buffer,
    )
}

// ---- the same by a turn's number, for every number

/// The command of a turn's message: the one in the middle at turns 2 and 3, and READBACK at every other number.
#[tactic(auto, unfolding(crate::specs::Sure::command_at))]
pub fn command_at(middle: Command, turn: u8) -> Command
    ensures { result ≡ command_at middle turn }
{
    match Turn::try_from(turn) {
        Ok(Turn::Ask(message) | Turn::Give(message)) => message.command(middle),
        _ => readback(),
    }
}

/// Whether a message is asked for at a turn.
#[tactic(auto, unfolding(crate::specs::Sure::is_ask))]
pub fn is_ask(turn: u8) -> bool
    ensures { result ≡ is_ask turn }
{
    matches!(Turn::try_from(turn), Ok(Turn::Ask(_)))
}

/// Whether words are given at a turn.
#[tactic(auto, unfolding(crate::specs::Sure::is_give))]
pub fn is_give(turn: u8) -> bool
    ensures { result ≡ is_give turn }
{
    matches!(Turn::try_from(turn), Ok(Turn::Give(_)))
}

/// Lays the message that a turn asks for.
pub fn build_turn(
    middle: Command,
    turn: u8,
    block: &[u16],
    buffer: &mut [u16],
) -> Result<usize, Refusal>
    ensures answer { refusal_of result ≡ (message_built (command_at middle turn) block.now (length buffer.old)).refusal }
    ensures words { IfOk result (λ n. n ≡ (message_built (command_at middle turn) block.now (length buffer.old)).words) }
    ensures buffer_after { buffer.new ≡ buffer_after (command_at middle turn) block.now buffer.old }
{
    build_command(command_at(middle, turn), block, buffer)
}

/// The number of the turn after the words of a turn. At any turn but 1 and 3 they count as the last READBACK's.
#[tactic(auto, unfolding(crate::specs::Sure::turn_after))]
pub fn turn_after(middle: Command, turn: u8, words: &[u16]) -> u8
    ensures { result ≡ turn_after middle turn words.now }
{
    let message = match Turn::try_from(turn) {
        Ok(Turn::Give(message)) => message,
        _ => Message::Last,
    };
    u8::from(message.turn_after(middle, words))
}
