//! Command messages, built in a lent buffer.
ghost use Rattle.std.specs.Prelude.{◌≡◌, true, ◌+◌, ◌≤◌, IfOk};
ghost use lib.ListN.{length};
ghost use Rattle.rules.specs.Refusal.{refusal_of};
ghost use Rattle.rules.specs.Rules.{message_words};
ghost use Rattle.token.specs.Command.{command, command_token, command_fits};
ghost use Rattle.controller.specs.Builder.{is_reading, with_check_word, payload, message, block_fits, build_refusal, message_built, buffer_after};
ghost use Rattle.bits.specs.Buffers.{over};

use rules::Name;
use rules::refusal::Refusal;
use token::command::{Command, CommandToken};

// READ and READBACK, whose payload is the card's.
#[tactic(auto, unfolding(crate::specs::Builder::is_reading))]
fn is_reading(code: u8) -> bool
    ensures { result ≡ is_reading code }
{
    rules::is_command(code, Name::Read) | rules::is_command(code, Name::Readback)
}

#[tactic(auto, unfolding(crate::specs::Builder::block_fits))]
fn block_fits(fields: Command, count: usize) -> bool
    ensures { result ≡ block_fits fields count }
{
    if is_reading(fields.code) {
        return count == 0;
    }
    count == fields.length as usize
}

// The number of words of a command's message, where its block has so many words and the buffer so much room.
#[tactic(auto, unfolding(crate::specs::Builder::build_refusal))]
fn words_in(fields: Command, count: usize, room: usize) -> Result<usize, Refusal>
    requires { command_fits fields ≡ true }
    ensures answer { refusal_of result ≡ build_refusal fields count room }
    ensures words { IfOk result (λ n. n ≡ message_words fields.length) }
{
    if !block_fits(fields, count) {
        return Err(Refusal::Argument);
    }
    let words = rules::message_words(fields.length);
    if words > room {
        return Err(Refusal::Room);
    }
    Ok(words)
}

// A block and its check word, over the whole of a part. An empty block has neither.
#[tactic(auto, using(crate::proofs::MessageLaws::blocks), unfolding(crate::specs::Builder::with_check_word))]
fn write_block(part: &mut [u16], block: &[u16])
    requires { length part.old ≡ length (with_check_word block.now) }
    ensures { part.new ≡ with_check_word block.now }
{
    let count = block.len();
    if count != 0 {
        let (words, check) = part.split_at_mut(count);
        words.copy_from_slice(block);
        check[0] = crc::check_words(block);
    }
}

// A command's payload, with its check word, over the whole of a part.
#[tactic(auto, unfolding(crate::specs::Builder::payload))]
fn write_payload(part: &mut [u16], fields: Command, block: &[u16])
    requires { length part.old ≡ length (payload fields block.now) }
    ensures { part.new ≡ payload fields block.now }
{
    if is_reading(fields.code) {
        part.fill(0);
    } else {
        write_block(part, block);
    }
}

// A message of so many words over a buffer's first places: the token, and the payload from the third place on, for which that part of
// the buffer is lent on.
#[tactic(auto, using(crate::proofs::MessageLaws::laying), unfolding(crate::specs::Builder::message))]
fn write_message(
    buffer: &mut [u16],
    token: CommandToken,
    fields: Command,
    block: &[u16],
    words: usize,
)
    requires token { token ≡ command_token fields }
    requires words { length (payload fields block.now) + 2 ≡ words }
    requires room { words ≤ length buffer.old }
    ensures { buffer.new ≡ over (message fields block.now) buffer.old }
{
    buffer[..2].copy_from_slice(&[token.first, token.second]);
    write_payload(&mut buffer[2..words], fields, block);
}

// Lays the message of a command that has a token.
#[tactic(auto, using(crate::proofs::MessageLaws::building), unfolding(crate::specs::Builder::message_built, crate::specs::Builder::buffer_after))]
fn build_from_token(
    token: CommandToken,
    fields: Command,
    block: &[u16],
    buffer: &mut [u16],
) -> Result<usize, Refusal>
    requires token { token ≡ command_token fields }
    requires fits { command_fits fields ≡ true }
    ensures answer { refusal_of result ≡ (message_built fields block.now (length buffer.old)).refusal }
    ensures words { IfOk result (λ n. n ≡ (message_built fields block.now (length buffer.old)).words) }
    ensures buffer_after { buffer.new ≡ buffer_after fields block.now buffer.old }
{
    let words = words_in(fields, block.len(), buffer.len())?;
    write_message(buffer, token, fields, block, words);
    Ok(words)
}

/// Builds the message of a command with its block in a lent buffer, and gives the number of its words.
///
/// A code and a length are at most 63, a sub-address at most 255, and a block is as long as its length, but empty for READ and READBACK:
/// else `Argument`. `Room` where the buffer is shorter than the message. A refusal leaves the buffer as it was.
#[tactic(auto, using(crate::proofs::MessageLaws::building), unfolding(crate::specs::Builder::message_built, crate::specs::Builder::buffer_after, crate::specs::Builder::build_refusal, token::specs::Command::command_built))]
pub fn build(
    code: u32,
    length: u32,
    sub_address: u32,
    block: &[u16],
    buffer: &mut [u16],
) -> Result<usize, Refusal>
    ensures answer { refusal_of result ≡ (message_built (command code length sub_address) block.now (lib.ListN.length buffer.old)).refusal }
    ensures words { IfOk result (λ n. n ≡ (message_built (command code length sub_address) block.now (lib.ListN.length buffer.old)).words) }
    ensures buffer_after { buffer.new ≡ buffer_after (command code length sub_address) block.now buffer.old }
{
    let token = CommandToken::new(code, length, sub_address)?;
    build_from_token(token, token.fields(), block, buffer)
}
