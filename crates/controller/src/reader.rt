//! Answers, read from the words that came back.
ghost use Rattle.std.specs.Prelude.{◌≡◌, true, false, IfOk, OnOk, OnErr};
ghost use lib.ListN.{length};
ghost use Rattle.rules.specs.Rules.{message_words};
ghost use Rattle.controller.specs.Reader.{reading_gives, answer_read, payload_shown};

use rules::refusal::Refusal;
use token::command::CommandToken;
use token::marks::Wrong;
use token::response::{Response, ResponseToken};

/// Why an answer shows no payload.
#[derive(Clone, Copy, Debug, PartialEq, Eq)]
pub enum Unread {
    /// The token is good, and these are its fields; the payload's check does not agree.
    Payload(Response),
    /// The token is bad, by these marks. The payload is not judged.
    Token(Wrong),
    /// Nothing was read: `Argument` for a length above 63, `Count` for words not as many as the length asks for.
    Refused(Refusal),
}

/// Reads an answer for a length of 0 to 63, and gives its token's fields where both token and payload are good.
#[tactic(auto, using(crate::proofs::AnswerLaws::reading), unfolding(crate::specs::Reader::answer_read, crate::specs::Reader::read_refusal, crate::specs::Reader::token_good, crate::specs::Reader::token_wrong, crate::specs::Reader::payload_good, crate::specs::Reader::fields_read))]
pub fn read_answer(words: &[u16], length: u32) -> Result<Response, Unread>
    ensures answer { reading_gives result ≡ answer_read length words.now }
    ensures fields { IfOk result (λ fields. fields ≡ (answer_read length words.now).fields) }
    ensures shown { OnOk result ((answer_read length words.now).payload ≡ true) }
    ensures not_shown { OnErr result ((answer_read length words.now).payload ≡ false) }
    ensures count { OnOk result (lib.ListN.length words.now ≡ message_words length) }
{
    if length > CommandToken::MOST_LENGTH {
        return Err(Unread::Refused(Refusal::Argument));
    }
    let [first, second, rest @ ..] = words else {
        return Err(Unread::Refused(Refusal::Count));
    };
    if words.len() != rules::message_words(length as u8) {
        return Err(Unread::Refused(Refusal::Count));
    }
    let token = ResponseToken {
        first: *first,
        second: *second,
    };
    let fields = token.read().map_err(Unread::Token)?;
    if !crc::agrees(rest, length as usize) {
        return Err(Unread::Payload(fields));
    }
    Ok(fields)
}

/// Shows the payload of an answer: the middle part of the caller's own words, and an empty part where there is none to show.
#[tactic(auto, using(crate::proofs::AnswerLaws::reading), unfolding(crate::specs::Reader::payload_shown))]
pub fn payload_of(words: &[u16], length: u32) -> &[u16]
    ensures { result.now ≡ payload_shown length words.now }
{
    let Ok(_) = read_answer(words, length) else {
        return &words[..0];
    };
    let n = length as usize;
    &words[2..2 + n]
}
