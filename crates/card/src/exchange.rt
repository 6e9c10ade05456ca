// Words told and taken: the word that the card will send, told before the controller's word starts, and the word received.
ghost use Rattle.std.specs.Prelude.{◌≡◌, ◌+◌, ◌≤◌, length, IfOk, OnErr};
ghost use Rattle.judge.specs.Judge.{word_place};
ghost use Rattle.rules.specs.Refusal.{refusal_of};
ghost use Rattle.rules.specs.Rules.{read};
ghost use Rattle.token.specs.Response.{response_token};
ghost use Rattle.card.specs.Card.{word_refusal};
ghost use Rattle.card.specs.State.{with_message};
ghost use Rattle.card.specs.Exchange.{response_of, read_word, readback_word, passed_word, payload_word, next_word, check_after, taken, told, took};

use crate::{Card, Note};
use rules::Name;
use rules::refusal::Refusal;
use token::command::{Command, CommandToken};
use token::response::{Response, ResponseToken};

/// Word k of READ's answer.
#[tactic(auto, unfolding(crate::specs::Exchange::read_word))]
fn read_word(memory: &[u16], from: usize, n: usize, check: u16, k: usize) -> u16
    requires { from + n ≤ length memory.now }
    ensures { result ≡ read_word memory.now from n check k }
{
    if k < n {
        return memory[from + k];
    }
    if k == n && 0 < n {
        return check;
    }
    0
}

/// Word k of READBACK's answer.
#[tactic(auto, unfolding(crate::specs::Exchange::readback_word))]
fn readback_word(last: CommandToken, k: usize) -> u16
    ensures { result ≡ readback_word last k }
{
    match k {
        0 => last.first,
        1 => last.second,
        2 => crc::check_words(&[last.first, last.second]),
        _ => 0,
    }
}

impl Card {
    fn response_token(&self) -> ResponseToken
        requires { self.now.module_state ≤ 15 }
        ensures { result ≡ response_token (response_of self.now) }
    {
        let fields = Response {
            stf: self.stf,
            status: self.port.status,
            module_state: self.module_state,
        };
        ResponseToken::new(fields).unwrap()
    }

    /// Word k behind a token that passes steps 1 to 3.
    #[tactic(auto, unfolding(crate::specs::Exchange::passed_word))]
    fn passed_word(&self, memory: &[u16], fields: Command, k: usize) -> u16
        requires { fields.code ≡ read.code → word_place self.now.bases.read_base fields.sub_address + fields.length ≤ length memory.now }
        ensures { result ≡ passed_word self.now memory.now fields k }
    {
        if rules::is_command(fields.code, Name::Read) {
            let from = judge::word_place(self.bases.read_base, fields.sub_address);
            let check = self.port.message.check;
            return read_word(memory, from, fields.length as usize, check, k);
        }
        if rules::is_command(fields.code, Name::Readback) {
            return readback_word(self.port.last, k);
        }
        0
    }

    /// Word k behind the token, which is judged here alone, and not at all where its command sends nothing.
    #[tactic(auto, unfolding(crate::specs::Exchange::payload_word))]
    fn payload_word(&self, memory: &[u16], k: usize) -> u16
        requires { length memory.now ≡ self.now.size }
        ensures { result ≡ payload_word self.now memory.now k }
    {
        let token = self.token_of();
        let fields = token.fields();
        if !rules::is_command(fields.code, Name::Read)
            && !rules::is_command(fields.code, Name::Readback)
        {
            return 0;
        }
        if judge::token_status(self.size, self.bases, token).any_set() {
            return 0;
        }
        self.passed_word(memory, fields, k)
    }

    /// The word that the card will send, from card and memory alone.
    #[tactic(auto, unfolding(crate::specs::Exchange::next_word))]
    fn next_word(&self, memory: &[u16]) -> u16
        requires { (length memory.now ≡ self.now.size) × (self.now.module_state ≤ 15) }
        ensures { result ≡ next_word self.now memory.now }
    {
        match self.port.message.count {
            0 => self.response_token().first,
            1 => self.response_token().second,
            count => self.payload_word(memory, count - 2),
        }
    }

    // ---- what taking a word does

    /// The running check goes over the words told behind the token. A word 0 leaves a check of 0 as it is, and need not be worked in:
    /// commands that send nothing, and tokens that fail, send only such words.
    #[tactic(auto, unfolding(crate::specs::Exchange::check_after))]
    fn check_after(&self, sent: u16) -> u16
        ensures { result ≡ check_after self.now sent }
    {
        let check = self.port.message.check;
        if self.port.message.count < 2 {
            return check;
        }
        if sent == 0 && check == 0 {
            return 0;
        }
        crc::check_word(check, sent)
    }

    /// Takes a word while another is sent. Words beyond 67 are dropped.
    #[tactic(auto, unfolding(crate::specs::Exchange::taken))]
    fn take_word(&mut self, word: u16, sent: u16)
        ensures { self.new ≡ with_message self.old (taken self.old word sent) }
    {
        self.port.message.check = self.check_after(sent);
        self.port.message.note = Note {
            told: false,
            word: 0,
        };
        let at = self.port.message.count;
        if at < 67 {
            self.port.message.words[at] = word;
            self.port.message.count = at + 1;
        }
    }

    // ---- the operations

    /// Tells the word that the card will send, and changes nothing but the note of it: State, Size, Closed.
    #[tactic(auto, unfolding(crate::specs::Exchange::told, crate::specs::Exchange::with_told))]
    pub fn tell(&mut self, memory: &[u16]) -> Result<u16, Refusal>
        ensures answer { refusal_of result ≡ (told self.old memory.now).refusal }
        ensures word { IfOk result (λ word. word ≡ (told self.old memory.now).word) }
        ensures after { self.new ≡ (told self.old memory.now).card }
        ensures refused { OnErr result (self.new ≡ self.old) }
        ensures number { refusal_of result ≡ word_refusal self.old (length memory.now) }
    {
        let size = memory.len();
        self.word_refusal(size)?;
        let word = self.next_word(memory);
        self.port.message.note = Note { told: true, word };
        Ok(word)
    }

    /// Takes the received word: State, Size, Closed. What goes out with it is the word told, as noted, whatever memory holds by now;
    /// where none is told, it is the next word.
    #[tactic(auto, unfolding(crate::specs::Exchange::took, crate::specs::Exchange::word_told))]
    pub fn take(&mut self, memory: &[u16], word: u16) -> Result<(), Refusal>
        ensures answer { refusal_of result ≡ (took self.old memory.now word).refusal }
        ensures after { self.new ≡ (took self.old memory.now word).card }
        ensures refused { OnErr result (self.new ≡ self.old) }
        ensures number { refusal_of result ≡ word_refusal self.old (length memory.now) }
    {
        self.word_refusal(memory.len())?;
        let note = self.port.message.note;
        let sent = if note.told {
            note.word
        } else {
            self.next_word(memory)
        };
        self.take_word(word, sent);
        Ok(())
    }
}
