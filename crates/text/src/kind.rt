//! The kinds of a trace's records.
ghost use Rattle.std.specs.Prelude.{◌≡◌};
ghost use Rattle.text.specs.Kinds.{kind_of};

use rules::refusal::Refusal;

/// What a record asks of a card, by the number that stands first in it.
#[derive(Clone, Copy, Debug, PartialEq, Eq)]
pub enum Kind {
    /// Open a message.
    Select = 1,
    /// Tell the answer word and take the record's word.
    Word = 2,
    /// Close the message.
    Release = 3,
    /// Set STF and the module state.
    Module = 4,
}

/// A number that is no kind's is refused with Record.
impl TryFrom<u8> for Kind {
    type Error = Refusal;

    ghost try_from_gives = { λ number r. r ≡ kind_of number };

    fn try_from(number: u8) -> Result<Kind, Refusal> {
        // By the numbers above, so that the proof is of these.
        if number == Kind::Select as u8 {
            Ok(Kind::Select)
        } else if number == Kind::Word as u8 {
            Ok(Kind::Word)
        } else if number == Kind::Release as u8 {
            Ok(Kind::Release)
        } else if number == Kind::Module as u8 {
            Ok(Kind::Module)
        } else {
            Err(Refusal::Record)
        }
    }
}
