// Why operations refuse, and the numbers that the papers give the refusals.
ghost use Rattle.std.specs.Prelude.{◌≡◌};
ghost use Rattle.rules.specs.Refusal.{number_of};

/// Why an operation refuses. A refusal changes neither state nor lent memory.
#[derive(Clone, Copy, Debug, PartialEq, Eq, Hash, PartialOrd, Ord)]
pub enum Refusal {
    /// Power-up size 0 or above 32,768; lent memory not of the card's size.
    Size = 1,
    /// A part of a state outside its range.
    State = 2,
    /// Select or module-state call while a message is open.
    Open = 3,
    /// Word or release with no message open.
    Closed = 4,
    /// A code, length, sub-address, module state or number of left-over bits above its limit; a block not as long as its length.
    Argument = 5,
    /// A buffer shorter than the message to be built.
    Room = 6,
    /// Asked for a message, or given one, out of turn or after the verdict.
    Turn = 7,
    /// Words given back, or read as an answer, not as many as were sent.
    Count = 8,
    /// A record of a program's input that is of no known kind, or unfinished.
    Record = 9,
}

impl Refusal {
    /// Its number, 1 to 9.
    pub fn number(self) -> u8
        ensures { result ≡ number_of self }
    {
        self as u8
    }
}
