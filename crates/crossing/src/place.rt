//! Places of a message's bits.
ghost use Rattle.std.specs.Prelude.{◌≡◌, ◌<◌, ltb};

// A bit of a message: its word, and its place in the word from the highest bit on; its place in the line may not fit a number.
#[derive(Clone, Copy)]
pub(crate) struct Place {
    pub(crate) word: usize,
    pub(crate) bit: usize,
    ghost in_word: { bit < 16 },
}

impl Place {
    ghost use Rattle.crossing.specs.Steps.{place_in_line, turned};

    // Whether it stands before a place of the line.
    pub(crate) fn is_before(self, place: usize) -> bool
        ensures { result ≡ ltb (place_in_line self) place }
    {
        if self.word == place / 16 {
            return self.bit < place % 16;
        }
        self.word < place / 16
    }

    // The bit, turned over where it stands at that place of the line.
    #[tactic(auto, unfolding(crate::specs::Steps::turned))]
    pub(crate) fn turn(self, place: usize, bit: bool) -> bool
        ensures { result ≡ turned place (place_in_line self) bit }
    {
        if self.word == place / 16 && self.bit == place % 16 {
            return !bit;
        }
        bit
    }
}
