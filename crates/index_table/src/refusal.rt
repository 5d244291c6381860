// What declines a call.
ghost use Rattle.std.specs.Prelude.{◌≡◌, Some};
ghost use Rattle.index_table.specs.Refusals.{number_of, words_of};

use std::fmt;

// The rows of the table of declined calls, each with its number.
#[derive(Clone, Copy, Debug, PartialEq, Eq)]
pub enum Refusal {
    NotSound = 1,
    KeyTooWide = 2,
    NoSuchRecord = 3,
    RecordInUse = 4,
    KeyHeld = 5,
    KeyNotHeld = 6,
    OutOfPages = 7,
    RootTooHigh = 8,
    OutsideLimits = 9,
    AnswersTooShort = 12,
}

impl Refusal {
    // Says in words why the call is declined.
    pub fn words(self) -> &'static str
        ensures { result.now ≡ words_of self }
    {
        match self {
            Refusal::NotSound => "the tables are not sound",
            Refusal::KeyTooWide => "a key of more than W bits",
            Refusal::NoSuchRecord => "the record is at or past the register's length",
            Refusal::RecordInUse => "the record is in use",
            Refusal::KeyHeld => "the key is held",
            Refusal::KeyNotHeld => "the key is not held",
            Refusal::OutOfPages => "more than P pages would be in use after it",
            Refusal::RootTooHigh => "the root would stand above level 15",
            Refusal::OutsideLimits => "W, E, P, the records or a table's length outside the limits",
            Refusal::AnswersTooShort => "there are fewer answers than movements",
        }
    }
}

// The number of the row.
impl From<Refusal> for u32 {
    ghost from_gives = { λ refusal n. n ≡ number_of refusal };

    fn from(refusal: Refusal) -> u32 {
        refusal as u32
    }
}

impl fmt::Display for Refusal {
    ghost output = { λ refusal. Some (words_of refusal) };

    fn fmt<W: fmt::Write>(&self, f: &mut fmt::Formatter<W>) -> fmt::Result {
        f.write_str(self.words())
    }
}
