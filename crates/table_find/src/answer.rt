// The answer of every call, as C gets it.
ghost use Rattle.std.specs.Prelude.{◌≡◌};
ghost use Rattle.index_table.specs.Refusals.{answer_number};
ghost use Rattle.table_find.specs.Answers.{plain, with_record, with_count, find_answer, list_answer};

use index_table::layout::RecordNo;
use index_table::refusal::Refusal;

// 0 done, or the number of the row that declines the call; the record that a find found; how many records a list wrote, and whether more remain. C gets these
// four side by side, so that no `Result` stands in their place.
#[repr(C)]
#[derive(Clone, Copy, Debug, PartialEq, Eq)]
pub struct Answer {
    pub number: u32,
    pub record: u32,
    pub count: u64,
    pub more: bool,
}

// What a list gives: how many records it wrote, and whether more remain.
#[derive(Clone, Copy, Debug, PartialEq, Eq)]
pub struct Counted {
    pub count: usize,
    pub more: bool,
}

impl Answer {
    pub const NO_RECORD: u32 = 65535;

    // An answer that sets nothing but its number.
    pub fn plain(number: u32) -> Answer
        ensures { result ≡ plain number }
    {
        Answer {
            number,
            record: Answer::NO_RECORD,
            count: 0,
            more: false,
        }
    }

    // A find that found a record.
    pub fn with_record(record: u32) -> Answer
        ensures { result ≡ with_record «record» }
    {
        Answer {
            record,
            ..Answer::plain(0)
        }
    }

    // A list that wrote `count` records.
    pub fn with_count(count: u64, more: bool) -> Answer
        ensures { result ≡ with_count count more }
    {
        Answer {
            count,
            more,
            ..Answer::plain(0)
        }
    }
}

// The answer of a call that sets nothing but the number.
impl From<Result<(), Refusal>> for Answer {
    ghost from_gives = { λ done answer. answer ≡ plain (answer_number done) };

    fn from(done: Result<(), Refusal>) -> Answer {
        match done {
            Ok(()) => Answer::plain(0),
            Err(refusal) => Answer::plain(refusal.into()),
        }
    }
}

// The answer of a find.
impl From<Result<RecordNo, Refusal>> for Answer {
    ghost from_gives = { λ found answer. answer ≡ find_answer found };

    fn from(found: Result<RecordNo, Refusal>) -> Answer {
        match found {
            Ok(record) => Answer::with_record(record.0),
            Err(refusal) => Answer::plain(refusal.into()),
        }
    }
}

// The answer of a list.
impl From<Result<Counted, Refusal>> for Answer {
    ghost from_gives = { λ listed answer. answer ≡ list_answer listed };

    fn from(listed: Result<Counted, Refusal>) -> Answer {
        match listed {
            Ok(counted) => Answer::with_count(counted.count as u64, counted.more),
            Err(refusal) => Answer::plain(refusal.into()),
        }
    }
}
