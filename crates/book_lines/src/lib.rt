// What a line of the day book says (01, "Day-book program").
#![tactic(auto)]

ghost use Rattle.std.specs.Prelude.{◌≡◌};
ghost use Rattle.book_tags.specs.Tags.{record_at_most};
ghost use Rattle.book_lines.specs.Lines.{declined_for, declined_number, meaning, two_fields, three_fields, on_line, list_line};

use book_tags::{TagError, read_record, read_tag};
use tag_code::OutOfRange;

// A call that a line asks for, with its arguments.
#[derive(Clone, Copy, Debug, PartialEq, Eq)]
pub enum Call {
    On { key: u64, record: u32 },
    Off { key: u64 },
    Find { key: u64 },
    List { from: u64, to: u64 },
}

// Why a line asks for no call.
#[derive(Clone, Copy, Debug, PartialEq, Eq)]
pub enum Declined {
    Bad,
    OutOfRange,
}

impl Declined {
    // The answer number of such a line: 10 for a bad line, 11 for a tag out of range.
    pub fn number(self) -> u32
        ensures { result ≡ declined_number self }
    {
        match self {
            Declined::Bad => 10,
            Declined::OutOfRange => OutOfRange::NUMBER,
        }
    }
}

impl From<TagError> for Declined {
    ghost from_gives = { λ e declined. declined ≡ declined_for e };

    fn from(e: TagError) -> Self {
        match e {
            TagError::Malformed => Declined::Bad,
            TagError::OutOfRange => Declined::OutOfRange,
        }
    }
}

// `on` tag record: a record that is none is bad, be the tag out of range or not.
fn on_line(tag: Result<u64, TagError>, written: Option<u64>) -> Result<Call, Declined>
    requires { record_at_most 99999 written }
    ensures { result ≡ on_line tag written }
{
    let Some(number) = written else {
        return Err(Declined::Bad);
    };
    Ok(Call::On {
        key: tag?,
        record: number as u32,
    })
}

// `list` tag tag: a tag that is none is bad, be the other out of range or not.
fn list_line(first: Result<u64, TagError>, last: Result<u64, TagError>) -> Result<Call, Declined>
    ensures { result ≡ list_line first last }
{
    match (first, last) {
        (Err(TagError::Malformed), _) | (_, Err(TagError::Malformed)) => Err(Declined::Bad),
        (first, last) => Ok(Call::List {
            from: first?,
            to: last?,
        }),
    }
}

// A line of two fields: `off` tag, `find` tag.
#[tactic(auto, using(crate::proofs::LineLaws::says_off, crate::proofs::LineLaws::says_find, crate::proofs::LineLaws::says_neither))]
fn two_fields(verb: &[u8], second: &[u8]) -> Result<Call, Declined>
    ensures { result ≡ two_fields verb.now second.now }
{
    match verb {
        b"off" => Ok(Call::Off {
            key: read_tag(second)?,
        }),
        b"find" => Ok(Call::Find {
            key: read_tag(second)?,
        }),
        _ => Err(Declined::Bad),
    }
}

// A line of three fields: `on` tag record, `list` tag tag.
#[tactic(auto, using(crate::proofs::LineLaws::says_on, crate::proofs::LineLaws::says_list, crate::proofs::LineLaws::says_none))]
fn three_fields(verb: &[u8], second: &[u8], third: &[u8]) -> Result<Call, Declined>
    ensures { result ≡ three_fields verb.now second.now third.now }
{
    match verb {
        b"on" => on_line(read_tag(second), read_record(third)),
        b"list" => list_line(read_tag(second), read_tag(third)),
        _ => Err(Declined::Bad),
    }
}

// What a line, given without its newline, says: a call, or why there is none.
pub fn read_line(line: &[u8]) -> Result<Call, Declined>
    ensures { result ≡ meaning line.now }
{
    if line.len() > 80 {
        return Err(Declined::Bad);
    }
    let mut fields = line.split(|&byte| byte == b'\t');
    let (Some(verb), Some(second)) = (fields.next(), fields.next()) else {
        return Err(Declined::Bad);
    };
    match (fields.next(), fields.next()) {
        (None, _) => two_fields(verb, second),
        (Some(third), None) => three_fields(verb, second, third),
        _ => Err(Declined::Bad),
    }
}
