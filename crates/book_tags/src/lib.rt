// The tags and records that the fields of a line write.
#![tactic(auto)]

pub mod digits;

ghost use Rattle.std.specs.Prelude.{◌≡◌};
ghost use Rattle.book_tags.specs.Tags.{tag_of, decimal_tag, hexadecimal_tag, record_of};

use digits::read_number;
use tag_code::{OutOfRange, TagFields, pack, unpack};

// Why a field that should be a tag writes none.
#[derive(Clone, Copy, Debug, PartialEq, Eq)]
pub enum TagError {
    Malformed,
    OutOfRange,
}

impl From<OutOfRange> for TagError {
    ghost use Rattle.book_tags.specs.declared.TagError.{TagError};

    ghost from_gives = { λ _ e. e ≡ TagError.OutOfRange };

    fn from(_: OutOfRange) -> Self {
        Self::OutOfRange
    }
}

// A tag of 15 decimal digits: "three of country, twelve of national number; flag 1, other fields 0".
#[tactic(auto, unfolding(crate::specs::Tags::decimal_tag))]
fn decimal_tag(country: Option<u64>, national: Option<u64>) -> Result<u64, TagError>
    ensures { result ≡ decimal_tag country national }
{
    let (Some(country), Some(national)) = (country, national) else {
        return Err(TagError::Malformed);
    };
    let key = pack(TagFields {
        animal: 1,
        country,
        national,
        ..TagFields::default()
    })?;
    Ok(key)
}

// A tag of 16 hexadecimal digits.
#[tactic(auto, unfolding(crate::specs::Tags::hexadecimal_tag))]
fn hexadecimal_tag(code: Option<u64>) -> Result<u64, TagError>
    ensures { result ≡ hexadecimal_tag code }
{
    let Some(key) = code else {
        return Err(TagError::Malformed);
    };
    unpack(key)?;
    Ok(key)
}

// The tag that a field writes.
#[tactic(auto, using(crate::proofs::TagLaws::tag_decimal, crate::proofs::TagLaws::tag_hexadecimal, crate::proofs::TagLaws::tag_none))]
pub fn read_tag(field: &[u8]) -> Result<u64, TagError>
    ensures { result ≡ tag_of field.now }
{
    if field.len() == 15 {
        let (country, national) = field.split_at(3);
        return decimal_tag(read_number(country, 10), read_number(national, 10));
    }
    match field {
        [b'h', digits @ ..] if digits.len() == 16 => hexadecimal_tag(read_number(digits, 16)),
        _ => Err(TagError::Malformed),
    }
}

// The record that a field writes: 1 to 5 decimal digits.
#[tactic(auto, using(crate::proofs::TagLaws::record_number, crate::proofs::TagLaws::record_short, crate::proofs::TagLaws::record_long))]
pub fn read_record(field: &[u8]) -> Option<u64>
    ensures { result ≡ record_of field.now }
{
    match field.len() {
        1..=5 => read_number(field, 10),
        _ => None,
    }
}
