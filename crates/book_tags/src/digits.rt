// Digits as numbers.
ghost use Rattle.std.specs.Prelude.{◌≡◌, ◌≤◌, length, unwrap_or};
ghost use Rattle.book_tags.specs.Tags.{digit_of, number_of};

// The value of a digit, lower-case `a` to `f` being 10 to 15; none for any other byte.
#[tactic(auto, using(crate::proofs::NumberLaws::digit_decimal, crate::proofs::NumberLaws::digit_letter, crate::proofs::NumberLaws::digit_none))]
fn digit(byte: u8) -> Option<u64>
    ensures { unwrap_or result 16 ≡ digit_of byte }
{
    match byte {
        b'0'..=b'9' => Some(u64::from(byte - b'0')),
        b'a'..=b'f' => Some(u64::from(byte - b'a' + 10)),
        _ => None,
    }
}

// The number that the digits write in this base, or none where a byte is no digit.
pub fn read_number(digits: &[u8], base: u64) -> Option<u64>
    requires { (base ≤ 16) × (length digits.now ≤ 16) }
    ensures { result ≡ number_of base digits.now }
{
    let mut value = 0;
    for &byte in digits {
        let next = digit(byte)?;
        if next >= base {
            return None;
        }
        value = value * base + next;
    }
    Some(value)
}
