// The calls of tag_code as C calls them: include/tag_code.h declares them.
#![tactic(auto)]

ghost use Rattle.std.specs.Prelude.{◌≡◌};
ghost use Rattle.tag_code.specs.TagCode.{packed, unpacked};

use tag_code::{Packed, Unpacked};

// `tag_code::pack` for C.
#[unsafe(no_mangle)]
pub extern "C" fn tag_code_pack(
    animal: u64,
    retag: u64,
    user: u64,
    reserved: u64,
    block: u64,
    country: u64,
    national: u64,
) -> Packed
    ensures { result ≡ packed (record { animal = animal; retag = retag; user = user; reserved = reserved; block = block; country = country; national = national }) }
{
    tag_code::tag_code_pack(animal, retag, user, reserved, block, country, national)
}

// `tag_code::unpack` for C.
#[unsafe(no_mangle)]
pub extern "C" fn tag_code_unpack(code: u64) -> Unpacked
    ensures { result ≡ unpacked code }
{
    tag_code::tag_code_unpack(code)
}
