// Tag codes of ISO 11784: seven fields, and the 64-bit code that they make.
#![tactic(auto)]

ghost use Rattle.std.specs.Prelude.{◌≡◌, ◌+◌, ◌*◌, ◌/◌, ◌%◌, ◌^◌, ◌-◌, ◌<◌};
ghost use Rattle.tag_code.specs.TagCode.{fields_fit, packed, unpacked, as_packed, as_unpacked};

// The fields of a tag, from bit 1 of its code to bit 64.
#[repr(C)]
#[derive(Clone, Copy, Debug, Default, PartialEq, Eq)]
pub struct TagFields {
    pub animal: u64,
    pub retag: u64,
    pub user: u64,
    pub reserved: u64,
    pub block: u64,
    pub country: u64,
    pub national: u64,
}

// Why there is no code, or no fields: a country above 999, or a field too large for its bits.
#[derive(Clone, Copy, Debug, PartialEq, Eq)]
pub struct OutOfRange;

// The answer of `pack` for C: 0 and the code, or 11 and 0.
#[repr(C)]
#[derive(Clone, Copy)]
pub struct Packed {
    pub number: u32,
    pub code: u64,
}

// The answer of `unpack` for C: 0 and the fields, or 11 and fields 0.
#[repr(C)]
#[derive(Clone, Copy)]
pub struct Unpacked {
    pub number: u32,
    pub fields: TagFields,
}

impl TagFields {
    pub const LARGEST_COUNTRY: u64 = 999;

    pub const LARGEST_NATIONAL: u64 = 274877906943;

    // Whether each field fits its bits, and the country its limit.
    pub fn fit(self) -> bool
        ensures { result ≡ fields_fit self }
    {
        self.animal <= 1
            && self.retag <= 7
            && self.user <= 31
            && self.reserved <= 63
            && self.block <= 1
            && self.country <= Self::LARGEST_COUNTRY
            && self.national <= Self::LARGEST_NATIONAL
    }
}

impl OutOfRange {
    // The answer number of a call that is refused for this.
    pub const NUMBER: u32 = 11;
}

impl From<Result<u64, OutOfRange>> for Packed {
    ghost from_gives = { λ answer p. p ≡ as_packed answer };

    fn from(answer: Result<u64, OutOfRange>) -> Self {
        match answer {
            Ok(code) => Self { number: 0, code },
            Err(OutOfRange) => Self {
                number: OutOfRange::NUMBER,
                code: 0,
            },
        }
    }
}

impl From<Result<TagFields, OutOfRange>> for Unpacked {
    ghost from_gives = { λ answer u. u ≡ as_unpacked answer };

    fn from(answer: Result<TagFields, OutOfRange>) -> Self {
        match answer {
            Ok(fields) => Self { number: 0, fields },
            Err(OutOfRange) => Self {
                number: OutOfRange::NUMBER,
                fields: TagFields::default(),
            },
        }
    }
}

// The bits of a code so far, and a field of `width` bits after them.
fn with_field(code: u64, field: u64, width: u64) -> u64
    requires { (width < 64) × (code < 2 ^ (64 - width)) × (field < 2 ^ width) }
    ensures { result ≡ code * 2 ^ width + field }
{
    (code << width) | field
}

// The field of `width` bits that has `after` bits of the code behind it.
fn field_of(code: u64, after: u64, width: u64) -> u64
    requires { (after < 64) × (width < 64) }
    ensures { result ≡ code / 2 ^ after % 2 ^ width }
{
    (code >> after) & ((1u64 << width) - 1)
}

// The code of the fields.
pub fn pack(fields: TagFields) -> Result<u64, OutOfRange>
    ensures { as_packed result ≡ packed fields }
{
    if !fields.fit() {
        return Err(OutOfRange);
    }
    let to_retag = with_field(fields.animal, fields.retag, 3);
    let to_user = with_field(to_retag, fields.user, 5);
    let to_reserved = with_field(to_user, fields.reserved, 6);
    let to_block = with_field(to_reserved, fields.block, 1);
    let to_country = with_field(to_block, fields.country, 10);
    Ok(with_field(to_country, fields.national, 38))
}

// The fields of the code.
pub fn unpack(code: u64) -> Result<TagFields, OutOfRange>
    ensures { as_unpacked result ≡ unpacked code }
{
    let country = field_of(code, 38, 10);
    if country > TagFields::LARGEST_COUNTRY {
        return Err(OutOfRange);
    }
    Ok(TagFields {
        animal: field_of(code, 63, 1),
        retag: field_of(code, 60, 3),
        user: field_of(code, 55, 5),
        reserved: field_of(code, 49, 6),
        block: field_of(code, 48, 1),
        country,
        national: field_of(code, 0, 38),
    })
}

// `pack` of the fields one by one, as C passes them.
pub fn tag_code_pack(
    animal: u64,
    retag: u64,
    user: u64,
    reserved: u64,
    block: u64,
    country: u64,
    national: u64,
) -> Packed
    ensures { result ≡ packed (record { animal = animal; retag = retag; user = user; reserved = reserved; block = block; country = country; national = national }) }
{
    Packed::from(pack(TagFields {
        animal,
        retag,
        user,
        reserved,
        block,
        country,
        national,
    }))
}

// `unpack` by the name that C calls.
pub fn tag_code_unpack(code: u64) -> Unpacked
    ensures { result ≡ unpacked code }
{
    Unpacked::from(unpack(code))
}
