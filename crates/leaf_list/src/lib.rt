#![tactic(auto)]

ghost use Rattle.std.specs.Prelude.{◌≡◌, ◌≢◌, ◌-◌, ◌≤◌, ◌<◌, ◌^◌, max, eqb, leb};
ghost use Rattle.leaf_list.specs.Keys.{bits, first_difference, bit_at, set_bit_at, first_bits};
ghost use Rattle.leaf_list.specs.Insertion.{leaf_depth};

// Bit p of a number of w bits.
pub fn bit(w: u64, p: u64) -> u64
    requires { (w ≤ 64) × (0 < p) × (p ≤ w) }
    ensures { result ≡ 2 ^ (w - p) }
{
    1u64 << (w - p)
}

// Whether bit p of a key of w bits is set.
pub fn bit_is_set(w: u64, key: u64, p: u64) -> bool
    requires { (w ≤ 64) × (0 < p) × (p ≤ w) }
    ensures { result ≡ bit_at w p key }
{
    key & bit(w, p) != 0
}

// The first bit where two keys of w bits differ; w + 1 where they are the same.
pub fn first_difference(w: u64, a: u64, b: u64) -> u64
    requires { (w ≤ 64) × (a < 2 ^ w) × (b < 2 ^ w) }
    ensures { (result ≡ first_difference 0 (bits w a) (bits w b)) × (0 < result) × (a ≢ b → result ≤ w) }
{
    u64::from((a ^ b).leading_zeros()) + w - 63
}

// Whether two keys of w bits agree in their first l bits.
pub fn agree(w: u64, a: u64, b: u64, l: u64) -> bool
    requires { (w ≤ 64) × (l ≤ w) × (a < 2 ^ w) × (b < 2 ^ w) }
    ensures { result ≡ eqb (first_bits w l a) (first_bits w l b) }
{
    l == 0 || (a >> (w - l)) == (b >> (w - l))
}

// Whether a key has more than w bits.
#[tactic(auto, using(crate::proofs::KeyLaws::wide_by_shift))]
pub fn too_wide(w: u64, key: u64) -> bool
    requires { w ≤ 64 }
    ensures { result ≡ leb (2 ^ w) key }
{
    w != 64 && (key >> w) != 0
}

// The discriminator after disc and an entry of depth d: bit d is set, and the later bits are clear.
pub fn next_discriminator(w: u64, disc: u64, d: u64) -> u64
    requires { (w ≤ 64) × (0 < d) × (d ≤ w) × (disc < 2 ^ w) }
    ensures { (result ≡ set_bit_at w d disc) × (result < 2 ^ w) }
{
    let below = w - d;
    ((disc >> below) | 1) << below
}

// The depth of the leaf at an entry of depth d, after an entry of depth before.
pub fn leaf_depth(before: u64, d: u64) -> u64
    ensures { (result ≡ leaf_depth before d) × (result ≡ max before d) }
{
    before.max(d)
}
