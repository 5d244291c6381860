// Bytes that must be zero.
ghost use Rattle.std.specs.Prelude.{◌≡◌, ℕ, ◌^◌, ◌<◌, ◌≤◌, true, ◌↔◌, length, slice_index};
ghost use Rattle.bytes_check.specs.Scans.{ZeroBetween};

// All bits of all bytes: as wide as the widest byte. It gathers them without an early exit, so that the compiler takes many bytes at once.
pub fn bits_of(bytes: &[u8]) -> u8
    ensures { (m : ℕ) → (result < 2 ^ m) ↔ ((k : ℕ) → k < length bytes.now → slice_index bytes.now k < 2 ^ m) }
{
    let mut bits = 0;
    for byte in bytes {
        bits |= *byte;
    }
    bits
}

// Whether the bytes from `from` up to `to` are all zero.
pub fn all_zero(bytes: &[u8], from: usize, to: usize) -> bool
    requires { (from ≤ to) × (to ≤ length bytes.now) }
    ensures { (result ≡ true) ↔ ZeroBetween from to bytes.now }
{
    bits_of(&bytes[from..to]) == 0
}
