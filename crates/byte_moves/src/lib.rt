// Bytes moved within the index table, up to 32 at once: all of them are read before one is written, so that places may overlap.
// Tried, and slower: `copy_within`, compiled from a loop over single bytes. It takes 1.5 to 3 times the instructions for up to 180 bytes, and up to
// twice the time for up to 60. So is a `for` over the parts, which the compiler unrolls: of more than 32 bytes 4 instructions more to move them up, and
// some 20 to move them down.
#![tactic(auto)]

ghost use Rattle.std.specs.Prelude.{◌≡◌, ◌+◌, ◌≤◌, length, take, drop};
ghost use Rattle.byte_moves.specs.Over.{over};

// The N bytes from one place on.
fn load<const N: usize>(index: &[u8], from: usize) -> [u8; N]
    requires { from + N ≤ length index.now }
    ensures { result ≡ take N (drop from index.now) }
{
    let mut bytes = [0; N];
    bytes.copy_from_slice(&index[from..from + N]);
    bytes
}

// N bytes written from one place on.
fn store<const N: usize>(index: &mut [u8], to: usize, bytes: [u8; N])
    requires { to + N ≤ length index.old }
    ensures { index.new ≡ over index.old to bytes.entry }
{
    index[to..to + N].copy_from_slice(&bytes);
}

// N bytes from one place to another.
fn move_part<const N: usize>(index: &mut [u8], to: usize, from: usize)
    requires { (from + N ≤ length index.old) × (to + N ≤ length index.old) }
    ensures { index.new ≡ over index.old to (take N (drop from index.old)) }
{
    let bytes = load::<N>(index, from);
    store(index, to, bytes);
}

// n bytes from one place to another: the first N and the last N, which may share some.
fn move_ends<const N: usize>(index: &mut [u8], to: usize, from: usize, n: usize)
    requires { (from + n ≤ length index.old) × (to + n ≤ length index.old) × (N ≤ n) × (n ≤ N + N) }
    ensures { index.new ≡ over index.old to (take n (drop from index.old)) }
{
    let last = n - N;
    let first_bytes = load::<N>(index, from);
    let last_bytes = load::<N>(index, from + last);
    store(index, to, first_bytes);
    store(index, to + last, last_bytes);
}

// At most 32 bytes from one place to another.
fn move_few(index: &mut [u8], to: usize, from: usize, n: usize)
    requires { (from + n ≤ length index.old) × (to + n ≤ length index.old) × (n ≤ 32) }
    ensures { index.new ≡ over index.old to (take n (drop from index.old)) }
{
    if n >= 16 {
        move_ends::<16>(index, to, from, n);
    } else if n >= 8 {
        move_ends::<8>(index, to, from, n);
    } else if n >= 4 {
        move_ends::<4>(index, to, from, n);
    } else if n >= 2 {
        move_ends::<2>(index, to, from, n);
    } else if n == 1 {
        move_part::<1>(index, to, from);
    }
}

// n bytes from one place on, moved up; the last first, but the first 32 are read before.
pub fn move_up(index: &mut [u8], from: usize, n: usize, by: usize)
    requires { from + n + by ≤ length index.old }
    ensures { index.new ≡ over index.old (from + by) (take n (drop from index.old)) }
{
    let to = from + by;
    if n <= 32 {
        move_few(index, to, from, n);
        return;
    }
    let first_bytes = load::<32>(index, from);
    let mut i = n;
    while i > 32 {
        i -= 32;
        move_part::<32>(index, to + i, from + i);
    }
    store(index, to, first_bytes);
}

// n bytes moved down to `at`; the first first, but the last 32 are read before.
pub fn move_down(index: &mut [u8], at: usize, from: usize, n: usize)
    requires { (at ≤ from) × (from + n ≤ length index.old) }
    ensures { index.new ≡ over index.old at (take n (drop from index.old)) }
{
    if n <= 32 {
        move_few(index, at, from, n);
        return;
    }
    let last = n - 32;
    let last_bytes = load::<32>(index, from + last);
    let mut i = 0;
    while i < last {
        move_part::<32>(index, at + i, from + i);
        i += 32;
    }
    store(index, at + last, last_bytes);
}
