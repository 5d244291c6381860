// One pass over the entries of a page of level 0 but the last.
ghost use Rattle.std.specs.Prelude.{◌≡◌, suc, ◌+◌, ◌-◌, ◌^◌, ◌<◌, ◌≤◌, max, false, ◌&&◌, ◌≢◌, if◌then◌else◌, ◌==◌, bit_and, bit_xor, nat_le, nat_lt};
ghost use Rattle.index_table.specs.Layout.{Within, layout_of};
ghost use Rattle.leaf_check.specs.Passes.{Begun, told, Passed, scan_behind};

use crate::entries::{Checked, Scan};
use index_table::header::Index;
use index_table::layout::PageNo;

// What a pass carries from entry to entry: the discriminator, all bits behind the depth of the last entry, those behind the
// depth that the next must pass, and how many were dummies.
#[derive(Clone, Copy)]
pub struct Pass {
    pub disc: u64,
    pub low: u64,
    pub limit: u64,
    pub dummies: u64,
}

// All bits behind the first t of w; none where t is above w.
pub fn bits_behind(w: u64, t: u64) -> u64
    requires { w ≤ 64 }
    ensures { suc result ≡ 2 ^ (w - t) }
{
    if w <= t {
        return 0;
    }
    let n = w - t;
    if n == 64 {
        return u64::MAX;
    }
    (1u64 << n) - 1
}

// The depth that the first entry of a page must be above: c, or that of a dummy before it.
fn first_floor(c: u64, dummy: bool, trail: u64) -> u64
    ensures { result ≡ max c (if dummy then trail else 0) }
{
    c.max(if dummy { trail } else { 0 })
}

// Before the first entry of a page that c closes.
pub fn pass_start(w: u64, c: u64, s: Scan) -> Pass
    requires { (w ≤ 64) × (s.trail ≤ w) }
    ensures { Begun w c s result }
{
    Pass {
        disc: s.disc,
        low: bits_behind(w, s.trail),
        limit: bits_behind(w, first_floor(c, s.dummy, s.trail)),
        dummies: 0,
    }
}

// Whether a depth with the bits `below` behind it has fewer than limit, and the discriminator's bit there is clear.
fn depth_fits(disc: u64, limit: u64, below: u64) -> bool
    ensures { result ≡ (nat_lt below limit && bit_and disc (below + 1) == 0) }
{
    below < limit && disc & (below + 1) == 0
}

// Whether the key of an entry's record tells that it is in use, or else it is: a free record's key is 0, and differs from a discriminator
// above low in more than the bits of low.
pub fn record_told(used: &[u8], disc: u64, low: u64, p: u32) -> bool
    ensures { result ≡ told disc low used.now p }
{
    let r = p as usize;
    low < disc || p == 65535 || r < used.len() && used[r] == 1
}

// Whether a key differs from the discriminator at most in the bits of low, and in those of below.
fn key_fits(key: u64, disc: u64, low: u64, below: u64) -> bool
    ensures { result ≡ (nat_le (bit_xor key disc) below && nat_le (bit_xor key disc) low) }
{
    let x = key ^ disc;
    x <= below && x <= low
}

// One entry behind what is carried, with the bits `below` behind its depth, in a page with the bits `most` behind its last depth; none where it
// does not fit. The pointer is a number here, and no Option of a record: one comparison with the register's length tells a record from a dummy.
pub fn pass_entry(keys: &[u64], most: u64, s: Pass, below: u64, p: u32) -> Option<Pass>
    requires { s.dummies < 255 }
    ensures { Passed keys.now most s below p result }
{
    if !depth_fits(s.disc, s.limit, below) {
        return None;
    }
    let disc = (s.disc | below).wrapping_add(1);
    let r = p as usize;
    if r < keys.len() {
        if !key_fits(keys[r], s.disc, s.low, below) {
            return None;
        }
        return Some(Pass {
            disc,
            low: below,
            limit: most,
            dummies: s.dummies,
        });
    }
    if r != 65535 || s.low <= below {
        return None;
    }
    Some(Pass {
        disc,
        low: below,
        limit: below,
        dummies: s.dummies + 1,
    })
}

// The refusal of a page; it says nothing of what is carried, and keeps no more of the pass than one number, so that the loop has nothing to clear.
pub fn refused(pass: Pass) -> Checked
    ensures { result.faults ≢ 0 }
{
    let n = pass.dummies;
    Checked {
        faults: 1,
        scan: Scan {
            disc: n,
            trail: n,
            live: n,
            dummy: false,
            closed: false,
        },
    }
}

// What is carried behind the first n entries of a page that c closes, once a pass went over them; `most` are the bits behind c.
pub fn scan_behind(
    index: &[u8],
    h: Index,
    page: PageNo,
    most: u64,
    s: Scan,
    n: usize,
    pass: Pass,
) -> Scan
    requires { Within (layout_of h.entries) index.now page.0 × (n ≤ h.entries) × (s.live < 65536) × (pass.dummies ≤ n) }
    ensures { result ≡ scan_behind h index.now page.0 most s n pass }
{
    if n == 0 {
        return s;
    }
    Scan {
        disc: pass.disc,
        trail: u64::from(index_table::layout::depth(index, h.entries, page, n - 1)),
        dummy: pass.limit < most,
        live: s.live + (n as u64) - pass.dummies,
        closed: false,
    }
}
