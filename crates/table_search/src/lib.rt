// Search in sound tables: figure 6 from the root down.
#![tactic(auto)]

ghost use Rattle.std.specs.Prelude.{◌≡◌, cond, ◌+◌, ◌-◌, ◌%◌, ◌^◌, ◌≤◌, ◌<◌, leb};
ghost use Rattle.index_table.specs.Layout.{Within, layout_of};
ghost use Rattle.index_table.specs.Pages.{pages_at};
ghost use Rattle.table_search.specs.Places.{ahead, first_position, last_before, last_position, NextPosition, SeekPre, spot_at, Stopped, sparse_at, LeafLow, LeafNumber, pointer_in, NumberPre, number_leaf, ReachPre, Reached};

use index_table::layout::{PageNo, child, count, depth, pointer};
use leaf_list::{bit, first_difference};

// A place in a page.
#[derive(Clone, Copy, Debug, PartialEq, Eq)]
pub struct Spot {
    // The entry.
    pub at: usize,
    // The next position.
    pub position: u64,
    // The depth before the entry.
    pub trail: u64,
}

// An entry on level 0.
#[derive(Clone, Copy)]
pub struct Leaf {
    // Its place in its page.
    pub at: usize,
    // What it points at.
    pub pointer: u32,
    pub page: PageNo,
    pub depth: u64,
    // The depth before it.
    pub trail: u64,
    // The depth before its page.
    pub before: u64,
    // Whether the page above its page is sparse.
    pub thin: bool,
}

// The bits of a key of w bits behind the first p.
pub fn last_bits(w: u64, key: u64, p: u64) -> u64
    requires { (w ≤ 64) × (p ≤ w) × (key < 2 ^ w) }
    ensures { result ≡ key % 2 ^ (w - p) }
{
    if p == 0 { key } else { key % bit(w, p) }
}

// The position of the first of the bits ahead; w + 1 where there is none.
fn first_position(w: u64, ahead: u64) -> u64
    requires { (w ≤ 64) × (ahead < 2 ^ w) }
    ensures { result ≡ first_position w ahead }
{
    u64::from(ahead.leading_zeros()) + w - 63
}

// The position that follows the first p bits of a key: its next one-bit, or w + 1.
pub fn next_position(w: u64, key: u64, p: u64) -> u64
    requires { (w ≤ 64) × (p ≤ w) × (key < 2 ^ w) }
    ensures { NextPosition w key p result }
{
    first_position(w, last_bits(w, key, p))
}

// The bits of a key from its one-bit at position b on.
fn bits_ahead(w: u64, key: u64, b: u64) -> u64
    requires { (w ≤ 64) × (0 < b) }
    ensures { result ≡ ahead w key b }
{
    if w < b {
        0
    } else {
        let first = bit(w, b);
        first + key % first
    }
}

// The bits behind the first of w.
fn bits_behind_first(w: u64) -> u64
    requires { w ≤ 64 }
    ensures { result ≡ 2 ^ (w - 1) - 1 }
{
    if w == 0 { 0 } else { bit(w, 1) - 1 }
}

// The last number before the discriminator of an entry of depth d that follows the discriminator disc; ones are the bits behind the first of w.
fn last_before(w: u64, ones: u64, disc: u64, d: u64) -> u64
    requires { (w ≤ 64) × (ones ≡ 2 ^ (w - 1) - 1) × (0 < d) × (d ≤ w) }
    ensures { result ≡ last_before w d disc }
{
    disc | (ones >> (d - 1))
}

// The position of the last one-bit of a number of w bits; `none` where it has no one-bit.
fn last_position(w: u64, number: u64, none: u64) -> u64
    requires { (w ≤ 64) × (number < 2 ^ w) }
    ensures { result ≡ last_position w none number }
{
    if number == 0 {
        none
    } else {
        w - u64::from(number.trailing_zeros())
    }
}

// The place at an entry that follows the discriminator disc. The key's bits ahead differ from it first at the next position, and its last one-bit is the
// depth of the entry passed last.
fn spot_at(w: u64, bits: u64, trail: u64, disc: u64, at: usize) -> Spot
    requires { (w ≤ 64) × (bits < 2 ^ w) × (disc < 2 ^ w) }
    ensures { result ≡ spot_at w bits trail disc at }
{
    Spot {
        at,
        position: first_difference(w, bits, disc),
        trail: last_position(w, disc, trail),
    }
}

// The place at an entry that follows the discriminator disc, or, where the key's bits are above the last number before its own, at the entry behind it.
fn spot_of_two(w: u64, bits: u64, trail: u64, disc: u64, last: u64, at: usize) -> Spot
    requires { (w ≤ 64) × (bits < 2 ^ w) × (disc < 2 ^ w) × (at < 256) }
    ensures { result ≡ cond (leb bits last) (spot_at w bits trail disc at) (spot_at w bits trail (last + 1) (at + 1)) }
{
    let (passed, stop) = if last < bits {
        (last + 1, at + 1)
    } else {
        (disc, at)
    };
    spot_at(w, bits, trail, passed, stop)
}

// The entry of a page at which figure 6 stops, begun at a position and with the depth before. In the page the discriminators of its own entries are
// made, as if they were the whole list: figure 6 stops at the first that is above the key's bits from that position on.
pub fn seek(index: &[u8], e: u8, page: PageNo, w: u64, key: u64, position: u64, trail: u64) -> Spot
    requires { SeekPre index.now e page.0 w key position }
    ensures { Stopped w key position trail (pages_at (layout_of e) index.now page.0) result }
{
    let n = usize::from(count(index, e, page));
    let bits = bits_ahead(w, key, position);
    let ones = bits_behind_first(w);
    let mut disc: u64 = 0;
    let mut i: usize = 0;
    // Two entries a turn, for one comparison; no `for`, which would keep i and disc from what follows.
    while i + 2 < n {
        let first = last_before(w, ones, disc, u64::from(depth(index, e, page, i)));
        let second = last_before(w, ones, first + 1, u64::from(depth(index, e, page, i + 1)));
        if bits <= second {
            return spot_of_two(w, bits, trail, disc, first, i);
        }
        disc = second + 1;
        i += 2;
    }
    if i + 1 < n {
        let last = last_before(w, ones, disc, u64::from(depth(index, e, page, i)));
        return spot_of_two(w, bits, trail, disc, last, i);
    }
    spot_at(w, bits, trail, disc, i)
}

// Says whether a page holds fewer than a quarter of the e entries that it may hold.
pub fn sparse(index: &[u8], e: u8, page: PageNo) -> bool
    requires { Within (layout_of e) index.now page.0 }
    ensures { result ≡ sparse_at e (pages_at (layout_of e) index.now) page.0 }
{
    4 * usize::from(count(index, e, page)) < usize::from(e)
}

// Packs an entry on level 0 but for its depth into one number: whether the page above is sparse, the depth before its page, the one before it, its
// place in its page, the page, and what it points at.
fn leaf_number(leaf: Leaf) -> u64
    requires { LeafLow leaf }
    ensures { LeafNumber leaf result }
{
    let depths = (u64::from(leaf.thin) * 256 + leaf.before) * 256 + leaf.trail;
    let place = (depths * 256 + leaf.at as u64) * 65536 + u64::from(leaf.page.0);
    place * 65536 + u64::from(leaf.pointer)
}

// Returns what the entry that a number means points at.
pub fn number_pointer(number: u64) -> u32
    ensures { result ≡ pointer_in number }
{
    (number % 65536) as u32
}

// Returns the entry that a number means; its depth is read from its page.
pub fn numbered_leaf(index: &[u8], e: u8, number: u64) -> Leaf
    requires { NumberPre index.now e number }
    ensures { result ≡ number_leaf (pages_at (layout_of e) index.now) number }
{
    let at = (number / 4294967296 % 256) as usize;
    let page = PageNo((number / 65536 % 65536) as u16);
    Leaf {
        at,
        pointer: number_pointer(number),
        page,
        depth: u64::from(depth(index, e, page, at)),
        trail: number / 1099511627776 % 256,
        before: number / 281474976710656 % 256,
        thin: number / 72057594037927936 == 1,
    }
}

// From a page of a level down to the entry that figure 6 finds. The position list is carried on by its next position, and with it the depth before and
// whether the page above is sparse. The entry is one number, and the slice is behind a reference: a struct and a slice would go through memory on each
// level.
pub fn descend(
    index: &&[u8],
    level: u8,
    page: PageNo,
    key: u64,
    position: u64,
    trail: u64,
    thin: bool,
) -> u64
    requires { ReachPre index.now.now level page.0 key position trail }
    ensures { Reached index.now.now level page.0 key position trail thin result }
{
    let table = *index;
    let h = index_table::header::read(table);
    let w = u64::from(h.width);
    let s = seek(table, h.entries, page, w, key, position, trail);
    if level == 0 {
        return leaf_number(Leaf {
            at: s.at,
            pointer: pointer(table, h.entries, page, s.at),
            page,
            depth: u64::from(depth(table, h.entries, page, s.at)),
            trail: s.trail,
            before: trail,
            thin,
        });
    }
    let below = child(table, h.entries, page, s.at);
    let few = sparse(table, h.entries, page);
    descend(index, level - 1, below, key, s.position, s.trail, few)
}
