// List, behind the check: from the place of the lower end to the right.
#![tactic(auto)]

ghost use Rattle.std.specs.Prelude.{◌≡◌, ◌<◌, ◌^◌};
ghost use Rattle.leaf_list.specs.Register.{herd_of};
ghost use Rattle.index_table.specs.Header.{width_of};
ghost use Rattle.index_table.specs.Pages.{record_of};
ghost use Rattle.index_table.specs.Soundness.{Sound};
ghost use Rattle.table_find.specs.Answers.{with_count};
ghost use Rattle.table_list.specs.Listings.{going, visited, VisitPre, RowPre, RowListed, FromPre, FromListed, Listed};

use index_table::layout::{PageNo, answer_of, child, count, pointer};
use std::ops::ControlFlow::{self, Break, Continue};
use table_find::answer::Counted;
use table_search::seek;

// How far a list has come: the records written, where it goes on, or its end.
type Listing = ControlFlow<Counted, usize>;

// An entry on level 0: a record with a key from a to b is written behind those written, or is one more where the slice is full.
fn visit(keys: &[u64], stored: u32, a: u64, b: u64, out: &mut [u32], written: usize) -> Listing
    requires { VisitPre keys.now stored }
    ensures { (out.new, result) ≡ visited keys.now a b (out.old, going written) (record_of 65535 stored) }
{
    let index_table::layout::Answer::Live(record) = answer_of(stored) else {
        return Continue(written);
    };
    let at = record.0 as usize;
    let key = keys[at];
    if key < a {
        return Continue(written);
    }
    if key > b {
        return Break(Counted {
            count: written,
            more: false,
        });
    }
    if written >= out.len() {
        return Break(Counted {
            count: written,
            more: true,
        });
    }
    out[written] = record.0;
    Continue(written + 1)
}

// The entries of a page of level 0, from one of them on.
fn list_leaves(
    index: &[u8],
    keys: &[u64],
    e: u8,
    page: PageNo,
    from: usize,
    a: u64,
    b: u64,
    out: &mut [u32],
    begun: usize,
) -> Listing
    requires { RowPre index.now keys.now e 0 page.0 }
    ensures { RowListed index.now keys.now e 0 page.0 from a b (out.old, going begun) (out.new, result) }
{
    let mut written = begun;
    for i in from..usize::from(count(index, e, page)) {
        written = visit(keys, pointer(index, e, page, i), a, b, out, written)?;
    }
    Continue(written)
}

// All below a page, from one of its entries on.
fn list_row(
    index: &[u8],
    keys: &[u64],
    e: u8,
    level: u8,
    page: PageNo,
    from: usize,
    a: u64,
    b: u64,
    out: &mut [u32],
    begun: usize,
) -> Listing
    requires { RowPre index.now keys.now e level page.0 }
    ensures { RowListed index.now keys.now e level page.0 from a b (out.old, going begun) (out.new, result) }
{
    if level == 0 {
        return list_leaves(index, keys, e, page, from, a, b, out, begun);
    }
    let mut written = begun;
    for i in from..usize::from(count(index, e, page)) {
        let below = child(index, e, page, i);
        written = list_row(index, keys, e, level - 1, below, 0, a, b, out, written)?;
    }
    Continue(written)
}

// From a's place below a page on: the entry that covers a is gone into, then those to its right are walked whole.
fn list_from(
    index: &[u8],
    keys: &[u64],
    e: u8,
    level: u8,
    page: PageNo,
    w: u64,
    a: u64,
    b: u64,
    position: u64,
    trail: u64,
    out: &mut [u32],
) -> Listing
    requires { FromPre index.now keys.now e level page.0 w a position }
    ensures { FromListed index.now keys.now e level page.0 w a b position trail out.old (out.new, result) }
{
    let s = seek(index, e, page, w, a, position, trail);
    let at = s.at;
    if level == 0 {
        return list_row(index, keys, e, level, page, at, a, b, out, 0);
    }
    let below = child(index, e, page, at);
    let written = list_from(
        index,
        keys,
        e,
        level - 1,
        below,
        w,
        a,
        b,
        s.position,
        s.trail,
        out,
    )?;
    list_row(index, keys, e, level, page, at + 1, a, b, out, written)
}

// The records of the keys from a to b.
pub fn list_held(
    index: &[u8],
    keys: &[u64],
    used: &[u8],
    a: u64,
    b: u64,
    out: &mut [u32],
) -> Counted
    requires { Sound index.now keys.now used.now × (a < 2 ^ width_of index.now) }
    ensures { Listed a b (herd_of keys.now used.now) out.old (with_count result.count result.more) out.new }
{
    let h = index_table::header::read(index);
    let w = u64::from(h.width);
    let e = h.entries;
    let level = index_table::layout::level(index, e, h.root);
    let position = table_search::next_position(w, a, 0);
    match list_from(index, keys, e, level, h.root, w, a, b, position, 0, out) {
        Continue(count) => Counted { count, more: false },
        Break(end) => end,
    }
}
