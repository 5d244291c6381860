// Deletion within a page: figure 11 where it changes one page of level 0 alone, within that page's bytes.
#![tactic(auto)]

ghost use Rattle.std.specs.Prelude.{◌≡◌, false, [], ◌≤◌, length};
ghost use Rattle.page_tree.specs.declared.Unwind.TheVariants.{Give, Clear};
ghost use Rattle.index_table.specs.Layout.{Within, layout_of};
ghost use Rattle.index_table.specs.Pages.{pages_at};
ghost use Rattle.entry_delete.specs.Entries.{Calm};
ghost use Rattle.page_delete.specs.OnePage.{asked_before, Staying, NearPre, FollowedPre, GivePre, NearPost, StrikePost, DummyPost};

use index_table::layout::{Answer, PageNo, count, depth, pointer, record};
use page_change::close::{close, replace_entry};

// How many of the first n entries of a page stay, where dummies deeper than `than` go from the right.
fn staying(index: &[u8], e: u8, page: PageNo, n: usize, than: u8) -> usize
    requires { Within (layout_of e) index.now page.0 × (n ≤ length (pages_at (layout_of e) index.now page.0)) × (n ≤ e) }
    ensures { Staying (pages_at (layout_of e) index.now page.0) n than result }
{
    for i in (0..n).rev() {
        if let Answer::Live(_) = record(index, e, page, i) {
            return i + 1;
        }
        if depth(index, e, page, i) <= than {
            return i + 1;
        }
    }
    0
}

// Whether dummies deeper than g may go in the page before, which ends at the depth `before`, where the first `from` entries of a page stay.
fn reaches_back(from: usize, before: u64, g: u8) -> bool
    ensures { result ≡ false → Calm before (asked_before g from) }
{
    from == 0 && u64::from(g) < before
}

// A 1-leaf goes: the entry before it takes its depth d, and dummies deeper than d before that one go.
fn give_near(index: &mut [u8], e: u8, page: PageNo, at: usize, before: u64, d: u8) -> bool
    requires { GivePre e index.old page.0 at d }
    ensures { NearPost e index.old page.0 at before ([], Give d) index.new result }
{
    if at == 0 {
        return false;
    }
    let last = at - 1;
    let from = staying(index, e, page, last, d);
    if reaches_back(from, before, d) {
        return false;
    }
    let p = pointer(index, e, page, last);
    replace_entry(index, e, page, at, d, p);
    close(index, e, page, from, at);
    true
}

// An entry goes, and dummies deeper than `next` before it.
fn clear_near(index: &mut [u8], e: u8, page: PageNo, at: usize, before: u64, next: u8) -> bool
    requires { FollowedPre e index.old page.0 at }
    ensures { NearPost e index.old page.0 at before ([], Clear next) index.new result }
{
    let from = staying(index, e, page, at, next);
    if reaches_back(from, before, next) {
        return false;
    }
    close(index, e, page, from, at + 1);
    true
}

// Figure 11 at an entry of a page of level 0, with the depth before it and the depth before the page, where it changes that page alone; whether
// it does.
pub fn strike_near(
    index: &mut [u8],
    e: u8,
    page: PageNo,
    at: usize,
    trail: u64,
    before: u64,
) -> bool
    requires { NearPre e index.old page.0 at }
    ensures { StrikePost e index.old page.0 at trail before index.new result }
{
    let d = depth(index, e, page, at);
    if u64::from(d) < trail {
        return give_near(index, e, page, at, before, d);
    }
    if usize::from(count(index, e, page)) <= at + 1 {
        return false;
    }
    let next = depth(index, e, page, at + 1);
    if next < d {
        return clear_near(index, e, page, at, before, next);
    }
    replace_entry(index, e, page, at, d, 65535);
    true
}

// Figure 11 at an entry of depth d of a page of level 0, between the depths before and behind it, where it becomes a dummy; whether it does.
pub fn blank_entry(
    index: &mut [u8],
    e: u8,
    page: PageNo,
    at: usize,
    d: u8,
    trail: u64,
    next: u8,
) -> bool
    requires { GivePre e index.old page.0 at d }
    ensures { DummyPost e index.old page.0 at trail next index.new result }
{
    if u64::from(d) < trail || next < d {
        return false;
    }
    replace_entry(index, e, page, at, d, 65535);
    true
}
