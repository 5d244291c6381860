// Pages changed within their own bytes: an entry replaced, entries taken out.
ghost use Rattle.std.specs.Prelude.{◌≡◌, ◌++◌, ◌+◌, ◌*◌, ◌≤◌, ◌<◌, length, take, drop, replicate, set};
ghost use Rattle.byte_moves.specs.Over.{over};
ghost use Rattle.index_table.specs.Layout.{layout_of};
ghost use Rattle.index_table.specs.Pages.{pages_at};
ghost use Rattle.page_change.specs.Changing.{WholePage, with_row, without};

use byte_moves::move_down;
use index_table::layout::{PageNo, count, page_start};
use index_write::write::{clear, write_entry};

// Another entry in the place of entry i of a page.
pub fn replace_entry(index: &mut [u8], e: u8, page: PageNo, i: usize, d: u8, p: u32)
    requires { WholePage e index.old page.0 × (i < length (pages_at (layout_of e) index.old page.0)) × (p < 65536) }
    ensures { index.new ≡ with_row e index.old page.0 (set (pages_at (layout_of e) index.old page.0) i (d, p)) }
{
    let at = page_start(e, page);
    write_entry(index, at + (2 + 3 * i), d, p);
}

// n bytes moved down by `gone` to a place, and as many zeros behind them as they left. Of zeros that stand behind them there are `free`: where these
// are enough, they move along.
fn close_up(index: &mut [u8], at: usize, gone: usize, n: usize, free: usize)
    requires { (at + gone + n + free ≤ length index.old) × (take free (drop (at + gone + n) index.old) ≡ replicate free 0) }
    ensures { index.new ≡ over index.old at (take n (drop (at + gone) index.old) ++ replicate gone 0) }
{
    if gone <= free {
        move_down(index, at, at + gone, n + gone);
        return;
    }
    move_down(index, at, at + gone, n);
    clear(index, at + n, gone);
}

// The entries of a page from one place up to another taken out; those behind them move down, and the bytes left over are zero.
pub fn close(index: &mut [u8], e: u8, page: PageNo, from: usize, to: usize)
    requires { WholePage e index.old page.0 × (from ≤ to) × (to ≤ length (pages_at (layout_of e) index.old page.0)) }
    ensures { index.new ≡ with_row e index.old page.0 (without from to (pages_at (layout_of e) index.old page.0)) }
{
    let at = page_start(e, page);
    let n = usize::from(count(index, e, page));
    let gone = to - from;
    let free = usize::from(e) - n;
    close_up(index, at + (2 + 3 * from), 3 * gone, 3 * (n - to), 3 * free);
    index[at + 1] = (n - gone) as u8;
}
