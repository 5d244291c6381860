// Pages and the header's numbers written into the index table's bytes.
ghost use Rattle.std.specs.Prelude.{◌≡◌, ◌+◌, ◌*◌, ◌-◌, ◌<◌, ◌≤◌, length, replicate};
ghost use Rattle.page_tree.specs.Row.{part_of};
ghost use Rattle.byte_moves.specs.Over.{over};
ghost use Rattle.index_table.specs.Bytes.{bytes_of};
ghost use Rattle.index_table.specs.Layout.{Within, layout_of, page_start, page_size, ref_bytes, row_bytes, row_page, Fitting, store};
ghost use Rattle.index_table.specs.Header.{header_bytes, with_root, with_held};
ghost use Rattle.index_table.specs.Pages.{pages_at, used_pages};
ghost use Rattle.index_write.specs.Storing.{Storable};

use index_table::layout::{PageNo, count, page_start};
use page_tree::Row;

// Two bytes, high byte first: `set_root` and `set_held` are a call of it each, at their places in the header.
fn write_word(index: &mut [u8], at: usize, n: u16)
    requires { at + 2 ≤ length index.old }
    ensures { index.new ≡ over index.old at (bytes_of 2 n) }
{
    index[at..at + 2].copy_from_slice(&n.to_be_bytes());
}

// The header's root page.
pub fn set_root(index: &mut [u8], root: PageNo)
    requires { 16 ≤ length index.old }
    ensures { index.new ≡ with_root index.old root.0 }
{
    write_word(index, 4, root.0);
}

// The header's number of records held.
pub fn set_held(index: &mut [u8], held: u16)
    requires { 16 ≤ length index.old }
    ensures { index.new ≡ with_held index.old held }
{
    write_word(index, 6, held);
}

// The header of a table of `pages` pages of `e` entries.
pub fn write_header(index: &mut [u8], width: u8, e: u8, pages: u16, root: PageNo, held: u16)
    requires { 16 ≤ length index.old }
    ensures { index.new ≡ over index.old 0 (header_bytes width e pages root.0 held) }
{
    index[0] = width;
    index[1] = e;
    write_word(index, 2, pages);
    write_word(index, 4, root.0);
    write_word(index, 6, held);
    clear(index, 8, 8);
}

// An entry, whose pointer fits its two bytes.
pub fn write_entry(index: &mut [u8], at: usize, d: u8, p: u32)
    requires { (at + 3 ≤ length index.old) × (p < 65536) }
    ensures { index.new ≡ over index.old at (ref_bytes 2 (d, p)) }
{
    let [high, low] = (p as u16).to_be_bytes();
    index[at..at + 3].copy_from_slice(&[d, high, low]);
}

// n zeros. `fill` keeps its value for the last byte, so the compiler writes that by a store of its own: 13 instructions more a call.
pub fn clear(index: &mut [u8], at: usize, n: usize)
    requires { at + n ≤ length index.old }
    ensures { index.new ≡ over index.old at (replicate n 0) }
{
    index[at..at + n].fill_with(|| 0);
}

// The entries of a row from one place up to another, one behind the other.
fn write_row(index: &mut [u8], at: usize, row: Row, from: usize, to: usize)
    requires { (at + 3 * (to - from) ≤ length index.old) × (from ≤ to) × (to ≤ 319) × Fitting 2 (part_of row from to) }
    ensures { index.new ≡ over index.old at (row_bytes 2 (part_of row from to)) }
{
    let mut next = at;
    for i in from..to {
        write_entry(index, next, row.depths[i], row.pointers[i]);
        next += 3;
    }
}

// The page of a level with the entries of a row from one place up to another; its unused entries are zero.
pub fn store_page(
    index: &mut [u8],
    e: u8,
    page: PageNo,
    level: u8,
    row: Row,
    from: usize,
    to: usize,
)
    requires { Storable e index.old page.0 row from to }
    ensures { index.new ≡ store (layout_of e) index.old page.0 (row_page e level (part_of row from to)) }
{
    let at = page_start(e, page);
    let n = to - from;
    index[at] = level;
    index[at + 1] = n as u8;
    write_row(index, at + 2, row, from, to);
    clear(index, at + 2 + 3 * n, 3 * (usize::from(e) - n));
}

// The page is free: all its bytes are zero.
pub fn free_page(index: &mut [u8], e: u8, page: PageNo)
    requires { Within (layout_of e) index.old page.0 }
    ensures { index.new ≡ store (layout_of e) index.old page.0 (replicate (page_size (layout_of e)) 0) }
{
    let at = page_start(e, page);
    clear(index, at, 2 + 3 * usize::from(e));
}

// A page with no entries, where not all are in use. The number behind the last page is never given: with `unreachable!()` in its place the search
// multiplies on each turn, and takes eight instructions a page for six.
pub fn find_free(index: &[u8], e: u8, pages: u16) -> PageNo
    requires { (page_start (layout_of e) pages ≤ length index.now) × (used_pages pages (pages_at (layout_of e) index.now) < pages) }
    ensures { (result.0 < pages) × (length (pages_at (layout_of e) index.now result.0) ≡ 0) }
{
    for i in 0..pages {
        if count(index, e, PageNo(i)) == 0 {
            return PageNo(i);
        }
    }
    PageNo(pages)
}
