// Unused entries and free pages, all zero.
ghost use Rattle.std.specs.Prelude.{◌≡◌, ℕ, ◌<◌, ◌≤◌, true, ◌↔◌, length, slice_index};
ghost use Rattle.index_table.specs.Layout.{layout_of, page_start, Within};
ghost use Rattle.bytes_check.specs.Scans.{PageCleared, rows_of};

use index_table::header::Index;
use index_table::layout::PageNo;

// Whether a page is in use exactly if it is marked, and is zero behind its entries, or all of it if it is free.
fn page_cleared(index: &[u8], h: Index, page: PageNo, mark: u8) -> bool
    requires { Within (layout_of h.entries) index.now page.0 × (mark ≤ 1) × (mark ≡ 1 → length (rows_of h index.now page.0) ≤ h.entries) }
    ensures { (result ≡ true) ↔ PageCleared h index.now page.0 mark }
{
    let at = index_table::layout::page_start(h.entries, page);
    let end = at + (2 + 3 * usize::from(h.entries));
    let n = index_table::layout::count(index, h.entries, page);
    if n == 0 {
        return mark == 0 && crate::zeros::all_zero(index, at, end);
    }
    mark != 0 && crate::zeros::all_zero(index, at + (2 + 3 * usize::from(n)), end)
}

// Whether every page is so.
pub fn all_cleared(index: &[u8], map: &[u8], h: Index) -> bool
    requires { (page_start (layout_of h.entries) h.pages ≤ length index.now) × (h.pages ≤ length map.now) × ((q : ℕ) → slice_index map.now q ≤ 1) × ((q : ℕ) → slice_index map.now q ≡ 1 → length (rows_of h index.now q) ≤ h.entries) }
    ensures { (result ≡ true) ↔ ((q : ℕ) → q < h.pages → PageCleared h index.now q (slice_index map.now q)) }
{
    for page in 0..h.pages {
        if !page_cleared(index, h, PageNo(page), map[usize::from(page)]) {
            return false;
        }
    }
    true
}
