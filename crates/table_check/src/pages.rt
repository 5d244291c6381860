// The pages from the root down, each met once.
ghost use Rattle.std.specs.Prelude.{◌≡◌, true, ◌↔◌, suc, ◌<◌, ◌≤◌, length};
ghost use Rattle.index_table.specs.Layout.{layout_of, page_start};
ghost use Rattle.index_table.specs.Soundness.{SizedPage};
ghost use Rattle.table_check.specs.Walks.{WalkPre, Entered, Walked};

use index_table::header::Index;
use index_table::layout::PageNo;
use leaf_check::entries::{Checked, Scan};

// Whether a page is among the pages, of this level, and has 1 to E entries.
fn sized(index: &[u8], h: Index, level: u8, page: PageNo) -> bool
    requires { page_start (layout_of h.entries) h.pages ≤ length index.now }
    ensures { (result ≡ true) ↔ SizedPage (layout_of h.entries) h.pages level index.now page.0 }
{
    page.0 < h.pages
        && index_table::layout::level(index, h.entries, page) == level
        && (1..=h.entries).contains(&index_table::layout::count(index, h.entries, page))
}

// A page is met: it must be of its level and size, and not met before.
fn enter(index: &[u8], map: &mut [u8], h: Index, level: u8, page: PageNo) -> bool
    requires { (page_start (layout_of h.entries) h.pages ≤ length index.now) × (h.pages ≤ length map.old) }
    ensures { Entered h index.now level page.0 map.old map.new result }
{
    let at = usize::from(page.0);
    if !sized(index, h, level, page) || map[at] != 0 {
        return false;
    }
    map[at] = 1;
    true
}

// A page that c closes, and all below it, behind what is carried: a page is sound if its children are. The slices stand behind references: handed on as
// they are, they would be copied for each page.
#[cycle(child_ok_page_ok)]
pub fn page_ok(
    index: &&[u8],
    keys: &&[u64],
    used: &&[u8],
    masks: &&[u64],
    map: &mut [u8],
    h: Index,
    level: u8,
    page: PageNo,
    c: u8,
    s: Scan,
) -> Checked
    requires { WalkPre h index.now.now keys.now.now used.now.now masks.now.now map.old s }
    ensures { Walked h index.now.now keys.now.now used.now.now (suc level) (c, page.0) map.old map.new s result }
{
    let table = *index;
    if !enter(table, map, h, level, page) {
        return Checked { faults: 1, scan: s };
    }
    if level == 0 {
        return leaf_check::leaves::scan_leaves(table, *keys, *used, *masks, h, page, c, s);
    }
    let n = usize::from(index_table::layout::count(table, h.entries, page));
    let mut scan = s;
    for i in 0..n {
        let d = index_table::layout::depth(table, h.entries, page, i);
        if !leaf_check::leaves::closes(c, d, i + 1 == n) {
            return Checked { faults: 1, scan };
        }
        let child = index_table::layout::child(table, h.entries, page, i);
        let next = child_ok(index, keys, used, masks, map, h, level, child, d, scan);
        if next.faults != 0 {
            return next;
        }
        scan = next.scan;
    }
    Checked { faults: 0, scan }
}

// A child is in order if it is a sound page one level lower.
#[cycle(child_ok_page_ok)]
fn child_ok(
    index: &&[u8],
    keys: &&[u64],
    used: &&[u8],
    masks: &&[u64],
    map: &mut [u8],
    h: Index,
    level: u8,
    page: PageNo,
    c: u8,
    s: Scan,
) -> Checked
    requires { WalkPre h index.now.now keys.now.now used.now.now masks.now.now map.old s × (0 < level) }
    ensures { Walked h index.now.now keys.now.now used.now.now level (c, page.0) map.old map.new s result }
{
    page_ok(index, keys, used, masks, map, h, level - 1, page, c, s)
}
