// Rows that are shortened from the right, and the pages that they are stored in.
ghost use Rattle.std.specs.Prelude.{◌≡◌, ◌+◌, ◌-◌, ◌≤◌, ◌<◌};
ghost use Rattle.page_tree.specs.Row.{Holds};
ghost use Rattle.tree_delete.specs.Rows.{around, PutPost, SettlePre, SettlePost};

use index_table::layout::PageNo;
use index_write::write::{free_page, store_page};
use page_tree::{Entry, Row};

// Puts what is left of an entry before the entries from `at` on, and returns from where on the entries are done then.
pub fn put(row: &mut Row, at: usize, left: Option<Entry>) -> usize
    requires { (1 ≤ at) × (at ≤ row.old.count) × (row.old.count ≤ 319) }
    ensures { PutPost row.old at left row.new result }
{
    let Some(entry) = left else {
        return at;
    };
    let w = at - 1;
    row.depths[w] = entry.depth;
    row.pointers[w] = entry.pointer;
    w
}

// Leaves the entries before i and those from w on.
pub fn close(row: &mut Row, i: usize, w: usize)
    requires { (i ≤ w) × (w ≤ row.old.count) × (row.old.count ≤ 319) }
    ensures { Holds row.new (i + (row.old.count - w)) (around row.old i w) }
{
    let n = row.count;
    row.depths.copy_within(w..n, i);
    row.pointers.copy_within(w..n, i);
    row.count = i + (n - w);
}

// Stores the page's row, or frees the page where there is none, and returns the entry for its parent, if it stays.
pub fn settle(index: &mut [u8], e: u8, level: u8, page: PageNo, row: Row) -> Option<Entry>
    requires { SettlePre e index.old page.0 row }
    ensures { SettlePost e level index.old page.0 row index.new result }
{
    let n = row.count;
    if n == 0 {
        free_page(index, e, page);
        return None;
    }
    store_page(index, e, page, level, row, 0, n);
    Some(Entry {
        depth: row.depth(n - 1),
        pointer: u32::from(page),
    })
}
