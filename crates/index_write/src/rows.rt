// Pages of the index table as rows.
ghost use Rattle.std.specs.Prelude.{◌++◌, suc, ◌+◌, ◌-◌, ◌≤◌, length};
ghost use Rattle.std.proofs.Math.Seq.{slice};
ghost use Rattle.page_tree.specs.Row.{row_of, Holds};
ghost use Rattle.index_table.specs.Layout.{Within, layout_of};
ghost use Rattle.index_table.specs.Pages.{pages_at};
ghost use Rattle.index_write.specs.Storing.{Loadable, Spliceable, spliced_at};

use index_table::layout::{PageNo, count, depth, pointer};
use page_tree::Row;

// The entries of a page from one place up to another, behind those of a row.
pub fn append_page(row: Row, index: &[u8], e: u8, page: PageNo, from: usize, to: usize) -> Row
    requires { Loadable e index.now page.0 row from to }
    ensures { Holds result (row.count + (to - from)) (row_of row ++ slice from to (pages_at (layout_of e) index.now page.0)) }
{
    let mut r = row;
    let mut k = r.count;
    for i in from..to {
        r.depths[k] = depth(index, e, page, i);
        r.pointers[k] = pointer(index, e, page, i);
        k += 1;
    }
    r.count = k;
    r
}

// The entries of a page.
pub fn load_page(index: &[u8], e: u8, page: PageNo) -> Row
    requires { Within (layout_of e) index.now page.0 × (length (pages_at (layout_of e) index.now page.0) ≤ e) }
    ensures { Holds result (length (pages_at (layout_of e) index.now page.0)) (pages_at (layout_of e) index.now page.0) }
{
    let n = usize::from(count(index, e, page));
    append_page(Row::new(), index, e, page, 0, n)
}

// The entries of a page with those of a row in the place of entry `at`.
pub fn splice_page(index: &[u8], e: u8, page: PageNo, at: usize, parts: Row) -> Row
    requires { Spliceable e index.now page.0 at parts }
    ensures { Holds result (at + parts.count + (length (pages_at (layout_of e) index.now page.0) - suc at)) (spliced_at at (row_of parts) (pages_at (layout_of e) index.now page.0)) }
{
    let n = usize::from(count(index, e, page));
    let first = append_page(Row::new(), index, e, page, 0, at);
    let more = first.append(parts, 0, parts.count);
    append_page(more, index, e, page, at + 1, n)
}
