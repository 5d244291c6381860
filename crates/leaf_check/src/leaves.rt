// A page of level 0, its entries from left to right.
ghost use Rattle.std.specs.Prelude.{◌≡◌, [], if◌then◌else◌, ◌==◌, nat_lt};
ghost use Rattle.bytes_check.specs.Scans.{rows_of};
ghost use Rattle.leaf_check.specs.Leaves.{leaves_of_row, RowSound, LeavesPre, Scanned};

use crate::entries::{Checked, Scan};
use index_table::header::Index;
use index_table::layout::PageNo;

// Whether a depth fits its place in a row that c closes: the last is c, and all others are above it.
pub fn closes(c: u8, d: u8, last: bool) -> bool
    ensures { result ≡ (if last then (d == c) else nat_lt c d) }
{
    if last { d == c } else { c < d }
}

// The entries of a page of level 0, behind what is carried.
pub fn scan_leaves(
    index: &[u8],
    keys: &[u64],
    used: &[u8],
    masks: &[u64],
    h: Index,
    page: PageNo,
    c: u8,
    s: Scan,
) -> Checked
    requires { LeavesPre h index.now keys.now used.now masks.now page.0 s }
    ensures { Scanned (RowSound h index.now c 0 (rows_of h index.now page.0) []) h.width keys.now used.now h.held s (leaves_of_row 0 (rows_of h index.now) (rows_of h index.now page.0)) result }
{
    let w = u64::from(h.width);
    // No From, whose contract does not say that the number is below 65,536: the proof needs it.
    let held = h.held as u64;
    let close = u64::from(c);
    let n = usize::from(index_table::layout::count(index, h.entries, page));
    if n == 0 {
        return Checked { faults: 0, scan: s };
    }
    if s.closed {
        return Checked { faults: 1, scan: s };
    }
    let last = n - 1;
    let most = crate::passes::bits_behind(w, close);
    let mut pass = crate::passes::pass_start(w, close, s);
    let first = index_table::layout::pointer(index, h.entries, page, 0);
    if !crate::passes::record_told(used, pass.disc, pass.low, first) {
        return Checked { faults: 1, scan: s };
    }
    for i in 0..last {
        let d = index_table::layout::depth(index, h.entries, page, i);
        let p = index_table::layout::pointer(index, h.entries, page, i);
        let Some(next) = crate::passes::pass_entry(keys, most, pass, masks[usize::from(d)], p)
        else {
            return crate::passes::refused(pass);
        };
        pass = next;
    }
    let scan = crate::passes::scan_behind(index, h, page, most, s, last, pass);
    if held < scan.live {
        return Checked { faults: 1, scan };
    }
    let d = index_table::layout::depth(index, h.entries, page, last);
    if d != c {
        return Checked { faults: 1, scan };
    }
    let p = index_table::layout::pointer(index, h.entries, page, last);
    crate::entries::scan_entry(w, keys, used, held, scan, u64::from(d), p)
}
