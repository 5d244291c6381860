// The header's numbers, within their limits, and the length of the table.
ghost use Rattle.std.specs.Prelude.{◌≡◌, ◌≤◌, true, ◌↔◌};
ghost use Rattle.index_table.specs.Soundness.{Limits};
ghost use Rattle.bytes_check.specs.Scans.{HeaderFits};

use index_table::header::Index;

// Whether the numbers of a header, and of records, are inside the limits.
fn limits_hold(h: Index, records: usize) -> bool
    ensures { (result ≡ true) ↔ Limits h.width h.entries h.pages records }
{
    (1..=Index::MAX_WIDTH).contains(&u64::from(h.width))
        && (2..=Index::MAX_ENTRIES).contains(&u64::from(h.entries))
        && (1..=Index::MAX_PAGES).contains(&u64::from(h.pages))
        && (1..=Index::MAX_RECORDS).contains(&records)
}

// Whether the header is in order, for a register of so many records, and the table as long as it says.
pub fn header_fits(index: &[u8], records: usize) -> bool
    ensures { (result ≡ true) ↔ HeaderFits index.now records }
{
    if index.len() < 16 {
        return false;
    }
    let h = index_table::header::read(index);
    limits_hold(h, records)
        && index.len() == index_table::layout::table_bytes(h.entries, h.pages)
        && crate::zeros::all_zero(index, 8, 16)
}
