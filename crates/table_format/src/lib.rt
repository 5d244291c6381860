// Format: tables for an empty herd.
#![tactic(auto)]

ghost use Rattle.std.specs.Prelude.{◌≡◌, true, ◌↔◌};
ghost use Rattle.index_table.specs.Refusals.{answer_number};
ghost use Rattle.index_table.specs.Soundness.{Limits};
ghost use Rattle.table_find.specs.Answers.{plain};
ghost use Rattle.table_format.specs.Format.{format_fits, empty_table, FormatDoes, EmptyPre};

use index_table::header::Index;
use index_table::layout::PageNo;
use index_table::refusal::Refusal;

// Whether W, E, P and the number of records are inside their limits.
fn limits_hold(w: u64, e: u64, p: u64, records: usize) -> bool
    ensures { (result ≡ true) ↔ Limits w e p records }
{
    (1..=Index::MAX_WIDTH).contains(&w)
        && (2..=Index::MAX_ENTRIES).contains(&e)
        && (1..=Index::MAX_PAGES).contains(&p)
        && (1..=Index::MAX_RECORDS).contains(&records)
}

// Whether the widths, counts and lengths are within their limits.
fn format_fits(w: u64, e: u64, p: u64, table: usize, keys: usize, used: usize) -> bool
    ensures { result ≡ format_fits w e p table keys used }
{
    keys == used
        && limits_hold(w, e, p, used)
        && table == index_table::layout::table_bytes(e as u8, p as u16)
}

// A table of `p` pages for an empty herd: all zero but the header and the entry (0, NIL) in page 0.
fn make_empty(index: &mut [u8], w: u8, e: u8, p: u16)
    requires { EmptyPre e p index.old }
    ensures { index.new ≡ empty_table w e p }
{
    index.fill(0);
    index_write::write::write_header(index, w, e, p, PageNo(0), 0);
    index[16] = 0;
    index[17] = 1;
    index_write::write::write_entry(index, 18, 0, 65535);
}

// The tables for an empty herd of keys of w bits, in p pages of e entries.
pub fn format(
    index: &mut [u8],
    keys: &mut [u64],
    used: &mut [u8],
    w: u64,
    e: u64,
    p: u64,
) -> Result<(), Refusal>
    ensures { FormatDoes w e p index.old keys.old used.old index.new keys.new used.new (plain (answer_number result)) }
{
    if !format_fits(w, e, p, index.len(), keys.len(), used.len()) {
        return Err(Refusal::OutsideLimits);
    }
    make_empty(index, w as u8, e as u8, p as u16);
    keys.fill(0);
    used.fill(0);
    Ok(())
}
