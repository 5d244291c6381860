// New entries written into a page, or made a row.
ghost use Rattle.std.specs.Prelude.{◌≡◌, [], ◌++◌, map, ◌+◌, ◌*◌, ◌≤◌, length};
ghost use Rattle.leaf_list.specs.Keys.{bits};
ghost use Rattle.leaf_list.specs.Insertion.{dummies};
ghost use Rattle.leaf_list.specs.Search.{positions};
ghost use Rattle.page_tree.specs.Row.{row_of, Holds};
ghost use Rattle.byte_moves.specs.Over.{over};
ghost use Rattle.index_table.specs.Layout.{row_bytes};
ghost use Rattle.new_entries.specs.Entries.{count_in, DummiesPre, ref_of, refs_for, Newly};

use crate::dummy::Dummies;
use crate::entries::News;
use index_write::write::write_entry;
use page_tree::Row;

// A dummy for each one-bit of the key between low and high, from a place on; where the next entry goes.
fn write_dummies(index: &mut [u8], at: usize, w: u64, key: u64, low: u64, high: u64) -> usize
    requires { DummiesPre w key low high × (at + 3 * length (dummies low high (positions 0 (bits w key)) []) ≤ length index.old) }
    ensures { (index.new ≡ over index.old at (row_bytes 2 (map ref_of (dummies low high (positions 0 (bits w key)) [])))) × (result ≡ at + 3 * length (dummies low high (positions 0 (bits w key)) [])) }
{
    let mut next = at;
    for depth in Dummies::between(w, key, low, high) {
        write_entry(index, next, depth, 65535);
        next += 3;
    }
    next
}

// New entries, from a place on.
pub fn write_news(index: &mut [u8], at: usize, w: u64, key: u64, news: News)
    requires { Newly w key news × (at + 3 * count_in news ≤ length index.old) }
    ensures { index.new ≡ over index.old at (row_bytes 2 (refs_for w key news)) }
{
    match news {
        News::Alone(entry) => write_entry(index, at, entry.depth, entry.pointer),
        News::Beside {
            low,
            first,
            second,
            ..
        } => {
            let next = write_dummies(index, at, w, key, low, u64::from(first.depth));
            write_entry(index, next, first.depth, first.pointer);
            write_entry(index, next + 3, second.depth, second.pointer);
        }
    }
}

// A dummy for each one-bit of the key between low and high, behind the entries of a row.
fn push_dummies(row: Row, w: u64, key: u64, low: u64, high: u64) -> Row
    requires { DummiesPre w key low high × (row.count ≤ 100) }
    ensures { Holds result (row.count + length (dummies low high (positions 0 (bits w key)) [])) (row_of row ++ map ref_of (dummies low high (positions 0 (bits w key)) [])) × (result.count ≤ row.count + w) }
{
    let mut r = row;
    for depth in Dummies::between(w, key, low, high) {
        let n = r.count;
        r.depths[n] = depth;
        r.pointers[n] = 65535;
        r.count = n + 1;
    }
    r
}

// New entries as a row.
pub fn row_of(w: u64, key: u64, news: News) -> Row
    requires { Newly w key news }
    ensures { Holds result (count_in news) (refs_for w key news) }
{
    match news {
        News::Alone(entry) => Row::new().push(entry.depth, entry.pointer),
        News::Beside {
            low,
            first,
            second,
            ..
        } => {
            let row = push_dummies(Row::new(), w, key, low, u64::from(first.depth));
            row.push(first.depth, first.pointer)
                .push(second.depth, second.pointer)
        }
    }
}
