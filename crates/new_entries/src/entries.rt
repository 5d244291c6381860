// What stands in the place of the entry found once a key is put in (section 5.1).
ghost use Rattle.std.specs.Prelude.{◌≡◌, [], ◌≤◌, ◌<◌, length};
ghost use Rattle.leaf_list.specs.Keys.{bits};
ghost use Rattle.leaf_list.specs.Insertion.{dummies};
ghost use Rattle.leaf_list.specs.Search.{positions};
ghost use Rattle.new_entries.specs.Entries.{count_in, DummiesPre, FoundPre, NewPre, NewPost, NewEntries};

use index_table::layout::{Answer, answer_of};
use page_tree::Entry;
use table_search::Leaf;

// The new entries.
#[derive(Clone, Copy, Debug, PartialEq, Eq)]
pub enum News {
    // The leaf of the new record.
    Alone(Entry),
    // A dummy for each one-bit p of the key with low < p < first.depth, then the leaves first and second: count entries.
    Beside {
        low: u64,
        first: Entry,
        second: Entry,
        count: usize,
    },
}

impl News {
    // Returns how many entries there are.
    pub fn count(self) -> usize
        ensures { result ≡ count_in self }
    {
        match self {
            News::Alone(_) => 1,
            News::Beside { count, .. } => count,
        }
    }
}

// How many one-bits p of the key there are with low < p < high.
fn count_dummies(w: u64, key: u64, low: u64, high: u64) -> usize
    requires { DummiesPre w key low high × (0 < high) × (high ≤ w) }
    ensures { (result ≡ length (dummies low high (positions 0 (bits w key)) [])) × (result ≤ w) }
{
    let behind = table_search::last_bits(w, key, low);
    (behind >> (w - high) >> 1).count_ones() as usize
}

// What stands for a leaf of another key, old: where they differ above the leaf's depth, no dummy and the new leaf second; else the leaf of the smaller
// key first.
fn beside_leaf(w: u64, key: u64, record: u32, old: u64, leaf: Leaf) -> News
    requires { NewPre w key «record» old leaf }
    ensures { NewPost w key «record» old leaf result }
{
    let b = leaf_list::first_difference(w, key, old);
    let l = leaf_list::leaf_depth(leaf.trail, leaf.depth);
    let (low, first, second) = if b < l {
        (b, leaf.pointer, record)
    } else if key < old {
        (l, record, leaf.pointer)
    } else {
        (l, leaf.pointer, record)
    };
    let n = count_dummies(w, key, low, b);
    News::Beside {
        low,
        first: Entry {
            depth: b as u8,
            pointer: first,
        },
        second: Entry {
            depth: leaf.depth as u8,
            pointer: second,
        },
        count: n + 2,
    }
}

// What stands for the entry found: a dummy takes the record.
pub fn new_entries(keys: &[u64], w: u64, key: u64, record: u32, leaf: Leaf) -> News
    requires { FoundPre keys.now w key «record» leaf }
    ensures { NewEntries keys.now w key «record» leaf result }
{
    let Answer::Live(other) = answer_of(leaf.pointer) else {
        return News::Alone(Entry {
            depth: leaf.depth as u8,
            pointer: record,
        });
    };
    let at = other.0 as usize;
    beside_leaf(w, key, record, keys[at], leaf)
}
