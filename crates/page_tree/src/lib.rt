// Pages as rows: the row that is changed and cut, and what deletion asks of the entry before.
#![tactic(auto)]

ghost use Rattle.std.specs.Prelude.{◌≡◌, [], ◌∷◌, ◌++◌, ◌+◌, ◌-◌, ◌≤◌, ◌<◌, get_or, set};
ghost use Rattle.page_tree.specs.Rows.{LastBelow};
ghost use Rattle.page_tree.specs.Row.{depth_of, row_of, part_of, Holds, SplitPost, CutPre, CutPost, CutsPost};

// What deletion asks of the entry before, on its way back to the left: nothing; to take a depth;
// to go where it is a dummy deeper than a depth.
#[derive(Clone, Copy, Debug, PartialEq, Eq)]
pub enum Unwind {
    Idle,
    Give(u8),
    Clear(u8),
}

// An entry: its depth and its pointer.
#[derive(Clone, Copy, Debug, PartialEq, Eq)]
pub struct Entry {
    pub depth: u8,
    pub pointer: u32,
}

// A row of entries: entry i, below count, has the depth depths[i] and the pointer pointers[i]. 01 names this form: "A struct by value with arrays of 319
// depths and 319 pointers and a count, passed through insertion and cutting".
#[derive(Clone, Copy)]
pub struct Row {
    pub depths: [u8; 319],
    pub pointers: [u32; 319],
    pub count: usize,
}

// Where a row is cut: past the last entry of each part, in order; the first count places are in use. It is a struct, which is copied as a row is, where an
// `ArrayVec` is not.
#[derive(Clone, Copy)]
pub struct Cuts {
    pub ends: [usize; 65],
    pub count: usize,
}

impl Row {
    // No entry.
    pub fn new() -> Row
        ensures { Holds result 0 [] }
    {
        Row {
            depths: [0u8; 319],
            pointers: [0u32; 319],
            count: 0,
        }
    }

    // One entry more, behind the others.
    pub fn push(self, d: u8, p: u32) -> Row
        requires { self.count < 319 }
        ensures { Holds result (self.count + 1) (row_of self ++ (d, p) ∷ []) }
    {
        let mut r = self;
        let n = r.count;
        r.depths[n] = d;
        r.pointers[n] = p;
        r.count = n + 1;
        r
    }

    // The depth of entry i.
    pub fn depth(self, i: usize) -> u8
        requires { (i < self.count) × (self.count ≤ 319) }
        ensures { result ≡ depth_of (get_or (row_of self) i (0, 0)) }
    {
        self.depths[i]
    }

    // The pointer of entry i.
    pub fn pointer(self, i: usize) -> u32
        requires { (i < self.count) × (self.count ≤ 319) }
        ensures { result ≡ (get_or (row_of self) i (0, 0)).1 }
    {
        self.pointers[i]
    }

    // Another entry in the place of entry i.
    pub fn replace(self, i: usize, d: u8, p: u32) -> Row
        requires { (i < self.count) × (self.count ≤ 319) }
        ensures { Holds result self.count (set (row_of self) i (d, p)) }
    {
        let mut r = self;
        r.depths[i] = d;
        r.pointers[i] = p;
        r
    }

    // The entries of another row from one place up to another, behind the others.
    pub fn append(self, other: Row, from: usize, to: usize) -> Row
        requires { (from ≤ to) × (to ≤ 319) × (self.count + (to - from) ≤ 319) }
        ensures { Holds result (self.count + (to - from)) (row_of self ++ part_of other from to) }
    {
        let mut r = self;
        let mut k = r.count;
        for i in from..to {
            r.depths[k] = other.depths[i];
            r.pointers[k] = other.pointers[i];
            k += 1;
        }
        r.count = k;
        r
    }

    // The ends of the parts in which the row, whose last depth is below all others, stands in pages of at most e entries.
    pub fn cuts(self, e: u8) -> Cuts
        requires { (2 ≤ e) × (1 ≤ self.count) × (self.count ≤ e + 64) × LastBelow depth_of (row_of self) }
        ensures { CutsPost e self result }
    {
        let mut cuts = Cuts {
            ends: [0; 65],
            count: 0,
        };
        cut_part(self, e, 0, self.count, &mut cuts);
        cuts
    }
}

// Where a row is cut, counted from its first entry, and how many entries of the part the search tried.
#[derive(Clone, Copy, Debug, PartialEq, Eq)]
pub struct Cut {
    pub at: usize,
    pub tried: usize,
}

// Finds where the entries from one place up to another are cut, and how many the search tried: it stops past the first whose depth is one above the
// last one's; where none is met, the cut is past the first shallowest, the last left out of the choice. One comparison passes an entry: from the limit
// on, a depth is no shallower than the least so far, and deeper than the one that stops the search.
pub fn split_at(row: Row, from: usize, to: usize) -> Cut
    requires { (from + 2 ≤ to) × (to ≤ 319) }
    ensures { SplitPost row.depths from to result }
{
    let end = to - 1;
    let stop = usize::from(row.depths[end]) + 1;
    let mut at = from + 1;
    let mut least = usize::from(row.depths[from]);
    let mut limit = least.max(stop + 1);
    for i in from..end {
        let d = usize::from(row.depths[i]);
        let next = i + 1;
        if d < limit {
            if d == stop {
                return Cut {
                    at: next,
                    tried: next - from,
                };
            }
            if d < least {
                at = next;
                least = d;
                limit = d.max(stop + 1);
            }
        }
    }
    Cut {
        at,
        tried: end - from,
    }
}

// Puts the ends of the parts of the entries from one place up to another behind the ends before.
fn cut_part(row: Row, e: u8, from: usize, to: usize, cuts: &mut Cuts)
    requires { CutPre e row.depths from to cuts.old }
    ensures { CutPost e row.depths from to cuts.old cuts.new }
{
    if to - from <= usize::from(e) {
        cuts.ends[cuts.count] = to;
        cuts.count += 1;
        return;
    }
    let m = split_at(row, from, to).at;
    cut_part(row, e, from, m, cuts);
    cut_part(row, e, m, to, cuts);
}
