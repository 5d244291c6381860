// Pages in the index table's bytes.
ghost use Rattle.std.specs.Prelude.{◌≡◌, ◌+◌, ◌*◌, ◌<◌, ◌≤◌};
ghost use Rattle.index_table.specs.Layout.{Within, layout_of, page_start, page_bytes, level_of, count_of, ref_at};
ghost use Rattle.index_table.specs.Answers.{answer_of};

// A page's number, made from a pointer above level 0.
#[derive(Clone, Copy, Debug, PartialEq, Eq)]
pub struct PageNo(pub u16);

impl PageNo {
    // The page that a pointer above level 0 means.
    pub fn from_pointer(pointer: u32) -> PageNo
        requires { pointer < 65536 }
        ensures { result.0 ≡ pointer }
    {
        PageNo(pointer as u16)
    }
}

// A page's number as a pointer to it.
impl From<PageNo> for u32 {
    ghost from_gives = { λ page pointer. (pointer ≡ page.0) × (pointer < 65536) };

    fn from(page: PageNo) -> u32 {
        u32::from(page.0)
    }
}

// A record's number, made from a pointer on level 0.
#[derive(Clone, Copy, Debug, PartialEq, Eq)]
pub struct RecordNo(pub u32);

// A root page and its level.
#[derive(Clone, Copy, Debug, PartialEq, Eq)]
pub struct Root {
    pub page: PageNo,
    pub level: u8,
}

// What an entry on level 0 points at. An enum of its own, and no Option: 01 names this form.
#[derive(Clone, Copy, Debug, PartialEq, Eq)]
pub enum Answer {
    Live(RecordNo),
    Dummy,
}

// How many bytes the header and `pages` pages of `e` entries take.
pub fn table_bytes(e: u8, pages: u16) -> usize
    ensures { result ≡ page_start (layout_of e) pages }
{
    16 + usize::from(pages) * (2 + 3 * usize::from(e))
}

// Where a page starts.
pub fn page_start(e: u8, page: PageNo) -> usize
    ensures { result ≡ page_start (layout_of e) page.0 }
{
    table_bytes(e, page.0)
}

pub fn level(index: &[u8], e: u8, page: PageNo) -> u8
    requires { Within (layout_of e) index.now page.0 }
    ensures { result ≡ level_of (page_bytes (layout_of e) index.now page.0) }
{
    let at = page_start(e, page);
    index[at]
}

pub fn count(index: &[u8], e: u8, page: PageNo) -> u8
    requires { Within (layout_of e) index.now page.0 }
    ensures { result ≡ count_of (page_bytes (layout_of e) index.now page.0) }
{
    let at = page_start(e, page);
    index[at + 1]
}

// The depth of entry i.
pub fn depth(index: &[u8], e: u8, page: PageNo, i: usize) -> u8
    requires { Within (layout_of e) index.now page.0 × (i < e) }
    ensures { result ≡ (ref_at (layout_of e) (page_bytes (layout_of e) index.now page.0) i).0 }
{
    let at = page_start(e, page);
    index[at + (2 + 3 * i)]
}

// The pointer of entry i, as it is stored.
pub fn pointer(index: &[u8], e: u8, page: PageNo, i: usize) -> u32
    requires { Within (layout_of e) index.now page.0 × (i < e) }
    ensures { (result ≡ (ref_at (layout_of e) (page_bytes (layout_of e) index.now page.0) i).1) × (result ≤ 65535) }
{
    let at = page_start(e, page) + (2 + 3 * i);
    u32::from(u16::from_be_bytes([index[at + 1], index[at + 2]]))
}

// The page that entry i of a page above level 0 points at.
pub fn child(index: &[u8], e: u8, page: PageNo, i: usize) -> PageNo
    requires { Within (layout_of e) index.now page.0 × (i < e) }
    ensures { result.0 ≡ (ref_at (layout_of e) (page_bytes (layout_of e) index.now page.0) i).1 }
{
    PageNo::from_pointer(pointer(index, e, page, i))
}

// What a pointer on level 0 means.
pub fn answer_of(pointer: u32) -> Answer
    ensures { result ≡ answer_of pointer }
{
    if pointer == 65535 {
        return Answer::Dummy;
    }
    Answer::Live(RecordNo(pointer))
}

// The record that entry i of a page of level 0 points at.
pub fn record(index: &[u8], e: u8, page: PageNo, i: usize) -> Answer
    requires { Within (layout_of e) index.now page.0 × (i < e) }
    ensures { result ≡ answer_of (ref_at (layout_of e) (page_bytes (layout_of e) index.now page.0) i).1 }
{
    answer_of(pointer(index, e, page, i))
}
