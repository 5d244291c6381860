// The index table's header.
ghost use Rattle.std.specs.Prelude.{◌≡◌, ◌+◌, ◌*◌, ◌≤◌, length};
ghost use Rattle.index_table.specs.Header.{width_of};
ghost use Rattle.index_table.specs.IndexNumbers.{IndexOf};

use crate::layout::PageNo;

// The numbers of a header.
#[derive(Clone, Copy, Debug, PartialEq, Eq)]
pub struct Index {
    pub width: u8,
    pub entries: u8,
    pub pages: u16,
    pub root: PageNo,
    pub held: u16,
}

impl Index {
    pub const MAX_WIDTH: u64 = 64;

    pub const MAX_ENTRIES: u64 = 255;

    pub const MAX_PAGES: u64 = 65534;

    pub const MAX_RECORDS: usize = 65534;

    pub const MAX_LEVEL: u8 = 15;
}

// The width of the keys.
pub fn width(index: &[u8]) -> u64
    requires { 16 ≤ length index.now }
    ensures { (result ≡ width_of index.now) × (result ≤ 255) }
{
    u64::from(index[0])
}

// The header's numbers.
pub fn read(index: &[u8]) -> Index
    requires { 16 ≤ length index.now }
    ensures { IndexOf index.now result }
{
    Index {
        width: index[0],
        entries: index[1],
        pages: u16::from_be_bytes([index[2], index[3]]),
        root: PageNo(u16::from_be_bytes([index[4], index[5]])),
        held: u16::from_be_bytes([index[6], index[7]]),
    }
}
