// The whole tree, from the root.
ghost use Rattle.std.specs.Prelude.{◌≡◌, true, ◌↔◌, ℕ, ◌≤◌, length, get_or};
ghost use Rattle.index_table.specs.Layout.{layout_of, Within};
ghost use Rattle.bytes_check.specs.Scans.{rows_of};
ghost use Rattle.leaf_check.specs.DepthTable.{DepthMasks};
ghost use Rattle.table_check.specs.Trees.{TreePre, TreeSound, PagesSound};

use index_table::header::Index;
use leaf_check::entries::Scan;

// Whether the root may stand on this level: at most the highest, and above level 0 with two entries or more.
fn root_fits(index: &[u8], h: Index, level: u8) -> bool
    requires { Within (layout_of h.entries) index.now h.root.0 }
    ensures { (result ≡ true) ↔ ((level ≤ 15) × (1 ≤ level → 2 ≤ length (rows_of h index.now h.root.0))) }
{
    level <= Index::MAX_LEVEL
        && (level == 0 || index_table::layout::count(index, h.entries, h.root) >= 2)
}

// The tree below the root, marked in the map, and then every page against its mark.
fn tree_marked(
    index: &[u8],
    keys: &[u64],
    used: &[u8],
    masks: &[u64],
    map: &mut [u8],
    h: Index,
    level: u8,
) -> bool
    requires { TreePre h index.now keys.now used.now × (h.pages ≤ length map.old) × ((q : ℕ) → get_or map.old q 0 ≡ 0) × DepthMasks h.width masks.now }
    ensures { (result ≡ true) ↔ TreeSound h index.now keys.now used.now level }
{
    let start = Scan {
        disc: 0,
        trail: 0,
        dummy: false,
        live: 0,
        closed: false,
    };
    let end = crate::pages::page_ok(
        &index, &keys, &used, &masks, map, h, level, h.root, 0, start,
    );
    if end.faults != 0 || !end.scan.closed || end.scan.live != u64::from(h.held) {
        return false;
    }
    bytes_check::cleared::all_cleared(index, map, h)
}

// The same, with a map of its own for at most so many pages.
fn tree_sound_within<const PAGES: usize>(
    index: &[u8],
    keys: &[u64],
    used: &[u8],
    masks: &[u64],
    h: Index,
    level: u8,
) -> bool
    requires { TreePre h index.now keys.now used.now × (h.pages ≤ PAGES) × (PAGES ≤ 65536) × DepthMasks h.width masks.now }
    ensures { (result ≡ true) ↔ TreeSound h index.now keys.now used.now level }
{
    let mut map = [0u8; PAGES];
    tree_marked(index, keys, used, masks, &mut map, h, level)
}

// The tree below the root, with the bits behind each depth; a map of 65,536 bytes takes longer to clear than a small tree to check.
fn tree_sound(index: &[u8], keys: &[u64], used: &[u8], h: Index, level: u8) -> bool
    requires { TreePre h index.now keys.now used.now }
    ensures { (result ≡ true) ↔ TreeSound h index.now keys.now used.now level }
{
    let mut masks = [u64::MAX; 256];
    leaf_check::masks::set_masks(u64::from(h.width), &mut masks);
    if h.pages <= 1024 {
        tree_sound_within::<1024>(index, keys, used, &masks, h, level)
    } else {
        tree_sound_within::<65536>(index, keys, used, &masks, h, level)
    }
}

// Whether the pages are sound, and the entries on level 0 pass.
pub fn pages_sound(index: &[u8], keys: &[u64], used: &[u8], h: Index) -> bool
    requires { TreePre h index.now keys.now used.now }
    ensures { (result ≡ true) ↔ PagesSound h index.now keys.now used.now }
{
    let root = h.root;
    if root.0 >= h.pages {
        return false;
    }
    let level = index_table::layout::level(index, h.entries, root);
    root_fits(index, h, level) && tree_sound(index, keys, used, h, level)
}
