// The dry run of an insertion: how high the root will stand and how many pages are needed, before any byte changes.
#![tactic(auto)]

ghost use Rattle.std.specs.Prelude.{◌≡◌, ◌+◌, ◌≤◌, length};
ghost use Rattle.page_tree.specs.Rows.{LastBelow};
ghost use Rattle.page_tree.specs.Row.{depth_of, row_of};
ghost use Rattle.index_table.specs.Layout.{layout_of, page_start};
ghost use Rattle.index_table.specs.Pages.{pages_at, used_pages};
ghost use Rattle.index_write.specs.Storing.{spliced_at};
ghost use Rattle.table_plan.specs.Plans.{LastDepths, PartsPre, PartsPost, PlanPre, PlanPost};
ghost use Rattle.table_plan.specs.Outcomes.{RootsPre, RootsPost, OutcomePre, OutcomePost};

use index_table::layout::{PageNo, child, count, depth};
use index_write::rows::splice_page;
use page_tree::Row;
use table_search::{next_position, seek};

// What will stand in the place of a page: the depths of its parts in their parent (pointers 0), and how many pages more that takes.
#[derive(Clone, Copy)]
pub struct Plan {
    pub row: Row,
    pub fresh: usize,
}

// What an insertion will leave: the level of the root, and how many pages more are in use.
#[derive(Clone, Copy, Debug, PartialEq, Eq)]
pub struct Outcome {
    pub level: usize,
    pub fresh: usize,
}

// The last depth of each part in which a row stands in pages of at most e entries.
fn last_depths(row: Row, e: u8) -> Row
    requires { (2 ≤ e) × (1 ≤ row.count) × (row.count ≤ e + 64) × LastBelow depth_of (row_of row) }
    ensures { LastDepths e row result }
{
    let cuts = row.cuts(e);
    let mut r = Row::new();
    for &to in &cuts.ends[..cuts.count] {
        let k = r.count;
        r.depths[k] = row.depths[to - 1];
        r.pointers[k] = 0;
        r.count = k + 1;
    }
    r
}

// The parts of a page with those of a row in the place of entry `at`, whose pages take `below` pages more. Where all stand in one page, that
// page keeps its last depth, and no row is made.
fn plan_parts(index: &[u8], e: u8, page: PageNo, at: usize, parts: Row, below: usize) -> Plan
    requires { PartsPre index.now e page.0 at parts below }
    ensures { PartsPost e (spliced_at at (row_of parts) (pages_at (layout_of e) index.now page.0)) below result }
{
    let n = usize::from(count(index, e, page));
    if n + parts.count <= usize::from(e) + 1 {
        let d = depth(index, e, page, n - 1);
        return Plan {
            row: Row::new().push(d, 0),
            fresh: below,
        };
    }
    let row = last_depths(splice_page(index, e, page, at, parts), e);
    Plan {
        row,
        fresh: below + (row.count - 1),
    }
}

// What the new entries make of a page of a level, with all below it: figure 6 finds the entry that they replace, as in a search.
pub fn plan_page(
    index: &[u8],
    e: u8,
    pages: u16,
    level: u8,
    page: PageNo,
    w: u64,
    key: u64,
    position: u64,
    trail: u64,
    news: Row,
) -> Plan
    requires { PlanPre index.now e pages level page.0 w key position trail news }
    ensures { PlanPost index.now e level page.0 w key position trail news result }
{
    let s = seek(index, e, page, w, key, position, trail);
    let at = s.at;
    if level == 0 {
        return plan_parts(index, e, page, at, news, 0);
    }
    let below = child(index, e, page, at);
    let part = plan_page(
        index,
        e,
        pages,
        level - 1,
        below,
        w,
        key,
        s.position,
        s.trail,
        news,
    );
    plan_parts(index, e, page, at, part.row, part.fresh)
}

// The new roots above the parts of a root: one part is the root, and more stand in the parts of a row one level up.
pub fn plan_roots(e: u8, level: usize, parts: Row) -> Outcome
    requires { RootsPre e level parts }
    ensures { RootsPost e level parts result }
{
    if parts.count <= 1 {
        return Outcome { level, fresh: 0 };
    }
    let up = last_depths(parts, e);
    let above = plan_roots(e, level + 1, up);
    Outcome {
        level: above.level,
        fresh: up.count + above.fresh,
    }
}

// What the insertion of the new entries in the place of the entry found will leave.
pub fn plan_insertion(
    index: &[u8],
    e: u8,
    pages: u16,
    level: u8,
    root: PageNo,
    w: u64,
    key: u64,
    news: Row,
) -> Outcome
    requires { OutcomePre index.now e pages level root.0 w key news }
    ensures { OutcomePost index.now e level root.0 w key news result }
{
    let position = next_position(w, key, 0);
    let part = plan_page(index, e, pages, level, root, w, key, position, 0, news);
    let above = plan_roots(e, usize::from(level), part.row);
    Outcome {
        level: above.level,
        fresh: part.fresh + above.fresh,
    }
}

// How many of the first pages are in use.
pub fn pages_in_use(index: &[u8], e: u8, pages: u16) -> usize
    requires { page_start (layout_of e) pages ≤ length index.now }
    ensures { result ≡ used_pages pages (pages_at (layout_of e) index.now) }
{
    let mut used = 0;
    for i in 0..pages {
        if count(index, e, PageNo(i)) != 0 {
            used += 1;
        }
    }
    used
}
