// Figure 11 where the entry found becomes a dummy in its place, whatever page the next entry stands in.
ghost use Rattle.std.specs.Prelude.{suc};
ghost use Rattle.table_delete.specs.Blanking.{BlankPre, BlankPost};

use index_table::layout::{PageNo, child, depth};
use page_delete::blank_entry;
use table_search::seek;
use tree_delete::removal::after;

// Down from a page of a level, whose last depth is d, to the entry found, which becomes a dummy where figure 11 leaves it one; whether it does.
// The depth and the page stand for an entry: an `Entry` is no plainer, since its pointer would be made a page's number on each level.
pub fn blank(
    index: &mut [u8],
    e: u8,
    pages: u16,
    level: u8,
    d: u8,
    page: PageNo,
    w: u64,
    key: u64,
    position: u64,
    trail: u64,
    next: u8,
) -> bool
    requires { BlankPre e pages (suc level) index.old (d, page.0) w key position }
    ensures { BlankPost e pages (suc level) index.old (d, page.0) w key position trail next index.new result }
{
    let s = seek(index, e, page, w, key, position, trail);
    let at = s.at;
    let follows = after(index, e, pages, level, page, at + 1, next);
    let c = depth(index, e, page, at);
    if level == 0 {
        return blank_entry(index, e, page, at, c, s.trail, follows);
    }
    let below = child(index, e, page, at);
    blank(
        index,
        e,
        pages,
        level - 1,
        c,
        below,
        w,
        key,
        s.position,
        s.trail,
        follows,
    )
}
