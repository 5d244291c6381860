// Deletion in the pages of a sound tree: within a page where that is enough, else across pages; then pages are merged, and the root rule comes last.
#![tactic(auto)]

ghost use Rattle.std.specs.Prelude.{◌≡◌};
ghost use Rattle.index_table.specs.Layout.{Within, layout_of};
ghost use Rattle.index_table.specs.Pages.{pages_at};
ghost use Rattle.table_delete.specs.Taking.{lowest_level, LowerPre, LowerPost, FinishPre, FinishPost, TakePre, TakeAtPre, TakePost};

pub mod blank;

use crate::blank::blank;
use index_table::layout::{PageNo, Root, child, count};
use index_write::write::free_page;
use page_delete::strike_near;
use page_tree::Entry;
use table_search::{Leaf, next_position, sparse};
use tree_delete::removal::remove;
use tree_merge::merge;

// The root rule: a root above level 0 with one entry is freed, and its child is the root.
fn lower(index: &mut [u8], e: u8, pages: u16, level: u8, page: PageNo) -> Root
    requires { LowerPre e pages level index.old page.0 }
    ensures { LowerPost e pages level index.old page.0 index.new result }
{
    if level == 0 || count(index, e, page) != 1 {
        return Root { page, level };
    }
    let below = child(index, e, page, 0);
    free_page(index, e, page);
    lower(index, e, pages, level - 1, below)
}

// Returns the lowest level whose pages may have a page below them to join, once the page of the leaf has changed alone: the page itself may be sparse now,
// and the search has told whether the one above it is.
fn lowest_level(index: &[u8], e: u8, leaf: Leaf) -> u8
    requires { Within (layout_of e) index.now leaf.page.0 }
    ensures { result ≡ lowest_level e (pages_at (layout_of e) index.now) leaf }
{
    if sparse(index, e, leaf.page) {
        1
    } else if leaf.thin {
        2
    } else {
        3
    }
}

// Ends an off: merges pages along the way of the key, from a lowest level up, applies the root rule, and returns the root that is left.
fn finish(
    index: &mut [u8],
    e: u8,
    pages: u16,
    level: u8,
    page: PageNo,
    w: u64,
    key: u64,
    lowest: u8,
) -> Root
    requires { FinishPre e pages level index.old page.0 w key lowest }
    ensures { FinishPost e pages level index.old page.0 w key index.new result }
{
    let position = next_position(w, key, 0);
    merge(index, e, pages, level, 0, page, w, key, position, lowest);
    lower(index, e, pages, level, page)
}

// Takes the entry that figure 6 finds for a key out of the tree below a root, merges pages, and returns the root that is left.
pub fn take_out(
    index: &mut [u8],
    e: u8,
    pages: u16,
    level: u8,
    root: PageNo,
    w: u64,
    key: u64,
) -> Root
    requires { TakePre index.old e pages level root.0 w key }
    ensures { TakePost index.old e pages level root.0 w key index.new result }
{
    let position = next_position(w, key, 0);
    let entry = Entry {
        depth: 0,
        pointer: u32::from(root),
    };
    let x = remove(index, e, pages, level + 1, entry, w, key, position, 0, 0);
    let page = PageNo::from_pointer(x.left.unwrap().pointer);
    finish(index, e, pages, level, page, w, key, 1)
}

// Does the same where the way to the entry is known: within its page where that page alone changes.
pub fn take_out_at(
    index: &mut [u8],
    e: u8,
    pages: u16,
    level: u8,
    root: PageNo,
    w: u64,
    key: u64,
    leaf: Leaf,
) -> Root
    requires { TakeAtPre index.old e pages level root.0 w key leaf }
    ensures { TakePost index.old e pages level root.0 w key index.new result }
{
    if strike_near(index, e, leaf.page, leaf.at, leaf.trail, leaf.before) {
        let lowest = lowest_level(index, e, leaf);
        if level < lowest {
            return Root { page: root, level };
        }
        return finish(index, e, pages, level, root, w, key, lowest);
    }
    let position = next_position(w, key, 0);
    if blank(index, e, pages, level, 0, root, w, key, position, 0, 0) {
        return finish(index, e, pages, level, root, w, key, 1);
    }
    take_out(index, e, pages, level, root, w, key)
}
