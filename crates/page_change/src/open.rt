// Room made in a page for more entries, in the page's own bytes.
ghost use Rattle.page_change.specs.Opening.{Openable, Opened};

use byte_moves::move_up;
use index_table::layout::{PageNo, count, page_start};

// Room for c entries in the place of entry `at` of a page, counted as its own; where it starts.
pub fn open_page(index: &mut [u8], e: u8, page: PageNo, at: usize, c: usize) -> usize
    requires { Openable e index.old page.0 at c }
    ensures { Opened e index.old page.0 at c index.new result }
{
    let start = page_start(e, page);
    let n = usize::from(count(index, e, page));
    let place = start + (2 + 3 * at);
    move_up(index, place + 3, 3 * (n - at - 1), 3 * (c - 1));
    index[start + 1] = (n + c - 1) as u8;
    place
}
