// The way back to the left, into the pages below each entry, until nothing is asked.
ghost use Rattle.tree_delete.specs.Unwinding.{BackPre, BackPost, SweepPre, SweepPost};

use crate::rows::{close, put, settle};
use entry_delete::{Remnant, step};
use index_table::layout::PageNo;
use index_write::rows::load_page;
use page_tree::{Entry, Row, Unwind};

// An entry of a rank, with all below it, on the way back.
#[cycle(back_sweep)]
fn back(index: &mut [u8], e: u8, pages: u16, rank: u8, entry: Entry, state: Unwind) -> Remnant
    requires { BackPre e pages rank index.old (entry.depth, entry.pointer) }
    ensures { BackPost e pages rank index.old (entry.depth, entry.pointer) state index.new result }
{
    if rank == 0 {
        return step(state, entry);
    }
    let page = PageNo::from_pointer(entry.pointer);
    let mut row = load_page(index, e, page);
    let n = row.count;
    let state = sweep(index, e, pages, rank - 1, &mut row, n, n, state);
    let left = settle(index, e, rank - 1, page, row);
    Remnant { left, state }
}

// The entries of the row before `left`, from the right, until nothing is asked; those from `right` on are done. Returns what is asked of the entry
// before the row.
#[cycle(back_sweep)]
pub fn sweep(
    index: &mut [u8],
    e: u8,
    pages: u16,
    rank: u8,
    row: &mut Row,
    left: usize,
    right: usize,
    state: Unwind,
) -> Unwind
    requires { SweepPre e pages rank index.old row.old left right }
    ensures { SweepPost e pages rank index.old row.old left right state index.new row.new result }
{
    let mut at = right;
    let mut state = state;
    for i in (0..left).rev() {
        if state == Unwind::Idle {
            close(row, i + 1, at);
            return state;
        }
        let entry = Entry {
            depth: row.depth(i),
            pointer: row.pointer(i),
        };
        let x = back(index, e, pages, rank, entry, state);
        state = x.state;
        at = put(row, at, x.left);
    }
    close(row, 0, at);
    state
}
