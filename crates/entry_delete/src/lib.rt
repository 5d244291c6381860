// One entry of level 0: figure 11 at the entry found, and on the way back to the left.
#![tactic(auto)]

ghost use Rattle.std.proofs.Math.Option.{none};
ghost use Rattle.std.specs.Prelude.{◌≡◌, ◌<◌, Some, None};
ghost use Rattle.leaf_list.specs.Entries.{entry};
ghost use Rattle.page_tree.specs.declared.Unwind.TheVariants.{Idle};
ghost use Rattle.page_tree.specs.OffPages.{step_entry, strike as strikeEntry};
ghost use Rattle.index_table.specs.Pages.{leaf_of};
ghost use Rattle.entry_delete.specs.Entries.{Turned};

use index_table::layout::{Answer, answer_of};
use page_tree::{Entry, Unwind};

// What is left of an entry, if it stays; and what is asked of the entry before.
#[derive(Clone, Copy)]
pub struct Remnant {
    pub left: Option<Entry>,
    pub state: Unwind,
}

impl Remnant {
    // The entry stays so, and nothing is asked.
    fn stays(entry: Entry) -> Self
        ensures left { result.left ≡ Some entry }
        ensures state { result.state ≡ Idle }
    {
        Remnant {
            left: Some(entry),
            state: Unwind::Idle,
        }
    }

    // The entry is gone.
    fn gone(state: Unwind) -> Self
        ensures left { result.left ≡ None }
        ensures state { result.state ≡ state }
    {
        Remnant { left: None, state }
    }
}

// One entry on the way back: it takes the depth it is given; a dummy deeper than the depth that clears goes.
pub fn step(state: Unwind, entry: Entry) -> Remnant
    requires { entry.pointer < 65536 }
    ensures { Turned result (step_entry state (leaf_of 65535 (entry.depth, entry.pointer))) }
{
    match state {
        Unwind::Give(depth) => Remnant {
            left: Some(Entry { depth, ..entry }),
            state: Unwind::Clear(depth),
        },
        Unwind::Clear(g) if answer_of(entry.pointer) == Answer::Dummy && g < entry.depth => {
            Remnant::gone(state)
        }
        _ => Remnant::stays(entry),
    }
}

// Figure 11 at the entry found, between the depths before and after it: a 1-leaf gives its depth to the entry before; another with a
// shallower next goes with the dummies before it; else it is a dummy now.
pub fn strike(depth: u8, trail: u64, next: u8) -> Remnant
    ensures { Turned result (strikeEntry trail next (entry depth none)) }
{
    if u64::from(depth) < trail {
        Remnant::gone(Unwind::Give(depth))
    } else if next < depth {
        Remnant::gone(Unwind::Clear(next))
    } else {
        Remnant::stays(Entry {
            depth,
            pointer: 65535,
        })
    }
}
