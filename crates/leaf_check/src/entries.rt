// The entries on level 0, one after the other from left to right.
ghost use Rattle.std.specs.Prelude.{◌≡◌, suc, ◌^◌, ◌<◌, ◌≤◌, false, not, ◌&&◌, [], ◌∷◌, if◌then◌else◌, ◌==◌, nat_eq, nat_le};
ghost use Rattle.leaf_list.specs.Entries.{entry};
ghost use Rattle.leaf_list.specs.Register.{key_at, in_use};
ghost use Rattle.leaf_list.specs.Conditions.{pointer_fits, entry_fits};
ghost use Rattle.index_table.specs.Pages.{record_of};
ghost use Rattle.leaf_check.specs.Leaves.{countless, NarrowRegister, Carried, Scanned};

// What the check carries from page to page: the discriminator and the depth of the last entry, how many were live, whether the last was
// a dummy, and whether it closed the list.
#[derive(Clone, Copy)]
pub struct Scan {
    pub disc: u64,
    pub trail: u64,
    pub live: u64,
    pub dummy: bool,
    pub closed: bool,
}

// How many faults were met, none or one, and what is carried on. No Option: its None clears what is carried at every way out of the loop over the
// entries of a page, and a check of 4,096 scattered tags took 270,956 instructions for 209,655. A number, not a flag: copies of a flag before
// numbers take longer.
#[derive(Clone, Copy)]
pub struct Checked {
    pub faults: u64,
    pub scan: Scan,
}

// Whether the pointer of an entry fits: a dummy is first or deeper than the entry before; a record is in use, and its key goes the entry's way.
fn pointer_fits(w: u64, keys: &[u64], used: &[u8], disc: u64, trail: u64, d: u64, p: u32) -> bool
    requires { (w ≤ 64) × (disc < 2 ^ w) × (trail ≤ w) × (d ≤ w) × NarrowRegister w keys.now used.now }
    ensures { result ≡ pointer_fits w (key_at keys.now) (in_use used.now) disc trail d (record_of 65535 p) }
{
    if p == 65535 {
        return trail == 0 || trail < d;
    }
    let r = p as usize;
    r < used.len()
        && used[r] == 1
        && leaf_list::agree(w, keys[r], disc, leaf_list::leaf_depth(trail, d))
}

// Whether an entry fits: its depth is at most w, the discriminator's bit there is clear, and after a dummy it is deeper.
fn entry_fits(w: u64, keys: &[u64], used: &[u8], s: Scan, d: u64, p: u32) -> bool
    requires { (w ≤ 64) × (s.disc < 2 ^ w) × (s.trail ≤ w) × NarrowRegister w keys.now used.now }
    ensures { result ≡ entry_fits w (key_at keys.now) (in_use used.now) s.disc s.trail s.dummy d (record_of 65535 p) }
{
    d <= w
        && (d == 0 || !leaf_list::bit_is_set(w, s.disc, d))
        && (!s.dummy || s.trail < d)
        && pointer_fits(w, keys, used, s.disc, s.trail, d, p)
}

// Whether the entry would be live beyond the records held.
fn too_many(held: u64, live: u64, p: u32) -> bool
    ensures { result ≡ (not (p == 65535) && nat_le held live) }
{
    p != 65535 && held <= live
}

// How many entries are live behind this one.
fn live_behind(live: u64, p: u32) -> u64
    requires { live < countless }
    ensures { result ≡ (if nat_eq p 65535 then live else suc live) }
{
    if p == 65535 { live } else { live + 1 }
}

// One entry behind what is carried.
pub fn scan_entry(w: u64, keys: &[u64], used: &[u8], held: u64, s: Scan, d: u64, p: u32) -> Checked
    requires { (w ≤ 64) × (held < 65536) × Carried w held s × NarrowRegister w keys.now used.now }
    ensures { Scanned (Unit {0}) w keys.now used.now held s (entry d (record_of 65535 p) ∷ []) result }
{
    if s.closed || !entry_fits(w, keys, used, s, d, p) || too_many(held, s.live, p) {
        return Checked { faults: 1, scan: s };
    }
    let live = live_behind(s.live, p);
    let dummy = p == 65535;
    if d == 0 {
        return Checked {
            faults: 0,
            scan: Scan {
                disc: 0,
                trail: 0,
                dummy,
                live,
                closed: true,
            },
        };
    }
    let disc = leaf_list::next_discriminator(w, s.disc, d);
    Checked {
        faults: 0,
        scan: Scan {
            disc,
            trail: d,
            dummy,
            live,
            closed: false,
        },
    }
}
