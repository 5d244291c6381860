// The register's records, each by itself.
ghost use Rattle.std.specs.Prelude.{◌≡◌, ◌+◌, ◌<◌, ◌≤◌, true, ◌↔◌, length};
ghost use Rattle.bytes_check.specs.Scans.{SmallBytes, Tallied};
ghost use Rattle.bytes_check.specs.Gatherings.{UsedBetween, four_keys, Paired, Gathered};

// What a pass gathers of records: the bits of all keys, those of keys on free records, and how many are in use.
#[derive(Clone, Copy)]
struct Gathering {
    keys: u64,
    odd: u64,
    held: u64,
}

// Whether every byte is 0 or 1.
fn bytes_fit(used: &[u8]) -> bool
    ensures { (result ≡ true) ↔ SmallBytes (length used.now) used.now }
{
    crate::zeros::bits_of(used) <= 1
}

// Whether eight records are all in use: their bytes as one number, each 1.
fn all_in_use(used: &[u8], i: usize) -> bool
    requires { i + 8 ≤ length used.now }
    ensures { (result ≡ true) ↔ UsedBetween i (i + 8) used.now }
{
    let eight = [
        used[i],
        used[i + 1],
        used[i + 2],
        used[i + 3],
        used[i + 4],
        used[i + 5],
        used[i + 6],
        used[i + 7],
    ];
    u64::from_le_bytes(eight) == 0x0101_0101_0101_0101
}

// The bits of four keys, and those gathered before.
fn four_keys(keys: &[u64], i: usize, before: u64) -> u64
    requires { i + 4 ≤ length keys.now }
    ensures { result ≡ four_keys keys.now i before }
{
    before | keys[i] | keys[i + 1] | keys[i + 2] | keys[i + 3]
}

// What was gathered, and one record more.
fn gather_one(keys: &[u64], used: &[u8], i: usize, g: Gathering) -> Gathering
    requires { Paired keys.now used.now × (i < length used.now) × Gathered keys.now used.now i g }
    ensures { Gathered keys.now used.now (i + 1) result }
{
    let byte = u64::from(used[i]);
    let key = keys[i];
    Gathering {
        keys: g.keys | key,
        odd: g.odd | (key & byte.wrapping_sub(1)),
        held: g.held + byte,
    }
}

// What was gathered, and the records from `from` up to `to`, one by one.
fn gather_each(keys: &[u64], used: &[u8], from: usize, to: usize, g: Gathering) -> Gathering
    requires { Paired keys.now used.now × (from ≤ to) × (to ≤ length used.now) × Gathered keys.now used.now from g }
    ensures { Gathered keys.now used.now to result }
{
    let mut sum = g;
    for i in from..to {
        sum = gather_one(keys, used, i, sum);
    }
    sum
}

// What was gathered, and eight records more: together if all are in use.
fn gather_eight(keys: &[u64], used: &[u8], i: usize, g: Gathering) -> Gathering
    requires { Paired keys.now used.now × (i + 8 ≤ length used.now) × Gathered keys.now used.now i g }
    ensures { Gathered keys.now used.now (i + 8) result }
{
    if !all_in_use(used, i) {
        return gather_each(keys, used, i, i + 8, g);
    }
    Gathering {
        keys: four_keys(keys, i + 4, four_keys(keys, i, g.keys)),
        odd: g.odd,
        held: g.held + 8,
    }
}

// All records: eight by eight, and those left one by one.
fn gather_all(keys: &[u64], used: &[u8]) -> Gathering
    requires { Paired keys.now used.now }
    ensures { Gathered keys.now used.now (length used.now) result }
{
    let mut g = Gathering {
        keys: 0,
        odd: 0,
        held: 0,
    };
    let eights = used.len() / 8;
    for eight in 0..eights {
        g = gather_eight(keys, used, 8 * eight, g);
    }
    gather_each(keys, used, 8 * eights, used.len(), g)
}

// How many records are in use, if every record is sound. What is wrong is gathered and judged at the end of a pass: a byte above 1; a key on a free
// record, a key too wide.
pub fn tally_records(w: u64, keys: &[u64], used: &[u8]) -> Option<u64>
    requires { (w ≤ 64) × (length keys.now ≡ length used.now) × (length used.now ≤ 65534) }
    ensures { Tallied w keys.now used.now result }
{
    if !bytes_fit(used) {
        return None;
    }
    let g = gather_all(keys, used);
    if g.odd != 0 || leaf_list::too_wide(w, g.keys) {
        return None;
    }
    Some(g.held)
}
