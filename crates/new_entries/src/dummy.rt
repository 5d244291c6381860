// The dummies that a key brings between two depths.
ghost use Rattle.std.specs.Prelude.{◌+◌, ◌^◌, ◌≤◌, ◌<◌};

// The depths of the dummies from left to right: the positions of the key's one-bits there. The next is position, unless that is at or past high.
#[derive(Clone, Copy)]
pub struct Dummies {
    pub w: u64,
    pub key: u64,
    pub position: u64,
    pub high: u64,
    ghost width: { w ≤ 64 },
    ghost narrow: { key < 2 ^ w },
    ghost begun: { 0 < position },
    ghost inside: { high ≤ w + 1 },
}

impl Dummies {
    ghost use Rattle.std.specs.Prelude.{◌≡◌, [], map};
    ghost use Rattle.leaf_list.specs.Keys.{bits};
    ghost use Rattle.leaf_list.specs.Insertion.{dummies};
    ghost use Rattle.leaf_list.specs.Search.{positions};
    ghost use Rattle.new_entries.specs.Entries.{dummies_left, DummiesPre, ref_of};

    // Begins behind the depth low.
    pub fn between(w: u64, key: u64, low: u64, high: u64) -> Dummies
        requires { DummiesPre w key low high }
        ensures { dummies_left result ≡ map ref_of (dummies low high (positions 0 (bits w key)) []) }
    {
        let position = table_search::next_position(w, key, low);
        Dummies {
            w,
            key,
            position,
            high,
        }
    }
}

impl Iterator for Dummies {
    ghost use Rattle.std.specs.Iterator.{YieldsFirstBy, item_count};
    ghost use Rattle.new_entries.specs.Entries.{dummies_left, dummy_at};

    type Item = u8;

    ghost next_gives = { YieldsFirstBy dummy_at dummies_left };

    ghost remaining = { item_count dummies_left };

    fn next(&mut self) -> Option<u8> {
        if self.position >= self.high {
            return None;
        }
        let depth = self.position as u8;
        self.position = table_search::next_position(self.w, self.key, self.position);
        Some(depth)
    }
}
