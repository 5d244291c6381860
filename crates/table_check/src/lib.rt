// The check of the tables.
#![tactic(auto)]

ghost use Rattle.std.specs.Prelude.{◌≡◌, true, ◌↔◌};
ghost use Rattle.index_table.specs.Soundness.{Sound};

pub mod pages;
pub mod root;

// Whether the tables are sound: lengths, header, register and pages all agree. It takes any bytes, and stops at the first fault.
pub fn check(index: &[u8], keys: &[u64], used: &[u8]) -> bool
    ensures { (result ≡ true) ↔ Sound index.now keys.now used.now }
{
    if keys.len() != used.len() || !bytes_check::header::header_fits(index, used.len()) {
        return false;
    }
    let h = index_table::header::read(index);
    let Some(held) = bytes_check::register::tally_records(u64::from(h.width), keys, used) else {
        return false;
    };
    held == u64::from(h.held) && root::pages_sound(index, keys, used, h)
}
