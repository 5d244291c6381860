// The entries that a new key brings in the place of the one found (section 5.1), written into a page or made a row.
#![tactic(auto)]

pub mod dummy;
pub mod entries;
pub mod news;
