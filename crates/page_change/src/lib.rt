// Pages changed within their own bytes: room made for entries, an entry replaced, entries taken out.
#![tactic(auto)]

pub mod close;
pub mod open;
