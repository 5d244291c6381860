// Deletion across the pages below an entry: figure 11 over the whole list, in rows that are loaded and stored again.
#![tactic(auto)]

pub mod removal;
pub mod rows;
pub mod unwinding;
