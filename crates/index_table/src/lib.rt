// The index table as bytes: its header and its pages, as they are read.
#![tactic(auto)]

pub mod header;
pub mod layout;
pub mod refusal;
