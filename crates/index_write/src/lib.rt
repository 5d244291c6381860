// The index table's header and whole pages written, and pages as rows.
#![tactic(auto)]

pub mod rows;
pub mod write;
