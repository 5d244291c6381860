// Find behind the check, on tables that are known to be sound; and the answer of every call.
#![tactic(auto)]

pub mod answer;
pub mod find;
