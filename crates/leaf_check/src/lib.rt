// The check of the entries on level 0, from left to right.
#![tactic(auto)]

pub mod entries;
pub mod leaves;
pub mod masks;
pub mod passes;
