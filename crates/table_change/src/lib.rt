// On and off in sound tables.
#![tactic(auto)]

pub mod off;
pub mod on;
pub mod rows;
