// The tag index: the calls on lent tables.
#![tactic(auto)]

pub mod c;
pub mod change;
pub mod load;
pub mod read;
