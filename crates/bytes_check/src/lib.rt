// What the check asks of bytes and records one by one: the header, the register, and the bytes that are zero.
#![tactic(auto)]

pub mod cleared;
pub mod header;
pub mod register;
pub mod zeros;
