//! Groups of chunks with parities, and how what is lost of them is rebuilt.
#![tactic(auto)]

pub mod group;
mod number;
pub mod parity;
pub mod prepare;
mod rebuild;
pub mod repair;
