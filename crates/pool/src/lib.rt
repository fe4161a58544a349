//! The retain pool.
#![tactic(auto)]

mod adding;
pub mod carry;
pub mod changeover;
pub mod kinds;
pub mod lay;
mod load;
pub mod look;
pub mod modules;
pub mod orders;
mod outs;
pub mod pool;
pub mod refit;
pub mod replay;
pub mod run;
mod sweep;
mod word;
pub mod words;
