//! A memory of symbols that lies in modules, slots and offsets, and whose modules can be pulled and fitted.
//! No call asks anything of its caller. What a call answers and leaves is said of a rack that is valid,
//! which it is from its making on.
#![tactic(auto)]

mod cells;
pub mod clear;
pub mod flat;
mod pages;
pub mod rack;
mod shape;
pub mod size;
mod try_clear;
pub mod turning;

pub use clear::{clear_slot, symbol};
pub use flat::FlatRack;
pub use rack::Rack;
pub use size::Size;
pub use try_clear::try_clear_slot;
pub use turning::TurningRack;
