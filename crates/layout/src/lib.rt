//! The layout of a retain pool: plans, where their chunks and parities lie, what a changeover reads, labels.
#![tactic(auto)]

pub mod export;
pub mod label;
mod make;
mod numbers;
pub mod plan;
pub mod refusal;
