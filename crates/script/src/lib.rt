//! The commands of a script, the lines that write them, and two languages of such lines.
#![tactic(auto)]

pub mod command;
pub mod language;
pub mod parse;
mod words;
