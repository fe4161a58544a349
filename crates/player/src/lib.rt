//! Plays a script of commands, in any language of them: what is printed for each line.
#![tactic(auto)]

mod answer;
mod lines;
mod play;
mod pools;
mod racks;
mod request;
mod rows;
mod session;
mod show;
mod text;
pub mod transcript;
