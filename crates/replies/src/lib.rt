// What a script's lines are answered in words.
#![tactic(auto)]

mod show;
mod words;

pub use show::Plain;
pub use words::{HELP, reply};
