// One line of a script, from its bytes to what it asks for.
#![tactic(auto)]

mod fields;
mod keyword;
mod line;
mod lines;
mod lists;
mod names;
mod number;
mod types;
mod words;

pub use line::{Line, Malformed, ParseError};
pub use lines::parse;
