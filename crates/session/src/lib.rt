// What the program keeps between the lines of a script, and what each line does to it.
#![tactic(auto)]

mod answer;
mod columns;
mod perform;
mod state;

pub use answer::Answer;
pub use state::Session;
