// Index lists: each index of an upper list picks a column of the list beneath it. Ports `combine_projections`.
#![tactic(auto)]

mod combine;
mod rows;

pub use combine::combine_projections;
pub use rows::select;
