// The ground that every other crate stands on: refusals, names in a text, types, values, fields and schemas.
#![tactic(auto)]

mod check;
mod data_type;
mod field;
mod name;
mod refusal;
mod trouble;

pub use check::{ItemCheck, check_items};
pub use data_type::{DataType, UnknownType, Value};
pub use field::{Field, FieldCheck, SCHEMA_LIMIT, first_field, schema};
pub use name::{Name, TEXT_LIMIT};
pub use refusal::{Fault, Refusal};
pub use trouble::Trouble;
