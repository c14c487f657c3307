// Fields and schemas, as callers give them.
ghost use Rattle.std.specs.Prelude.{◌≡◌, position};
ghost use Rattle.common.specs.Results.{ok_copied};
ghost use Rattle.common.specs.Firsts.{First, or_fault};
ghost use Rattle.common.specs.Schemas.{field_fault, has_name, schema_fault, schema_of};

use crate::check::{ItemCheck, check_items};
use crate::data_type::DataType;
use crate::name::Name;
use crate::refusal::{Fault, Refusal};

// A schema ends after so many fields, however many are given.
pub const SCHEMA_LIMIT: usize = 65_535;

// A column's name, the number of its type, whether it may be null, and a tag that stands for its metadata, 0 for none.
// The name, the type and the tag are the numbers that the caller gave, which the product's rules ask for: any can be given,
// `schema` refuses a name or a type that is none at the field's place, and tags differ by their number alone.
#[derive(Clone, Copy, Debug)]
pub struct Field {
    pub name: Name,
    pub data_type: u8,
    pub nullable: bool,
    pub tag: u32,
}

// What a field of a schema over the text has to pass.
#[derive(Clone, Copy, Debug)]
pub struct FieldCheck<'a> {
    pub text: &'a [u8],
}

impl ItemCheck for FieldCheck<'_> {
    type Item = Field;

    ghost faults = { λ c f p. field_fault c.text.now f p };

    fn check(&self, field: &Field, place: usize) -> Result<(), Fault> {
        if !field.name.is_in(self.text) {
            return Err(Refusal::FieldName.at(place));
        }
        DataType::known(field.data_type, Refusal::FieldType.at(place))?;
        Ok(())
    }
}

// The fields that count.
#[tactic(auto, using(std::proofs::lemmas::List::take_min), unfolding(crate::specs::Schemas::schema_of))]
fn within_limit(fields: &[Field]) -> &[Field]
    ensures { result.now ≡ schema_of fields.now }
{
    &fields[..SCHEMA_LIMIT.min(fields.len())]
}

// The schema that a list of fields is: its first 65,535. The first field with something wrong refuses it, by its name
// before its type.
pub fn schema<'a>(text: &[u8], fields: &'a [Field]) -> Result<&'a [Field], Fault>
    ensures { ok_copied result
        ≡ or_fault (schema_fault text.now fields.now) (schema_of fields.now) }
{
    let within = within_limit(fields);
    check_items(&FieldCheck { text }, within)?;
    Ok(within)
}

// The place of the first field that has the name: a loop over the fields with their places, which returns the place, as the
// product's look-ups are to be written (docs/DECISIONS.md, Forms).
pub fn first_field(text: &[u8], fields: &[Field], name: Name) -> Option<usize>
    ensures value { result ≡ position (has_name text.now name) fields.now }
    ensures law { First (has_name text.now name) fields.now result }
{
    for (place, field) in fields.iter().enumerate() {
        if field.name.equals(name, text) {
            return Some(place);
        }
    }
    None
}
