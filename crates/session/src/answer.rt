// What a line answers.

// What was done, in numbers: the text's bytes, the new field's place, the schema's fields, the place of the field that was
// found, or how many indices the list has that stands now, `None` where it is absent.
#[derive(Clone, Copy, PartialEq, Eq, Debug)]
pub enum Answer {
    Nothing,
    Help,
    Text(usize),
    Field(usize),
    Schema(usize),
    Found(usize),
    Listed(Option<usize>),
}
