// Why a call was refused, and at which item.
ghost use Rattle.std.specs.Prelude.{◌≡◌};
ghost use Rattle.common.specs.Refusals.{number};

use thiserror::Error;

// The refusals, by the numbers that callers see. docs/RULES.md says when each is given.
#[derive(Clone, Copy, PartialEq, Eq, Debug, Error)]
pub enum Refusal {
    #[error("the field's name does not lie within the first 65,535 bytes of the text; give a start and a length that do")]
    FieldName = 1,
    #[error("the field's type is not one of 1 to 6; give Int8, Int16, Int32, Int64, Boolean or Utf8")]
    FieldType = 2,
    #[error("a call takes at most 4 arguments; nest calls instead")]
    TooManyArguments = 3,
    #[error("16 levels stand already; fold some of them first")]
    TooManyLevels = 4,
    #[error("too few levels stand: a fold needs two, every other call on the top level one; put a level first")]
    TooFewLevels = 5,
    #[error("a list takes at most 64 items; give a shorter one")]
    TooManyItems = 6,
    #[error("the type is not one of 1 to 6; give Int8, Int16, Int32, Int64, Boolean or Utf8")]
    UnknownType = 7,
    #[error("the value does not fit its type; give a wider type or another value")]
    ValueDoesNotFit = 8,
    #[error("no node has that number; give one that a call has answered")]
    UnknownNode = 9,
    #[error("the name or alias does not lie within the first 65,535 bytes of the text; give a start and a length that do")]
    NoName = 10,
    #[error("the index is past the end of the list beneath; give an index below that list's length")]
    IndexPastList = 11,
    #[error("the index is past the end of the schema; give an index below its number of fields")]
    IndexPastSchema = 12,
    #[error("the top list has no equal column, of that name and index; project only columns that it passes on")]
    NoEqualColumn = 13,
    #[error("no field of the schema has that name; name one that it has")]
    NoSuchField = 14,
    #[error("the schema's field at that index has another name; give the schema that the list was written for")]
    OtherFieldName = 15,
    #[error("the entry's field is missing: it reads a column past the end of what is beneath it")]
    MissingField = 16,
    #[error("the table would hold more than 1,024 nodes; share nodes, or begin a new pile")]
    TooManyNodes = 17,
    #[error("the batch counts 65,535 rows already; finish it and open another")]
    BatchFull = 18,
    #[error("a list that takes the answer is too short; give a longer one")]
    ListTooShort = 19,
}

// The refusal's number, 1 to 19.
impl From<Refusal> for u8 {
    ghost from_gives = { λ r n. n ≡ number r };

    fn from(refusal: Refusal) -> u8 {
        refusal as u8
    }
}

impl Refusal {
    // A fault is a refusal at a position.
    pub fn at(self, position: usize) -> Fault
        ensures { result ≡ record { refusal = self; position = position } }
    {
        Fault {
            refusal: self,
            position,
        }
    }
}

// A refusal and the position of the item that was refused: its place from 0, or the number of a node.
#[derive(Clone, Copy, PartialEq, Eq, Debug, Error)]
#[error("refused ({number}) at {position}: {refusal}", number = u8::from(*.refusal))]
pub struct Fault {
    pub refusal: Refusal,
    pub position: usize,
}
