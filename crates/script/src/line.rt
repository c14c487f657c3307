// What a line of a script asks for, and why one is refused.
ghost use Rattle.std.specs.Prelude.{◌≡◌};
ghost use Rattle.common.specs.declared.trouble.Trouble.TheVariants.{Refused};

use common::{Field, Name, Trouble};
use thiserror::Error;

// A line that was read. An index list that is `None` is absent.
#[derive(Debug, Drop)]
pub enum Line {
    Blank,
    Help,
    Text(Vec<u8>),
    Field(Field),
    Schema,
    Find(Name),
    Lower(Option<Vec<u32>>),
    Combine {
        upper: Option<Vec<u32>>,
        room: Option<u32>,
    },
}

// Why a line cannot be read as one.
#[derive(Clone, Copy, PartialEq, Eq, Debug, Error)]
pub enum Malformed {
    #[error("the line begins with no keyword; begin it with help, text, field, schema, find, lower or combine")]
    UnknownKeyword,
    #[error("a word is missing at the end of the line; write help to see what each line takes")]
    MissingWord,
    #[error("a word stands where the line should end; take it away")]
    ExtraWord,
    #[error("a word is no number; write one or more digits, for a value below 4,294,967,296, or below 256 for the length of a name")]
    NotANumber,
    #[error("the word for the type is none; write Int8, Int16, Int32, Int64, Boolean or Utf8, or a number below 256")]
    NotAType,
    #[error("a name that begins with @ has no colon; write @START:LEN, as @4:2")]
    NotAName,
    #[error("the name does not stand in the text; write a name that does, of at most 255 bytes, or @START:LEN")]
    NotInText,
}

// Why no line came out: memory ran out, or the line is malformed.
pub type ParseError = Trouble<Malformed>;

// Beside that of `Fault`: one impl for every E is refused, as `Trouble` says.
impl From<Malformed> for Trouble<Malformed> {
    ghost from_gives = { λ m r. r ≡ Refused m };

    fn from(malformed: Malformed) -> Trouble<Malformed> {
        Trouble::Refused(malformed)
    }
}
