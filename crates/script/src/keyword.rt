// The keywords.
ghost use Rattle.std.specs.Prelude.{◌≡◌};
ghost use Rattle.script.specs.Keywords.{keyword_of};

use crate::line::Malformed;

// What a line begins with says what it asks for.
#[derive(Clone, Copy, PartialEq, Eq, Debug)]
pub(crate) enum Keyword {
    Help,
    Text,
    Field,
    Schema,
    Find,
    Lower,
    Combine,
}

// The keyword that the word is.
impl TryFrom<&[u8]> for Keyword {
    type Error = Malformed;

    ghost try_from_gives = { λ w r. r ≡ keyword_of w.now };

    fn try_from(word: &[u8]) -> Result<Keyword, Malformed> {
        match word {
            b"help" => Ok(Keyword::Help),
            b"text" => Ok(Keyword::Text),
            b"field" => Ok(Keyword::Field),
            b"schema" => Ok(Keyword::Schema),
            b"find" => Ok(Keyword::Find),
            b"lower" => Ok(Keyword::Lower),
            b"combine" => Ok(Keyword::Combine),
            _ => Err(Malformed::UnknownKeyword),
        }
    }
}
