// The words for types.
ghost use Rattle.std.specs.Prelude.{◌≡◌};
ghost use Rattle.script.specs.Types.{type_number_of};

use crate::line::Malformed;
use crate::number::small_number;
use common::DataType;

// The number of the type that the word stands for: a number and no type, since by the product's rules `schema` is to refuse
// one that is none, at its field's place.
pub(crate) fn type_number(word: &[u8]) -> Result<u8, Malformed>
    ensures { result ≡ type_number_of word.now }
{
    match DataType::try_from(word) {
        Ok(data_type) => Ok(u8::from(data_type)),
        Err(_) => small_number(word).map_err(|_| Malformed::NotAType),
    }
}
