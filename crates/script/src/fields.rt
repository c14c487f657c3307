// A field, word by word.
ghost use Rattle.std.specs.Prelude.{◌≡◌};
ghost use Rattle.script.specs.Fields.{field_of, tag_of};

use crate::line::Malformed;
use crate::names::name;
use crate::number::last_number;
use crate::types::type_number;
use crate::words::Words;
use common::Field;

// The tag at the end of a field.
fn last_tag(mut words: Words<'_>) -> Result<u32, Malformed>
    ensures { result ≡ tag_of words.entry }
{
    match words.next() {
        None => Ok(0),
        Some(b"tag") => last_number(words),
        Some(_) => Err(Malformed::ExtraWord),
    }
}

// The field that the words write: its name, its type, and what it may be besides.
pub(crate) fn read_field(text: &[u8], mut words: Words<'_>) -> Result<Field, Malformed>
    ensures { result ≡ field_of text.now words.entry }
{
    let name = name(text, words.need()?)?;
    let data_type = type_number(words.need()?)?;
    let nullable = words.take_if(b"null");
    let tag = last_tag(words)?;
    Ok(Field {
        name,
        data_type,
        nullable,
        tag,
    })
}
