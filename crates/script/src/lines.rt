// A line, from its keyword on.
ghost use Rattle.std.specs.Prelude.{◌≡◌, IfOk};
ghost use Rattle.common.specs.Troubles.{Agrees};
ghost use Rattle.script.specs.Lines.{combine_of, find_of, keyword_says, lower_of, Parsed, said, text_of, without_return};

use crate::fields::read_field;
use crate::keyword::Keyword;
use crate::line::{Line, Malformed, ParseError};
use crate::lists::{ListWords, index_list, last_room};
use crate::names::name;
use crate::words::{Words, split_word};
use common::Name;
use std::alloc::{AllocError, Global};

// The bytes without a carriage return that ends them.
fn without_return(bytes: &[u8]) -> &[u8]
    ensures { result.now ≡ without_return bytes.now }
{
    match bytes {
        [front @ .., b'\r'] => front,
        _ => bytes,
    }
}

// The text that follows its keyword.
fn read_text(heap: Global, rest: &[u8]) -> Result<Vec<u8>, AllocError>
    ensures { IfOk result (λ v. v.items ≡ text_of rest.now) }
{
    match rest {
        [_, text @ ..] => Vec::from_slice(heap, without_return(text)),
        [] => Ok(Vec::new(heap)),
    }
}

// The one name that is left.
fn last_name(text: &[u8], words: Words<'_>) -> Result<Name, Malformed>
    ensures { result ≡ find_of text.now words.entry }
{
    name(text, words.only()?)
}

// The list that `lower` takes.
fn read_lower(heap: Global, words: Words<'_>) -> Result<Line, ParseError>
    ensures { Agrees said (lower_of words.entry) result }
{
    let list = index_list(heap, &mut ListWords::to_end(words))?;
    Ok(Line::Lower(list))
}

// The list and the room that `combine` takes.
fn read_combine(heap: Global, words: Words<'_>) -> Result<Line, ParseError>
    ensures { Agrees said (combine_of words.entry) result }
{
    let mut list = ListWords::up_to_into(words);
    let upper = index_list(heap, &mut list)?;
    let room = last_room(list.rest())?;
    Ok(Line::Combine { upper, room })
}

// What the keyword asks for, with the rest of its line. A `match`: the keywords are these, and each takes another rest.
fn keyword_line(
    heap: Global,
    text: &[u8],
    keyword: Keyword,
    rest: &[u8],
) -> Result<Line, ParseError>
    ensures { Agrees said (keyword_says text.now rest.now keyword) result }
{
    let words = Words::new(rest);
    match keyword {
        Keyword::Help => {
            words.end()?;
            Ok(Line::Help)
        }
        Keyword::Text => Ok(Line::Text(read_text(heap, rest)?)),
        Keyword::Field => Ok(Line::Field(read_field(text, words)?)),
        Keyword::Schema => {
            words.end()?;
            Ok(Line::Schema)
        }
        Keyword::Find => Ok(Line::Find(last_name(text, words)?)),
        Keyword::Lower => read_lower(heap, words),
        Keyword::Combine => read_combine(heap, words),
    }
}

// The line that the bytes are, over a text of names.
pub fn parse(heap: Global, text: &[u8], line: &[u8]) -> Result<Line, ParseError>
    ensures { Parsed text.now line.now result }
{
    let Some((word, rest)) = split_word(line) else {
        return Ok(Line::Blank);
    };
    if let [b'#', ..] = word {
        return Ok(Line::Blank);
    }
    let keyword = Keyword::try_from(word)?;
    keyword_line(heap, text, keyword, rest)
}
