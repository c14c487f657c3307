// The words for names.
ghost use Rattle.std.specs.Prelude.{◌≡◌, length, nat_eq, position};
ghost use Rattle.common.specs.Firsts.{First};
ghost use Rattle.script.specs.Names.{name_at, name_given, name_of, place_of, stands_in, tails};

use crate::line::Malformed;
use crate::number::{number, small_number};
use common::Name;

// The first place of the text where the bytes of the word stand.
fn find_in(text: &[u8], word: &[u8]) -> Option<usize>
    ensures value { result ≡ place_of text.now word.now }
    ensures law { First (stands_in word.now) (tails text.now) result }
{
    (0..text.len()).find(|place| text[*place..].starts_with(word))
}

// The place of the first colon.
fn find_colon(word: &[u8]) -> Option<usize>
    ensures value { result ≡ position (λ b. nat_eq b 58) word.now }
    ensures law { First (λ b. nat_eq b 58) word.now result }
{
    word.iter().position(|byte| *byte == b':')
}

// The name that START:LEN writes.
fn given_name(word: &[u8]) -> Result<Name, Malformed>
    ensures { result ≡ name_given word.now }
{
    let colon = find_colon(word).ok_or(Malformed::NotAName)?;
    let start = number(&word[..colon])?;
    let len = small_number(&word[colon + 1..])?;
    Ok(Name { start, len })
}

// The name that the word spells, where it stands in the text first.
fn spelled_name(text: &[u8], word: &[u8]) -> Result<Name, Malformed>
    ensures { result ≡ name_at (place_of text.now word.now) (length word.now) }
{
    let place = find_in(text, word).ok_or(Malformed::NotInText)?;
    match (u32::try_from(place), u8::try_from(word.len())) {
        (Ok(start), Ok(len)) => Ok(Name { start, len }),
        _ => Err(Malformed::NotInText),
    }
}

// The name that the word stands for.
pub(crate) fn name(text: &[u8], word: &[u8]) -> Result<Name, Malformed>
    ensures { result ≡ name_of text.now word.now }
{
    match word {
        [b'@', placed @ ..] => given_name(placed),
        _ => spelled_name(text, word),
    }
}
