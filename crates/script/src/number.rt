// The numbers that words write.
ghost use Rattle.std.specs.Prelude.{◌≡◌, ◌^◌};
ghost use Rattle.script.specs.Numbers.{last_number, more_digit, number_below};

use crate::line::Malformed;
use crate::words::Words;

// The value with one more digit after it.
fn more_digit(value: u32, byte: u8) -> Result<u32, Malformed>
    ensures { result ≡ more_digit value byte }
{
    if !byte.is_ascii_digit() {
        return Err(Malformed::NotANumber);
    }
    let more = u64::from(value) * 10 + u64::from(byte - b'0');
    u32::try_from(more).map_err(|_| Malformed::NotANumber)
}

// The number that the word writes.
#[tactic(auto, using(crate::proofs::Decimals::read_stops, crate::proofs::Decimals::read_word))]
pub(crate) fn number(word: &[u8]) -> Result<u32, Malformed>
    ensures { result ≡ number_below (2 ^ 32) word.now }
{
    if word.is_empty() {
        return Err(Malformed::NotANumber);
    }
    let mut value: u32 = 0;
    for byte in word {
        value = more_digit(value, *byte)?;
    }
    Ok(value)
}

// The number that the word writes, where it fits a byte.
pub(crate) fn small_number(word: &[u8]) -> Result<u8, Malformed>
    ensures { result ≡ number_below 256 word.now }
{
    u8::try_from(number(word)?).map_err(|_| Malformed::NotANumber)
}

// The one number that is left.
pub(crate) fn last_number(words: Words<'_>) -> Result<u32, Malformed>
    ensures { result ≡ last_number words.entry }
{
    number(words.only()?)
}
