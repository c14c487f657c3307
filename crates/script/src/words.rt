// A line is taken apart word by word.
ghost use Rattle.std.specs.Prelude.{◌≡◌, true, false, ◌∷◌, [], ◌≤◌, length, drop, if◌then◌else◌, IfOk, IfErr};
ghost use Rattle.std.specs.Iterator.{YieldsFirstRef, item_count};
ghost use Rattle.common.specs.Results.{ok_copied};
ghost use Rattle.script.specs.declared.line.Malformed.TheVariants.{MissingWord};
ghost use Rattle.script.specs.Words.{alone, blank, comes_next, only_word, in_run, run_length, FirstAndRest, Split, words_of};

use crate::line::Malformed;
use std::marker::Model;

// Whether the byte stands between words.
fn is_blank(byte: u8) -> bool
    ensures { result ≡ blank byte }
{
    matches!(byte, b' ' | b'\t' | b'\r')
}

// Whether the byte belongs to a run of blanks, or to one of bytes that are not blank: by a flag, as `run_length` says.
fn in_run(byte: u8, blanks: bool) -> bool
    ensures { result ≡ in_run blanks byte }
{
    is_blank(byte) == blanks
}

// How many bytes the run has that the line begins with: one of blanks, or one of bytes that are not. By a flag: with a const
// parameter, which was tried, the closure gets no proof.
fn run_length(line: &[u8], blanks: bool) -> usize
    ensures value { result ≡ run_length blanks line.now }
    ensures within { result ≤ length line.now }
{
    line.iter()
        .take_while(|byte| in_run(**byte, blanks))
        .count()
}

// The first word of the line and what follows it, where the line has a word.
#[tactic(auto, using(crate::proofs::Runs::past_blanks, crate::proofs::Runs::no_word, crate::proofs::Runs::has_word))]
pub(crate) fn split_word(line: &[u8]) -> Option<(&[u8], &[u8])>
    ensures { Split line.now result }
{
    let from = &line[run_length(line, true)..];
    if from.is_empty() {
        return None;
    }
    Some(from.split_at(run_length(from, false)))
}

// The words of a line that are still to come.
#[derive(Clone, Drop)]
pub(crate) struct Words<'a> {
    rest: &'a [u8],
}

impl<'a> Model for Words<'a> {
    ghost use Rattle.std.specs.Prelude.{List, ℕ};
    ghost use Rattle.script.specs.Words.{words_of};

    ghost Value = { List (List ℕ) };

    ghost view = { λ w. words_of w.rest.now };
}

impl<'a> Iterator for Words<'a> {
    type Item = &'a [u8];

    ghost next_gives = { YieldsFirstRef (λ s. s) };

    ghost remaining = { item_count (λ s. s) };

    fn next(&mut self) -> Option<&'a [u8]> {
        let (word, rest) = self.split()?;
        *self = rest;
        Some(word)
    }
}

impl<'a> Words<'a> {
    // The words of the line.
    pub(crate) fn new(line: &'a [u8]) -> Words<'a>
        ensures { result ≡ words_of line.now }
    {
        Words { rest: line }
    }

    // The next word and the words after it, where a word is left: to look at a word and then take it is one split.
    pub(crate) fn split(&self) -> Option<(&'a [u8], Words<'a>)>
        ensures { FirstAndRest self.now result }
    {
        let (word, rest) = split_word(self.rest)?;
        Some((word, Words { rest }))
    }

    // Whether this word comes next, which is then taken.
    pub(crate) fn take_if(&mut self, word: &[u8]) -> bool
        ensures taken { result ≡ comes_next word.now self.old }
        ensures rest { self.new ≡ (if result then drop 1 self.old else self.old) }
    {
        match self.split() {
            Some((next, rest)) if next == word => {
                *self = rest;
                true
            }
            _ => false,
        }
    }

    // Takes the next word, which must be there.
    pub(crate) fn need(&mut self) -> Result<&'a [u8], Malformed>
        ensures ok { IfOk result (λ w. self.old ≡ w.now ∷ self.new) }
        ensures missing { IfErr result (λ e. (e ≡ MissingWord) × (self.old ≡ [])) }
    {
        self.next().ok_or(Malformed::MissingWord)
    }

    // Nothing may follow.
    pub(crate) fn end(mut self) -> Result<(), Malformed>
        ensures { result ≡ alone tt self.entry }
    {
        match self.next() {
            Some(_) => Err(Malformed::ExtraWord),
            None => Ok(()),
        }
    }

    // The one word that is left.
    pub(crate) fn only(mut self) -> Result<&'a [u8], Malformed>
        ensures { ok_copied result ≡ only_word self.entry }
    {
        let word = self.need()?;
        self.end()?;
        Ok(word)
    }
}
