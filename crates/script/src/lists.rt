// Lists of numbers, word by word.
ghost use Rattle.std.specs.Prelude.{◌≡◌, true, [], codes, drop, if◌then◌else◌, vec_items, OnOk};
ghost use Rattle.std.specs.Iterator.{item_count};
ghost use Rattle.std.specs.Option.{option_map};
ghost use Rattle.common.specs.Troubles.{Agrees};
ghost use Rattle.script.specs.Lists.{after_list, list_of, list_words, numbers_of, room_of, IsEnded, NextOfList};
ghost use Rattle.script.specs.Words.{comes_next};

use crate::line::{Malformed, ParseError};
use crate::number::{last_number, number};
use crate::words::Words;
use common::Trouble;
use std::alloc::Global;
use std::marker::Model;

// The words of a list that are still to come, and what follows the list: it may end at the word `into`. A flag says so,
// since there are these two ends alone, each with its constructor.
#[derive(Clone, Drop)]
pub(crate) struct ListWords<'a> {
    words: Words<'a>,
    into: bool,
}

impl<'a> Model for ListWords<'a> {
    ghost use Rattle.script.specs.Lists.{ListParts, after_list, list_words};

    ghost Value = { ListParts };

    ghost view = { λ l. record { left = list_words l.into l.words; after = after_list l.into l.words } };
}

impl<'a> Iterator for ListWords<'a> {
    type Item = &'a [u8];

    ghost next_gives = { NextOfList };

    ghost remaining = { item_count (λ l. l.left) };

    fn next(&mut self) -> Option<&'a [u8]> {
        let (word, rest) = self.words.split()?;
        if self.into && word == b"into".as_slice() {
            return None;
        }
        self.words = rest;
        Some(word)
    }
}

impl<'a> ListWords<'a> {
    // A list that ends with its line.
    #[tactic(auto, using(crate::proofs::Gathers::list_to_end, crate::proofs::Gathers::none_after))]
    pub(crate) fn to_end(words: Words<'a>) -> ListWords<'a>
        ensures list { result.left ≡ words.entry }
        ensures after { result.after ≡ [] }
    {
        ListWords { words, into: false }
    }

    // A list that may end at the word `into`.
    pub(crate) fn up_to_into(words: Words<'a>) -> ListWords<'a>
        ensures list { result.left ≡ list_words true words.entry }
        ensures after { result.after ≡ after_list true words.entry }
    {
        ListWords { words, into: true }
    }

    // Whether the word `absent` comes next, which is then taken.
    fn take_absent(&mut self) -> bool
        ensures taken { result ≡ comes_next (codes "absent") self.old.left }
        ensures list { self.new.left ≡ (if result then drop 1 self.old.left else self.old.left) }
        ensures after { self.new.after ≡ self.old.after }
    {
        self.words.take_if(b"absent")
    }

    // What follows the list, once it has ended.
    #[tactic(auto, using(crate::proofs::Gathers::all_after))]
    pub(crate) fn rest(self) -> Words<'a>
        ensures { self.entry.left ≡ [] → result ≡ self.entry.after }
    {
        self.words
    }
}

// The numbers of the list.
fn numbers(heap: Global, list: &mut ListWords<'_>) -> Result<Vec<u32>, ParseError>
    ensures value { Agrees vec_items (numbers_of list.old.left) result }
    ensures rest { OnOk result (IsEnded list.old list.new) }
{
    let mut numbers = Vec::new(heap);
    // No `for`: after one over `list.by_ref()` nothing is known of the list.
    while let Some(word) = list.next() {
        numbers.push(number(word)?)?;
    }
    Ok(numbers)
}

// The index list.
pub(crate) fn index_list(
    heap: Global,
    list: &mut ListWords<'_>,
) -> Result<Option<Vec<u32>>, ParseError>
    ensures value { Agrees (option_map vec_items) (list_of list.old.left) result }
    ensures rest { OnOk result (IsEnded list.old list.new) }
{
    if list.take_absent() {
        if list.next().is_some() {
            return Err(Trouble::Refused(Malformed::ExtraWord));
        }
        return Ok(None);
    }
    Ok(Some(numbers(heap, list)?))
}

// The room that follows a list, after the word `into`, at which the list ended.
pub(crate) fn last_room(mut words: Words<'_>) -> Result<Option<u32>, Malformed>
    ensures { result ≡ room_of words.entry }
{
    match words.next() {
        None => Ok(None),
        Some(_) => Ok(Some(last_number(words)?)),
    }
}
