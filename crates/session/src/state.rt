// The text, the fields and the index list that stand, and the calls on them.
ghost use Rattle.std.specs.Prelude.{◌≡◌, [], length, is_ok, if◌then◌else◌, Ok, vec_items};
ghost use Rattle.std.specs.Option.{option_copied, option_map};
ghost use Rattle.std.specs.Result.{result_unwrap_or};
ghost use Rattle.common.specs.Results.{ok_copied};
ghost use Rattle.common.specs.Firsts.{or_fault};
ghost use Rattle.common.specs.Schemas.{schema_fault, schema_of};
ghost use Rattle.common.specs.Troubles.{Agrees};
ghost use Rattle.index_lists.specs.Combine.{combine, counted};
ghost use Rattle.session.specs.Sessions.{Answers, combine_on, find_field, room_for, schema_count, with_beneath, with_field, with_text};

use common::{Fault, Field, Name, Refusal, Trouble, first_field, schema};
use index_lists::combine_projections;
use std::alloc::Global;
use std::marker::Model;

// What stands between the lines: the text of names, the fields given so far, and the index list that the next one is to
// stand on, `None` where it is absent.
#[derive(Drop)]
pub struct Session {
    text: Vec<u8>,
    fields: Vec<Field>,
    beneath: Option<Vec<u32>>,
}

impl Model for Session {
    ghost use Rattle.std.specs.Prelude.{vec_items};
    ghost use Rattle.std.specs.Option.{option_map};
    ghost use Rattle.session.specs.Sessions.{View};

    ghost Value = { View };

    ghost view = { λ s. record {
      text = vec_items s.text;
      fields = vec_items s.fields;
      beneath = option_map vec_items s.beneath;
    } };
}

impl Session {
    // Nothing stands yet.
    pub fn new(heap: Global) -> Session
        ensures { result ≡ with_text [] }
    {
        Session {
            text: Vec::new(heap),
            fields: Vec::new(heap),
            beneath: None,
        }
    }

    // The text of names.
    pub fn text(&self) -> &[u8]
        ensures { result.now ≡ self.now.text }
    {
        self.text.as_slice()
    }

    // The fields given so far.
    pub fn fields(&self) -> &[Field]
        ensures { result.now ≡ self.now.fields }
    {
        self.fields.as_slice()
    }

    // The list that the next one is to stand on.
    pub fn beneath(&self) -> Option<&[u32]>
        ensures { option_copied result ≡ self.now.beneath }
    {
        self.beneath.as_deref()
    }

    // Another text begins anew: no field and no list stands.
    pub(crate) fn set_text(&mut self, text: Vec<u8>)
        ensures { self.new ≡ with_text text.items }
    {
        self.text = text;
        self.fields.clear();
        self.beneath = None;
    }

    // One field more; the answer is its place.
    pub(crate) fn add_field(&mut self, field: Field) -> Result<usize, Trouble<Fault>>
        ensures value { Answers (Ok (length self.old.fields)) result }
        ensures after { self.new ≡ (if is_ok result then with_field self.old field else self.old) }
    {
        let place = self.fields.len();
        self.fields.push(field)?;
        Ok(place)
    }

    // The schema that the fields are.
    pub(crate) fn schema(&self) -> Result<&[Field], Fault>
        ensures { ok_copied result
            ≡ or_fault (schema_fault self.now.text self.now.fields) (schema_of self.now.fields) }
    {
        schema(self.text(), self.fields())
    }

    // How many fields the schema has.
    pub(crate) fn schema_len(&self) -> Result<usize, Fault>
        ensures { result ≡ schema_count self.now }
    {
        Ok(self.schema()?.len())
    }

    // The place of the schema's first field of that name.
    pub(crate) fn find(&self, name: Name) -> Result<usize, Fault>
        ensures { result ≡ find_field self.now name }
    {
        first_field(self.text(), self.schema()?, name).ok_or(Refusal::NoSuchField.at(0))
    }

    // The list that the next one is to stand on.
    pub(crate) fn set_beneath(&mut self, list: Option<Vec<u32>>)
        ensures { self.new ≡ with_beneath self.old (option_map vec_items list) }
    {
        self.beneath = list;
    }

    // The upper list over the one that stands, with an output list of so much room; the answer stands from then on, and
    // tells how many columns it has. Refused, everything is as before.
    pub(crate) fn combine(
        &mut self,
        heap: Global,
        upper: Option<Vec<u32>>,
        room: Option<u32>,
    ) -> Result<Option<usize>, Trouble<Fault>>
        ensures value { Answers
            (counted (combine_on self.old (option_map vec_items upper) room))
            result }
        ensures after { self.new
            ≡ (if is_ok result
            then with_beneath self.old
            (result_unwrap_or (combine_on self.old (option_map vec_items upper) room) self.old.beneath)
            else self.old) }
    {
        let room = room_for(upper.as_deref(), room);
        let list = combined(heap, upper.as_deref(), self.beneath.as_deref(), room)?;
        let count = count_of(list.as_deref());
        self.set_beneath(list);
        Ok(count)
    }
}

// An upper list over a lower one, by an output list of so much room, which is cut to the answer: `combine_projections` writes
// into a list of its caller's.
fn combined(
    heap: Global,
    upper: Option<&[u32]>,
    lower: Option<&[u32]>,
    room: usize,
) -> Result<Option<Vec<u32>>, Trouble<Fault>>
    ensures { Agrees (option_map vec_items)
        (combine (option_copied upper.entry) (option_copied lower.entry) room)
        result }
{
    let mut out = vec![in heap; 0; room]?;
    let Some(count) = combine_projections(upper, lower, &mut out)? else {
        return Ok(None);
    };
    out.truncate(count);
    Ok(Some(out))
}

// How long the output list is to be.
fn room_for(upper: Option<&[u32]>, room: Option<u32>) -> usize
    ensures { result ≡ room_for (option_copied upper.entry) room }
{
    let longest = upper.map_or(0, |list| list.len());
    room.map_or(longest, |given| longest.min(given as usize))
}

// How many indices an optional list has.
pub(crate) fn count_of(list: Option<&[u32]>) -> Option<usize>
    ensures { result ≡ option_map length (option_copied list.entry) }
{
    list.map(|indices| indices.len())
}
