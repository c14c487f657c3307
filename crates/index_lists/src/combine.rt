// One index list in the place of two that stand on one another.
ghost use Rattle.std.specs.Prelude.{◌≡◌, length, Some};
ghost use Rattle.std.specs.Option.{option_copied};
ghost use Rattle.common.specs.Firsts.{or_fault};
ghost use Rattle.index_lists.specs.Combine.{combine, combine_fault, counted, index_fault, output_after, room_fault};

use crate::rows::{check_room, select};
use common::{Fault, ItemCheck, Refusal, check_items};

// An index that looks into the list has to lie within it.
#[derive(Clone, Copy)]
struct IndexCheck<'a> {
    lower: &'a [u32],
}

impl ItemCheck for IndexCheck<'_> {
    type Item = u32;

    ghost faults = { λ c i p. index_fault c.lower.now i p };

    fn check(&self, index: &u32, place: usize) -> Result<(), Fault> {
        if *index as usize >= self.lower.len() {
            return Err(Refusal::IndexPastList.at(place));
        }
        Ok(())
    }
}

// The indices as they are, over the front of the output, which is the caller's of `combine_projections`; an output that is too
// short is refused.
fn copy(indices: &[u32], out: &mut [u32]) -> Result<usize, Fault>
    ensures value { result
        ≡ or_fault (room_fault indices.now (length out.old)) (length indices.now) }
    ensures after { out.new
        ≡ output_after (combine (Some indices.now) None (length out.old)) out.old }
{
    check_room(indices, out.len())?;
    out[..indices.len()].copy_from_slice(indices);
    Ok(indices.len())
}

// The lower list's entries at the upper list's indices, over the front of the output, which is the caller's of
// `combine_projections`.
fn look_up(upper: &[u32], lower: &[u32], out: &mut [u32]) -> Result<usize, Fault>
    ensures value { result
        ≡ or_fault (combine_fault upper.now (Some lower.now) (length out.old)) (length upper.now) }
    ensures after { out.new
        ≡ output_after (combine (Some upper.now) (Some lower.now) (length out.old)) out.old }
{
    check_items(&IndexCheck { lower }, upper)?;
    select(lower, 0, upper, out)
}

// The columns of the upper list, taken through the lower one, over the front of the output; the answer says how many, or
// that the list is absent. An absent upper list is absent, whatever is beneath it; over an absent lower list the upper
// list stays as it is. Refused, at the first index past the lower list's end or for an output that is too short, the
// output is as before. The output is the caller's, since the call is to want no memory (docs/DECISIONS.md, Memory). The two
// lists come apart, as they do in the Rust.
pub fn combine_projections(
    upper: Option<&[u32]>,
    lower: Option<&[u32]>,
    out: &mut [u32],
) -> Result<Option<usize>, Fault>
    ensures value { result
        ≡ counted
        (combine (option_copied upper.entry) (option_copied lower.entry) (length out.old)) }
    ensures after { out.new
        ≡ output_after
        (combine (option_copied upper.entry) (option_copied lower.entry) (length out.old))
        out.old }
{
    let Some(upper) = upper else {
        return Ok(None);
    };
    let Some(lower) = lower else {
        return Ok(Some(copy(upper, out)?));
    };
    Ok(Some(look_up(upper, lower, out)?))
}
