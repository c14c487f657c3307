// Reading a row by a list of indices.
ghost use Rattle.std.specs.Prelude.{◌≡◌, ◌≤◌, ◌++◌, length, drop, Some};
ghost use Rattle.common.specs.Firsts.{or_fault};
ghost use Rattle.index_lists.specs.Combine.{CombinedReads, output_after, read_by, room_fault};

use common::{Fault, Refusal};

// An output that is shorter than the list is refused.
pub(crate) fn check_room(indices: &[u32], room: usize) -> Result<(), Fault>
    ensures { result ≡ or_fault (room_fault indices.now room) tt }
{
    if room < indices.len() {
        return Err(Refusal::ListTooShort.at(0));
    }
    Ok(())
}

// Writes the row's cell at each index over the front of the output, which is the caller's of `select`.
fn select_into<T: Copy>(row: &[T], missing: T, indices: &[u32], out: &mut [T])
    requires { length indices.now ≤ length out.old }
    ensures { out.new ≡ read_by missing row.now indices.now ++ drop (length indices.now) out.old }
{
    // By the place: after a loop over `out.iter_mut().zip(indices)` nothing is known of the output.
    for (place, index) in indices.iter().enumerate() {
        out[place] = row.get(*index as usize).copied().unwrap_or(missing);
    }
}

// What a row gives by a list of indices, written over the front of the output: the row's cell at each index, and `missing`
// for an index past the row's end. The answer is how many cells were written; an output that is too short is refused. It is
// the caller's, since the call is to want no memory (docs/DECISIONS.md, Memory).
//
// The law: where the indices are the combination of an upper list and one beneath it, the cells are those that the upper
// list gives on the row that the lower list gives.
#[tactic(auto, using(crate::proofs::Combines::reads_alike))]
pub fn select<T: Copy>(
    row: &[T],
    missing: T,
    indices: &[u32],
    out: &mut [T],
) -> Result<usize, Fault>
    ensures value { result
        ≡ or_fault (room_fault indices.now (length out.old)) (length indices.now) }
    ensures after { out.new
        ≡ output_after
        (or_fault (room_fault indices.now (length out.old)) (Some (read_by missing row.now indices.now)))
        out.old }
    ensures law { CombinedReads missing row.now indices.now }
{
    check_room(indices, out.len())?;
    select_into(row, missing, indices, out);
    Ok(indices.len())
}
