// The columns that the standing list picks.
ghost use Rattle.std.specs.Prelude.{◌≡◌, map, IfOk, Some, None, Ok, vec_items};
ghost use Rattle.std.specs.Option.{option_copied};
ghost use Rattle.common.specs.Troubles.{Agrees};
ghost use Rattle.index_lists.specs.Combine.{read_by, read_by_any};
ghost use Rattle.session.specs.Sessions.{columns_of};

use crate::state::Session;
use common::{Fault, Field, Trouble};
use index_lists::select;
use std::alloc::{AllocError, Global};

// A row whose cells are the fields.
fn cells_of(heap: Global, fields: &[Field]) -> Result<Vec<Option<Field>>, AllocError>
    ensures { IfOk result (λ row. row.items ≡ map Some fields.now) }
{
    fields.iter().copied().map(Some).collect(heap)
}

// The row's cells at the indices, `None` for an index past its end.
fn select_from(
    heap: Global,
    row: &[Option<Field>],
    indices: &[u32],
) -> Result<Vec<Option<Field>>, Trouble<Fault>>
    ensures { Agrees vec_items (Ok (read_by None row.now indices.now)) result }
{
    // `select` writes into a list of its caller's.
    let mut out = vec![in heap; None; indices.len()]?;
    select(row, None, indices, &mut out)?;
    Ok(out)
}

// The row's cells by a list that may be absent: the row as it stands then.
fn pick(
    heap: Global,
    row: Vec<Option<Field>>,
    indices: Option<&[u32]>,
) -> Result<Vec<Option<Field>>, Trouble<Fault>>
    ensures { Agrees vec_items
        (Ok (read_by_any None row.items (option_copied indices.entry)))
        result }
{
    match indices {
        Some(indices) => select_from(heap, &row, indices),
        None => Ok(row),
    }
}

impl Session {
    // The fields that the standing list picks from the schema, `None` for an index past its end; all of them where the list
    // is absent.
    pub fn columns(&self, heap: Global) -> Result<Vec<Option<Field>>, Trouble<Fault>>
        ensures { Agrees vec_items (columns_of self.now) result }
    {
        let row = cells_of(heap, self.schema()?)?;
        pick(heap, row, self.beneath())
    }
}
