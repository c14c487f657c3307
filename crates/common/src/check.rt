// One search for the first item of a list that is refused.
ghost use Rattle.std.specs.Prelude.{◌≡◌, ℕ, Option};
ghost use Rattle.std.specs.Result.{result_err};
ghost use Rattle.common.specs.declared.refusal.Fault.{Fault};
ghost use Rattle.common.specs.Firsts.{Earliest, first_fault, or_fault};

use crate::refusal::Fault;

// What each item of a list has to pass, told the item's place. A trait and no closure: its ghost member says which fault an
// item has, so that the search can say what it answers.
pub trait ItemCheck {
    type Item;

    // The fault of an item at a place, or none.
    ghost faults: { Self → Self.Item → ℕ → Option Fault };

    fn check(&self, item: &Self::Item, place: usize) -> Result<(), Fault>
        ensures { result ≡ or_fault (faults self.now item.now place) tt };
}

// The first fault of the items, each of which passes all its checks before the next is looked at.
pub fn check_items<C: ItemCheck>(check: &C, items: &[C::Item]) -> Result<(), Fault>
    ensures value { result ≡ or_fault (first_fault (C.ItemCheck.faults check.now) items.now 0) tt }
    ensures law { Earliest (C.ItemCheck.faults check.now) items.now (result_err result) }
{
    for (place, item) in items.iter().enumerate() {
        check.check(item, place)?;
    }
    Ok(())
}
