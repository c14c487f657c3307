// Why a call that wants memory did not do its work.
ghost use Rattle.std.specs.Prelude.{◌≡◌};
ghost use Rattle.common.specs.Troubles.{refused_of};
ghost use Rattle.common.specs.declared.trouble.Trouble.TheVariants.{Memory, Refused};

use crate::refusal::Fault;
use std::alloc::{AllocError, AllocFailed};

// The machine has no memory left, or what was asked for was refused.
#[derive(Clone, Copy, PartialEq, Eq, Debug)]
pub enum Trouble<E> {
    Memory,
    Refused(E),
}

impl<E: Drop> Trouble<E> {
    // What was refused; where memory ran out, the library's word for that.
    pub fn refused(self) -> Result<E, AllocError>
        ensures { result ≡ refused_of self }
    {
        match self {
            Trouble::Refused(refused) => Ok(refused),
            Trouble::Memory => Err(AllocError),
        }
    }
}

impl<E> From<AllocError> for Trouble<E> {
    ghost from_gives = { λ _ r. r ≡ Memory };

    fn from(_e: AllocError) -> Trouble<E> {
        Trouble::Memory
    }
}

impl<T: Drop, E> From<AllocFailed<T>> for Trouble<E> {
    ghost from_gives = { λ _ r. r ≡ Memory };

    fn from(_e: AllocFailed<T>) -> Trouble<E> {
        Trouble::Memory
    }
}

// One impl for each E that a `?` passes on: one for every E was tried, and is refused beside that of `AllocError`.
impl From<Fault> for Trouble<Fault> {
    ghost from_gives = { λ f r. r ≡ Refused f };

    fn from(fault: Fault) -> Trouble<Fault> {
        Trouble::Refused(fault)
    }
}
