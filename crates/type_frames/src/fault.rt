use std::alloc::AllocError;
use thiserror::Error;

/// Why a stack map has no type states.
#[derive(Clone, Copy, Debug, PartialEq, Eq, Error)]
pub enum MapFault {
    /// The entry at this place, counted from 0, is the first bad one: it drops more local variables than there are, or lists
    /// more words than the method's locals or stack have, or its offset is that of no instruction (JVM specification 4.7.4).
    #[error("entry {0} of the stack map is bad")]
    Bad(usize),
    /// Memory ran out, which says nothing of the stack map.
    #[error("out of memory")]
    Memory,
}

impl From<AllocError> for MapFault {
    ghost use Rattle.std.specs.Prelude.{◌≡◌};
    ghost use Rattle.type_frames.specs.declared.fault.MapFault.TheVariants.{Memory};

    ghost from_gives = { λ _ e. e ≡ Memory };

    fn from(_: AllocError) -> Self {
        MapFault::Memory
    }
}
