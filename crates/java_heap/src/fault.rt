ghost use Rattle.std.specs.Prelude.{◌≡◌};

use std::alloc::AllocError;
use thiserror::Error;

/// Why a heap takes no more.
#[derive(Clone, Copy, Debug, PartialEq, Eq, Error)]
pub enum HeapFault {
    /// The heap's limit has no room for it, which in Java is an `OutOfMemoryError` (JVM specification 2.5.3).
    #[error("the heap is full")]
    Full,
    /// The host's own memory ran out, which says nothing of the heap.
    #[error("out of memory")]
    Memory,
}

impl From<AllocError> for HeapFault {
    ghost use Rattle.java_heap.specs.declared.fault.HeapFault.TheVariants.{Memory};

    ghost from_gives = { λ _ e. e ≡ Memory };

    fn from(_: AllocError) -> Self {
        HeapFault::Memory
    }
}
