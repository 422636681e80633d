ghost use Rattle.std.specs.Prelude.{◌≡◌};

use std::alloc::{AllocError, AllocFailed};
use thiserror::Error;

/// Why a thread takes no further frame.
#[derive(Debug, Drop, Error)]
pub enum FrameFault {
    /// The thread's stack is as deep as it may be (JVM specification 2.5.2, StackOverflowError).
    #[error("the stack is too deep")]
    Deep,
    /// Memory ran out, which says nothing of the stack.
    #[error("out of memory")]
    Memory,
}

impl From<AllocError> for FrameFault {
    ghost use Rattle.thread_frames.specs.declared.fault.FrameFault.TheVariants.{Memory};

    ghost from_gives = { λ _ fault. fault ≡ Memory };

    fn from(_: AllocError) -> Self {
        FrameFault::Memory
    }
}

impl<T: Drop> From<AllocFailed<T>> for FrameFault {
    ghost use Rattle.thread_frames.specs.declared.fault.FrameFault.TheVariants.{Memory};

    ghost from_gives = { λ _ fault. fault ≡ Memory };

    fn from(_: AllocFailed<T>) -> Self {
        FrameFault::Memory
    }
}
