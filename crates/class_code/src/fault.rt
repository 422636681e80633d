ghost use Rattle.std.specs.Prelude.{◌≡◌};

use std::alloc::{AllocError, AllocFailed};
use thiserror::Error;

/// Why no instruction begins at a place. `CodeFault` says more of each.
#[derive(Clone, Copy, Debug, Error)]
pub enum InstrFault {
    /// It is one of `float` or `double`.
    #[error("an instruction of float or double")]
    Floating,
    /// It is not supported.
    #[error("an instruction that is not supported")]
    Unsupported,
    /// The code ends within it.
    #[error("an instruction that is cut off")]
    Truncated,
    /// An operand is not allowed.
    #[error("an operand that is not allowed")]
    BadOperand,
}

/// Why an instruction was not read.
#[derive(Clone, Copy, Debug, Error)]
pub enum Unread {
    /// Memory ran out, which says nothing of the bytes.
    #[error("out of memory")]
    Memory,
    /// No instruction begins there.
    #[error("{0}")]
    Fault(InstrFault),
}

impl From<AllocError> for Unread {
    ghost use Rattle.class_code.specs.declared.fault.Unread.TheVariants as unread;

    ghost from_gives = { λ _ e. e ≡ unread.Memory };

    fn from(_: AllocError) -> Unread {
        Unread::Memory
    }
}

impl<T: Drop> From<AllocFailed<T>> for Unread {
    ghost use Rattle.class_code.specs.declared.fault.Unread.TheVariants as unread;

    ghost from_gives = { λ _ e. e ≡ unread.Memory };

    fn from(_: AllocFailed<T>) -> Unread {
        Unread::Memory
    }
}

impl From<InstrFault> for Unread {
    ghost use Rattle.class_code.specs.declared.fault.Unread.TheVariants as unread;

    ghost from_gives = { λ fault e. e ≡ unread.Fault fault };

    fn from(fault: InstrFault) -> Unread {
        Unread::Fault(fault)
    }
}

/// Why a code has no list of instructions: the first fault in it. The number is an offset in bytes, of the instruction's
/// first byte except for `Truncated`.
#[derive(Clone, Copy, Debug, PartialEq, Eq, Error)]
pub enum CodeFault {
    /// An instruction of `float` or `double`, also behind `wide`, or `newarray` of one of the two.
    #[error("an instruction of float or double at {0}")]
    Floating(u16),
    /// `jsr`, `ret`, `invokedynamic`, `jsr_w`, `ret` behind `wide`, or an opcode that no instruction in code has.
    #[error("an instruction that is not supported at {0}")]
    Unsupported(u16),
    /// The code ends within an instruction. The offset is the code's length.
    #[error("an instruction is cut off at {0}")]
    Truncated(u16),
    /// An operand that is not allowed, as far as the code alone tells it: a fourth one of `invokeinterface` that is not 0,
    /// a code of `newarray` that is not in its table, bounds of a `tableswitch` the wrong way round, a count of a
    /// `lookupswitch` below 0 or keys that do not rise, or `wide` before an opcode that it does not widen.
    #[error("an operand that is not allowed, of the instruction at {0}")]
    BadOperand(u16),
    /// A branch or a switch leads to where no instruction begins.
    #[error("no instruction begins where that at {0} leads")]
    BadTarget(u16),
    /// Memory ran out, which says nothing of the code.
    #[error("out of memory")]
    Memory,
}

impl From<AllocError> for CodeFault {
    ghost use Rattle.class_code.specs.declared.fault.CodeFault.TheVariants as code_fault;

    ghost from_gives = { λ _ e. e ≡ code_fault.Memory };

    fn from(_: AllocError) -> CodeFault {
        CodeFault::Memory
    }
}

impl<T: Drop> From<AllocFailed<T>> for CodeFault {
    ghost use Rattle.class_code.specs.declared.fault.CodeFault.TheVariants as code_fault;

    ghost from_gives = { λ _ e. e ≡ code_fault.Memory };

    fn from(_: AllocFailed<T>) -> CodeFault {
        CodeFault::Memory
    }
}
