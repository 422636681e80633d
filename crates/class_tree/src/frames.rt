ghost use Rattle.std.specs.Prelude.{◌≡◌, ◌<◌};

use crate::{CloneIn, Same};
use sqlite_items::Items;
use std::alloc::{AllocError, Global};
use std::marker::Model;

/// The type of a local variable or of an entry of the operand stack: a `verification_type_info` (4.7.4).
#[derive(Clone, Copy)]
pub enum VerificationType {
    Top,
    Integer,
    Long,
    Null,
    UninitializedThis,
    /// The pool's index of the type's `Class`.
    Object(u16),
    /// The offset in the code, in bytes, of the `new` that made the object.
    Uninitialized(u16),
}

/// An `offset_delta`, in bytes, that the tag of a frame tells with its kind: a number below 64, as which contracts see it.
#[derive(Clone, Copy)]
pub struct ShortDelta {
    value: u8,
}

impl Model for ShortDelta {
    ghost use Rattle.std.specs.Prelude.{ℕ, ◌<◌};

    ghost Value = { ℕ };

    ghost view = { λ d. d.value };

    ghost invariant = { λ d. d.value < 64 };

    ghost inverse = { λ n. record { value = n } };
}

impl ShortDelta {
    /// The delta of so many bytes.
    pub fn new(value: u8) -> ShortDelta
        requires { value < 64 }
        ensures { result ≡ value }
    {
        ShortDelta { value }
    }

    /// How many bytes it is.
    pub fn value(self) -> u8
        ensures same { result ≡ self }
        ensures short { result < 64 }
    {
        self.value
    }
}

/// How many locals a frame drops, the last ones.
#[derive(Clone, Copy, PartialEq)]
pub enum Chopped {
    One,
    Two,
    Three,
}

/// The locals that a frame adds, in their order.
#[derive(Clone, Copy)]
pub enum Appended {
    One(VerificationType),
    Two(VerificationType, VerificationType),
    Three(VerificationType, VerificationType, VerificationType),
}

/// An entry of a stack map: a `stack_map_frame` (4.7.4), which tells the types of the locals and of the operand stack at
/// an offset of the code. `delta`, in bytes, is the offset of the first frame, and of each other one the distance from the
/// frame before, less one.
#[derive(Drop)]
pub enum StackMapFrame {
    /// The locals of the frame before, and no stack.
    Same {
        delta: ShortDelta,
    },
    /// The locals of the frame before, and one entry on the stack.
    SameLocals1StackItem {
        delta: ShortDelta,
        stack: VerificationType,
    },
    /// The same, with a delta of its own.
    SameLocals1StackItemExtended {
        delta: u16,
        stack: VerificationType,
    },
    /// The locals of the frame before but the last ones, and no stack.
    Chop {
        delta: u16,
        count: Chopped,
    },
    /// As `Same`, with a delta of its own.
    SameExtended {
        delta: u16,
    },
    /// The locals of the frame before and these, and no stack.
    Append {
        delta: u16,
        locals: Appended,
    },
    /// All locals, and the stack from its bottom up.
    Full {
        delta: u16,
        locals: Items<VerificationType>,
        stack: Items<VerificationType>,
    },
}

impl Same for VerificationType {
    fn same(&self, other: &VerificationType) -> bool {
        match (self, other) {
            (Self::Top, Self::Top)
            | (Self::Integer, Self::Integer)
            | (Self::Long, Self::Long)
            | (Self::Null, Self::Null)
            | (Self::UninitializedThis, Self::UninitializedThis) => true,
            (Self::Object(class), Self::Object(with)) => class == with,
            (Self::Uninitialized(at), Self::Uninitialized(with)) => at == with,
            _ => false,
        }
    }
}

impl Same for ShortDelta {
    fn same(&self, other: &ShortDelta) -> bool {
        self.value == other.value
    }
}

impl Same for Appended {
    fn same(&self, other: &Appended) -> bool {
        match (self, other) {
            (Self::One(first), Self::One(a)) => first.same(a),
            (Self::Two(first, second), Self::Two(a, b)) => first.same(a) && second.same(b),
            (Self::Three(first, second, third), Self::Three(a, b, c)) => {
                first.same(a) && second.same(b) && third.same(c)
            }
            _ => false,
        }
    }
}

impl Same for StackMapFrame {
    fn same(&self, other: &StackMapFrame) -> bool {
        match (self, other) {
            (Self::Same { delta }, Self::Same { delta: a }) => delta.same(a),
            (
                Self::SameLocals1StackItem { delta, stack },
                Self::SameLocals1StackItem { delta: a, stack: b },
            ) => delta.same(a) && stack.same(b),
            (
                Self::SameLocals1StackItemExtended { delta, stack },
                Self::SameLocals1StackItemExtended { delta: a, stack: b },
            ) => delta == a && stack.same(b),
            (Self::Chop { delta, count }, Self::Chop { delta: a, count: b }) => {
                delta == a && count == b
            }
            (Self::SameExtended { delta }, Self::SameExtended { delta: a }) => delta == a,
            (
                Self::Append { delta, locals },
                Self::Append {
                    delta: a,
                    locals: b,
                },
            ) => { delta == a && locals.same(b) }
            (
                Self::Full {
                    delta,
                    locals,
                    stack,
                },
                Self::Full {
                    delta: a,
                    locals: b,
                    stack: c,
                },
            ) => delta == a && locals.same(b) && stack.same(c),
            _ => false,
        }
    }
}

impl CloneIn for StackMapFrame {
    fn clone_in(&self, alloc: Global) -> Result<StackMapFrame, AllocError> {
        Ok(match self {
            Self::Same { delta } => Self::Same { delta: *delta },
            Self::SameLocals1StackItem { delta, stack } => Self::SameLocals1StackItem {
                delta: *delta,
                stack: *stack,
            },
            Self::SameLocals1StackItemExtended { delta, stack } => {
                Self::SameLocals1StackItemExtended {
                    delta: *delta,
                    stack: *stack,
                }
            }
            Self::Chop { delta, count } => Self::Chop {
                delta: *delta,
                count: *count,
            },
            Self::SameExtended { delta } => Self::SameExtended { delta: *delta },
            Self::Append { delta, locals } => Self::Append {
                delta: *delta,
                locals: *locals,
            },
            Self::Full {
                delta,
                locals,
                stack,
            } => Self::Full {
                delta: *delta,
                locals: Items::from_slice(alloc, locals.as_slice())?,
                stack: Items::from_slice(alloc, stack.as_slice())?,
            },
        })
    }
}
