//! The frames of Java threads (JVM specification 2.5.2, 2.6): what each thread's stack is made of, and how deep it may be.
//!
//! A `Frame` is what one invocation of a method needs: its pc, its local variables and its operand stack. It is generic in its
//! pin, which says what code it runs, and of which nothing is known here. `Operands` is an operand stack. The memory for all its
//! words is taken when it is made, so that running code pushes without taking any. A `ThreadStack` is the stack of one thread.
//! Beside frames it holds the initializations of classes that its thread runs (5.5), so that it can be told what the
//! thread goes on with. A new frame uses the memory of an earlier one that was left.
//!
//! It is proved that an operand stack never holds more words than it has room for, that a stack has at most 1,024 entries, that
//! `is_deep` tells exactly where a further frame would pass these or 262,144 words, and that each call changes the stack as it
//! says: a new frame holds its arguments and the int 0, and nothing of an earlier one. A refused push changes nothing, and
//! neither does a pop that finds another kind of entry on top.
//!
//! The definitions in `specs/` are in the order of `specs/Lib.antt`: operand stacks (`Operands`), frames (`Frame`), what a call takes
//! from its caller (`Arguments`), the stack of one thread (`ThreadStack`), and what a `&mut` into it leaves (`Lends`).
#![tactic(auto)]

mod fault;
mod frame;
mod locals;
mod operands;
mod thread_stack;

pub use fault::FrameFault;
pub use frame::{Frame, Invocation, StackEntry};
pub use locals::Locals;
pub use operands::Operands;
pub use thread_stack::{MOST_FRAMES, MOST_WORDS, ThreadStack};
