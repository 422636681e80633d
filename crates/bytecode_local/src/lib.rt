//! The instructions that change their own frame alone and throw nothing (JVM specification 6.5): constants, loads and stores
//! of local variables, what moves operands, arithmetic without division, conversions, comparisons, branches and switches.
//!
//! `is_local` tells which ones they are. `fits` tells whether the instruction at a frame's pc is one, and no misfit: that the
//! operands are there and of the kinds that it needs, that the local variables are there, and that the operand stack has
//! room. `local_step` runs it. None takes memory, and none takes a frame apart that it does not run.
//!
//! It is proved that `local_step` answers the frame that the definitions in `specs/` say, and that `fits` is true exactly
//! where they say one. It is tested that methods that `javac` made leave what `java` prints.
//!
//! The definitions are in the order of `specs/Lib.antt`: the kinds of operands (`Kinds`), what a change of a frame is
//! (`Changes`), the changes that each family of instructions makes (`Constants` to `Switching`), and the effect on a frame
//! (`Effect`).
#![tactic(auto)]

mod branches;
mod change;
mod constants;
mod kinds;
mod locals;
mod numbers;
mod rearranging;
mod step;
mod switches;

pub use step::{fits, is_local, local_step};
