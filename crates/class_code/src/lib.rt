//! The instructions of a method's code (JVM specification, chapter 6), without floating point, and the one list of them that
//! a code spells.
//!
//! `decode` answers that list, or the first fault of a code that has none; `length_at` answers how long one instruction is.
//! A reader that looks at more than the code while it goes has their parts: `instr_at` reads one instruction, `pool_use_at`
//! and `Instr::pool_use` say what its index into the constant pool must name, and over a list of instructions `begins_at`
//! tells whether one begins at an offset, `entry_at` which one and where the next begins, and `first_astray` which of them
//! leads to where none does. None looks at the constant pool or at types: what the code alone does not tell to be wrong is
//! accepted.
//!
//! It is proved that `decode` answers a list where the code has one, and then that list, and else the code's first fault,
//! unless memory runs out; that `instr_at` answers the instruction, or the fault, that stands at the front of the bytes; and
//! that `length_at` answers a length where a whole instruction begins, and nowhere else. It is tested that the list is as
//! long as that of `javap`, and that each of its instructions has the same name.
//!
//! The definitions in `specs/` are in the order of `specs/Lib.antt`: the opcodes (`Codes`), how an instruction is spelled
//! and where it may stand (`Spelling`, `Ranges`), the list of a code (`Listing`), what stands at an offset of it (`Lookups`),
//! and the first fault (`Forms`, `Faults`, `FirstFaults`). These are relations. The same as functions, for definitions that must compute, are in `FormSearch`,
//! `OperandReading` and `CodeReading`, and that they are the same is proved (`proofs/InstrCases.antt`,
//! `proofs/ListCases.antt`). What an index must name is in `PoolUses`.
#![tactic(auto)]

mod decoder;
mod fault;
mod form;
mod instr;
mod lengths;
mod lookup;
mod number;
mod operands;
mod pool;
mod reading;
mod switch;
mod targets;

pub use decoder::decode;
pub use fault::{CodeFault, InstrFault, Unread};
pub use instr::{
    Arithmetic, Branch, Condition, Conversion, Element, Instr, IntConst, Kind, LongConst,
    LookupSwitch, Padding, PoolOp, Primitive, Simple, Slot, StackOp, TableSwitch, Width,
};
pub use lengths::length_at;
pub use lookup::entry_at;
pub use pool::{PoolUse, pool_use_at};
pub use reading::instr_at;
pub use targets::{begins_at, first_astray};
