//! The arithmetic of int and long (JVM specification 2.11.3 and 2.11.4), and how numbers are compared (6.5).
//!
//! `arith` answers what an operation leaves of two operands, or that a divisor is 0; `negate` and `convert` have one
//! operand. `compare` and `holds` are what `lcmp` and the branches on ints find. None allocates.
//!
//! It is proved that each answers what the definitions in `specs/` say. `Numbers` has one table of the operations for both
//! widths: numbers there have no bounds, and a result is brought into the range of its width. `Values` says the same of
//! values, with the kinds of operands that an operation takes; `Comparisons` has the order. It is tested that Java's own
//! ints and longs give the same.
#![tactic(auto)]

mod binary;
mod comparison;
mod int;
mod long;
mod unary;

pub use binary::{Zero, arith};
pub use comparison::{compare, holds};
pub use unary::{convert, negate};
