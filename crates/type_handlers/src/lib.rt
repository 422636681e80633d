//! The exception handlers of a method that cover an offset of its code (JVM specification 4.7.3), while the code is gone through from
//! its beginning. So it takes no look at each handler for each instruction.
#![tactic(auto)]

mod covering;
mod laws;
mod ranges;

pub use covering::Covering;
pub use laws::covering_laws;
