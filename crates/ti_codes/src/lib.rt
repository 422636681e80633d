//! The names of the JVM Tool Interface, version 1.2: phases, events, capabilities, errors and calls.
//!
//! Each has a row in the tables of `specs/`, and what the code says of it is proved to be what its row says. That no two rows share a
//! number or a name is the contract of `table_laws`.
#![tactic(auto)]

mod call;
mod capability;
mod error;
mod event;
mod laws;
mod phase;

pub use call::CallKind;
pub use capability::Capability;
pub use error::ErrorCode;
pub use event::EventKind;
pub use laws::table_laws;
pub use phase::Phase;
