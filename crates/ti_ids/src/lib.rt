//! The plain values that the definitions and the code of every crate share: numbers, limits, actors, ends and states.
#![tactic(auto)]

mod actor;
mod limits;
mod number;
mod state;
mod value;

pub use actor::{Actor, End};
pub use limits::Limits;
pub use number::{ClassNo, EnvNo, FieldNo, Location, MethodNo, ObjNo, ThreadNo, VersionNo};
pub use state::{Activity, Announced, InitState, ThreadState};
pub use value::Value;
