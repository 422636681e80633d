//! Type states while a method is checked (JVM specification 4.10.1.4): the types of local variables and of the operand stack, which
//! instructions take and put, and the states of a stack map, which are held as the map lists them.
//!
//! Types keep no texts of their own here: the names of classes stay in the class file. So a state takes memory for its local
//! variables and its stack alone, and those of a map take together what the map itself takes.
#![tactic(auto)]

mod accepting;
mod entry;
mod giving;
mod kinds;
mod loading;
mod locals;
mod maps;
mod node;
mod nodes;
mod operands;
mod reading;
mod state;
mod stop;

pub use kinds::{is_kind, is_long, is_reference, is_word};
pub use maps::StackMap;
pub use reading::MapBounds;
pub use state::State;
pub use stop::Stop;
