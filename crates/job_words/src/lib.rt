//! What the words of a call ask for, what is found of the files that they name, and why a call is refused: definitions, in `specs/`, and
//! the types of refusals, limits and statuses, which definitions and code share. None of them knows a step of the machine.
#![tactic(auto)]

mod agent_fault;
mod input_limit;
mod laws;
mod refusal;
mod status;

pub use agent_fault::AgentFault;
pub use input_limit::InputLimit;
pub use laws::word_laws;
pub use refusal::Refusal;
pub use status::Status;
