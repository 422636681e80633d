//! What an agent's file says, as values that the definitions of the machine and the code both use: the agent, its rules, and the tool
//! calls that it makes at load, in its script and for events.
#![tactic(auto)]

mod agent;
mod call;
mod rule;

pub use agent::{Agent, AgentKind, Callback, ScriptCall};
pub use call::Call;
pub use rule::{Edit, Rule};
