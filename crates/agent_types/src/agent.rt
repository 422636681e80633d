use crate::{Call, Rule};
use jv_names::Units;
use sqlite_items::Items;
use ti_codes::EventKind;

/// Whether an agent is one by the JVM Tool Interface, or one by `java.lang.instrument`.
#[derive(Clone, Copy)]
pub enum AgentKind {
    Native,
    Java,
}

/// A call of a script, and how many lines the agent's log has at least before it is made.
#[derive(Drop)]
pub struct ScriptCall {
    pub at: u32,
    pub call: Call,
}

/// The calls for an event. A class and a thread, where they are given, are those that the event must have.
#[derive(Drop)]
pub struct Callback {
    pub event: EventKind,
    pub class: Option<Units>,
    pub thread: Option<u32>,
    pub calls: Items<Call>,
}

/// What an agent's file says.
#[derive(Drop)]
pub struct Agent {
    /// Its bytes, which are ASCII.
    pub name: Items<u8>,
    pub kind: AgentKind,
    pub sets: Items<Units>,
    pub rules: Items<Rule>,
    /// The calls in phase OnLoad.
    pub load: Items<Call>,
    pub script: Items<ScriptCall>,
    pub callbacks: Items<Callback>,
}
