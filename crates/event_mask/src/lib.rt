//! Which events one environment is told of (JVM TI, "SetEventNotificationMode"), and whether its hook is capable of retransformation.
//!
//! The crate holds definitions, in `specs/`, and their laws, which are the contract of `mask_laws`: each is said of the list of what has
//! changed, where the last change that speaks of a setting decides it, and the first one that turns ClassFileLoadHook on the hook.
#![tactic(auto)]

mod hook;
mod laws;

pub use hook::HookClass;
pub use laws::mask_laws;
