use jv_names::Units;
use ti_ids::EnvNo;

/// A transformer of `java.lang.instrument` that was added (`Instrumentation.addTransformer`).
#[derive(Drop)]
pub struct Registered {
    pub env: EnvNo,
    /// Its set of rules.
    pub set: Units,
    /// Whether it is capable of retransformation.
    pub capable: bool,
}
