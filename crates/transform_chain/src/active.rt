use jv_names::Units;
use ti_ids::EnvNo;

/// A transformer that has turns.
#[derive(Drop)]
pub struct Active<T> {
    /// From 1 to 4. Those of groups 1 and 2 are not capable of retransformation, those of 3 and 4 are; those of 1 and 3 are transformers
    /// of `java.lang.instrument`, those of 2 and 4 hooks of native environments.
    pub group: u8,
    pub env: EnvNo,
    /// Its set of rules, if one is in force.
    pub set: Option<Units>,
    /// What it does.
    pub transformer: T,
}
