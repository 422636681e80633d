use jv_names::Units;
use sqlite_items::Items;
use ti_ids::EnvNo;

/// A turn of a transformer at a class, as the log tells of it.
#[derive(Drop)]
pub struct Turn {
    pub env: EnvNo,
    /// The transformer's set of rules, if one was in force.
    pub set: Option<Units>,
    /// Whether it changed the bytes.
    pub changed: bool,
}

/// What turns at a class come to.
#[derive(Drop)]
pub struct Folded {
    /// The bytes before the first turn of a transformer that is capable of retransformation.
    pub left: Items<u8>,
    /// The bytes after all turns.
    pub made: Items<u8>,
    pub turns: Items<Turn>,
}
