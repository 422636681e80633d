use crate::VType;
use sqlite_items::Items;

/// The type state before an instruction (4.10.1.4).
#[derive(Drop)]
pub struct MapFrame {
    /// The instruction's offset in bytes.
    pub at: u16,
    /// The types of the local variables, `max_locals` of them. A long takes two: the second one is `Top`.
    pub locals: Items<VType>,
    /// The types of the entries of the operand stack, from the bottom up. A long is one entry.
    pub stack: Items<VType>,
    /// Whether the method is an `<init>` that has not called another one yet, on some way to here.
    pub this_uninit: bool,
}
