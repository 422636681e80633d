/// How far a run may go: steps, lines of all logs, bytes of output, heap words; and how many steps one actor makes in a
/// row.
#[derive(Clone, Copy, Debug, PartialEq, Eq)]
pub struct Limits {
    pub steps: u32,
    pub lines: u32,
    pub output: u32,
    pub heap: u32,
    pub slice: u32,
}
