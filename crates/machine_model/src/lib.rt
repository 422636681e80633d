//! The machine that a run is compared with: its definitions are in specs/, and here are the names of its rules.
#![tactic(auto)]

/// The rules of the machine itself.
#[derive(Clone, Copy, Debug, PartialEq, Eq)]
pub enum MachineRule {
    /// Makes the base classes and the first objects.
    Start,
    /// Makes thread 1.
    Init,
    RaiseDeath,
    Die,
}

/// The rules of a thread.
#[derive(Clone, Copy, Debug, PartialEq, Eq)]
pub enum ThreadRule {
    Begin,
    Load,
    Link,
    BeginInit,
    EndInit,
    Enter,
    Execute,
    Finish,
}
