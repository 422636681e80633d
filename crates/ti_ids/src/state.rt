use crate::number::{ObjNo, ThreadNo};

/// How far a frame's next instruction has been announced to agents: New for a frame none of whose instructions was,
/// Caught where a handler was just entered, Yes where the instruction at the pc was, else No.
#[derive(Clone, Copy, Debug, PartialEq, Eq)]
pub enum Announced {
    New,
    Caught,
    No,
    Yes,
}

/// What a thread is doing: it hasn't begun; it has begun and hasn't entered its method; it has; it has ended.
#[derive(Clone, Copy, Debug, PartialEq, Eq)]
pub enum ThreadState {
    Unbegun,
    Entering,
    Running,
    Ended,
}

/// What keeps a thread from going on with its top frame, if anything.
#[derive(Clone, Copy, Debug, PartialEq, Eq)]
pub enum Activity {
    Free,
    /// It throws this exception (JVM specification 2.10).
    Throwing(ObjNo),
    /// It is in the wait set of this object (the language, 17.2).
    Waiting(ObjNo),
    /// It waits for the end of this thread.
    Joining(ThreadNo),
    /// It wants to enter the monitor of this object, which another thread owned.
    Wanting(ObjNo),
}

/// How far a class is, from its loading to its initialization (JVM specification 5.3 to 5.5). `InProgress` names the thread that
/// initializes it, and `Erroneous` says that its initialization failed.
#[derive(Clone, Copy, Debug, PartialEq, Eq)]
pub enum InitState {
    Loaded,
    Linked,
    InProgress(ThreadNo),
    Initialized,
    Erroneous,
}
