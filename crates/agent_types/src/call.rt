ghost use Rattle.std.specs.Prelude.{◌≡◌};
ghost use Rattle.agent_types.specs.Calls.{kind_of_call};

use jv_names::Units;
use sqlite_items::Items;
use ti_codes::{CallKind, Capability};

/// A tool call with its arguments (JVM TI, "Functions"; `UseRules`, `AddTransformer` and `RemoveTransformer` are this project's own).
///
/// A thread's number 0 is the thread that makes the call, and an object's number 0 is that of the event for which the call is made. An
/// event is given by its number, which may be none of an event's. Offsets are bytes of a method's code.
#[derive(Drop)]
pub enum Call {
    AddCapabilities(Items<Capability>),
    RelinquishCapabilities(Items<Capability>),
    /// No thread is all threads.
    SetEventNotificationMode {
        on: bool,
        event: u32,
        thread: Option<u32>,
    },
    SetBreakpoint {
        class: Units,
        method: Units,
        desc: Units,
        at: u32,
    },
    ClearBreakpoint {
        class: Units,
        method: Units,
        desc: Units,
        at: u32,
    },
    SetFieldAccessWatch {
        class: Units,
        field: Units,
    },
    ClearFieldAccessWatch {
        class: Units,
        field: Units,
    },
    SetFieldModificationWatch {
        class: Units,
        field: Units,
    },
    ClearFieldModificationWatch {
        class: Units,
        field: Units,
    },
    SetTag {
        object: u32,
        tag: i64,
    },
    GetTag {
        object: u32,
    },
    GetObjectsWithTags(Items<i64>),
    /// The class, where one is given, is that of the objects, and `write` is the tag that they get.
    IterateThroughHeap {
        filter: u32,
        class: Option<Units>,
        write: Option<i64>,
    },
    SuspendThread {
        thread: u32,
    },
    ResumeThread {
        thread: u32,
    },
    GetThreadState {
        thread: u32,
    },
    GetAllThreads,
    GetFrameCount {
        thread: u32,
    },
    GetStackTrace {
        thread: u32,
    },
    /// The depth counts from the top frame, which has 0.
    NotifyFramePop {
        thread: u32,
        depth: u32,
    },
    GetLoadedClasses,
    GetClassStatus {
        class: Units,
    },
    GetBytecodes {
        class: Units,
        method: Units,
        desc: Units,
    },
    /// A donor's number, from 1, for each class.
    RedefineClasses {
        classes: Items<Units>,
        donors: Items<u32>,
    },
    RetransformClasses(Items<Units>),
    UseRules {
        set: Units,
    },
    AddTransformer {
        set: Units,
        capable: bool,
    },
    RemoveTransformer {
        set: Units,
        capable: bool,
    },
    GetPhase,
    DisposeEnvironment,
}

impl Call {
    /// Which call it is.
    pub fn kind(&self) -> CallKind
        ensures { result ≡ kind_of_call self.now }
    {
        match self {
            Call::AddCapabilities(_) => CallKind::AddCapabilities,
            Call::RelinquishCapabilities(_) => CallKind::RelinquishCapabilities,
            Call::SetEventNotificationMode { .. } => CallKind::SetEventNotificationMode,
            Call::SetBreakpoint { .. } => CallKind::SetBreakpoint,
            Call::ClearBreakpoint { .. } => CallKind::ClearBreakpoint,
            Call::SetFieldAccessWatch { .. } => CallKind::SetFieldAccessWatch,
            Call::ClearFieldAccessWatch { .. } => CallKind::ClearFieldAccessWatch,
            Call::SetFieldModificationWatch { .. } => CallKind::SetFieldModificationWatch,
            Call::ClearFieldModificationWatch { .. } => CallKind::ClearFieldModificationWatch,
            Call::SetTag { .. } => CallKind::SetTag,
            Call::GetTag { .. } => CallKind::GetTag,
            Call::GetObjectsWithTags(_) => CallKind::GetObjectsWithTags,
            Call::IterateThroughHeap { .. } => CallKind::IterateThroughHeap,
            Call::SuspendThread { .. } => CallKind::SuspendThread,
            Call::ResumeThread { .. } => CallKind::ResumeThread,
            Call::GetThreadState { .. } => CallKind::GetThreadState,
            Call::GetAllThreads => CallKind::GetAllThreads,
            Call::GetFrameCount { .. } => CallKind::GetFrameCount,
            Call::GetStackTrace { .. } => CallKind::GetStackTrace,
            Call::NotifyFramePop { .. } => CallKind::NotifyFramePop,
            Call::GetLoadedClasses => CallKind::GetLoadedClasses,
            Call::GetClassStatus { .. } => CallKind::GetClassStatus,
            Call::GetBytecodes { .. } => CallKind::GetBytecodes,
            Call::RedefineClasses { .. } => CallKind::RedefineClasses,
            Call::RetransformClasses(_) => CallKind::RetransformClasses,
            Call::UseRules { .. } => CallKind::UseRules,
            Call::AddTransformer { .. } => CallKind::AddTransformer,
            Call::RemoveTransformer { .. } => CallKind::RemoveTransformer,
            Call::GetPhase => CallKind::GetPhase,
            Call::DisposeEnvironment => CallKind::DisposeEnvironment,
        }
    }
}
