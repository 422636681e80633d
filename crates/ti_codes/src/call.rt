ghost use Rattle.std.specs.Prelude.{◌≡◌};
ghost use Rattle.ti_codes.specs.Calls.{call_name};

/// The tool calls that an agent may make.
#[derive(Clone, Copy)]
pub enum CallKind {
    AddCapabilities,
    RelinquishCapabilities,
    SetEventNotificationMode,
    SetBreakpoint,
    ClearBreakpoint,
    SetFieldAccessWatch,
    ClearFieldAccessWatch,
    SetFieldModificationWatch,
    ClearFieldModificationWatch,
    SetTag,
    GetTag,
    GetObjectsWithTags,
    IterateThroughHeap,
    SuspendThread,
    ResumeThread,
    GetThreadState,
    GetAllThreads,
    GetFrameCount,
    GetStackTrace,
    NotifyFramePop,
    GetLoadedClasses,
    GetClassStatus,
    GetBytecodes,
    RedefineClasses,
    RetransformClasses,
    UseRules,
    AddTransformer,
    RemoveTransformer,
    GetPhase,
    DisposeEnvironment,
}

impl CallKind {
    /// Its name, as agent files and log lines write it.
    pub fn name(self) -> &'static str
        ensures { result.now ≡ call_name self }
    {
        match self {
            CallKind::AddCapabilities => "AddCapabilities",
            CallKind::RelinquishCapabilities => "RelinquishCapabilities",
            CallKind::SetEventNotificationMode => "SetEventNotificationMode",
            CallKind::SetBreakpoint => "SetBreakpoint",
            CallKind::ClearBreakpoint => "ClearBreakpoint",
            CallKind::SetFieldAccessWatch => "SetFieldAccessWatch",
            CallKind::ClearFieldAccessWatch => "ClearFieldAccessWatch",
            CallKind::SetFieldModificationWatch => "SetFieldModificationWatch",
            CallKind::ClearFieldModificationWatch => "ClearFieldModificationWatch",
            CallKind::SetTag => "SetTag",
            CallKind::GetTag => "GetTag",
            CallKind::GetObjectsWithTags => "GetObjectsWithTags",
            CallKind::IterateThroughHeap => "IterateThroughHeap",
            CallKind::SuspendThread => "SuspendThread",
            CallKind::ResumeThread => "ResumeThread",
            CallKind::GetThreadState => "GetThreadState",
            CallKind::GetAllThreads => "GetAllThreads",
            CallKind::GetFrameCount => "GetFrameCount",
            CallKind::GetStackTrace => "GetStackTrace",
            CallKind::NotifyFramePop => "NotifyFramePop",
            CallKind::GetLoadedClasses => "GetLoadedClasses",
            CallKind::GetClassStatus => "GetClassStatus",
            CallKind::GetBytecodes => "GetBytecodes",
            CallKind::RedefineClasses => "RedefineClasses",
            CallKind::RetransformClasses => "RetransformClasses",
            CallKind::UseRules => "UseRules",
            CallKind::AddTransformer => "AddTransformer",
            CallKind::RemoveTransformer => "RemoveTransformer",
            CallKind::GetPhase => "GetPhase",
            CallKind::DisposeEnvironment => "DisposeEnvironment",
        }
    }
}
