ghost use Rattle.std.specs.Prelude.{◌≡◌};
ghost use Rattle.ti_codes.specs.Events.{event_name, event_number};

/// The events (`jvmtiEvent`), by their numbers.
#[derive(Clone, Copy)]
pub enum EventKind {
    VMInit = 50,
    VMDeath = 51,
    ThreadStart = 52,
    ThreadEnd = 53,
    ClassFileLoadHook = 54,
    ClassLoad = 55,
    ClassPrepare = 56,
    VMStart = 57,
    Exception = 58,
    ExceptionCatch = 59,
    SingleStep = 60,
    FramePop = 61,
    Breakpoint = 62,
    FieldAccess = 63,
    FieldModification = 64,
    MethodEntry = 65,
    MethodExit = 66,
    MonitorWait = 73,
    MonitorWaited = 74,
    MonitorContendedEnter = 75,
    MonitorContendedEntered = 76,
    VMObjectAlloc = 84,
}

impl EventKind {
    /// Its number.
    pub fn number(self) -> u32
        ensures { result ≡ event_number self }
    {
        self as u32
    }

    /// Its name, as agent files and log lines write it.
    pub fn name(self) -> &'static str
        ensures { result.now ≡ event_name self }
    {
        match self {
            EventKind::VMInit => "VMInit",
            EventKind::VMDeath => "VMDeath",
            EventKind::ThreadStart => "ThreadStart",
            EventKind::ThreadEnd => "ThreadEnd",
            EventKind::ClassFileLoadHook => "ClassFileLoadHook",
            EventKind::ClassLoad => "ClassLoad",
            EventKind::ClassPrepare => "ClassPrepare",
            EventKind::VMStart => "VMStart",
            EventKind::Exception => "Exception",
            EventKind::ExceptionCatch => "ExceptionCatch",
            EventKind::SingleStep => "SingleStep",
            EventKind::FramePop => "FramePop",
            EventKind::Breakpoint => "Breakpoint",
            EventKind::FieldAccess => "FieldAccess",
            EventKind::FieldModification => "FieldModification",
            EventKind::MethodEntry => "MethodEntry",
            EventKind::MethodExit => "MethodExit",
            EventKind::MonitorWait => "MonitorWait",
            EventKind::MonitorWaited => "MonitorWaited",
            EventKind::MonitorContendedEnter => "MonitorContendedEnter",
            EventKind::MonitorContendedEntered => "MonitorContendedEntered",
            EventKind::VMObjectAlloc => "VMObjectAlloc",
        }
    }
}
