ghost use Rattle.std.specs.Prelude.{◌≡◌};
ghost use Rattle.ti_codes.specs.Errors.{error_number};

/// What a tool call answers (`jvmtiError`), by its number.
#[derive(Clone, Copy)]
pub enum ErrorCode {
    None = 0,
    InvalidThread = 10,
    ThreadNotSuspended = 13,
    ThreadSuspended = 14,
    ThreadNotAlive = 15,
    InvalidObject = 20,
    InvalidClass = 21,
    InvalidMethod = 23,
    InvalidLocation = 24,
    InvalidField = 25,
    NoMoreFrames = 31,
    OpaqueFrame = 32,
    TypeMismatch = 34,
    InvalidSlot = 35,
    Duplicate = 40,
    NotFound = 41,
    InvalidClassFormat = 60,
    FailsVerification = 62,
    MethodAdded = 63,
    SchemaChanged = 64,
    HierarchyChanged = 66,
    MethodDeleted = 67,
    UnsupportedVersion = 68,
    NamesDontMatch = 69,
    ClassModifiersChanged = 70,
    MethodModifiersChanged = 71,
    UnmodifiableClass = 79,
    NotAvailable = 98,
    MustPossessCapability = 99,
    InvalidEventType = 102,
    IllegalArgument = 103,
    WrongPhase = 112,
    InvalidEnvironment = 116,
}

impl ErrorCode {
    /// Its number.
    pub fn number(self) -> u32
        ensures { result ≡ error_number self }
    {
        self as u32
    }
}
