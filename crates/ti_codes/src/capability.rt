ghost use Rattle.std.specs.Prelude.{◌≡◌};
ghost use Rattle.ti_codes.specs.Capabilities.{capability_bit, capability_name};

/// The capabilities that an environment may hold (`jvmtiCapabilities`), in the order of their bits from 0.
#[derive(Clone, Copy)]
pub enum Capability {
    Breakpoint,
    SingleStep,
    Exception,
    FramePop,
    MethodEntry,
    MethodExit,
    FieldAccess,
    FieldModification,
    Monitor,
    ObjectAlloc,
    Tag,
    Redefine,
    Retransform,
    Suspend,
    Locals,
    Bytecodes,
    PopFrame,
    EarlyReturn,
}

impl Capability {
    /// Its bit.
    pub fn bit(self) -> u8
        ensures { result ≡ capability_bit self }
    {
        self as u8
    }

    /// Its name, as agent files write it.
    pub fn name(self) -> &'static str
        ensures { result.now ≡ capability_name self }
    {
        match self {
            Capability::Breakpoint => "breakpoint",
            Capability::SingleStep => "single_step",
            Capability::Exception => "exception",
            Capability::FramePop => "frame_pop",
            Capability::MethodEntry => "method_entry",
            Capability::MethodExit => "method_exit",
            Capability::FieldAccess => "field_access",
            Capability::FieldModification => "field_modification",
            Capability::Monitor => "monitor",
            Capability::ObjectAlloc => "object_alloc",
            Capability::Tag => "tag",
            Capability::Redefine => "redefine",
            Capability::Retransform => "retransform",
            Capability::Suspend => "suspend",
            Capability::Locals => "locals",
            Capability::Bytecodes => "bytecodes",
            Capability::PopFrame => "pop_frame",
            Capability::EarlyReturn => "early_return",
        }
    }
}
