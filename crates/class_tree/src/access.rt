ghost use Rattle.std.specs.Prelude.{◌≡◌, ◌↔◌, IsTrue};
ghost use Rattle.class_tree.specs.Flags.{bit_of, HasFlag};

/// An access flag of a class, a field or a method (tables 4.1-A, 4.5-A and 4.6-A). Two that no item may both have can
/// share a bit, so what a set bit means depends on whose flags they are.
#[derive(Clone, Copy)]
pub enum Flag {
    Public,
    Private,
    Protected,
    Static,
    Final,
    /// Of a class.
    Super,
    /// Of a method.
    Synchronized,
    /// Of a field.
    Volatile,
    /// Of a method.
    Bridge,
    /// Of a field.
    Transient,
    /// Of a method.
    Varargs,
    Native,
    Interface,
    Abstract,
    Strict,
    Synthetic,
    Annotation,
    Enum,
}

impl Flag {
    /// The mask of its one bit.
    fn bit(self) -> u16
        ensures { result ≡ bit_of self }
    {
        match self {
            Flag::Public => 0x0001,
            Flag::Private => 0x0002,
            Flag::Protected => 0x0004,
            Flag::Static => 0x0008,
            Flag::Final => 0x0010,
            Flag::Super | Flag::Synchronized => 0x0020,
            Flag::Volatile | Flag::Bridge => 0x0040,
            Flag::Transient | Flag::Varargs => 0x0080,
            Flag::Native => 0x0100,
            Flag::Interface => 0x0200,
            Flag::Abstract => 0x0400,
            Flag::Strict => 0x0800,
            Flag::Synthetic => 0x1000,
            Flag::Annotation => 0x2000,
            Flag::Enum => 0x4000,
        }
    }
}

/// The access flags of a class, a field or a method: the 16 bits of the file, of which a virtual machine ignores those
/// that its table doesn't name (4.1, 4.5 and 4.6).
#[derive(Clone, Copy)]
pub struct Flags {
    pub bits: u16,
}

impl Flags {
    /// Whether the bit of a flag is set.
    pub fn has(self, flag: Flag) -> bool
        ensures { IsTrue result ↔ HasFlag self.bits flag }
    {
        self.bits & flag.bit() != 0
    }
}
