ghost use Rattle.std.specs.Prelude.{◌≡◌, ◌≤◌, length};
ghost use Rattle.classfile_items.specs.FaultTexts.{fault_text, shown};

use std::alloc::AllocError;
use thiserror::Error;

/// Why bytes are no class file: the first fault that shows when they are read in order. The number is an offset in bytes: that
/// of the item that is named with each fault, and the file's length where an item is cut off.
#[derive(Clone, Copy, Debug, PartialEq, Eq, Error)]
pub enum ReadClassFault {
    /// The first four bytes are not the magic number (4.1).
    #[error("no magic number at {0}")]
    Magic(usize),
    /// The major version is not from 50 to 52 (4.1).
    #[error("a version that is not supported at {0}")]
    Version(usize),
    /// An item needs a byte past the end.
    #[error("the file is cut off at {0}")]
    Truncated(usize),
    /// Bytes stand behind the last attribute.
    #[error("bytes behind the class from {0} on")]
    Trailing(usize),
    /// A tag of a pool entry, a stack map frame or a verification type that the standard does not name.
    #[error("an unknown tag at {0}")]
    BadTag(usize),
    /// An index that names no entry of the kind that is needed, a handler's catch type among them, or a superclass of index 0.
    #[error("an index of nothing that may stand there, at {0}")]
    BadIndex(usize),
    /// A byte of a text that begins no character, or one that the text has no room for; or an index that names a wrong name
    /// or descriptor, or an array where a class must stand.
    #[error("a bad text at {0}")]
    BadText(usize),
    /// The length of an attribute whose content, read by its own counts, ends elsewhere; or the length of a code that is
    /// not from 1 to 65535.
    #[error("a bad length at {0}")]
    BadLength(usize),
    /// The flags of a method that is not abstract and has not exactly one `Code`, or of an abstract one that has any.
    #[error("a method with the wrong code at {0}")]
    BadMember(usize),
    /// A constant, an opcode, a verification type or a descriptor of floating point.
    #[error("floating point at {0}")]
    Floating(usize),
    /// A constant, an opcode or a native method that is not supported.
    #[error("what is not supported at {0}")]
    Unsupported(usize),
    /// The opcode of an instruction that is cut off, malformed or leads to where none begins; or a handler's start, end or
    /// target that is wrong.
    #[error("bad code at {0}")]
    BadCode(usize),
    /// The flags of a member whose name and descriptor an earlier one has.
    #[error("a second member of one name and descriptor at {0}")]
    Duplicate(usize),
    /// Memory ran out, which says nothing of the bytes.
    #[error("out of memory")]
    Memory,
}

impl From<AllocError> for ReadClassFault {
    ghost use Rattle.classfile_items.specs.declared.fault.ReadClassFault.TheVariants.{Memory};

    ghost from_gives = { λ _ e. e ≡ Memory };

    fn from(_: AllocError) -> Self {
        ReadClassFault::Memory
    }
}

impl ReadClassFault {
    /// The fault's name, of lower-case letters and hyphens, and its offset in bytes. Want of memory has no offset.
    pub fn name_and_offset(self) -> (&'static str, Option<usize>)
        ensures text { shown result.0.now result.1 ≡ fault_text self }
        ensures short { length result.0.now ≤ 11 }
    {
        match self {
            ReadClassFault::Magic(offset) => ("magic", Some(offset)),
            ReadClassFault::Version(offset) => ("version", Some(offset)),
            ReadClassFault::Truncated(offset) => ("truncated", Some(offset)),
            ReadClassFault::Trailing(offset) => ("trailing", Some(offset)),
            ReadClassFault::BadTag(offset) => ("bad-tag", Some(offset)),
            ReadClassFault::BadIndex(offset) => ("bad-index", Some(offset)),
            ReadClassFault::BadText(offset) => ("bad-text", Some(offset)),
            ReadClassFault::BadLength(offset) => ("bad-length", Some(offset)),
            ReadClassFault::BadMember(offset) => ("bad-member", Some(offset)),
            ReadClassFault::Floating(offset) => ("floating", Some(offset)),
            ReadClassFault::Unsupported(offset) => ("unsupported", Some(offset)),
            ReadClassFault::BadCode(offset) => ("bad-code", Some(offset)),
            ReadClassFault::Duplicate(offset) => ("duplicate", Some(offset)),
            ReadClassFault::Memory => ("memory", None),
        }
    }
}
