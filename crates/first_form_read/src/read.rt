ghost use Rattle.std.specs.Prelude.{◌≡◌, Some, IfOk};
ghost use Rattle.first_form.specs.ClassFiles.{MainClass, Spells};
ghost use Rattle.first_form.specs.Reading.{class_of};
ghost use Rattle.first_form_read.specs.Reads.{Reads};

use crate::ClassFile;
use crate::bytes::name_and_code;
use std::alloc::{AllocError, Global};
use thiserror::Error;

/// Why no class was read.
#[derive(Clone, Copy, Debug, PartialEq, Eq, Error)]
pub enum ReadClassFault {
    /// The bytes are no class file of the accepted form, or go on behind one. The number is an offset in bytes, for now
    /// always 0.
    #[error("no class file of the accepted form, from byte {0} on")]
    Unsupported(u32),
    /// Memory ran out, which says nothing of the bytes.
    #[error("out of memory")]
    Memory,
}

impl From<AllocError> for ReadClassFault {
    ghost use Rattle.first_form_read.specs.declared.read.ReadClassFault.TheVariants.{Memory};

    ghost from_gives = { λ _ e. e ≡ Memory };

    fn from(_: AllocError) -> Self {
        ReadClassFault::Memory
    }
}

/// The class that reading from left to right finds.
#[tactic(auto, unfolding(first_form::specs::Reading::class_of))]
fn class_from(alloc: Global, bytes: &[u8]) -> Result<ClassFile, ReadClassFault>
    ensures { Reads result (class_of bytes.now) }
{
    let Some((name, code)) = name_and_code(bytes) else {
        return Err(ReadClassFault::Unsupported(0));
    };
    match ClassFile::accept(alloc, name, code)? {
        Some(class) => Ok(class),
        None => Err(ReadClassFault::Unsupported(0)),
    }
}

/// The class that the bytes spell, all of them (JVM specification, chapter 4). Every other file is refused, and `Memory`
/// is answered only where an allocation failed.
pub fn read_class(alloc: Global, bytes: &[u8]) -> Result<ClassFile, ReadClassFault>
    // What is read is spelled so.
    ensures found { IfOk result (λ c. Spells c bytes.now) }

    // What is spelled so is read, unless memory runs out.
    ensures only { (c : MainClass) → Spells c bytes.now → Reads result (Some c) }

    // Each other file is refused at 0.
    ensures exact { Reads result (class_of bytes.now) }
{
    class_from(alloc, bytes)
}
