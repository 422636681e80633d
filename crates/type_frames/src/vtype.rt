ghost use Rattle.std.specs.Prelude.{◌≡◌, IfOk, length};
ghost use Rattle.type_frames.specs.Types.{type_words};

use jv_names::Units;
use std::alloc::{AllocError, Global};

/// The type of a local variable or of an entry of the operand stack, as the type checker sees it (4.10.1.2). `boolean`, `byte`,
/// `char` and `short` are `Integer` there.
#[derive(Drop)]
pub enum VType {
    /// Whatever it holds, it can't be used.
    Top,
    Integer,
    Long,
    /// The type of `null`.
    Null,
    /// The object that an `<init>` method is to initialize, before it has called another one.
    UninitThis,
    /// A class or an interface, by its name in internal form, or an array class, by its descriptor.
    Object(Units),
    /// An object that the `new` at this offset, in bytes, made, before its `<init>` was called.
    Uninit(u16),
}

impl VType {
    /// A copy.
    pub fn clone_in(&self, alloc: Global) -> Result<VType, AllocError>
        ensures { IfOk result (λ copy. copy ≡ self.now) }
    {
        Ok(match self {
            VType::Top => VType::Top,
            VType::Integer => VType::Integer,
            VType::Long => VType::Long,
            VType::Null => VType::Null,
            VType::UninitThis => VType::UninitThis,
            VType::Object(name) => VType::Object(name.clone_in(alloc)?),
            VType::Uninit(at) => VType::Uninit(*at),
        })
    }
}
