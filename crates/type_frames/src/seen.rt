//! Types without texts of their own: the names of classes stay where they stand, in a class file or in a `VType`. They are copied
//! without memory.
ghost use Rattle.std.specs.Prelude.{◌≡◌, IfOk};
ghost use Rattle.type_frames.specs.Types.{array_of};
ghost use Rattle.type_frames.specs.Seen.{name_seen, type_seen};

use crate::VType;
use jv_names::Units;
use std::alloc::{AllocError, Global};

/// The name of a class: the text of the name itself, in internal form or an array class's descriptor, or that of the class of
/// which it is the array class.
#[derive(Clone, Copy)]
pub enum ClassName<'a> {
    Named(&'a [u16]),
    ArrayOf(&'a [u16]),
}

/// A `VType` whose class name stands elsewhere.
#[derive(Clone, Copy)]
pub enum VTypeRef<'a> {
    Top,
    Integer,
    Long,
    Null,
    UninitThis,
    Object(ClassName<'a>),
    Uninit(u16),
}

impl VType {
    /// The same type, with the name where it stands.
    pub fn seen(&self) -> VTypeRef<'_>
        ensures { type_seen result ≡ self.now }
    {
        match self {
            VType::Top => VTypeRef::Top,
            VType::Integer => VTypeRef::Integer,
            VType::Long => VTypeRef::Long,
            VType::Null => VTypeRef::Null,
            VType::UninitThis => VTypeRef::UninitThis,
            VType::Object(name) => VTypeRef::Object(ClassName::Named(name.as_slice())),
            VType::Uninit(at) => VTypeRef::Uninit(*at),
        }
    }
}

/// The descriptor of the array class over a class (4.3.2).
fn array_name(alloc: Global, class: &[u16]) -> Result<Units, AllocError>
    ensures { IfOk result (λ name. name ≡ array_of class.now) }
{
    let mut units = Vec::new(alloc);
    units.push(91)?;
    if class.first() == Some(&91) {
        units.extend_from_slice(class)?;
    } else {
        units.push(76)?;
        units.extend_from_slice(class)?;
        units.push(59)?;
    }
    Ok(Units::new(units))
}

impl ClassName<'_> {
    /// The name as a text of its own.
    pub fn held_in(self, alloc: Global) -> Result<Units, AllocError>
        ensures { IfOk result (λ name. name ≡ name_seen self.entry) }
    {
        match self {
            ClassName::Named(text) => Ok(Units::new(Vec::from_slice(alloc, text)?)),
            ClassName::ArrayOf(class) => array_name(alloc, class),
        }
    }
}

impl VTypeRef<'_> {
    /// The same type, with a name of its own.
    pub fn held_in(self, alloc: Global) -> Result<VType, AllocError>
        ensures { IfOk result (λ t. t ≡ type_seen self.entry) }
    {
        Ok(match self {
            VTypeRef::Top => VType::Top,
            VTypeRef::Integer => VType::Integer,
            VTypeRef::Long => VType::Long,
            VTypeRef::Null => VType::Null,
            VTypeRef::UninitThis => VType::UninitThis,
            VTypeRef::Object(name) => VType::Object(name.held_in(alloc)?),
            VTypeRef::Uninit(at) => VType::Uninit(at),
        })
    }
}
