//! The type of a field, a parameter or a result, by the text of its descriptor (4.3.2).
ghost use Rattle.std.specs.Prelude.{◌≡◌, Some, option_map};
ghost use Rattle.jv_names.specs.declared.descriptor.FieldType.{FieldType};
ghost use Rattle.jv_names.specs.Descriptors.{any_type, IsFieldText};
ghost use Rattle.type_frames.specs.Types.{field_vtype, front as front_of};
ghost use Rattle.type_frames.specs.Environments.{field_type};
ghost use Rattle.type_frames.specs.Seen.{type_seen};
ghost use Rattle.type_descriptors.specs.Texts.{text_vtype};

use crate::unit::{CLASS, DIMENSION, LONG};
use jv_names::{Units, field_flaw};
use type_frames::{ClassName, VTypeRef};

/// Without the last unit.
#[tactic(auto, using(type_frames::proofs::Bases::front_take))]
fn front(units: &[u16]) -> &[u16]
    ensures { result.now ≡ front_of units.now }
{
    if units.is_empty() {
        return units;
    }
    &units[..units.len() - 1]
}

/// The type by the first unit, in any text: what begins neither as an array class, nor as a class, nor as `long` counts as `int`.
fn text_ref(text: &[u16]) -> VTypeRef<'_>
    ensures { type_seen result ≡ text_vtype text.now }
{
    match text {
        [DIMENSION, ..] => VTypeRef::Object(ClassName::Named(text)),
        [CLASS, inner @ ..] => VTypeRef::Object(ClassName::Named(front(inner))),
        [LONG, ..] => VTypeRef::Long,
        _ => VTypeRef::Integer,
    }
}

/// The type of a value whose descriptor the text is. It takes no memory.
pub fn field_ref(text: &[u16]) -> VTypeRef<'_>
    // The type that the text spells.
    ensures spelled { (t : FieldType) → IsFieldText text.now (any_type t) → type_seen result ≡ field_vtype t }

    // The type that is read of it.
    ensures read { (t : FieldType) → field_type text.now ≡ Some t → type_seen result ≡ field_vtype t }
{
    text_ref(text)
}

/// The type of a value whose descriptor the text is, all of it, and `None` where it is no field's, or that of a floating-point
/// type. It takes no memory.
pub fn field_ref_checked(text: &Units) -> Option<VTypeRef<'_>>
    ensures { option_map type_seen result ≡ option_map field_vtype (field_type text.now) }
{
    match field_flaw(text) {
        Some(_) => None,
        None => Some(field_ref(text.as_slice())),
    }
}
