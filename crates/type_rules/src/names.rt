//! Classes by their names, as types hold them.
ghost use Rattle.std.specs.Prelude.{◌≡◌, ◌||◌, codes, bytes_eq, option_map};
ghost use Rattle.type_frames.specs.Types.{is_array as names_array, component_class, front as front_of};
ghost use Rattle.type_frames.specs.declared.vtype.VType.TheVariants.{Object};
ghost use Rattle.type_frames.specs.Assignable.{object_name};
ghost use Rattle.type_frames.specs.Seen.{name_seen, type_seen};
ghost use Rattle.type_rules.specs.Methods.{component_behind};

use jv_names::OBJECT;
use type_frames::{ClassName, VTypeRef};

/// An initialized object of any class.
pub(crate) fn object() -> VTypeRef<'static>
    ensures { type_seen result ≡ Object object_name }
{
    VTypeRef::Object(ClassName::Named(&OBJECT))
}

/// Whether the class is an array class.
pub(crate) fn is_array(name: ClassName<'_>) -> bool
    ensures { result ≡ names_array (name_seen name.entry) }
{
    match name {
        ClassName::Named(text) => text.first() == Some(&91),
        ClassName::ArrayOf(_) => true,
    }
}

/// Whether the class is that of arrays of bytes or of booleans.
#[tactic(auto, using(crate::proofs::ArrayNames::never_small))]
pub(crate) fn is_small_array(name: ClassName<'_>) -> bool
    ensures { result ≡ (bytes_eq (name_seen name.entry) (codes "[B") || bytes_eq (name_seen name.entry) (codes "[Z")) }
{
    match name {
        ClassName::Named(text) => text == [91, 66].as_slice() || text == [91, 90].as_slice(),
        ClassName::ArrayOf(_) => false,
    }
}

/// Without the last unit.
#[tactic(auto, using(type_frames::proofs::Bases::front_take))]
fn front(units: &[u16]) -> &[u16]
    ensures { result.now ≡ front_of units.now }
{
    if units.is_empty() {
        return units;
    }
    &units[..units.len() - 1]
}

/// The class that the descriptor of an array's components names, from behind its first `[`.
fn component_text<'a>(rest: &'a [u16]) -> Option<ClassName<'a>>
    ensures { option_map name_seen result ≡ component_behind rest.now }
{
    match rest {
        [91, ..] => Some(ClassName::Named(rest)),
        [76, name @ ..] => Some(ClassName::Named(front(name))),
        _ => None,
    }
}

/// The class of an array's components, where they are no numbers.
#[tactic(auto, using(crate::proofs::ArrayNames::component_over))]
pub(crate) fn component_of<'a>(name: ClassName<'a>) -> Option<ClassName<'a>>
    ensures { option_map name_seen result ≡ component_class (name_seen name.entry) }
{
    match name {
        ClassName::ArrayOf(class) => Some(ClassName::Named(class)),
        ClassName::Named([_, rest @ ..]) => component_text(rest),
        ClassName::Named([]) => None,
    }
}
