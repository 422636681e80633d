//! Sorts of types.
ghost use Rattle.std.specs.Prelude.{◌≡◌};
ghost use Rattle.type_frames.specs.Types.{is_one_word, is_long as long, is_reference as reference, is_uninit_this as uninit_this};
ghost use Rattle.type_frames.specs.RulesOfLocals.{is_of_kind};
ghost use Rattle.type_frames.specs.RulesOfFields.{is_uninit_at as uninit_at};
ghost use Rattle.type_frames.specs.RulesOfCalls.{is_same_uninit as same_uninit};
ghost use Rattle.type_frames.specs.Seen.{type_seen};

use class_code::Kind;
use type_frames::VTypeRef;

/// Whether a value is of one word and can be used.
pub fn is_word(t: VTypeRef<'_>) -> bool
    ensures { result ≡ is_one_word (type_seen t.entry) }
{
    !matches!(t, VTypeRef::Top | VTypeRef::Long)
}

/// Whether it is a long, of two words.
pub fn is_long(t: VTypeRef<'_>) -> bool
    ensures { result ≡ long (type_seen t.entry) }
{
    matches!(t, VTypeRef::Long)
}

/// Whether it refers to an object, initialized or not, or is null.
pub fn is_reference(t: VTypeRef<'_>) -> bool
    ensures { result ≡ reference (type_seen t.entry) }
{
    matches!(
        t,
        VTypeRef::Null | VTypeRef::UninitThis | VTypeRef::Object(_) | VTypeRef::Uninit(_)
    )
}

/// Whether a load or a store of this kind moves it.
pub fn is_kind(kind: Kind, t: VTypeRef<'_>) -> bool
    ensures { result ≡ is_of_kind kind (type_seen t.entry) }
{
    match kind {
        Kind::Int => matches!(t, VTypeRef::Integer),
        Kind::Long => is_long(t),
        Kind::Reference => is_reference(t),
    }
}

/// Whether it is the object that an `<init>` is to initialize.
pub(crate) fn is_uninit_this(t: VTypeRef<'_>) -> bool
    ensures { result ≡ uninit_this (type_seen t.entry) }
{
    matches!(t, VTypeRef::UninitThis)
}

/// Whether the `new` at this offset made it.
pub(crate) fn is_uninit_at(at: u16, t: VTypeRef<'_>) -> bool
    ensures { result ≡ uninit_at at (type_seen t.entry) }
{
    match t {
        VTypeRef::Uninit(from) => from == at,
        _ => false,
    }
}

/// Whether both are one object that is not initialized.
pub(crate) fn is_same_uninit(t: VTypeRef<'_>, other: VTypeRef<'_>) -> bool
    ensures { result ≡ same_uninit (type_seen t.entry) (type_seen other.entry) }
{
    match (t, other) {
        (VTypeRef::UninitThis, VTypeRef::UninitThis) => true,
        (VTypeRef::Uninit(at), VTypeRef::Uninit(from)) => at == from,
        _ => false,
    }
}
