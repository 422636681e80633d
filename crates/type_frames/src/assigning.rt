ghost use Rattle.std.specs.Prelude.{◌≡◌, ◌≤◌, ◌↔◌, IsTrue, option_copied, bytes_eq, length};
ghost use Rattle.type_frames.specs.Types.{dimensions as count_of_dimensions, base_of_text, base_of, front as front_of};
ghost use Rattle.type_frames.specs.Hierarchies.{superclass, is_interface, is_subclass};
ghost use Rattle.type_frames.specs.Assignable.{is_for_all, is_for_arrays, base_may_be, array_may_be, class_may_be, is_assignable, IsAssignable};
ghost use Rattle.type_frames.specs.Bases.{base_held};
ghost use Rattle.type_frames.specs.Seen.{name_seen, type_seen};

use crate::seen::{ClassName, VTypeRef};
use crate::{Hierarchy, VType};

/// What an array's elements are when all dimensions are taken off, or a class that is no array.
#[derive(Drop)]
enum BaseText<'a> {
    /// Numbers of a sort, told by the unit of its descriptor (4.3.2).
    Number(u16),
    /// Objects of the class of this name.
    Class(&'a [u16]),
}

/// Whether the units are these bytes, one for one.
fn is_same(units: &[u16], text: &[u8]) -> bool
    ensures { IsTrue result ↔ (units.now ≡ text.now) }
{
    if units.len() != text.len() {
        return false;
    }
    for i in 0..text.len() {
        if units[i] != u16::from(text[i]) {
            return false;
        }
    }
    true
}

pub(crate) fn is_text(units: &[u16], text: &[u8]) -> bool
    ensures { result ≡ bytes_eq units.now text.now }
{
    is_same(units, text)
}

/// The name of a class's superclass, where the class is known and has one.
pub(crate) fn superclass_of<'a>(hierarchy: &'a Hierarchy, name: &[u16]) -> Option<&'a [u16]>
    ensures { option_copied result ≡ superclass hierarchy.now name.now }
{
    match &hierarchy.named(name)?.superclass {
        Some(parent) => Some(parent.as_slice()),
        None => None,
    }
}

/// Whether a known interface has this name.
fn names_interface(hierarchy: &Hierarchy, name: &[u16]) -> bool
    ensures { result ≡ is_interface hierarchy.now name.now }
{
    match hierarchy.named(name) {
        Some(class) => class.is_interface,
        None => false,
    }
}

/// Whether the one class is the other or below it. The walk goes over at most as many superclasses as there are classes, so
/// that it ends where superclasses lead round in a circle.
#[tactic(auto, using(crate::proofs::Walks::chain_more, crate::proofs::Walks::chain_found, crate::proofs::Walks::chain_over, crate::proofs::Walks::chain_last))]
fn is_below(hierarchy: &Hierarchy, name: &[u16], of: &[u16]) -> bool
    ensures { result ≡ is_subclass hierarchy.now name.now of.now }
{
    let mut class = name;
    for _ in 0..hierarchy.len() {
        if of == class {
            return true;
        }
        match superclass_of(hierarchy, class) {
            Some(parent) => class = parent,
            None => return false,
        }
    }
    of == class
}

/// How many dimensions the class of this name has: how many `[` the text begins with.
#[tactic(auto, using(crate::proofs::Bases::dimensions_more, crate::proofs::Bases::dimensions_end, crate::proofs::Bases::dimensions_all))]
pub fn dimensions(text: &[u16]) -> usize
    ensures value { result ≡ count_of_dimensions text.now }
    ensures within { result ≤ length text.now }
{
    for (i, unit) in text.iter().enumerate() {
        if *unit != 91 {
            return i;
        }
    }
    text.len()
}

/// How many dimensions a class has.
#[tactic(auto, using(crate::proofs::Bases::dimensions_over))]
fn dimensions_of(name: ClassName<'_>) -> usize
    ensures { result ≡ count_of_dimensions (name_seen name.entry) }
{
    match name {
        ClassName::Named(text) => dimensions(text),
        ClassName::ArrayOf(text) => dimensions(text) + 1,
    }
}

/// Without the last unit.
#[tactic(auto, using(crate::proofs::Bases::front_take))]
fn front(units: &[u16]) -> &[u16]
    ensures { result.now ≡ front_of units.now }
{
    if units.is_empty() {
        return units;
    }
    &units[..units.len() - 1]
}

/// What a descriptor without dimensions names.
fn plain_base(text: &[u16]) -> BaseText<'_>
    ensures { base_held result ≡ base_of_text text.now }
{
    match text {
        [] => BaseText::Class(text),
        [76, inner @ ..] => BaseText::Class(front(inner)),
        [unit, ..] => BaseText::Number(*unit),
    }
}

#[tactic(auto, using(crate::proofs::Bases::base_plain))]
fn base_text(text: &[u16]) -> BaseText<'_>
    ensures { base_held result ≡ base_of text.now }
{
    let count = dimensions(text);
    if count == 0 {
        return BaseText::Class(text);
    }
    let (_, behind) = text.split_at(count);
    plain_base(behind)
}

/// What a class's elements are.
#[tactic(auto, using(crate::proofs::Bases::base_over))]
fn base_of_name(name: ClassName<'_>) -> BaseText<'_>
    ensures { base_held result ≡ base_of (name_seen name.entry) }
{
    match name {
        ClassName::Named(text) => base_text(text),
        ClassName::ArrayOf(text) => base_text(text),
    }
}

/// Whether every class may stand for this one.
fn stands_for_all(hierarchy: &Hierarchy, name: &[u16]) -> bool
    ensures { result ≡ is_for_all hierarchy.now name.now }
{
    is_text(name, b"java/lang/Object") || names_interface(hierarchy, name)
}

/// Whether every array may stand for this class.
fn stands_for_arrays(name: &[u16]) -> bool
    ensures { result ≡ is_for_arrays name.now }
{
    is_text(name, b"java/lang/Object")
        || is_text(name, b"java/lang/Cloneable")
        || is_text(name, b"java/io/Serializable")
}

fn base_stands_for(hierarchy: &Hierarchy, from: BaseText<'_>, to: BaseText<'_>) -> bool
    ensures { result ≡ base_may_be hierarchy.now (base_held from.entry) (base_held to.entry) }
{
    match (from, to) {
        (BaseText::Class(a), BaseText::Class(b)) => {
            stands_for_all(hierarchy, b) || is_below(hierarchy, a, b)
        }
        (BaseText::Number(a), BaseText::Number(b)) => a == b,
        _ => false,
    }
}

fn array_stands_for(to: BaseText<'_>) -> bool
    ensures { result ≡ array_may_be (base_held to.entry) }
{
    match to {
        BaseText::Class(name) => stands_for_arrays(name),
        BaseText::Number(_) => false,
    }
}

/// Whether a class may stand for another one, each of which may be an array's (4.10.1.2).
#[tactic(auto, using(crate::proofs::Bases::may_be_equal, crate::proofs::Bases::may_be_more, crate::proofs::Bases::may_be_less, crate::proofs::Standing::class_may_be_is))]
fn class_stands_for(hierarchy: &Hierarchy, from: ClassName<'_>, to: ClassName<'_>) -> bool
    ensures { result ≡ class_may_be hierarchy.now (name_seen from.entry) (name_seen to.entry) }
{
    let given = dimensions_of(from);
    let wanted = dimensions_of(to);
    if given == wanted {
        return base_stands_for(hierarchy, base_of_name(from), base_of_name(to));
    }
    wanted < given && array_stands_for(base_of_name(to))
}

/// Whether a value of the one type may stand for one of the other, for types that are seen where they stand.
#[tactic(auto, unfolding(crate::specs::Assignable::is_assignable))]
pub fn stands_for(hierarchy: &Hierarchy, from: VTypeRef<'_>, to: VTypeRef<'_>) -> bool
    ensures { result ≡ is_assignable hierarchy.now (type_seen from.entry) (type_seen to.entry) }
{
    match (from, to) {
        (_, VTypeRef::Top) => true,
        (VTypeRef::Integer, VTypeRef::Integer) => true,
        (VTypeRef::Long, VTypeRef::Long) => true,
        (VTypeRef::Null, VTypeRef::Null) => true,
        (VTypeRef::UninitThis, VTypeRef::UninitThis) => true,
        (VTypeRef::Uninit(at), VTypeRef::Uninit(with)) => at == with,
        (VTypeRef::Null, VTypeRef::Object(_)) => true,
        (VTypeRef::Object(class), VTypeRef::Object(with)) => class_stands_for(
            hierarchy, class, with,
        ),
        _ => false,
    }
}

/// Whether a value of the one type may stand for one of the other (4.10.1.2). A class that is not known may stand for itself,
/// for `Object` and for interfaces.
///
/// It takes no memory, and looks at most at as many superclasses as there are classes.
pub fn assignable(hierarchy: &Hierarchy, from: &VType, to: &VType) -> bool
    // It is computed from the classes.
    ensures value { result ≡ is_assignable hierarchy.now from.now to.now }

    // That is the least relation of the standard's rules.
    ensures exact { IsTrue result ↔ IsAssignable hierarchy.now from.now to.now }
{
    stands_for(hierarchy, from.seen(), to.seen())
}
