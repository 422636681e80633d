//! The test of `checkcast` over the entries of the table (6.5).
ghost use Rattle.std.specs.Prelude.{◌≡◌, ◌∷◌, bytes_eq};
ghost use Rattle.std.specs.List.{list_any};
ghost use Rattle.link_versions.specs.Subtypes.{object_name, array_interface_names, type_of as class_type, is_element_below as element_below, is_array_below as array_below, is_subclass as subclass};
ghost use Rattle.link_versions.specs.Entries.{classes_of, IsTable};

use crate::class::{Element, EntryKind};
use crate::entries::entry_at;
use crate::entry_table::Table;
use crate::method::is_below;
use jv_names::Units;
use ti_ids::ClassNo;

/// The dimensions of the type that a class is, and its element.
#[tactic(auto, unfolding(crate::specs::Subtypes::type_of))]
fn type_of(entries: &Table, class: ClassNo) -> (usize, Element)
    ensures { result ≡ class_type (classes_of entries.now) class }
{
    match entry_at(entries, class) {
        Some(entry) => match &entry.kind {
            EntryKind::File(_) => (0, Element::Class(class)),
            EntryKind::Array {
                dimensions,
                element,
            } => (*dimensions, *element),
        },
        None => (0, Element::Class(class)),
    }
}

/// Whether an element may be taken for another one.
#[tactic(auto, unfolding(crate::specs::Subtypes::is_element_below))]
fn is_element_below(entries: &Table, element: Element, of: Element) -> bool
    requires { IsTable entries.now }
    ensures { result ≡ element_below (classes_of entries.now) element of }
{
    match (element, of) {
        (Element::Class(class), Element::Class(of)) => is_below(entries, class, of),
        (Element::Boolean, Element::Boolean)
        | (Element::Byte, Element::Byte)
        | (Element::Char, Element::Char)
        | (Element::Short, Element::Short)
        | (Element::Int, Element::Int)
        | (Element::Long, Element::Long) => true,
        _ => false,
    }
}

/// Whether a text is these bytes.
fn is_named(name: &Units, text: &[u8]) -> bool
    ensures { result ≡ bytes_eq name.now text.now }
{
    name.is_text(text)
}

/// Whether every array class extends or implements the class of this name.
fn is_array_super(name: &Units) -> bool
    ensures { result ≡ list_any (bytes_eq name.now) (object_name ∷ array_interface_names) }
{
    is_named(name, b"java/lang/Object")
        || is_named(name, b"java/lang/Cloneable")
        || is_named(name, b"java/io/Serializable")
}

/// Whether an array may be taken for a value of this element.
#[tactic(auto, unfolding(crate::specs::Subtypes::is_array_below))]
fn is_array_below(entries: &Table, of: Element) -> bool
    ensures { result ≡ array_below (classes_of entries.now) of }
{
    let Element::Class(of) = of else {
        return false;
    };
    match entry_at(entries, of) {
        Some(entry) => is_array_super(&entry.name),
        None => false,
    }
}

/// Whether a value of one class may be taken for one of another.
#[tactic(auto, unfolding(crate::specs::Subtypes::is_subclass))]
pub(crate) fn is_subclass(entries: &Table, from: ClassNo, to: ClassNo) -> bool
    requires { IsTable entries.now }
    ensures { result ≡ subclass (classes_of entries.now) from to }
{
    let (depth, element) = type_of(entries, from);
    let (wanted, of) = type_of(entries, to);
    if depth > wanted {
        is_array_below(entries, of)
    } else {
        depth == wanted && is_element_below(entries, element, of)
    }
}
