//! Resolution and selection of fields and methods over the entries of the table.
ghost use Rattle.std.specs.Prelude.{◌≡◌, Result};
ghost use Rattle.class_tree.specs.Tree.{first_of};
ghost use Rattle.link_versions.specs.Classes.{number_of};
ghost use Rattle.link_versions.specs.Orders.{lookup_order, is_below as below};
ghost use Rattle.link_versions.specs.Members.{declared_field as field_in};
ghost use Rattle.link_versions.specs.Subtypes.{object_name};
ghost use Rattle.link_versions.specs.Resolution.{candidate as candidate_in, candidates, is_overridden as overridden_by, concrete_ones, sole_of, from_superinterfaces as among_superinterfaces, from_superclasses as among_superclasses, from_object as in_object, from_classes as among_classes, resolved_field, resolved_method, selected_by, selected};
ghost use Rattle.link_versions.specs.Entries.{classes_of, IsTable};
ghost use Rattle.link_versions.specs.Concrete.{overrides_at, concrete_at};

use crate::LinkFault;
use crate::entries::{
    class_has, declared_field, declared_method, declared_virtual, method_desc, method_has,
    method_name, order_of, supers_of,
};
use crate::entry_table::Table;
use class_tree::Flag;
use jv_names::Units;
use ti_ids::{ClassNo, FieldNo, MethodNo};

/// How many methods there are to choose from.
pub(crate) enum Sole {
    Nothing,
    One(MethodNo),
    Several,
}

/// A field by 5.4.3.2.
#[tactic(auto, unfolding(crate::specs::Resolution::resolved_field))]
pub(crate) fn resolve_field(
    entries: &Table,
    class: ClassNo,
    name: &Units,
    desc: &Units,
) -> Result<FieldNo, LinkFault>
    requires { IsTable entries.now }
    ensures { result ≡ resolved_field (classes_of entries.now) class name.now desc.now }
{
    let order = order_of(entries, class);
    for at in order {
        if let Some(field) = declared_field(entries, name, desc, *at) {
            return Ok(field);
        }
    }
    Err(LinkFault::NoField)
}

/// Whether a class is another one, or extends or implements it.
pub(crate) fn is_below(entries: &Table, class: ClassNo, of: ClassNo) -> bool
    requires { IsTable entries.now }
    ensures { result ≡ below (classes_of entries.now) class of }
{
    order_of(entries, class).iter().any(|at| of.0 == at.0)
}

/// What a superinterface of a class declares, where that is neither private nor static.
#[tactic(auto, unfolding(crate::specs::Resolution::candidate))]
fn candidate(
    entries: &Table,
    class: ClassNo,
    name: &Units,
    desc: &Units,
    at: ClassNo,
) -> Option<MethodNo>
    requires { IsTable entries.now }
    ensures { result ≡ candidate_in (classes_of entries.now) class name.now desc.now at }
{
    if class_has(entries, Flag::Interface, at) && at.0 != class.0 {
        declared_virtual(entries, name, desc, at)
    } else {
        None
    }
}

/// Whether what a superinterface of a class declares overrides a method.
#[tactic(auto, unfolding(crate::specs::Concrete::overrides_at))]
fn overrides(
    entries: &Table,
    class: ClassNo,
    name: &Units,
    desc: &Units,
    method: MethodNo,
    at: ClassNo,
) -> bool
    requires { IsTable entries.now }
    ensures { result ≡ overrides_at (classes_of entries.now) class name.now desc.now method at }
{
    match candidate(entries, class, name, desc, at) {
        Some(other) => {
            method.class.0 != other.class.0 && is_below(entries, other.class, method.class)
        }
        None => false,
    }
}

/// Whether a method is one that another candidate of a class overrides.
fn is_overridden(
    entries: &Table,
    class: ClassNo,
    name: &Units,
    desc: &Units,
    method: MethodNo,
) -> bool
    requires { IsTable entries.now }
    ensures { result ≡ overridden_by (classes_of entries.now) (candidates (classes_of entries.now) class name.now desc.now) method }
{
    let order = order_of(entries, class);
    for at in order {
        if overrides(entries, class, name, desc, method, *at) {
            return true;
        }
    }
    false
}

/// A candidate that is maximally specific and not abstract.
#[tactic(auto, unfolding(crate::specs::Concrete::concrete_at))]
fn concrete(
    entries: &Table,
    class: ClassNo,
    name: &Units,
    desc: &Units,
    at: ClassNo,
) -> Option<MethodNo>
    requires { IsTable entries.now }
    ensures { result ≡ concrete_at (classes_of entries.now) class name.now desc.now at }
{
    let method = candidate(entries, class, name, desc, at)?;
    if !is_overridden(entries, class, name, desc, method)
        && !method_has(entries, Flag::Abstract, method)
    {
        Some(method)
    } else {
        None
    }
}

/// How many of the maximally specific superinterface methods of a class are not abstract.
fn sole_concrete(entries: &Table, class: ClassNo, name: &Units, desc: &Units) -> Sole
    requires { IsTable entries.now }
    ensures { result ≡ sole_of (concrete_ones (classes_of entries.now) class name.now desc.now) }
{
    let order = order_of(entries, class);
    let mut found = None;
    for at in order {
        if let Some(method) = concrete(entries, class, name, desc, *at) {
            if found.is_some() {
                return Sole::Several;
            }
            found = Some(method);
        }
    }
    match found {
        Some(method) => Sole::One(method),
        None => Sole::Nothing,
    }
}

/// The first candidate of a class.
fn first_candidate(entries: &Table, class: ClassNo, name: &Units, desc: &Units) -> Option<MethodNo>
    requires { IsTable entries.now }
    ensures { result ≡ first_of (candidate_in (classes_of entries.now) class name.now desc.now) (lookup_order (classes_of entries.now) class) }
{
    let order = order_of(entries, class);
    for at in order {
        if let Some(method) = candidate(entries, class, name, desc, *at) {
            return Some(method);
        }
    }
    None
}

/// What the superinterfaces of a class give.
#[tactic(auto, unfolding(crate::specs::Resolution::from_superinterfaces))]
fn from_superinterfaces(
    entries: &Table,
    class: ClassNo,
    name: &Units,
    desc: &Units,
) -> Option<MethodNo>
    requires { IsTable entries.now }
    ensures { result ≡ among_superinterfaces (classes_of entries.now) class name.now desc.now }
{
    match sole_concrete(entries, class, name, desc) {
        Sole::One(method) => Some(method),
        Sole::Nothing | Sole::Several => first_candidate(entries, class, name, desc),
    }
}

/// What a class or the nearest superclass declares.
#[tactic(auto, unfolding(crate::specs::Resolution::from_superclasses))]
fn from_superclasses(
    entries: &Table,
    class: ClassNo,
    name: &Units,
    desc: &Units,
) -> Option<MethodNo>
    requires { IsTable entries.now }
    ensures { result ≡ among_superclasses (classes_of entries.now) class name.now desc.now }
{
    let supers = supers_of(entries, class);
    for at in supers {
        if let Some(method) = declared_method(entries, name, desc, *at) {
            return Some(method);
        }
    }
    None
}

/// What `Object` declares, where that is public and not static.
#[tactic(auto, unfolding(crate::specs::Resolution::from_object))]
fn from_object(
    entries: &Table,
    object: Option<ClassNo>,
    name: &Units,
    desc: &Units,
) -> Option<MethodNo>
    requires table { IsTable entries.now }
    requires object { object ≡ number_of (classes_of entries.now) object_name }
    ensures { result ≡ in_object (classes_of entries.now) name.now desc.now }
{
    let method = declared_method(entries, name, desc, object?)?;
    if method_has(entries, Flag::Public, method) && !method_has(entries, Flag::Static, method) {
        Some(method)
    } else {
        None
    }
}

/// What is found before superinterfaces are looked at.
fn from_classes(
    entries: &Table,
    object: Option<ClassNo>,
    class: ClassNo,
    name: &Units,
    desc: &Units,
) -> Option<MethodNo>
    requires table { IsTable entries.now }
    requires object { object ≡ number_of (classes_of entries.now) object_name }
    ensures { result ≡ among_classes (classes_of entries.now) class name.now desc.now }
{
    if !class_has(entries, Flag::Interface, class) {
        return from_superclasses(entries, class, name, desc);
    }
    match declared_method(entries, name, desc, class) {
        Some(method) => Some(method),
        None => from_object(entries, object, name, desc),
    }
}

/// A method by 5.4.3.3 and 5.4.3.4, where `object` is the class `Object`.
#[tactic(auto, unfolding(crate::specs::Resolution::resolved_method))]
pub(crate) fn resolve_method(
    entries: &Table,
    object: Option<ClassNo>,
    class: ClassNo,
    name: &Units,
    desc: &Units,
) -> Result<MethodNo, LinkFault>
    requires table { IsTable entries.now }
    requires object { object ≡ number_of (classes_of entries.now) object_name }
    ensures { result ≡ resolved_method (classes_of entries.now) class name.now desc.now }
{
    if let Some(method) = from_classes(entries, object, class, name, desc) {
        return Ok(method);
    }
    match from_superinterfaces(entries, class, name, desc) {
        Some(method) => Ok(method),
        None => Err(LinkFault::NoMethod),
    }
}

/// The method of a name and a descriptor that a call on this receiver runs (6.5).
#[tactic(auto, unfolding(crate::specs::Resolution::selected_by))]
fn select_by(
    entries: &Table,
    receiver: ClassNo,
    name: &Units,
    desc: &Units,
) -> Result<MethodNo, LinkFault>
    requires { IsTable entries.now }
    ensures { result ≡ selected_by (classes_of entries.now) receiver name.now desc.now }
{
    let supers = supers_of(entries, receiver);
    for at in supers {
        if let Some(method) = declared_virtual(entries, name, desc, *at) {
            if method_has(entries, Flag::Abstract, method) {
                return Err(LinkFault::Abstract);
            }
            return Ok(method);
        }
    }
    match sole_concrete(entries, receiver, name, desc) {
        Sole::Nothing => Err(LinkFault::Abstract),
        Sole::One(method) => Ok(method),
        Sole::Several => Err(LinkFault::Incompatible),
    }
}

/// The method that a call of `method` on this receiver runs (6.5).
#[tactic(auto, unfolding(crate::specs::Resolution::selected))]
pub(crate) fn select(
    entries: &Table,
    receiver: ClassNo,
    method: MethodNo,
) -> Result<MethodNo, LinkFault>
    requires { IsTable entries.now }
    ensures { result ≡ selected (classes_of entries.now) receiver method }
{
    if method_has(entries, Flag::Private, method) {
        return Ok(method);
    }
    let name = method_name(entries, method).ok_or(LinkFault::NoMethod)?;
    let desc = method_desc(entries, method).ok_or(LinkFault::NoMethod)?;
    select_by(entries, receiver, name, desc)
}
