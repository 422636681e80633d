//! A class by its number, and what it declares.
ghost use Rattle.std.specs.Prelude.{◌≡◌, reverse, option_copied, option_map, slice_get, IfSome};
ghost use Rattle.std.specs.Option.{option_and_then};
ghost use Rattle.class_code.specs.Listing.{IsRising};
ghost use Rattle.link_versions.specs.Classes.{numbered, version_at, version_count as count_of_versions, first_version as first_of_class, class_has as class_flag};
ghost use Rattle.link_versions.specs.Orders.{lookup_order, superclasses};
ghost use Rattle.link_versions.specs.Members.{declared_field as field_in, declared_method as method_in, method_name as name_of, method_desc as desc_of, method_has as method_flag, declared_virtual as virtual_in};
ghost use Rattle.link_versions.specs.ReadyCode.{code_in};
ghost use Rattle.link_versions.specs.Entries.{classes_of, IsReady, IsTable};

use crate::class::{Entry, EntryKind, Version};
use crate::entry_table::Table;
use class_code::Instr;
use class_tree::{ClassFile, Flag, Member};
use jv_names::Units;
use ti_ids::{ClassNo, FieldNo, MethodNo, VersionNo};

/// The class of a number.
pub(crate) fn entry_at(entries: &Table, class: ClassNo) -> Option<&Entry>
    ensures { option_copied result ≡ numbered (reverse entries.now) class.0 }
{
    if class.0 == 0 {
        return None;
    }
    entries.at(class.0 as usize - 1)
}

/// The first version of a class.
pub(crate) fn first_version(entries: &Table, class: ClassNo) -> Option<&ClassFile>
    ensures { option_copied result ≡ first_of_class (classes_of entries.now) class }
{
    match &entry_at(entries, class)?.kind {
        EntryKind::File(versions) => match versions.get(0) {
            Some(version) => Some(&version.tree),
            None => None,
        },
        EntryKind::Array { .. } => None,
    }
}

/// How many versions a class has.
pub(crate) fn version_count(entries: &Table, class: ClassNo) -> usize
    ensures { result ≡ count_of_versions (classes_of entries.now) class }
{
    match entry_at(entries, class) {
        Some(entry) => entry.version_count(),
        None => 0,
    }
}

/// A version as it is held.
fn held_version(entries: &Table, version: VersionNo) -> Option<&Version>
    requires { IsTable entries.now }
    ensures tree { option_map (λ v. v.now.tree) result ≡ version_at (classes_of entries.now) version }
    ensures ready { IfSome result (λ v. IsReady v.now) }
{
    match &entry_at(entries, version.class)?.kind {
        EntryKind::File(versions) => versions.get(version.place as usize),
        EntryKind::Array { .. } => None,
    }
}

/// The tree of a version.
pub(crate) fn version_tree(entries: &Table, version: VersionNo) -> Option<&ClassFile>
    requires { IsTable entries.now }
    ensures { option_copied result ≡ version_at (classes_of entries.now) version }
{
    match held_version(entries, version) {
        Some(held) => Some(&held.tree),
        None => None,
    }
}

/// The code of a method in a version.
#[tactic(auto, unfolding(crate::specs::ReadyCode::code_in))]
pub(crate) fn code(entries: &Table, version: VersionNo, method: MethodNo) -> Option<&[(u16, Instr)]>
    requires { IsTable entries.now }
    ensures code { option_copied result ≡ code_in (classes_of entries.now) version method }
    ensures rising { IfSome result (λ list. IsRising list.now) }
{
    if version.class.0 != method.class.0 {
        return None;
    }
    let held = held_version(entries, version)?;
    let name = method_name(entries, method)?;
    let desc = method_desc(entries, method)?;
    held.code(name, desc)
}

/// Whether a class has a flag.
#[tactic(auto, unfolding(crate::specs::Classes::class_has))]
pub(crate) fn class_has(entries: &Table, flag: Flag, class: ClassNo) -> bool
    ensures { result ≡ class_flag (classes_of entries.now) flag class }
{
    match first_version(entries, class) {
        Some(tree) => tree.flags.has(flag),
        None => false,
    }
}

/// The first version of a class as it is held.
#[tactic(auto, using(crate::proofs::Held::first_by_version))]
fn first_held(entries: &Table, class: ClassNo) -> Option<&Version>
    requires { IsTable entries.now }
    ensures tree { option_map (λ v. v.now.tree) result ≡ first_of_class (classes_of entries.now) class }
    ensures ready { IfSome result (λ v. IsReady v.now) }
{
    held_version(entries, VersionNo { class, place: 0 })
}

/// The field that a class declares.
#[tactic(auto, unfolding(crate::specs::Members::declared_field))]
pub(crate) fn declared_field(
    entries: &Table,
    name: &Units,
    desc: &Units,
    class: ClassNo,
) -> Option<FieldNo>
    requires { IsTable entries.now }
    ensures { result ≡ field_in (classes_of entries.now) name.now desc.now class }
{
    let place = first_held(entries, class)?.fields.find(name, desc)?;
    Some(FieldNo { class, place })
}

/// The method that a class declares. Each version has the methods of the first one, so that one numbers them.
#[tactic(auto, using(crate::proofs::ByNumber::declared_first))]
pub(crate) fn declared_method(
    entries: &Table,
    name: &Units,
    desc: &Units,
    class: ClassNo,
) -> Option<MethodNo>
    requires { IsTable entries.now }
    ensures { result ≡ method_in (classes_of entries.now) name.now desc.now class }
{
    let place = first_held(entries, class)?.methods.find(name, desc)?;
    Some(MethodNo { class, place })
}

/// A method as the first version of its class has it.
fn first_method(entries: &Table, method: MethodNo) -> Option<&Member>
    ensures { option_copied result ≡ option_and_then (λ t. slice_get t.methods method.place) (first_of_class (classes_of entries.now) method.class) }
{
    first_version(entries, method.class)?
        .methods
        .get(method.place as usize)
}

/// Whether a method has a flag, which no version of its class changes.
pub(crate) fn method_has(entries: &Table, flag: Flag, method: MethodNo) -> bool
    requires { IsTable entries.now }
    ensures { result ≡ method_flag (classes_of entries.now) flag method }
{
    match first_method(entries, method) {
        Some(member) => member.flags.has(flag),
        None => false,
    }
}

/// The name of a method.
#[tactic(auto, using(crate::proofs::ByNumber::name_first))]
pub(crate) fn method_name(entries: &Table, method: MethodNo) -> Option<&Units>
    requires { IsTable entries.now }
    ensures { option_copied result ≡ name_of (classes_of entries.now) method }
{
    let tree = first_version(entries, method.class)?;
    tree.name_of(tree.methods.get(method.place as usize)?)
}

/// The descriptor of a method.
#[tactic(auto, using(crate::proofs::ByNumber::desc_first))]
pub(crate) fn method_desc(entries: &Table, method: MethodNo) -> Option<&Units>
    requires { IsTable entries.now }
    ensures { option_copied result ≡ desc_of (classes_of entries.now) method }
{
    let tree = first_version(entries, method.class)?;
    tree.desc_of(tree.methods.get(method.place as usize)?)
}

/// The method that a class declares, where it is neither private nor static.
#[tactic(auto, unfolding(crate::specs::Members::declared_virtual))]
pub(crate) fn declared_virtual(
    entries: &Table,
    name: &Units,
    desc: &Units,
    class: ClassNo,
) -> Option<MethodNo>
    requires { IsTable entries.now }
    ensures { result ≡ virtual_in (classes_of entries.now) name.now desc.now class }
{
    let method = declared_method(entries, name, desc, class)?;
    if !method_has(entries, Flag::Private, method) && !method_has(entries, Flag::Static, method) {
        Some(method)
    } else {
        None
    }
}

/// The lookup order of a class.
pub(crate) fn order_of(entries: &Table, class: ClassNo) -> &[ClassNo]
    requires { IsTable entries.now }
    ensures { result.now ≡ lookup_order (classes_of entries.now) class }
{
    match entry_at(entries, class) {
        Some(entry) => entry.order.as_slice(),
        None => &[],
    }
}

/// A class and its superclasses upwards.
pub(crate) fn supers_of(entries: &Table, class: ClassNo) -> &[ClassNo]
    requires { IsTable entries.now }
    ensures { result.now ≡ superclasses (classes_of entries.now) class }
{
    match entry_at(entries, class) {
        Some(entry) => entry.supers.as_slice(),
        None => &[],
    }
}
