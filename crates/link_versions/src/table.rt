ghost use Rattle.std.specs.Prelude.{◌≡◌, ◌+◌, ◌<◌, ◌^◌, [], ◌∷◌, length, Option, Some, OnOk, OnErr, IfOk, IfErr, option_copied, option_map};
ghost use Rattle.std.specs.Option.{option_and_then};
ghost use Rattle.class_tree.specs.Tree.{class_at as name_at};
ghost use Rattle.link_versions.specs.Classes.{class_at, version_at, number_of, is_interface as has_interface_flag};
ghost use Rattle.link_versions.specs.Subtypes.{is_subclass as subclass};
ghost use Rattle.link_versions.specs.Resolution.{found_or, resolved_field, resolved_method, selected};
ghost use Rattle.link_versions.specs.Changes.{IsThere, CanDefine, interfaces_by, file_class, AreLawful};
ghost use Rattle.link_versions.specs.Entries.{class_of, IsSound};

use crate::class::{Entry, EntryKind, Version};
use crate::entry_table::Table;
use crate::order::{collect_order, collect_supers};
use crate::{LinkFault, entries, method, subtype};
use class_tree::{ClassFile, Flag};
use jv_names::{OBJECT, Units};
use sqlite_items::Items;
use std::alloc::{AllocError, Global};
use std::marker::Model;
use ti_ids::{ClassNo, FieldNo, InitState, MethodNo, VersionNo};

/// The name of a file's class.
fn own_name(alloc: Global, tree: &ClassFile) -> Result<Units, AllocError>
    ensures { IfOk result (λ name. name_at tree.now.pool tree.now.this_class ≡ Some name) }
{
    match tree.name() {
        Some(name) => name.clone_in(alloc),
        None => unreachable!(),
    }
}

/// The classes of a run. Contracts see them as a list, the newest first; a class's number is how many classes there are from
/// it to the end.
#[derive(Drop)]
pub struct Classes {
    pub(crate) alloc: Global,
    pub(crate) table: Table,
}

impl Model for Classes {
    ghost use Rattle.std.specs.Prelude.{◌<◌, ◌^◌, List, length};
    ghost use Rattle.link_versions.specs.Classes.{Class};

    ghost Value = { List Class };

    ghost use Rattle.link_versions.specs.Entries.{classes_of, IsTable};

    ghost view = { λ c. classes_of c.table };

    // Each number fits 32 bits.
    ghost invariant = { λ c. IsTable c.table × (length c.table < 2 ^ 32) };
}

impl Classes {
    /// No classes, in memory of this allocator.
    pub fn new(alloc: Global) -> Classes
        ensures { result ≡ [] }
    {
        Classes {
            alloc,
            table: Table::new(alloc),
        }
    }

    /// How many classes there are. The number of the newest one is the same.
    pub fn count(&self) -> usize
        ensures count { result ≡ length self.now }

        // What every list of classes keeps.
        ensures lawful { AreLawful self.now }
    {
        self.table.len()
    }

    /// The number of the class of this name.
    pub(crate) fn find(&self, name: &[u16]) -> Option<ClassNo>
        ensures { result ≡ number_of self.now name.now }
    {
        match self.table.find(name) {
            Some(place) => Some(ClassNo((place + 1) as u32)),
            None => None,
        }
    }

    /// The class of this name (5.4.3.1, as far as it is defined).
    pub fn resolve_class(&self, name: &Units) -> Result<ClassNo, LinkFault>
        ensures { result ≡ found_or LinkFault.NoClass (number_of self.now name.now) }
    {
        match self.find(name.as_slice()) {
            Some(class) => Ok(class),
            None => Err(LinkFault::NoClass),
        }
    }

    /// The field of this name and this descriptor that a reference to a class names (5.4.3.2).
    pub fn resolve_field(
        &self,
        class: ClassNo,
        name: &Units,
        desc: &Units,
    ) -> Result<FieldNo, LinkFault>
        requires { IsThere self.now class }
        ensures { result ≡ resolved_field self.now class name.now desc.now }
    {
        method::resolve_field(&self.table, class, name, desc)
    }

    /// The method of this name and this descriptor that a reference to a class or an interface names (5.4.3.3 and 5.4.3.4).
    ///
    /// It goes by what the class is. That the reference is of the same kind is for the caller to compare, by `is_interface`.
    pub fn resolve_method(
        &self,
        class: ClassNo,
        name: &Units,
        desc: &Units,
    ) -> Result<MethodNo, LinkFault>
        requires { IsThere self.now class }
        ensures { result ≡ resolved_method self.now class name.now desc.now }
    {
        let object = self.find(&OBJECT);
        method::resolve_method(&self.table, object, class, name, desc)
    }

    /// The method that a call of a resolved method runs on a receiver of this class (6.5, `invokevirtual` and
    /// `invokeinterface`).
    ///
    /// `NoMethod` says that the method itself is not there.
    pub fn select(&self, receiver: ClassNo, method: MethodNo) -> Result<MethodNo, LinkFault>
        requires { IsThere self.now receiver }
        ensures { result ≡ selected self.now receiver method }
    {
        method::select(&self.table, receiver, method)
    }

    /// Whether a value of one class may be taken for one of another (6.5, `checkcast`).
    pub fn is_subclass(&self, from: ClassNo, to: ClassNo) -> bool
        requires from { IsThere self.now from }
        requires to { IsThere self.now to }
        ensures { result ≡ subclass self.now from to }
    {
        subtype::is_subclass(&self.table, from, to)
    }

    /// Whether a class is an interface.
    pub fn is_interface(&self, class: ClassNo) -> bool
        requires { IsThere self.now class }
        ensures { result ≡ has_interface_flag self.now class }
    {
        entries::class_has(&self.table, Flag::Interface, class)
    }

    /// A class that is there.
    fn entry(&self, class: ClassNo) -> &Entry
        requires { IsThere self.now class }
        ensures { class_at self.now class ≡ Some (class_of result.now) }
    {
        match self.table.at(class.0 as usize - 1) {
            Some(entry) => entry,
            None => unreachable!(),
        }
    }

    /// The name of a class, in internal form; of an array class, its descriptor.
    pub fn name(&self, class: ClassNo) -> &Units
        requires { IsThere self.now class }
        ensures { option_map (λ c. c.name) (class_at self.now class) ≡ Some result.now }
    {
        &self.entry(class).name
    }

    /// The superclass of a class.
    pub fn parent(&self, class: ClassNo) -> Option<ClassNo>
        requires { IsThere self.now class }
        ensures { option_map (λ c. c.parent) (class_at self.now class) ≡ Some result }
    {
        self.entry(class).parent
    }

    /// The direct superinterfaces of a class, in the order of its file.
    pub fn interfaces(&self, class: ClassNo) -> &[ClassNo]
        requires { IsThere self.now class }
        ensures { option_map (λ c. c.interfaces) (class_at self.now class) ≡ Some result.now }
    {
        self.entry(class).interfaces.as_slice()
    }

    /// How far a class is.
    pub fn init_state(&self, class: ClassNo) -> InitState
        requires { IsThere self.now class }
        ensures { option_map (λ c. c.state) (class_at self.now class) ≡ Some result }
    {
        self.entry(class).state
    }

    /// The tree of a version, where there is one.
    ///
    /// A method's number is its place among all names and descriptors that its class ever had. A later version may have its methods
    /// in another order.
    pub fn tree(&self, version: VersionNo) -> Option<&ClassFile>
        ensures { option_copied result ≡ version_at self.now version }
    {
        entries::version_tree(&self.table, version)
    }

    /// The number of the class of a name, where there is one.
    fn named(&self, name: Option<&Units>) -> Option<ClassNo>
        ensures { result ≡ option_and_then (number_of self.now) (option_copied name.entry) }
    {
        self.find(name?.as_slice())
    }

    /// The interfaces that a file names, as far as they are there.
    fn interfaces_of(&self, tree: &ClassFile) -> Result<Items<ClassNo>, AllocError>
        ensures { IfOk result (λ interfaces. interfaces ≡ interfaces_by (number_of self.now) tree.now) }
    {
        let mut interfaces = Items::new(self.alloc);
        for index in tree.interfaces.as_slice() {
            if let Some(class) = self.named(tree.class_at(*index)) {
                interfaces.push(class)?;
            }
        }
        Ok(interfaces)
    }

    /// The entry of a new class of a file.
    fn file_entry(&self, tree: ClassFile) -> Result<Entry, AllocError>
        requires can { CanDefine self.now tree }
        requires room { length self.now + 1 < 2 ^ 32 }
        ensures class { IfOk result (λ e. class_of e ≡ file_class (number_of self.now) tree) }
        ensures sound { IfOk result (IsSound self.now) }
    {
        let number = ClassNo((self.table.len() + 1) as u32);
        let name = own_name(self.alloc, &tree)?;
        let parent = self.named(tree.super_name());
        let interfaces = self.interfaces_of(&tree)?;
        let order = collect_order(
            self.alloc,
            &self.table,
            number,
            interfaces.as_slice(),
            parent,
        )?;
        let supers = collect_supers(self.alloc, &self.table, number, parent)?;
        let mut versions = Items::new(self.alloc);
        versions.push(Version::new(self.alloc, tree)?)?;
        Ok(Entry {
            name,
            parent,
            interfaces,
            order,
            supers,
            kind: EntryKind::File(versions),
            state: InitState::Loaded,
        })
    }

    /// Adds a class that is none of those that are there.
    pub(crate) fn push(&mut self, entry: Entry) -> Result<ClassNo, AllocError>
        requires sound { IsSound self.old entry }
        requires room { length self.old + 1 < 2 ^ 32 }
        ensures ok { OnOk result (self.new ≡ class_of entry ∷ self.old) }
        ensures number { IfOk result (λ n. n.0 ≡ length self.new) }
        ensures err { OnErr result (self.new ≡ self.old) }
    {
        let number = ClassNo((self.table.len() + 1) as u32);
        let key = entry.name.clone_in(self.alloc)?.into_vec();
        self.table.push(key, entry)?;
        Ok(number)
    }

    /// Defines a class of a file, with its first version, and gives its number, which is the count of classes after it.
    ///
    /// Only want of memory refuses it, by `Memory`.
    pub fn define(&mut self, tree: ClassFile) -> Result<ClassNo, LinkFault>
        requires can { CanDefine self.old tree }

        // A number fits 32 bits.
        requires room { length self.old + 1 < 2 ^ 32 }
        ensures defined { OnOk result (self.new ≡ file_class (number_of self.old) tree ∷ self.old) }
        ensures number { IfOk result (λ n. n.0 ≡ length self.new) }

        // After want of memory all is as it was.
        ensures err { OnErr result (self.new ≡ self.old) }
        ensures memory { IfErr result (λ e. e ≡ LinkFault.Memory) }
    {
        let entry = self.file_entry(tree)?;
        Ok(self.push(entry)?)
    }
}
