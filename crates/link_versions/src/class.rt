ghost use Rattle.std.specs.Prelude.{◌≡◌, length, OnOk, OnErr};
ghost use Rattle.link_versions.specs.Classes.{versions_of};
ghost use Rattle.link_versions.specs.Entries.{kind_of, with_added, IsFileEntry};

use crate::member_index::MemberIndex;
use class_code::Instr;
use class_tree::ClassFile;
use jv_names::Units;
use sqlite_items::Items;
use std::alloc::AllocError;
use ti_ids::{ClassNo, InitState};

/// What is left of an array type when its dimensions are taken off (2.4).
#[derive(Clone, Copy)]
pub enum Element {
    Boolean,
    Byte,
    Char,
    Short,
    Int,
    Long,
    /// A class or an interface that is no array class.
    Class(ClassNo),
}

/// The instructions of a method, each with its offset in bytes.
pub(crate) type Instrs = Items<(u16, Instr)>;

/// A version of a class, with its methods' code made ready: `codes` has an entry for each method, in the order of the file.
/// `fields` and `methods` find the places of its members.
#[derive(Drop)]
pub(crate) struct Version {
    pub(crate) tree: ClassFile,
    pub(crate) codes: Items<Option<Instrs>>,
    pub(crate) fields: MemberIndex,
    pub(crate) methods: MemberIndex,
}

/// What a class is.
#[derive(Drop)]
pub(crate) enum EntryKind {
    /// One of a file, by its versions, the first first.
    File(Items<Version>),
    /// An array class.
    Array { dimensions: usize, element: Element },
}

/// A class as it is held. `order` is its lookup order, and `supers` are itself and its superclasses upwards, computed once.
#[derive(Drop)]
pub(crate) struct Entry {
    pub(crate) name: Units,
    pub(crate) parent: Option<ClassNo>,
    pub(crate) interfaces: Items<ClassNo>,
    pub(crate) order: Items<ClassNo>,
    pub(crate) supers: Items<ClassNo>,
    pub(crate) kind: EntryKind,
    pub(crate) state: InitState,
}

impl Entry {
    /// How many versions there are, of which an array class has none.
    pub(crate) fn version_count(&self) -> usize
        ensures { result ≡ length (versions_of (kind_of self.now.kind)) }
    {
        match &self.kind {
            EntryKind::File(versions) => versions.len(),
            EntryKind::Array { .. } => 0,
        }
    }

    /// Adds a version of a file.
    pub(crate) fn add_version(&mut self, version: Version) -> Result<(), AllocError>
        requires { IsFileEntry self.old }
        ensures ok { OnOk result (self.new ≡ with_added version self.old) }
        ensures err { OnErr result (self.new ≡ self.old) }
    {
        match &mut self.kind {
            EntryKind::File(versions) => versions.push(version),
            EntryKind::Array { .. } => unreachable!(),
        }
    }
}
