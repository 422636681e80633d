ghost use Rattle.std.specs.Prelude.{◌≡◌, ◌↔◌, true, IsTrue, IfSome, IsNone, Some, option_map, option_copied, position, All};
ghost use Rattle.class_tree.specs.Tree.{entry_at, text_at, class_at, name_type_at, is_named, IsNamed, IsNamedAt};
ghost use Rattle.class_tree.specs.WellFormed.{is_well_formed};

use crate::{Attr, CloneIn, Const, Flags, Member, Same, pool};
use jv_names::Units;
use sqlite_items::Items;
use std::alloc::{AllocError, Global};
use std::marker::Model;

/// A class or an interface: a `ClassFile` (4.1), without its magic number and its counts. An index of the pool is the
/// number of an entry as the file has it: the first entry has the number 1, and no entry the number 0.
///
/// Each value is well-formed: its numbers are in their ranges, its indices name what they must, and its names, descriptors,
/// codes and attributes are as the standard says for versions 50 to 52, without floating point, native methods, method
/// handles and `invokedynamic`. The superclass may be wanting, as `Object`'s is. Which access flags go together, and where the
/// entries of a stack map lie, is not looked at.
#[derive(Drop)]
pub struct ClassFile {
    /// The minor number of the format's version.
    pub minor: u16,
    /// The major number of the format's version, as 52 for SE 8.
    pub major: u16,
    /// The constant pool, from entry 1 on.
    pub pool: Items<Const>,
    pub flags: Flags,
    /// The pool's index of its `Class`.
    pub this_class: u16,
    /// The pool's index of its superclass's `Class`, and 0 where it has none.
    pub super_class: u16,
    /// The pool's indices of its direct superinterfaces' `Class`es.
    pub interfaces: Items<u16>,
    pub fields: Items<Member>,
    pub methods: Items<Member>,
    pub attrs: Items<Attr>,
}

impl Model for ClassFile {
    ghost use Rattle.std.specs.Prelude.{IsTrue};
    ghost use Rattle.class_tree.specs.Trees.{Tree};

    ghost Value = { Tree };

    ghost use Rattle.class_tree.specs.FileTrees.{tree_of};
    ghost use Rattle.class_tree.specs.WellFormed.{is_well_formed};

    ghost view = { tree_of };

    ghost invariant = { λ f. IsTrue (is_well_formed (tree_of f)) };
}

impl ClassFile {
    /// The entry of the pool at an index.
    pub fn entry_at(&self, index: u16) -> Option<&Const>
        ensures { option_copied result ≡ entry_at self.now.pool index }
    {
        pool::entry_at(self.pool.as_slice(), index)
    }

    /// The text at an index of the pool, where a `Utf8` is there.
    pub fn text_at(&self, index: u16) -> Option<&Units>
        ensures { option_copied result ≡ text_at self.now.pool index }
    {
        pool::text_at(self.pool.as_slice(), index)
    }

    /// What the `Class` at an index of the pool names (4.4.1): a name in internal form, or the descriptor of an array class.
    pub fn class_at(&self, index: u16) -> Option<&Units>
        ensures { option_copied result ≡ class_at self.now.pool index }
    {
        pool::class_at(self.pool.as_slice(), index)
    }

    /// The name and the descriptor of the `NameType` at an index of the pool.
    pub fn name_type_at(&self, index: u16) -> Option<(&Units, &Units)>
        ensures { option_map (λ both. (both.0.now, both.1.now)) result ≡ name_type_at self.now.pool index }
    {
        match self.entry_at(index)? {
            Const::NameType(name, desc) => Some((self.text_at(*name)?, self.text_at(*desc)?)),
            _ => None,
        }
    }

    /// The class's own name in internal form.
    pub fn name(&self) -> Option<&Units>
        ensures named { option_copied result ≡ class_at self.now.pool self.now.this_class }

        // As each class is.
        ensures well_formed { is_well_formed self.now ≡ true }
    {
        self.class_at(self.this_class)
    }

    /// The superclass's name in internal form.
    pub fn super_name(&self) -> Option<&Units>
        ensures { option_copied result ≡ class_at self.now.pool self.now.super_class }
    {
        self.class_at(self.super_class)
    }

    /// The name of a field or a method of the class.
    pub fn name_of(&self, member: &Member) -> Option<&Units>
        ensures { option_copied result ≡ text_at self.now.pool member.now.name }
    {
        self.text_at(member.name)
    }

    /// The descriptor of a field or a method of the class (4.3).
    pub fn desc_of(&self, member: &Member) -> Option<&Units>
        ensures { option_copied result ≡ text_at self.now.pool member.now.desc }
    {
        self.text_at(member.desc)
    }

    /// Whether the pool has this text at an index.
    fn is_text_at(&self, index: u16, text: &Units) -> bool
        ensures { IsTrue result ↔ (text_at self.now.pool index ≡ Some text.now) }
    {
        match self.text_at(index) {
            Some(found) => found.same(text),
            None => false,
        }
    }

    /// Whether a member has this name and this descriptor.
    fn is_named(&self, member: &Member, name: &Units, desc: &Units) -> bool
        ensures { result ≡ is_named self.now.pool name.now desc.now member.now }
    {
        self.is_text_at(member.name, name) && self.is_text_at(member.desc, desc)
    }

    /// The place among `members` of the first one of this name and this descriptor.
    fn place_of(&self, members: &[Member], name: &Units, desc: &Units) -> Option<usize>
        ensures { result ≡ position (is_named self.now.pool name.now desc.now) members.now }
    {
        members
            .iter()
            .position(|member| self.is_named(member, name, desc))
    }

    /// The place among the methods of the first one of this name and this descriptor. It compares at most two texts for
    /// each method, and takes no memory.
    pub fn method_at(&self, name: &Units, desc: &Units) -> Option<usize>
        ensures first { result ≡ position (is_named self.now.pool name.now desc.now) self.now.methods }

        // The method there has that name and that descriptor, and where there is none, no method has.
        ensures found { IfSome result (IsNamedAt self.now.pool name.now desc.now self.now.methods) }
        ensures absent { IsNone result ↔ All (λ m. ¬ IsNamed self.now.pool name.now desc.now m) self.now.methods }
    {
        self.place_of(self.methods.as_slice(), name, desc)
    }

    /// The place among the fields of the first one of this name and this descriptor. It compares at most two texts for
    /// each field, and takes no memory.
    pub fn field_at(&self, name: &Units, desc: &Units) -> Option<usize>
        ensures first { result ≡ position (is_named self.now.pool name.now desc.now) self.now.fields }

        // The field there has that name and that descriptor, and where there is none, no field has.
        ensures found { IfSome result (IsNamedAt self.now.pool name.now desc.now self.now.fields) }
        ensures absent { IsNone result ↔ All (λ m. ¬ IsNamed self.now.pool name.now desc.now m) self.now.fields }
    {
        self.place_of(self.fields.as_slice(), name, desc)
    }
}

impl Same for ClassFile {
    fn same(&self, other: &ClassFile) -> bool {
        self.minor == other.minor
            && self.major == other.major
            && self.pool.same(&other.pool)
            && self.flags.bits == other.flags.bits
            && self.this_class == other.this_class
            && self.super_class == other.super_class
            && self.interfaces.as_slice() == other.interfaces.as_slice()
            && self.fields.same(&other.fields)
            && self.methods.same(&other.methods)
            && self.attrs.same(&other.attrs)
    }
}

impl CloneIn for ClassFile {
    fn clone_in(&self, alloc: Global) -> Result<ClassFile, AllocError> {
        Ok(ClassFile {
            minor: self.minor,
            major: self.major,
            pool: self.pool.clone_in(alloc)?,
            flags: self.flags,
            this_class: self.this_class,
            super_class: self.super_class,
            interfaces: Items::from_slice(alloc, self.interfaces.as_slice())?,
            fields: self.fields.clone_in(alloc)?,
            methods: self.methods.clone_in(alloc)?,
            attrs: self.attrs.clone_in(alloc)?,
        })
    }
}
