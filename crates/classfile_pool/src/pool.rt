ghost use Rattle.std.specs.Prelude.{◌≡◌, ◌↔◌, ℕ, IfOk, option_copied, option_map};
ghost use Rattle.jv_names.specs.Names.{is_class_name};
ghost use Rattle.class_tree.specs.Tree.{entry_at, text_at, class_at, names_class};
ghost use Rattle.class_tree.specs.PoolRules.{is_name, desc_flaw, class_text_flaw, kind_of, names_pair};
ghost use Rattle.classfile_pool.specs.TextRoles.{roles_of};
ghost use Rattle.classfile_items.specs.Reading.{Reads};
ghost use Rattle.classfile_pool.specs.PoolReading.{pool_at};

use crate::entry::places;
use crate::references::entries_fault;
use crate::roles::{Roles, all_roles};
use class_tree::{Const, MemberKind};
use classfile_items::{ReadClassFault, offset, u2};
use jv_names::{DescFlaw, Units};
use sqlite_items::Items;
use std::alloc::{AllocError, Global};
use std::marker::Model;

/// A constant pool that has been read (4.4), and what each of its texts may serve as, which is computed once. Contracts see
/// it as its entries. Each look-up takes an index as the file has it, from 1 on, and constant time.
#[derive(Drop)]
pub struct Pool {
    entries: Items<Const>,
    roles: Items<Option<Roles>>,
}

impl Model for Pool {
    ghost use Rattle.std.specs.Prelude.{◌≡◌, List, map};
    ghost use Rattle.class_tree.specs.declared.pool.Const.{Const};
    ghost use Rattle.classfile_pool.specs.TextRoles.{roles_at};

    ghost Value = { List Const };

    ghost view = { λ pool. pool.entries };

    ghost invariant = { λ pool. pool.roles ≡ map roles_at pool.entries };
}

impl Pool {
    /// The pool of these entries, whose texts are looked through.
    pub fn new(alloc: Global, entries: Items<Const>) -> Result<Pool, AllocError>
        ensures { IfOk result (λ pool. pool ≡ entries) }
    {
        let roles = all_roles(alloc, entries.as_slice())?;
        Ok(Pool { entries, roles })
    }

    /// The entries in the order of the file.
    pub fn entries(&self) -> &[Const]
        ensures { result.now ≡ self.now }
    {
        self.entries.as_slice()
    }

    /// The entries, with no memory taken.
    pub fn into_entries(self) -> Items<Const>
        ensures { result ≡ self }
    {
        self.entries
    }

    /// The entry at an index.
    pub fn entry_at(&self, index: u16) -> Option<&Const>
        ensures { option_copied result ≡ entry_at self.now index }
    {
        class_tree::entry_at(self.entries.as_slice(), index)
    }

    /// The text at an index, `None` where anything else or nothing stands.
    pub fn text_at(&self, index: u16) -> Option<&Units>
        ensures { option_copied result ≡ text_at self.now index }
    {
        class_tree::text_at(self.entries.as_slice(), index)
    }

    /// Whether a class stands at an index, also one of an array (4.4.1).
    pub fn names_class(&self, index: u16) -> bool
        ensures { result ≡ names_class self.now index }
    {
        class_tree::names_class(self.entries.as_slice(), index)
    }

    /// What the text at an index may serve as.
    fn roles_at(&self, index: u16) -> Option<Roles>
        ensures { result ≡ option_map roles_of (text_at self.now index) }
    {
        if index == 0 {
            return None;
        }
        *self.roles.get(usize::from(index) - 1)?
    }

    /// Whether the text at an index may be the name of a member of a kind (4.2.2). `None` where no text stands there.
    pub fn is_name(&self, kind: MemberKind, index: u16) -> Option<bool>
        ensures { result ≡ option_map (is_name kind) (text_at self.now index) }
    {
        let roles = self.roles_at(index)?;
        Some(match kind {
            MemberKind::Field => roles.field_name,
            MemberKind::Method => roles.method_name,
        })
    }

    /// Why the text at an index is no descriptor of a kind (4.3), if it is none. `None` where no text stands there.
    pub fn desc_flaw(&self, kind: MemberKind, index: u16) -> Option<Option<DescFlaw>>
        ensures { result ≡ option_map (desc_flaw kind) (text_at self.now index) }
    {
        let roles = self.roles_at(index)?;
        Some(match kind {
            MemberKind::Field => roles.field_desc,
            MemberKind::Method => roles.method_desc,
        })
    }

    /// Why no class may have the text at an index (4.4.1), if none may. `None` where no text stands there.
    pub fn class_text_flaw(&self, index: u16) -> Option<Option<DescFlaw>>
        ensures { result ≡ option_map class_text_flaw (text_at self.now index) }
    {
        Some(self.roles_at(index)?.class)
    }

    /// What kind of member the text at an index, or none, would be the descriptor of: a method's begins with `(` (4.3.3).
    pub fn desc_kind(&self, index: u16) -> MemberKind
        ensures { result ≡ kind_of (text_at self.now index) }
    {
        match self.roles_at(index) {
            Some(roles) if roles.begins_method => MemberKind::Method,
            _ => MemberKind::Field,
        }
    }

    /// Whether a name and a descriptor of a kind stand at an index (4.4.6).
    pub fn names_pair(&self, kind: MemberKind, index: u16) -> bool
        ensures { result ≡ names_pair self.now kind index }
    {
        match self.entry_at(index) {
            Some(Const::NameType(_, desc)) => match (self.desc_kind(*desc), kind) {
                (MemberKind::Field, MemberKind::Field) => true,
                (MemberKind::Method, MemberKind::Method) => true,
                _ => false,
            },
            _ => false,
        }
    }

    /// Whether the class at an index is one that is no array (4.2.1). `None` where no class with a text stands there.
    pub fn plain_class(&self, index: u16) -> Option<bool>
        ensures { result ≡ option_map is_class_name (class_at self.now index) }
    {
        match self.entry_at(index)? {
            Const::Class(name) => Some(self.roles_at(*name)?.plain_class),
            _ => None,
        }
    }
}

/// The constant pool behind its count (4.1 and 4.4): its entries are read first, and then what they name is looked at, in the
/// order of their indices.
#[tactic(auto, using(crate::proofs::PoolSizes::places_length))]
pub fn pool_at(alloc: Global, end: usize, bytes: &[u8]) -> Result<(Pool, &[u8]), ReadClassFault>
    ensures { Reads result (pool_at end bytes.now) }
{
    let (count, entries_on) = u2(end, bytes)?;
    let (entries, rest) = places(alloc, end, count.saturating_sub(1), entries_on)?;
    let pool = Pool::new(alloc, entries)?;
    match entries_fault(&pool, offset(end, entries_on)) {
        Some(fault) => Err(fault),
        None => Ok((pool, rest)),
    }
}
