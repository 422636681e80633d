ghost use Rattle.std.specs.Prelude.{◌≡◌, option_copied};
ghost use Rattle.class_tree.specs.Tree.{code_of, constant_of};

use crate::{CloneIn, Code, Flags, Same};
use sqlite_items::Items;
use std::alloc::{AllocError, Global};

/// Which of the two a member is, a name and a descriptor are of, or a pair of both is of.
#[derive(Clone, Copy)]
pub enum MemberKind {
    Field,
    Method,
}

/// A field or a method: a `field_info` (4.5) or a `method_info` (4.6).
#[derive(Drop)]
pub struct Member {
    pub flags: Flags,
    /// The pool's index of the text of its name.
    pub name: u16,
    /// The pool's index of the text of its descriptor (4.3).
    pub desc: u16,
    pub attrs: Items<Attr>,
}

/// An attribute of a class, a field or a method (4.7). `name` is the pool's index of the text of the attribute's name.
#[derive(Drop)]
pub enum Attr {
    /// One that is kept as its bytes, behind its length: any that is none of the two below.
    Raw { name: u16, bytes: Items<u8> },
    /// The `Code` of a method (4.7.3).
    Body { name: u16, code: Code },
    /// The `ConstantValue` of a static field (4.7.2): the pool's index of the value.
    Constant { name: u16, value: u16 },
}

impl Member {
    /// The first `Code` among the attributes (4.7.3).
    pub fn code(&self) -> Option<&Code>
        ensures { option_copied result ≡ code_of self.now.attrs }
    {
        for attr in self.attrs.as_slice() {
            if let Attr::Body { code, .. } = attr {
                return Some(code);
            }
        }
        None
    }

    /// The pool's index of the value of the first `ConstantValue` among the attributes (4.7.2).
    pub fn constant(&self) -> Option<u16>
        ensures { result ≡ constant_of self.now.attrs }
    {
        for attr in self.attrs.as_slice() {
            if let Attr::Constant { value, .. } = attr {
                return Some(*value);
            }
        }
        None
    }
}

impl Same for Member {
    fn same(&self, other: &Member) -> bool {
        self.flags.bits == other.flags.bits
            && self.name == other.name
            && self.desc == other.desc
            && self.attrs.same(&other.attrs)
    }
}

impl CloneIn for Member {
    fn clone_in(&self, alloc: Global) -> Result<Member, AllocError> {
        Ok(Member {
            flags: self.flags,
            name: self.name,
            desc: self.desc,
            attrs: self.attrs.clone_in(alloc)?,
        })
    }
}

impl Same for Attr {
    fn same(&self, other: &Attr) -> bool {
        match (self, other) {
            (Self::Raw { name, bytes }, Self::Raw { name: a, bytes: b }) => {
                name == a && bytes.as_slice() == b.as_slice()
            }
            (Self::Body { name, code }, Self::Body { name: a, code: b }) => {
                name == a && code.same(b)
            }
            (Self::Constant { name, value }, Self::Constant { name: a, value: b }) => {
                name == a && value == b
            }
            _ => false,
        }
    }
}

impl CloneIn for Attr {
    fn clone_in(&self, alloc: Global) -> Result<Attr, AllocError> {
        Ok(match self {
            Self::Raw { name, bytes } => Self::Raw {
                name: *name,
                bytes: Items::from_slice(alloc, bytes.as_slice())?,
            },
            Self::Body { name, code } => Self::Body {
                name: *name,
                code: code.clone_in(alloc)?,
            },
            Self::Constant { name, value } => Self::Constant {
                name: *name,
                value: *value,
            },
        })
    }
}
