ghost use Rattle.std.specs.Prelude.{◌≡◌, option_copied};
ghost use Rattle.class_tree.specs.Tree.{frames_of};

use crate::{CloneIn, Same, StackMapFrame};
use sqlite_items::Items;
use std::alloc::{AllocError, Global};

/// The body of a method, with its sizes and its handlers: what an attribute `Code` holds (4.7.3).
#[derive(Drop)]
pub struct Code {
    /// The greatest depth of the operand stack, in entries of which a long takes two.
    pub max_stack: u16,
    /// The number of local variables, of which a long takes two.
    pub max_locals: u16,
    /// The instructions. An offset in the code is a place in these bytes.
    pub bytes: Items<u8>,
    /// In the order in which a throw tries them.
    pub handlers: Items<Handler>,
    pub attrs: Items<CodeAttr>,
}

/// An entry of a code's exception table (4.7.3). Its places are offsets in the code, in bytes.
#[derive(Clone, Copy)]
pub struct Handler {
    /// Where the range begins that it handles.
    pub start: u16,
    /// Behind the last byte of the range.
    pub end: u16,
    /// Where it begins itself.
    pub target: u16,
    /// The pool's index of the `Class` that it catches, and 0 where it catches all.
    pub catch_type: u16,
}

/// An attribute of a code (4.7.3). `name` is the pool's index of the text of the attribute's name.
#[derive(Drop)]
pub enum CodeAttr {
    /// One that is kept as its bytes, behind its length.
    Raw {
        name: u16,
        bytes: Items<u8>,
    },
    /// A `StackMapTable` (4.7.4).
    Frames {
        name: u16,
        entries: Items<StackMapFrame>,
    },
}

impl Code {
    /// The entries of the first `StackMapTable` among the attributes (4.7.4).
    pub fn frames(&self) -> Option<&[StackMapFrame]>
        ensures { option_copied result ≡ frames_of self.now.attrs }
    {
        for attr in self.attrs.as_slice() {
            if let CodeAttr::Frames { entries, .. } = attr {
                return Some(entries.as_slice());
            }
        }
        None
    }
}

impl Same for Code {
    fn same(&self, other: &Code) -> bool {
        self.max_stack == other.max_stack
            && self.max_locals == other.max_locals
            && self.bytes.as_slice() == other.bytes.as_slice()
            && self.handlers.same(&other.handlers)
            && self.attrs.same(&other.attrs)
    }
}

impl CloneIn for Code {
    fn clone_in(&self, alloc: Global) -> Result<Code, AllocError> {
        Ok(Code {
            max_stack: self.max_stack,
            max_locals: self.max_locals,
            bytes: Items::from_slice(alloc, self.bytes.as_slice())?,
            handlers: Items::from_slice(alloc, self.handlers.as_slice())?,
            attrs: self.attrs.clone_in(alloc)?,
        })
    }
}

impl Same for Handler {
    fn same(&self, other: &Handler) -> bool {
        self.start == other.start
            && self.end == other.end
            && self.target == other.target
            && self.catch_type == other.catch_type
    }
}

impl Same for CodeAttr {
    fn same(&self, other: &CodeAttr) -> bool {
        match (self, other) {
            (Self::Raw { name, bytes }, Self::Raw { name: a, bytes: b }) => {
                name == a && bytes.as_slice() == b.as_slice()
            }
            (
                Self::Frames { name, entries },
                Self::Frames {
                    name: a,
                    entries: b,
                },
            ) => { name == a && entries.same(b) }
            _ => false,
        }
    }
}

impl CloneIn for CodeAttr {
    fn clone_in(&self, alloc: Global) -> Result<CodeAttr, AllocError> {
        Ok(match self {
            Self::Raw { name, bytes } => Self::Raw {
                name: *name,
                bytes: Items::from_slice(alloc, bytes.as_slice())?,
            },
            Self::Frames { name, entries } => Self::Frames {
                name: *name,
                entries: entries.clone_in(alloc)?,
            },
        })
    }
}
