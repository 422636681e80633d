ghost use Rattle.std.specs.Prelude.{◌≡◌, option_copied};
ghost use Rattle.class_code.specs.Listing.{IsRising};
ghost use Rattle.type_frames.specs.Environments.{made_at};
ghost use Rattle.type_rules.specs.Methods.{env_of};

use class_code::{Instr, PoolOp, entry_at};
use class_tree::ClassFile;
use jv_names::Units;
use type_frames::{Hierarchy, VTypeRef};

/// What the rules of the instructions know of the method (4.10.1.1).
#[derive(Clone, Copy)]
pub struct Method<'a> {
    pub hierarchy: &'a Hierarchy,
    pub tree: &'a ClassFile,
    /// The class's name.
    pub class: &'a Units,
    /// Its superclass's name.
    pub parent: Option<&'a Units>,
    pub is_init: bool,
    pub result: Option<VTypeRef<'a>>,
    /// In words.
    pub max_stack: u16,
    pub instrs: &'a [(u16, Instr)],
}

impl<'a> Method<'a> {
    /// The class that the `new` at an offset makes an object of.
    pub(crate) fn made_at(&self, at: u16) -> Option<&'a Units>
        requires { IsRising self.now.instrs.now }
        ensures { option_copied result ≡ made_at (env_of self.now) at }
    {
        let (instr, _) = entry_at(self.instrs, at)?;
        match instr {
            Instr::Pool(PoolOp::New, index) => self.tree.class_at(*index),
            _ => None,
        }
    }
}
