ghost use Rattle.std.specs.Prelude.{◌≡◌, ◌++◌, ◌∷◌, [], None, IfOk, OnOk, OnErr, is_none, length, map};
ghost use Rattle.std.specs.Option.{option_copied};
ghost use Rattle.jv_names.specs.Names.{Name};
ghost use Rattle.type_frames.specs.Hierarchies.{class_named};
ghost use Rattle.type_frames.specs.TypeChecks.{class_name};
ghost use Rattle.type_frames.specs.Stated.{stated_class as class_stated, with_class, stated};

use crate::HierarchyClass;
use crate::stated::stated_class;
use class_tree::ClassFile;
use indexmap::IndexMap;
use jv_names::Units;
use std::alloc::{AllocError, Global};
use std::marker::Model;

/// The classes that a type check knows of. Contracts see the list of them, in the order in which they were added.
///
/// A class is found by its name without looking at the others.
#[derive(Drop)]
pub struct Hierarchy {
    alloc: Global,
    classes: IndexMap<Vec<u16>, HierarchyClass>,
}

impl Model for Hierarchy {
    ghost use Rattle.std.specs.Prelude.{List};
    ghost use Rattle.std.specs.Map.{values_of};
    ghost use Rattle.type_frames.specs.declared.hierarchy.HierarchyClass.{HierarchyClass as Class};

    ghost Value = { List Class };

    ghost view = { λ h. values_of h.classes.entries };

    ghost use Rattle.type_frames.specs.Keyed.{AreKeyed};

    ghost invariant = { λ h. AreKeyed h.classes.entries };
}

impl Hierarchy {
    /// No class is known.
    pub fn new(alloc: Global) -> Hierarchy
        ensures { result ≡ [] }
    {
        Hierarchy {
            alloc,
            classes: IndexMap::new(alloc),
        }
    }

    /// Adds a class, whose name no known class has. The name is copied.
    pub fn add(&mut self, class: HierarchyClass) -> Result<(), AllocError>
        requires { class_named self.old class.name ≡ None }
        ensures ok { OnOk result (self.new ≡ self.old ++ class ∷ []) }
        ensures err { OnErr result (self.new ≡ self.old) }
    {
        let name = Vec::from_slice(self.alloc, class.name.as_slice())?;
        self.classes.insert(name, class)?;
        Ok(())
    }

    /// Adds what a class file states of its class, unless a class of its name is known: that one stays, as a class loader defines
    /// a name once (5.3.5). Answers whether the class was added. Fails only where memory is refused, and adds nothing then.
    pub fn add_tree(&mut self, tree: &ClassFile) -> Result<bool, AllocError>
        ensures classes { OnOk result (self.new ≡ with_class self.old (class_stated tree.now)) }
        ensures answer { IfOk result (λ added. added ≡ is_none (class_named self.old (class_name tree.now))) }
        ensures err { OnErr result (self.new ≡ self.old) }
    {
        let class = stated_class(self.alloc, tree)?;
        if self.get(&class.name).is_some() {
            return Ok(false);
        }
        self.add(class)?;
        Ok(true)
    }

    /// What these class files state of their classes (4.1, 4.6 and 4.10.1), in their order. Of several of one name the first counts.
    /// Fails only where memory is refused.
    pub fn of(alloc: Global, trees: &[ClassFile]) -> Result<Hierarchy, AllocError>
        ensures classes { IfOk result (λ known. known ≡ stated trees.now) }

        // A name finds the first class that has it.
        ensures found { IfOk result (λ known. (name : Name) → class_named known name ≡ class_named (map class_stated trees.now) name) }
    {
        let mut known = Hierarchy::new(alloc);
        for tree in trees {
            known.add_tree(tree)?;
        }
        Ok(known)
    }

    /// The class of this name, if it is known.
    pub fn get(&self, name: &Units) -> Option<&HierarchyClass>
        ensures { option_copied result ≡ class_named self.now name.now }
    {
        self.named(name.as_slice())
    }

    /// The class of the name that has these units.
    pub(crate) fn named(&self, name: &[u16]) -> Option<&HierarchyClass>
        ensures { option_copied result ≡ class_named self.now name.now }
    {
        self.classes.get(name)
    }

    /// How many classes are known.
    pub(crate) fn len(&self) -> usize
        ensures { result ≡ length self.now }
    {
        self.classes.len()
    }
}
