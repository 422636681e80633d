//! What class files state of their classes (4.1, 4.6 and 4.10.1).
ghost use Rattle.std.specs.Prelude.{◌≡◌, ◌++◌, ◌∷◌, [], Some, IfOk, OnOk, option_copied, unwrap_or};
ghost use Rattle.class_tree.specs.Tree.{class_at};
ghost use Rattle.type_frames.specs.Stated.{names_at, is_final_method as counts_as_final, signature, final_signatures, stated_class as class_stated};

use crate::{HierarchyClass, Signature};
use class_tree::{ClassFile, Flag, Member};
use jv_names::Units;
use sqlite_items::Items;
use std::alloc::{AllocError, Global};

/// A copy of a text, without units where there is none.
fn copied(alloc: Global, text: Option<&Units>) -> Result<Units, AllocError>
    ensures { IfOk result (λ units. units ≡ unwrap_or (option_copied text.entry) []) }
{
    match text {
        Some(text) => text.clone_in(alloc),
        None => Ok(Units::new(Vec::new(alloc))),
    }
}

/// The superclass's name, of which `Object` has none.
fn superclass_of(alloc: Global, tree: &ClassFile) -> Result<Option<Units>, AllocError>
    ensures { IfOk result (λ name. name ≡ class_at tree.now.pool tree.now.super_class) }
{
    match tree.super_name() {
        Some(name) => Ok(Some(name.clone_in(alloc)?)),
        None => Ok(None),
    }
}

/// The names of the classes at these indices of the pool.
fn names_of(alloc: Global, tree: &ClassFile, indices: &[u16]) -> Result<Items<Units>, AllocError>
    ensures { IfOk result (λ names. names ≡ names_at tree.now indices.now) }
{
    let mut names = Items::new(alloc);
    for index in indices {
        names.push(copied(alloc, tree.class_at(*index))?)?;
    }
    Ok(names)
}

/// Whether no subclass may override a method.
fn is_final_method(method: &Member) -> bool
    ensures { result ≡ counts_as_final method.now }
{
    method.flags.has(Flag::Final)
        && !method.flags.has(Flag::Private)
        && !method.flags.has(Flag::Static)
}

/// A method's name and its descriptor.
fn signature_of(alloc: Global, tree: &ClassFile, method: &Member) -> Result<Signature, AllocError>
    ensures { IfOk result (λ s. s ≡ signature tree.now method.now) }
{
    Ok(Signature {
        name: copied(alloc, tree.name_of(method))?,
        desc: copied(alloc, tree.desc_of(method))?,
    })
}

/// Lists a method, if no subclass may override it.
fn list_final(
    alloc: Global,
    tree: &ClassFile,
    listed: &mut Items<Signature>,
    method: &Member,
) -> Result<(), AllocError>
    ensures { OnOk result (listed.new ≡ listed.old ++ final_signatures tree.now (method.now ∷ [])) }
{
    if !is_final_method(method) {
        return Ok(());
    }
    listed.push(signature_of(alloc, tree, method)?)
}

/// Those of these methods that no subclass may override.
fn final_methods(
    alloc: Global,
    tree: &ClassFile,
    methods: &[Member],
) -> Result<Items<Signature>, AllocError>
    ensures { IfOk result (λ listed. listed ≡ final_signatures tree.now methods.now) }
{
    let mut listed = Items::new(alloc);
    for method in methods {
        list_final(alloc, tree, &mut listed, method)?;
    }
    Ok(listed)
}

/// What a class file states of its class to the type check: the names of itself, of its superclass and of its direct
/// superinterfaces, whether it is an interface, whether it is final (4.1), and those of its methods that no subclass may override
/// (4.6 and 4.10.1.5), in the order of the file. A private or a static method may be final, and is none of these.
///
/// The names are copied. Fails only where memory is refused.
#[tactic(auto, using(crate::proofs::Stating::own_name))]
pub fn stated_class(alloc: Global, tree: &ClassFile) -> Result<HierarchyClass, AllocError>
    ensures stated { IfOk result (λ class. class ≡ class_stated tree.now) }

    // Each class file has a name.
    ensures named { IfOk result (λ class. class_at tree.now.pool tree.now.this_class ≡ Some class.name) }
{
    Ok(HierarchyClass {
        name: copied(alloc, tree.name())?,
        superclass: superclass_of(alloc, tree)?,
        interfaces: names_of(alloc, tree, tree.interfaces.as_slice())?,
        is_interface: tree.flags.has(Flag::Interface),
        is_final: tree.flags.has(Flag::Final),
        final_methods: final_methods(alloc, tree, tree.methods.as_slice())?,
    })
}
