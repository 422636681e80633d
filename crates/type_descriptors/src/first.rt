//! The types with which a method begins: `this` and its parameters (4.10.1.6).
ghost use Rattle.std.specs.Prelude.{◌≡◌, ◌++◌, map, option_map, bytes_eq, codes, IfOk};
ghost use Rattle.type_frames.specs.Seen.{type_seen};
ghost use Rattle.type_frames.specs.TypeChecks.{is_init, this_type, this_types, parameters_in, result_in};

use crate::method_refs;
use class_tree::{ClassFile, Flag, Member};
use std::alloc::{AllocError, Global};
use type_frames::{ClassName, VTypeRef};

/// Whether a method is an `<init>`.
pub fn is_init(tree: &ClassFile, member: &Member) -> bool
    ensures { result ≡ is_init tree.now member.now }
{
    match tree.name_of(member) {
        Some(name) => name.is_text(b"<init>"),
        None => false,
    }
}

/// The type of `this`, which in an `<init>` isn't initialized, but in that of `Object`.
#[tactic(auto, using(crate::proofs::Members::never_nameless))]
fn this_ref<'a>(tree: &'a ClassFile, member: &Member) -> VTypeRef<'a>
    ensures { type_seen result ≡ this_type tree.now member.now }
{
    let Some(class) = tree.name() else {
        unreachable!();
    };
    if is_init(tree, member) && !class.is_text(b"java/lang/Object") {
        return VTypeRef::UninitThis;
    }
    VTypeRef::Object(ClassName::Named(class.as_slice()))
}

/// The type of `this`, where the method has it. A static `<init>` can't begin.
pub fn this_refs<'a>(
    alloc: Global,
    tree: &'a ClassFile,
    member: &Member,
) -> Result<Option<Vec<VTypeRef<'a>>>, AllocError>
    ensures { IfOk result (λ refs. option_map (λ types. map type_seen types.items) refs ≡ this_types tree.now member.now) }
{
    let mut types = Vec::new(alloc);
    if !member.flags.has(Flag::Static) {
        types.push(this_ref(tree, member))?;
        return Ok(Some(types));
    }
    if is_init(tree, member) {
        return Ok(None);
    }
    Ok(Some(types))
}

/// The types of the parameters that a method's descriptor lists.
pub fn parameter_refs<'a>(
    alloc: Global,
    tree: &'a ClassFile,
    member: &Member,
) -> Result<Vec<VTypeRef<'a>>, AllocError>
    ensures { IfOk result (λ types. map type_seen types.items ≡ parameters_in tree.now member.now) }
{
    let Some(text) = tree.desc_of(member) else {
        return Ok(Vec::new(alloc));
    };
    match method_refs(alloc, text)? {
        Some(refs) => Ok(refs.parameters),
        None => Ok(Vec::new(alloc)),
    }
}

/// The type of `this`, where the method has it, and those of its parameters, a long once. There are none for a static `<init>`, with
/// which no method begins.
pub fn first_refs<'a>(
    alloc: Global,
    tree: &'a ClassFile,
    member: &Member,
) -> Result<Option<Vec<VTypeRef<'a>>>, AllocError>
    ensures { IfOk result (λ refs. option_map (λ types. map type_seen types.items) refs ≡ option_map (λ this. this ++ parameters_in tree.now member.now) (this_types tree.now member.now)) }
{
    let Some(mut types) = this_refs(alloc, tree, member)? else {
        return Ok(None);
    };
    let parameters = parameter_refs(alloc, tree, member)?;
    types.extend_from_slice(parameters.as_slice())?;
    Ok(Some(types))
}

/// The type of a method's result, `None` for void.
pub fn result_ref<'a>(
    alloc: Global,
    tree: &'a ClassFile,
    member: &Member,
) -> Result<Option<VTypeRef<'a>>, AllocError>
    ensures { IfOk result (λ r. option_map type_seen r ≡ result_in tree.now member.now) }
{
    let Some(text) = tree.desc_of(member) else {
        return Ok(None);
    };
    match method_refs(alloc, text)? {
        Some(refs) => Ok(refs.result),
        None => Ok(None),
    }
}
