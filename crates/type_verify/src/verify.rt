//! The type check of methods and classes (4.10.1).
ghost use Rattle.std.specs.Prelude.{◌≡◌, ◌<◌, [], false, true, Some, length, option_copied, slice_get, unwrap_or};
ghost use Rattle.class_tree.specs.CodeRules.{is_code};
ghost use Rattle.class_tree.specs.Tree.{code_of};
ghost use Rattle.type_frames.specs.TypeChecks.{overrides_final as may_not_override, extends_final as may_not_extend, offends_at_once as offends};
ghost use Rattle.type_verify.specs.Verdicts.{IsJudged, IsVerdict, IsClassVerdict};

use crate::code::check_code;
use crate::walk::Halt;
use class_tree::{ClassFile, Code, Flag, Member};
use jv_names::Units;
use std::alloc::Global;
use thiserror::Error;
use type_frames::{Hierarchy, has_final_above, is_final};

/// Why a class or a method has not passed its type check.
#[derive(Clone, Copy, Debug, PartialEq, Eq, Error)]
pub enum VerifyFault {
    /// The method at this place among the class's methods, counted from 0, is the first that fails, and it fails first at the
    /// instruction of this offset, in bytes.
    #[error("method {method} fails its type check at {offset}")]
    Fails { method: usize, offset: u16 },
    /// Memory ran out, which says nothing of the class.
    #[error("out of memory")]
    Memory,
}

/// A text, or no units where there is none.
fn units_of(text: Option<&Units>) -> &[u16]
    ensures { result.now ≡ unwrap_or (option_copied text.entry) [] }
{
    match text {
        Some(units) => units.as_slice(),
        None => &[],
    }
}

/// Whether a method overrides a final one (4.10.1.5).
fn overrides_final(hierarchy: &Hierarchy, tree: &ClassFile, member: &Member) -> bool
    ensures { result ≡ may_not_override hierarchy.now tree.now member.now }
{
    if member.flags.has(Flag::Private) || member.flags.has(Flag::Static) {
        return false;
    }
    let name = units_of(tree.name_of(member));
    let desc = units_of(tree.desc_of(member));
    match tree.super_name() {
        Some(parent) => has_final_above(hierarchy, parent, name, desc),
        None => false,
    }
}

/// Whether the superclass is final, which is laid to the first method.
fn extends_final(hierarchy: &Hierarchy, tree: &ClassFile, place: usize) -> bool
    ensures { result ≡ may_not_extend hierarchy.now tree.now place }
{
    if place != 0 {
        return false;
    }
    match tree.super_name() {
        Some(parent) => is_final(hierarchy, parent),
        None => false,
    }
}

fn offends_at_once(hierarchy: &Hierarchy, tree: &ClassFile, place: usize, member: &Member) -> bool
    ensures { result ≡ offends hierarchy.now tree.now place member.now }
{
    overrides_final(hierarchy, tree, member) || extends_final(hierarchy, tree, place)
}

/// The type check of a method that offends nothing at once.
#[tactic(auto, using(type_frames::proofs::Formed::method_code, crate::proofs::Judged::body_judged, crate::proofs::Judged::none_judged))]
fn judge_body<'a>(
    alloc: Global,
    hierarchy: &'a Hierarchy,
    tree: &'a ClassFile,
    place: usize,
    member: &'a Member,
) -> Result<(), Halt>
    requires there { slice_get tree.now.methods place ≡ Some member.now }
    requires free { offends hierarchy.now tree.now place member.now ≡ false }
    ensures { IsJudged hierarchy.now tree.now place member.now result }
{
    let _ = &tree.methods;
    match member.code() {
        Some(code) => check_code(alloc, hierarchy, tree, member, code),
        None => Ok(()),
    }
}

/// The type check of a method.
#[tactic(auto, using(crate::proofs::Judged::offending_judged))]
fn judge<'a>(
    alloc: Global,
    hierarchy: &'a Hierarchy,
    tree: &'a ClassFile,
    place: usize,
    member: &'a Member,
) -> Result<(), Halt>
    requires { slice_get tree.now.methods place ≡ Some member.now }
    ensures { IsJudged hierarchy.now tree.now place member.now result }
{
    if offends_at_once(hierarchy, tree, place, member) {
        return Err(Halt::Offends(0));
    }
    judge_body(alloc, hierarchy, tree, place, member)
}

/// Whether a method passes its type check, by its place among the class's methods, and if not, where it fails first.
///
/// A method without code passes, unless it overrides a final one, or is the first of a class whose superclass is final. Each
/// instruction is looked at once. It takes memory for the instructions, for what the stack map lists, for the handlers and for one
/// type state.
pub fn check_method<'a>(
    alloc: Global,
    hierarchy: &'a Hierarchy,
    tree: &'a ClassFile,
    method: usize,
) -> Result<(), VerifyFault>
    requires { method < length tree.now.methods }
    ensures { IsVerdict hierarchy.now tree.now method result }
{
    let methods = tree.methods.as_slice();
    match judge(alloc, hierarchy, tree, method, &methods[method]) {
        Ok(()) => Ok(()),
        Err(Halt::Offends(offset)) => Err(VerifyFault::Fails { method, offset }),
        Err(Halt::Memory) => Err(VerifyFault::Memory),
    }
}

/// Whether a class passes its type check, and if not, which method is the first that fails, in the order of the file, and where.
pub fn check_class<'a>(
    alloc: Global,
    hierarchy: &'a Hierarchy,
    tree: &'a ClassFile,
) -> Result<(), VerifyFault>
    ensures { IsClassVerdict hierarchy.now tree.now result }
{
    for method in 0..tree.methods.len() {
        check_method(alloc, hierarchy, tree, method)?;
    }
    Ok(())
}
