//! Methods and classes that have passed their type check, with their type states (4.10.1).
ghost use Rattle.std.specs.Prelude.{◌≡◌, ◌==◌, ◌<◌, None, Some, length, find, slice_get, IfOk, MatchOption};
ghost use Rattle.type_verify.specs.Typing.{code_at, IsTypedVerdict, IsTypedClassVerdict};
ghost use Rattle.type_verify.specs.Recomputing.{IsCodeAt};

use crate::again::{code_frame, code_frames};
use crate::verify::{VerifyFault, check_class, check_method};
use class_tree::{ClassFile, Code, Member};
use std::alloc::{AllocError, Global};
use std::marker::Model;
use type_frames::{Hierarchy, MapFrame};

/// The type states of a method that has passed its type check: the one before each instruction, in the order of the code. A method
/// without code has none.
///
/// It keeps none of them, since they would take the number of instructions times that of the local variables. It goes through the
/// code again when it is asked.
#[derive(Drop)]
pub struct TypedCode<'a> {
    hierarchy: &'a Hierarchy,
    tree: &'a ClassFile,
    method: usize,
}

impl<'a> Model for TypedCode<'a> {
    ghost use Rattle.std.specs.Prelude.{List};
    ghost use Rattle.type_frames.specs.declared.frame.MapFrame.{MapFrame};

    ghost Value = { List MapFrame };

    ghost use Rattle.type_verify.specs.Typing.{IsTyped};
    ghost use Rattle.type_verify.specs.Recomputing.{frames_at};

    ghost view = { λ c. frames_at c.hierarchy.now c.tree.now c.method };

    ghost invariant = { λ c. IsTyped c.hierarchy.now c.tree.now c.method (frames_at c.hierarchy.now c.tree.now c.method) };
}

/// The type states of the methods of a class that has passed its type check.
#[derive(Drop)]
pub struct Typed<'a> {
    hierarchy: &'a Hierarchy,
    tree: &'a ClassFile,
}

impl<'a> Model for Typed<'a> {
    ghost use Rattle.std.specs.Prelude.{List, Option};
    ghost use Rattle.type_frames.specs.declared.frame.MapFrame.{MapFrame};

    ghost Value = { List (Option (List MapFrame)) };

    ghost use Rattle.type_frames.specs.TypeChecks.{ClassPasses};
    ghost use Rattle.type_verify.specs.Recomputing.{entries_of};

    ghost view = { λ c. entries_of c.hierarchy.now c.tree.now };

    ghost invariant = { λ c. ClassPasses c.hierarchy.now c.tree.now };
}

#[tactic(auto, using(crate::proofs::Passing::code_is, crate::proofs::Passing::code_is_none))]
fn code_in<'a>(
    tree: &ClassFile,
    method: usize,
    member: &'a Member,
) -> Option<(&'a Member, &'a Code)>
    requires { slice_get tree.now.methods method ≡ Some member.now }
    ensures { MatchOption result (code_at tree.now method ≡ None) (λ x. IsCodeAt tree.now method x.0.now x.1.now) }
{
    let _ = &tree.methods;
    let _ = method;
    match member.code() {
        Some(code) => Some((member, code)),
        None => None,
    }
}

/// The code of the method at a place, if it has code.
fn code_at(tree: &ClassFile, method: usize) -> Option<(&Member, &Code)>
    requires { method < length tree.now.methods }
    ensures { MatchOption result (code_at tree.now method ≡ None) (λ x. IsCodeAt tree.now method x.0.now x.1.now) }
{
    let methods = tree.methods.as_slice();
    code_in(tree, method, &methods[method])
}

impl<'a> TypedCode<'a> {
    /// The type state before the instruction at an offset, in bytes, if an instruction begins there. It goes through the code up to
    /// there, and takes memory for the instructions, for what the stack map lists and for two type states.
    #[tactic(auto, using(crate::proofs::Passing::code_passes, crate::proofs::Passing::frames_are, crate::proofs::Passing::frames_none))]
    pub fn frame_at(&self, alloc: Global, at: u16) -> Result<Option<MapFrame>, AllocError>
        ensures { IfOk result (λ f. f ≡ find (λ x. x.at == at) self.now) }
    {
        let tree = self.tree;
        match code_at(tree, self.method) {
            Some((member, code)) => code_frame(alloc, self.hierarchy, tree, member, code, at),
            None => Ok(None),
        }
    }

    /// All of them. They take memory for each instruction and each local variable of it.
    #[tactic(auto, using(crate::proofs::Passing::code_passes, crate::proofs::Passing::frames_are, crate::proofs::Passing::frames_none))]
    pub fn frames(&self, alloc: Global) -> Result<Vec<MapFrame>, AllocError>
        ensures { IfOk result (λ v. v.items ≡ self.now) }
    {
        let tree = self.tree;
        match code_at(tree, self.method) {
            Some((member, code)) => code_frames(alloc, self.hierarchy, tree, member, code),
            None => Ok(Vec::new(alloc)),
        }
    }
}

impl<'a> Typed<'a> {
    /// The type states of a method, by its place among the class's methods, counted from 0; None just for one without code.
    #[tactic(auto, using(crate::proofs::Passing::passes_typed, crate::proofs::Passing::entry_some, crate::proofs::Passing::entry_none))]
    pub fn code_of(&self, method: usize) -> Option<TypedCode<'a>>
        requires { method < length self.now }
        ensures { slice_get self.now method ≡ Some result }
    {
        let tree = self.tree;
        match code_at(tree, method) {
            Some(_) => Some(TypedCode {
                hierarchy: self.hierarchy,
                tree,
                method,
            }),
            None => None,
        }
    }
}

/// The type states of a method that passes its type check, by its place among the class's methods, counted from 0; where it doesn't
/// pass, the first instruction that offends (4.10.1). It takes what `check_method` takes.
#[tactic(auto, using(crate::proofs::Passing::passes_typed))]
pub fn verify_method<'a>(
    alloc: Global,
    hierarchy: &'a Hierarchy,
    tree: &'a ClassFile,
    method: usize,
) -> Result<TypedCode<'a>, VerifyFault>
    requires { method < length tree.now.methods }
    ensures { IsTypedVerdict hierarchy.now tree.now method result }
{
    check_method(alloc, hierarchy, tree, method)?;
    Ok(TypedCode {
        hierarchy,
        tree,
        method,
    })
}

/// The same of a class: the type states of its methods, or the method that fails first, in the order of the file, and where.
#[tactic(auto, using(crate::proofs::Passing::class_typed))]
pub fn verify_class<'a>(
    alloc: Global,
    hierarchy: &'a Hierarchy,
    tree: &'a ClassFile,
) -> Result<Typed<'a>, VerifyFault>
    ensures { IsTypedClassVerdict hierarchy.now tree.now result }
{
    check_class(alloc, hierarchy, tree)?;
    Ok(Typed { hierarchy, tree })
}
