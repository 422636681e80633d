//! The type check of a method's code (4.10.1.6).
ghost use Rattle.std.specs.Prelude.{◌≡◌, ◌<◌, ◌^◌, ◌++◌, [], true, All, IfOk, None, map, length, option_map, unwrap_or};
ghost use Rattle.class_tree.specs.Tree.{frames_of};
ghost use Rattle.type_frames.specs.Seen.{type_seen};
ghost use Rattle.type_frames.specs.StackMaps.{frames_from};
ghost use Rattle.type_states.specs.Reading.{Reads};
ghost use Rattle.std.specs.List.Sorted.{IsNonDecreasingBy};
ghost use Rattle.class_code.specs.Listing.{IsRising};
ghost use Rattle.class_tree.specs.CodeRules.{is_code};
ghost use Rattle.type_frames.specs.TypeChecks.{instrs_in, environment, bounds, checked, map_in, is_bad_map};
ghost use Rattle.type_rules.specs.Methods.{env_of};
ghost use Rattle.type_verify.specs.Checkers.{checked_of, IsReady};
ghost use Rattle.type_verify.specs.Outcomes.{IsDecided, IsDecidedIn, IsMade};

use crate::checker::Checker;
use crate::walk::{Halt, walk};
use class_code::{CodeFault, Instr, decode};
use class_tree::{ClassFile, Code, Member};
use std::alloc::{AllocError, Global};
use type_descriptors::{is_init, parameter_refs, result_ref, this_refs};
use type_frames::{Hierarchy, MapFault, VTypeRef};
use type_rules::Method;
use type_states::{MapBounds, StackMap};

/// The instructions of a code of a class file.
#[tactic(auto, using(type_frames::proofs::Formed::short_code, type_frames::proofs::Formed::listed_code))]
pub(crate) fn instrs_of(
    alloc: Global,
    tree: &ClassFile,
    code: &Code,
) -> Result<Vec<(u16, Instr)>, AllocError>
    requires { is_code tree.now.major tree.now.pool code.now ≡ true }
    ensures listed { IfOk result (λ v. instrs_in code.now ≡ v.items) }
    ensures some { IfOk result (λ v. 0 < length v.items) }
    ensures rising { IfOk result (λ v. IsRising v.items) }
    ensures ordered { IfOk result (λ v. IsNonDecreasingBy (λ p. p.0) v.items) }
    ensures offsets { IfOk result (λ v. All (λ p. p.0 < 2 ^ 16) v.items) }
{
    match decode(alloc, code.bytes.as_slice()) {
        Ok(list) => Ok(list),
        Err(CodeFault::Memory) => Err(AllocError),
        Err(CodeFault::Floating(_)) => unreachable!(),
        Err(CodeFault::Unsupported(_)) => unreachable!(),
        Err(CodeFault::Truncated(_)) => unreachable!(),
        Err(CodeFault::BadOperand(_)) => unreachable!(),
        Err(CodeFault::BadTarget(_)) => unreachable!(),
    }
}

/// What the rules know of a method.
#[tactic(auto, using(crate::proofs::Named::never_nameless))]
fn method_of<'a>(
    alloc: Global,
    hierarchy: &'a Hierarchy,
    tree: &'a ClassFile,
    member: &Member,
    code: &Code,
    instrs: &'a [(u16, Instr)],
) -> Result<Method<'a>, AllocError>
    requires { instrs_in code.now ≡ instrs.now }
    ensures { IfOk result (λ m. env_of m ≡ environment hierarchy.now tree.now member.now code.now) }
{
    let Some(class) = tree.name() else {
        unreachable!();
    };
    Ok(Method {
        hierarchy,
        tree,
        class,
        parent: tree.super_name(),
        is_init: is_init(tree, member),
        result: result_ref(alloc, tree, member)?,
        max_stack: code.max_stack,
        instrs,
    })
}

/// Checks a method whose stack map has been read.
fn decide(alloc: Global, checker: &Checker<'_>) -> Result<(), Halt>
    requires ready { IsReady checker.now }
    requires some { 0 < length checker.now.method.instrs.now }
    ensures { IsDecided (checked_of checker.now) result }
{
    match checker.begin(alloc)? {
        Some(state) => walk(alloc, checker, state),
        None => Err(Halt::Offends(checker.method.instrs[0].0)),
    }
}

/// What is listed of the local variables before the first entry of a stack map.
fn first_listed<'a>(
    alloc: Global,
    this: Option<&Vec<VTypeRef<'a>>>,
    parameters: &[VTypeRef<'a>],
) -> Result<Vec<VTypeRef<'a>>, AllocError>
    ensures { IfOk result (λ types. map type_seen types.items ≡ unwrap_or (option_map (λ ts. map type_seen ts.now.items) this.entry) [] ++ map type_seen parameters.now) }
{
    let mut types = Vec::new(alloc);
    if let Some(listed) = this {
        types.extend_from_slice(listed.as_slice())?;
    }
    types.extend_from_slice(parameters)?;
    Ok(types)
}

/// Reads the stack map of a code.
fn map_of<'a>(
    alloc: Global,
    tree: &'a ClassFile,
    code: &'a Code,
    first: &[VTypeRef<'a>],
    instrs: &[(u16, Instr)],
) -> Result<StackMap<'a>, MapFault>
    requires ordered { IsNonDecreasingBy (λ p. p.0) instrs.now }
    requires offsets { All (λ p. p.0 < 2 ^ 16) instrs.now }
    requires listed { instrs_in code.now ≡ instrs.now }
    ensures value { Reads result (frames_from (bounds tree.now code.now) 0 None (map type_seen first.now) (unwrap_or (frames_of code.now.attrs) [])) }
    ensures rooms { IfOk result (All (λ f. length f.locals ≡ code.now.max_locals)) }
{
    let bounds = MapBounds {
        pool: tree.pool.as_slice(),
        max_locals: code.max_locals,
        max_stack: code.max_stack,
        instrs,
    };
    match code.frames() {
        Some(entries) => StackMap::read(alloc, bounds, first, entries),
        None => StackMap::read(alloc, bounds, first, &[]),
    }
}

/// Reads the stack map of a method with these instructions.
pub(crate) fn map_with<'a>(
    alloc: Global,
    tree: &'a ClassFile,
    member: &'a Member,
    code: &'a Code,
    instrs: &[(u16, Instr)],
) -> Result<StackMap<'a>, MapFault>
    requires ordered { IsNonDecreasingBy (λ p. p.0) instrs.now }
    requires offsets { All (λ p. p.0 < 2 ^ 16) instrs.now }
    requires listed { instrs_in code.now ≡ instrs.now }
    ensures value { Reads result (map_in tree.now member.now code.now) }
    ensures rooms { IfOk result (All (λ f. length f.locals ≡ code.now.max_locals)) }
{
    let this = this_refs(alloc, tree, member)?;
    let parameters = parameter_refs(alloc, tree, member)?;
    let first = first_listed(alloc, this.as_ref(), parameters.as_slice())?;
    map_of(alloc, tree, code, first.as_slice(), instrs)
}

/// A method's code with these instructions, before it is checked.
pub(crate) fn checker_of<'a>(
    alloc: Global,
    hierarchy: &'a Hierarchy,
    tree: &'a ClassFile,
    member: &'a Member,
    code: &'a Code,
    instrs: &'a [(u16, Instr)],
) -> Result<Checker<'a>, MapFault>
    requires listed { instrs_in code.now ≡ instrs.now }
    requires rising { IsRising instrs.now }
    requires ordered { IsNonDecreasingBy (λ p. p.0) instrs.now }
    requires offsets { All (λ p. p.0 < 2 ^ 16) instrs.now }
    ensures { IsMade (is_bad_map (map_in tree.now member.now code.now)) (checked hierarchy.now tree.now member.now code.now) result }
{
    let map = match map_with(alloc, tree, member, code, instrs) {
        Ok(map) => map,
        Err(fault) => return Err(fault),
    };
    Ok(Checker {
        method: method_of(alloc, hierarchy, tree, member, code, instrs)?,
        this: this_refs(alloc, tree, member)?,
        parameters: parameter_refs(alloc, tree, member)?,
        max_locals: code.max_locals,
        map,
        handlers: code.handlers.as_slice(),
    })
}

/// The same as `check_code` of a code with these instructions.
fn check_instrs<'a>(
    alloc: Global,
    hierarchy: &'a Hierarchy,
    tree: &'a ClassFile,
    member: &'a Member,
    code: &'a Code,
    instrs: &'a [(u16, Instr)],
) -> Result<(), Halt>
    requires listed { instrs_in code.now ≡ instrs.now }
    requires some { 0 < length instrs.now }
    requires rising { IsRising instrs.now }
    requires ordered { IsNonDecreasingBy (λ p. p.0) instrs.now }
    requires offsets { All (λ p. p.0 < 2 ^ 16) instrs.now }
    ensures { IsDecidedIn (is_bad_map (map_in tree.now member.now code.now)) (checked hierarchy.now tree.now member.now code.now) result }
{
    match checker_of(alloc, hierarchy, tree, member, code, instrs) {
        Ok(checker) => decide(alloc, &checker),
        Err(MapFault::Bad(_)) => Err(Halt::Offends(0)),
        Err(MapFault::Memory) => Err(Halt::Memory),
    }
}

/// The type check of a method's code: whether its instructions have type states, and if not, the first that offends. A stack map of
/// which an entry is bad offends at 0.
///
/// It takes memory for the instructions, for what the stack map lists, for the handlers and for one type state.
pub(crate) fn check_code<'a>(
    alloc: Global,
    hierarchy: &'a Hierarchy,
    tree: &'a ClassFile,
    member: &'a Member,
    code: &'a Code,
) -> Result<(), Halt>
    requires { is_code tree.now.major tree.now.pool code.now ≡ true }
    ensures { IsDecidedIn (is_bad_map (map_in tree.now member.now code.now)) (checked hierarchy.now tree.now member.now code.now) result }
{
    let instrs = instrs_of(alloc, tree, code)?;
    check_instrs(alloc, hierarchy, tree, member, code, instrs.as_slice())
}
