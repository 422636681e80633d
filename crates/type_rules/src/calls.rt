//! Calls.
ghost use Rattle.std.specs.Prelude.{◌≡◌, ◌+◌, map, reverse, length, option_map};
ghost use Rattle.type_frames.specs.Types.{expanded};
ghost use Rattle.class_code.specs.Listing.{IsRising};
ghost use Rattle.type_frames.specs.States.{all_taken, all_put};
ghost use Rattle.type_frames.specs.declared.vtype.VType.TheVariants.{Object};
ghost use Rattle.type_frames.specs.Seen.{name_seen, type_seen};
ghost use Rattle.type_frames.specs.Environments.{method_at as method_named};
ghost use Rattle.type_frames.specs.RulesOfCalls.{is_init_name as names_init, is_special as names_special, is_parent as names_parent, called as called_by, arguments, results, argument_words, named_method as method_of, plain_method as plain_method_of, invoke_static_rule, invoke_virtual_rule, invoke_interface_rule, invoke_super_rule, initialized as type_initialized, invoke_init_rule, invoke_special_rule};
ghost use Rattle.type_rules.specs.Methods.{env_of};
ghost use Rattle.type_descriptors.specs.Methods.{method_seen as vtypes_seen};
ghost use Rattle.type_rules.specs.Named.{reference_seen, member_seen, method_seen, called_of_both};
ghost use Rattle.type_states.specs.Answers.{Leaves, Names};

use crate::Method;
use crate::fields::{MemberRef, reference_of};
use class_tree::{ClassFile, Const};
use jv_names::Units;
use std::alloc::Global;
use type_descriptors::{MethodRefs, method_refs};
use type_frames::{ClassName, Hierarchy, VTypeRef, stands_for};
use type_states::{State, Stop, is_long};

fn is_init(name: &Units) -> bool
    ensures { result ≡ names_init name.now }
{
    name.is_text(b"<init>")
}

/// `<init>` or `<clinit>`.
fn is_special(name: &Units) -> bool
    ensures { result ≡ names_special name.now }
{
    is_init(name) || name.is_text(b"<clinit>")
}

/// A class's method or an interface's.
fn method_at(tree: &ClassFile, index: u16) -> Option<MemberRef<'_>>
    ensures { option_map reference_seen result ≡ method_named tree.now.pool index }
{
    match tree.entry_at(index)? {
        Const::Method(class, pair) => reference_of(tree, *class, *pair),
        Const::InterfaceMethod(class, pair) => reference_of(tree, *class, *pair),
        _ => None,
    }
}

/// The method that the pool names, with its parameters and its result.
fn named_method<'a>(
    alloc: Global,
    method: &Method<'a>,
    index: u16,
) -> Result<(MemberRef<'a>, MethodRefs<'a>), Stop>
    ensures { Names method_seen result (method_of (env_of method.now) index) }
{
    let Some(called) = method_at(method.tree, index) else {
        return Err(Stop::Refused);
    };
    match method_refs(alloc, called.desc)? {
        Some(refs) => Ok((called, refs)),
        None => Err(Stop::Refused),
    }
}

/// One that is neither `<init>` nor `<clinit>`.
fn plain_method<'a>(
    alloc: Global,
    method: &Method<'a>,
    index: u16,
) -> Result<(MemberRef<'a>, MethodRefs<'a>), Stop>
    ensures { Names method_seen result (plain_method_of (env_of method.now) index) }
{
    let (called, refs) = named_method(alloc, method, index)?;
    if is_special(called.name) {
        return Err(Stop::Refused);
    }
    Ok((called, refs))
}

/// Takes these, the last one from the top.
#[tactic(auto, using(crate::proofs::Arguments::last_more, crate::proofs::Arguments::last_not, crate::proofs::Arguments::none_left, crate::proofs::Arguments::all_left))]
fn take_from_last(
    hierarchy: &Hierarchy,
    parameters: &[VTypeRef<'_>],
    state: &mut State<'_>,
) -> Result<(), Stop>
    ensures { Leaves result state.new (all_taken hierarchy.now (reverse (map type_seen parameters.now)) state.old) }
{
    for i in 0..parameters.len() {
        let last = parameters.len() - i - 1;
        state.take(hierarchy, parameters[last])?;
    }
    Ok(())
}

/// Takes a method's arguments.
fn take_arguments(
    method: &Method<'_>,
    refs: &MethodRefs<'_>,
    state: &mut State<'_>,
) -> Result<(), Stop>
    ensures { Leaves result state.new (all_taken method.now.hierarchy.now (arguments (vtypes_seen refs.now)) state.old) }
{
    take_from_last(method.hierarchy, refs.parameters.as_slice(), state)
}

/// Puts what a call leaves, which is nothing for void.
fn put_result<'a>(
    method: &Method<'a>,
    refs: &MethodRefs<'a>,
    state: &mut State<'a>,
) -> Result<(), Stop>
    ensures { Leaves result state.new (all_put method.now.max_stack (results (option_map type_seen refs.now.result)) state.old) }
{
    match refs.result {
        Some(t) => state.put(method.max_stack, t),
        None => Ok(()),
    }
}

pub(crate) fn invoke_static<'a>(
    alloc: Global,
    method: &Method<'a>,
    index: u16,
    state: &mut State<'a>,
) -> Result<(), Stop>
    ensures { Leaves result state.new (invoke_static_rule (env_of method.now) index state.old) }
{
    let (_, refs) = plain_method(alloc, method, index)?;
    take_arguments(method, &refs, state)?;
    put_result(method, &refs, state)
}

/// Takes the arguments and an object of the class below them, and puts the result.
#[tactic(auto, using(crate::proofs::Calling::call_without_arguments, crate::proofs::Calling::call_without_object, crate::proofs::Calling::call_done))]
fn call<'a>(
    method: &Method<'a>,
    called: MemberRef<'a>,
    refs: &MethodRefs<'a>,
    state: &mut State<'a>,
) -> Result<(), Stop>
    ensures { Leaves result state.new (called_by (env_of method.now) called.entry.class.now (vtypes_seen refs.now) state.old) }
{
    take_arguments(method, refs, state)?;
    state.take(method.hierarchy, called.object())?;
    put_result(method, refs, state)
}

pub(crate) fn invoke_virtual<'a>(
    alloc: Global,
    method: &Method<'a>,
    index: u16,
    state: &mut State<'a>,
) -> Result<(), Stop>
    ensures { Leaves result state.new (invoke_virtual_rule (env_of method.now) index state.old) }
{
    let (called, refs) = plain_method(alloc, method, index)?;
    call(method, called, &refs, state)
}

/// The words of the arguments and of the object.
#[tactic(auto, using(crate::proofs::Arguments::words_long, crate::proofs::Arguments::words_short, crate::proofs::Arguments::words_all))]
fn words_with_object(parameters: &[VTypeRef<'_>]) -> usize
    ensures { result ≡ length (expanded (reverse (map type_seen parameters.now))) + 1 }
{
    let mut words = 1;
    for t in parameters {
        words += if is_long(*t) { 2 } else { 1 };
    }
    words
}

fn words_of_arguments(refs: &MethodRefs<'_>) -> usize
    ensures { result ≡ argument_words (vtypes_seen refs.now) }
{
    words_with_object(refs.parameters.as_slice())
}

pub(crate) fn invoke_interface<'a>(
    alloc: Global,
    method: &Method<'a>,
    index: u16,
    count: u8,
    state: &mut State<'a>,
) -> Result<(), Stop>
    ensures { Leaves result state.new (invoke_interface_rule (env_of method.now) index count state.old) }
{
    let (called, refs) = plain_method(alloc, method, index)?;
    if usize::from(count) != words_of_arguments(&refs) {
        return Err(Stop::Refused);
    }
    call(method, called, &refs, state)
}

/// Takes the arguments and an object below them that is of the current class and of the method's, and puts the result.
#[tactic(auto, using(crate::proofs::Calling::both_done, crate::proofs::Calling::both_not_first, crate::proofs::Calling::both_not_second, crate::proofs::Calling::both_without_arguments, crate::proofs::Calling::both_without_object))]
fn call_of_both<'a>(
    method: &Method<'a>,
    called: MemberRef<'a>,
    refs: &MethodRefs<'a>,
    state: &mut State<'a>,
) -> Result<(), Stop>
    ensures { Leaves result state.new (called_of_both (env_of method.now) called.entry.class.now (vtypes_seen refs.now) state.old) }
{
    let this = VTypeRef::Object(ClassName::Named(method.class.as_slice()));
    take_arguments(method, refs, state)?;
    let object = state.take_any()?;
    if stands_for(method.hierarchy, object, this)
        && stands_for(method.hierarchy, object, called.object())
    {
        put_result(method, refs, state)
    } else {
        Err(Stop::Refused)
    }
}

/// `invokespecial` of another method than an `<init>`, of a class that the current one may stand for.
#[tactic(auto, unfolding(crate::specs::Named::called_of_both))]
fn invoke_super<'a>(
    method: &Method<'a>,
    called: MemberRef<'a>,
    refs: &MethodRefs<'a>,
    state: &mut State<'a>,
) -> Result<(), Stop>
    ensures { Leaves result state.new (invoke_super_rule (env_of method.now) (member_seen called.entry refs.now) state.old) }
{
    let this = VTypeRef::Object(ClassName::Named(method.class.as_slice()));
    if !stands_for(method.hierarchy, this, called.object()) {
        return Err(Stop::Refused);
    }
    call_of_both(method, called, refs, state)
}

/// Whether it is the superclass of the current class.
fn is_parent(method: &Method<'_>, class: &Units) -> bool
    ensures { result ≡ names_parent (env_of method.now) class.now }
{
    match method.parent {
        Some(parent) => class.as_slice() == parent.as_slice(),
        None => false,
    }
}

/// The type that an object gets by an `<init>` of this class: that of `this` by one of the current class or of its superclass, that
/// of a new object by one of the very class that its `new` names.
fn initialized<'a>(
    method: &Method<'a>,
    class: &Units,
    object: VTypeRef<'_>,
) -> Option<ClassName<'a>>
    requires { IsRising method.now.instrs.now }
    ensures { option_map (λ name. Object (name_seen name)) result ≡ type_initialized (env_of method.now) class.now (type_seen object.entry) }
{
    let made = match object {
        VTypeRef::UninitThis => {
            if class.as_slice() != method.class.as_slice() && !is_parent(method, class) {
                return None;
            }
            method.class
        }
        VTypeRef::Uninit(at) => {
            let made = method.made_at(at)?;
            if class.as_slice() != made.as_slice() {
                return None;
            }
            made
        }
        _ => return None,
    };
    Some(ClassName::Named(made.as_slice()))
}

fn invoke_init<'a>(
    method: &Method<'a>,
    called: MemberRef<'a>,
    refs: &MethodRefs<'a>,
    state: &mut State<'a>,
) -> Result<(), Stop>
    requires { IsRising method.now.instrs.now }
    ensures { Leaves result state.new (invoke_init_rule (env_of method.now) (member_seen called.entry refs.now) state.old) }
{
    if refs.result.is_some() {
        return Err(Stop::Refused);
    }
    take_arguments(method, refs, state)?;
    let object = state.take_any()?;
    match initialized(method, called.class, object) {
        Some(made) => {
            state.initialize(object, made);
            Ok(())
        }
        None => Err(Stop::Refused),
    }
}

pub(crate) fn invoke_special<'a>(
    alloc: Global,
    method: &Method<'a>,
    index: u16,
    state: &mut State<'a>,
) -> Result<(), Stop>
    requires { IsRising method.now.instrs.now }
    ensures { Leaves result state.new (invoke_special_rule (env_of method.now) index state.old) }
{
    let (called, refs) = named_method(alloc, method, index)?;
    if is_init(called.name) {
        return invoke_init(method, called, &refs, state);
    }
    if is_special(called.name) {
        return Err(Stop::Refused);
    }
    invoke_super(method, called, &refs, state)
}
