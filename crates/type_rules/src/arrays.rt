//! Instructions on arrays. Null is an array of every sort.
ghost use Rattle.std.specs.Prelude.{◌≡◌, replicate, option_map};
ghost use Rattle.type_frames.specs.declared.vtype.VType.TheVariants.{Integer, Object};
ghost use Rattle.type_frames.specs.States.{top_if, all_taken};
ghost use Rattle.type_frames.specs.Seen.{type_seen};
ghost use Rattle.type_frames.specs.RulesOfArrays.{objects as array_of_objects, is_small as small, holds as holds_elements, component as component_type, loaded as loaded_type, stored_type as type_stored, is_any_array as any_array, primitive_array as array_of_numbers, array_load_rule, array_store_rule, array_length_rule, new_array_rule, new_reference_array_rule, multi_array_rule};
ghost use Rattle.type_rules.specs.Methods.{env_of};
ghost use Rattle.type_states.specs.Answers.{Leaves, Gives};

use crate::Method;
use crate::names::{component_of, is_array, is_small_array, object};
use crate::numbers::moved;
use class_code::{Element, Primitive};
use jv_names::OBJECT;
use type_frames::{ClassName, Hierarchy, VTypeRef, dimensions, stands_for};
use type_states::{State, Stop};

/// The array class whose components are the numbers of this unit.
const BOOLEANS: [u16; 2] = [91, 90];

const BYTES: [u16; 2] = [91, 66];

const CHARS: [u16; 2] = [91, 67];

const SHORTS: [u16; 2] = [91, 83];

const INTS: [u16; 2] = [91, 73];

const LONGS: [u16; 2] = [91, 74];

fn array_type(text: &[u16]) -> VTypeRef<'_>
    ensures { type_seen result ≡ Object text.now }
{
    VTypeRef::Object(ClassName::Named(text))
}

/// An array of objects of any class.
fn objects<'a>() -> VTypeRef<'a>
    ensures { type_seen result ≡ array_of_objects }
{
    VTypeRef::Object(ClassName::ArrayOf(&OBJECT))
}

/// An array of bytes or of booleans.
fn is_small(t: VTypeRef<'_>) -> bool
    ensures { result ≡ small (type_seen t.entry) }
{
    match t {
        VTypeRef::Null => true,
        VTypeRef::Object(name) => is_small_array(name),
        _ => false,
    }
}

/// An array of such elements.
fn holds(hierarchy: &Hierarchy, element: Element, t: VTypeRef<'_>) -> bool
    ensures { result ≡ holds_elements hierarchy.now element (type_seen t.entry) }
{
    match element {
        Element::Byte => is_small(t),
        Element::Int => stands_for(hierarchy, t, array_type(&INTS)),
        Element::Long => stands_for(hierarchy, t, array_type(&LONGS)),
        Element::Char => stands_for(hierarchy, t, array_type(&CHARS)),
        Element::Short => stands_for(hierarchy, t, array_type(&SHORTS)),
        Element::Reference => stands_for(hierarchy, t, objects()),
    }
}

/// The component of an array of references, which of null is null.
fn component(t: VTypeRef<'_>) -> Option<VTypeRef<'_>>
    ensures { option_map type_seen result ≡ component_type (type_seen t.entry) }
{
    match t {
        VTypeRef::Null => Some(VTypeRef::Null),
        VTypeRef::Object(name) => Some(VTypeRef::Object(component_of(name)?)),
        _ => None,
    }
}

/// What is loaded of an array.
fn loaded(element: Element, array: VTypeRef<'_>) -> Option<VTypeRef<'_>>
    ensures { option_map type_seen result ≡ loaded_type element (type_seen array.entry) }
{
    match element {
        Element::Long => Some(VTypeRef::Long),
        Element::Reference => component(array),
        _ => Some(VTypeRef::Integer),
    }
}

/// Takes an array of such elements.
fn take_array<'a>(
    hierarchy: &Hierarchy,
    element: Element,
    state: &mut State<'a>,
) -> Result<VTypeRef<'a>, Stop>
    ensures { Gives type_seen result state.new (top_if (holds_elements hierarchy.now element) state.old) }
{
    let array = state.take_any()?;
    if holds(hierarchy, element, array) {
        Ok(array)
    } else {
        Err(Stop::Refused)
    }
}

/// `iaload` to `saload`
pub(crate) fn load<'a>(
    method: &Method<'a>,
    element: Element,
    state: &mut State<'a>,
) -> Result<(), Stop>
    ensures { Leaves result state.new (array_load_rule (env_of method.now) element state.old) }
{
    state.take(method.hierarchy, VTypeRef::Integer)?;
    let array = take_array(method.hierarchy, element, state)?;
    match loaded(element, array) {
        Some(t) => state.put(method.max_stack, t),
        None => Err(Stop::Refused),
    }
}

/// What is stored in an array: in one of references, any reference to an initialized object.
fn stored_type(element: Element) -> VTypeRef<'static>
    ensures { type_seen result ≡ type_stored element }
{
    match element {
        Element::Long => VTypeRef::Long,
        Element::Reference => object(),
        _ => VTypeRef::Integer,
    }
}

/// `iastore` to `sastore`
pub(crate) fn store<'a>(
    method: &Method<'a>,
    element: Element,
    state: &mut State<'a>,
) -> Result<(), Stop>
    ensures { Leaves result state.new (array_store_rule (env_of method.now) element state.old) }
{
    state.take_all(method.hierarchy, &[stored_type(element), VTypeRef::Integer])?;
    take_array(method.hierarchy, element, state)?;
    Ok(())
}

fn is_any_array(t: VTypeRef<'_>) -> bool
    ensures { result ≡ any_array (type_seen t.entry) }
{
    match t {
        VTypeRef::Null => true,
        VTypeRef::Object(name) => is_array(name),
        _ => false,
    }
}

/// `arraylength`
pub(crate) fn length<'a>(method: &Method<'a>, state: &mut State<'a>) -> Result<(), Stop>
    ensures { Leaves result state.new (array_length_rule (env_of method.now) state.old) }
{
    let array = state.take_any()?;
    if !is_any_array(array) {
        return Err(Stop::Refused);
    }
    state.put(method.max_stack, VTypeRef::Integer)
}

fn primitive_array(primitive: Primitive) -> &'static [u16]
    ensures { result.now ≡ array_of_numbers primitive }
{
    match primitive {
        Primitive::Boolean => &BOOLEANS,
        Primitive::Char => &CHARS,
        Primitive::Byte => &BYTES,
        Primitive::Short => &SHORTS,
        Primitive::Int => &INTS,
        Primitive::Long => &LONGS,
    }
}

/// `newarray`
pub(crate) fn new_numbers<'a>(
    method: &Method<'a>,
    primitive: Primitive,
    state: &mut State<'a>,
) -> Result<(), Stop>
    ensures { Leaves result state.new (new_array_rule (env_of method.now) primitive state.old) }
{
    let array = array_type(primitive_array(primitive));
    moved(method, &[VTypeRef::Integer], &[array], state)
}

/// `anewarray`
pub(crate) fn new_references<'a>(
    method: &Method<'a>,
    index: u16,
    state: &mut State<'a>,
) -> Result<(), Stop>
    ensures { Leaves result state.new (new_reference_array_rule (env_of method.now) index state.old) }
{
    let Some(class) = method.tree.class_at(index) else {
        return Err(Stop::Refused);
    };
    let array = VTypeRef::Object(ClassName::ArrayOf(class.as_slice()));
    moved(method, &[VTypeRef::Integer], &[array], state)
}

/// Takes so many lengths.
#[tactic(auto, using(crate::proofs::Lengths::lengths_more, crate::proofs::Lengths::lengths_not, crate::proofs::Lengths::lengths_over))]
fn take_lengths(hierarchy: &Hierarchy, lengths: u8, state: &mut State<'_>) -> Result<(), Stop>
    ensures { Leaves result state.new (all_taken hierarchy.now (replicate lengths Integer) state.old) }
{
    for _ in 0..lengths {
        state.take(hierarchy, VTypeRef::Integer)?;
    }
    Ok(())
}

/// `multianewarray`, of so many lengths
pub(crate) fn new_multi<'a>(
    method: &Method<'a>,
    index: u16,
    lengths: u8,
    state: &mut State<'a>,
) -> Result<(), Stop>
    ensures { Leaves result state.new (multi_array_rule (env_of method.now) index lengths state.old) }
{
    let Some(class) = method.tree.class_at(index) else {
        return Err(Stop::Refused);
    };
    if lengths == 0 || usize::from(lengths) > dimensions(class.as_slice()) {
        return Err(Stop::Refused);
    }
    take_lengths(method.hierarchy, lengths, state)?;
    state.put(method.max_stack, array_type(class.as_slice()))
}
