//! The types of a method, by its descriptor (4.3.3).
ghost use Rattle.std.specs.Prelude.{◌≡◌, ◌≢◌, ◌<◌, ◌≤◌, ℕ, List, ◌∷◌, length, map, Option, Some, IfOk, IfSome, MatchOption, option_map, not, position, ◌==◌};
ghost use Rattle.jv_names.specs.Names.{Name};
ghost use Rattle.jv_names.specs.declared.descriptor.FieldType.{FieldType};
ghost use Rattle.jv_names.specs.declared.descriptor.MethodType.{MethodType};
ghost use Rattle.jv_names.specs.Descriptors.{any_type, any_method, IsMethodText};
ghost use Rattle.jv_names.specs.DescriptorReading.{IsResultText};
ghost use Rattle.type_frames.specs.declared.vtype.VType.{VType};
ghost use Rattle.type_frames.specs.Types.{field_vtype};
ghost use Rattle.type_frames.specs.Environments.{method_vtypes, method_vtype};
ghost use Rattle.type_frames.specs.Seen.{type_seen};
ghost use Rattle.type_descriptors.specs.Texts.{type_end as end_of_type, cut};
ghost use Rattle.type_descriptors.specs.Methods.{method_seen, some_types, AreParametersAt};

use crate::field_ref;
use crate::unit::{CLASS, CLASS_END, DIMENSION, PARAMETERS, PARAMETERS_END, VOID};
use jv_names::{Units, method_flaw};
use std::alloc::{AllocError, Global};
use type_frames::VTypeRef;

/// The types of a method's parameters in order, without `this`, and that of its result; `None` is void.
#[derive(Drop)]
pub struct MethodRefs<'a> {
    pub parameters: Vec<VTypeRef<'a>>,
    pub result: Option<VTypeRef<'a>>,
}

/// How many `[` stand in front of another unit.
fn dimensions(text: &[u16]) -> Option<usize>
    ensures place { result ≡ position (λ unit. not (unit == 91)) text.now }
    ensures within { IfSome result (λ n. n < length text.now) }
{
    text.iter().position(|unit| *unit != DIMENSION)
}

/// Where the first `;` stands.
fn class_end(text: &[u16]) -> Option<usize>
    ensures place { result ≡ position (λ unit. unit == 59) text.now }
    ensures within { IfSome result (λ last. last < length text.now) }
{
    text.iter().position(|unit| *unit == CLASS_END)
}

/// Where the text of the type at the front ends (4.3.2).
fn type_end(text: &[u16]) -> Option<usize>
    ensures value { result ≡ end_of_type text.now }
    ensures within { IfSome result (λ end. (0 < end) × (end ≤ length text.now)) }
{
    let place = dimensions(text)?;
    if text[place] != CLASS {
        return Some(place + 1);
    }
    let last = class_end(text)?;
    Some(last + 1)
}

/// The text of the type at the front, and what follows it.
fn type_front(text: &[u16]) -> Option<(&[u16], &[u16])>
    ensures value { option_map {U = Name × Name} (λ x. (x.0.now, x.1.now)) result ≡ cut text.now (end_of_type text.now) }
    ensures fewer { IfSome result (λ x. length x.1.now < length text.now) }
{
    let end = type_end(text)?;
    Some(text.split_at(end))
}

/// What follows the unit, where the units begin with it.
fn after(unit: u16, units: &[u16]) -> Option<&[u16]>
    ensures { MatchOption result ((rest : List ℕ) → units.now ≢ unit ∷ rest) (λ rest. units.now ≡ unit ∷ rest.now) }
{
    units.strip_prefix(&[unit])
}

/// The types of the parameters at the front, and what follows the `)` behind them. Texts that parameters don't begin may give
/// `None`.
fn parameters_front<'a>(
    alloc: Global,
    text: &'a [u16],
) -> Result<Option<(Vec<VTypeRef<'a>>, &'a [u16])>, AllocError>
    ensures { IfOk result (λ x. (parameters : List FieldType) (behind : Name) → AreParametersAt text.now parameters behind → option_map {U = List VType × Name} (λ y. (map type_seen y.0.items, y.1.now)) x ≡ some_types (map field_vtype parameters) behind) }
{
    let mut types = Vec::new(alloc);
    let mut rest = text;
    loop {
        if let Some(behind) = after(PARAMETERS_END, rest) {
            return Ok(Some((types, behind)));
        }
        let Some((one, others)) = type_front(rest) else {
            return Ok(None);
        };
        types.push(field_ref(one))?;
        rest = others;
    }
}

/// The type of the result that a text spells, `V` for void.
fn result_of(text: &[u16]) -> Option<VTypeRef<'_>>
    ensures { (r : Option FieldType) → IsResultText text.now (option_map any_type r) → option_map type_seen result ≡ option_map field_vtype r }
{
    if text == [VOID].as_slice() {
        None
    } else {
        Some(field_ref(text))
    }
}

/// The types of the method that a text spells. Another text may give `None`.
fn spelled_refs<'a>(alloc: Global, text: &'a [u16]) -> Result<Option<MethodRefs<'a>>, AllocError>
    ensures { IfOk result (λ refs. (m : MethodType) → IsMethodText text.now (any_method m) → option_map method_seen refs ≡ Some (method_vtypes m)) }
{
    let Some(inner) = after(PARAMETERS, text) else {
        return Ok(None);
    };
    match parameters_front(alloc, inner)? {
        None => Ok(None),
        Some((parameters, behind)) => Ok(Some(MethodRefs {
            parameters,
            result: result_of(behind),
        })),
    }
}

/// The types of the method whose descriptor the text is, all of it, and `None` where it is no method's, or has a floating-point
/// type. No name is copied: memory is taken for the list of the parameters alone.
pub fn method_refs<'a>(alloc: Global, text: &'a Units) -> Result<Option<MethodRefs<'a>>, AllocError>
    ensures { IfOk result (λ refs. option_map method_seen refs ≡ method_vtype text.now) }
{
    match method_flaw(text) {
        Some(_) => Ok(None),
        None => spelled_refs(alloc, text.as_slice()),
    }
}
