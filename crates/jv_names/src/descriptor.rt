ghost use Rattle.std.specs.Prelude.{◌≡◌, ◌≢◌, ℕ, ◌+◌, ◌<◌, List, ◌∷◌, length, MatchOption, IfOk, IfErr, IfSome, option_map};
ghost use Rattle.jv_names.specs.declared.descriptor.Desc.{Desc};
ghost use Rattle.jv_names.specs.declared.descriptor.DescFault.{DescFault};
ghost use Rattle.jv_names.specs.DescriptorReading.{class_end as end_of_class, dimensions as dimensions_of, split_class, split_dimensions, read_class, read_element, read_type, any_element, any_read, kept_element, kept_type, Reads, floating_one, floating_some, with_last, AreParameters, IsNoParameters, IsResultText, ResultFault};
ghost use Rattle.jv_names.specs.DescriptorFlaws.{read_field, read_parameters, read_result, read_method, flaw_of as flaw_by, field_flaw as flaw_of_field, method_flaw as flaw_of_method, IsFieldAnswer, IsMethodAnswer};
ghost use Rattle.jv_names.specs.Descriptors.{any_type, any_method, is_floating, is_floating_type, is_floating_result as floating_result, is_floating_method as floating_method, IsFieldText, IsMethodText, IsFieldDesc, IsMethodDesc, FieldFault, MethodFault, GivesDesc, RefusesFor, IfFault};

use crate::Units;
use crate::name::has_class_form;
use sqlite_items::Items;
use std::alloc::{AllocError, Global};
use thiserror::Error;

// The units of descriptors (JVM specification 4.3.2 and 4.3.3).
const BOOLEAN: u16 = 0x5a; // `Z`

const BYTE: u16 = 0x42; // `B`

const CHAR: u16 = 0x43; // `C`

const SHORT: u16 = 0x53; // `S`

const INT: u16 = 0x49; // `I`

const LONG: u16 = 0x4a; // `J`

const FLOAT: u16 = 0x46; // `F`

const DOUBLE: u16 = 0x44; // `D`

const CLASS: u16 = 0x4c; // `L`

const CLASS_END: u16 = 0x3b; // `;`

const DIMENSION: u16 = 0x5b; // `[`

const PARAMETERS: u16 = 0x28; // `(`

const PARAMETERS_END: u16 = 0x29; // `)`

const VOID: u16 = 0x56; // `V`

/// What is left of a type when its array dimensions are taken off (JVM specification 2.4 and 4.3.2). Float and double are
/// not in the profile.
#[derive(Drop)]
pub enum ElementType {
    Boolean,
    Byte,
    Char,
    Short,
    Int,
    Long,
    /// A class or an interface, by its name in internal form.
    Class(Units),
}

/// The type of a field, a parameter or a result: an element under so many array dimensions, none for a plain value.
#[derive(Drop)]
pub struct FieldType {
    pub dimensions: usize,
    pub element: ElementType,
}

/// A method's parameters in order, without `this`, and its result; `None` is void.
#[derive(Drop)]
pub struct MethodType {
    pub parameters: Items<FieldType>,
    pub result: Option<FieldType>,
}

/// A descriptor is that of a field or that of a method (JVM specification 4.3).
#[derive(Drop)]
pub enum Desc {
    Field(FieldType),
    Method(MethodType),
}

/// Why a text was not read as a descriptor.
#[derive(Clone, Copy, Debug, PartialEq, Eq, Error)]
pub enum DescFault {
    /// It is no descriptor of the wanted sort.
    #[error("no descriptor")]
    Bad,
    /// It is a descriptor, with a float or a double in it.
    #[error("a descriptor with a floating-point type")]
    Floating,
    /// Memory ran out, which says nothing of the text.
    #[error("out of memory")]
    Memory,
}

/// Why a text itself is no descriptor of the profile.
#[derive(Clone, Copy, Debug, PartialEq, Eq, Error)]
pub enum DescFlaw {
    /// It is no descriptor of the wanted sort.
    #[error("no descriptor")]
    Bad,
    /// It is a descriptor, with a float or a double in it.
    #[error("a descriptor with a floating-point type")]
    Floating,
}

impl From<AllocError> for DescFault {
    ghost use Rattle.jv_names.specs.declared.descriptor.DescFault.TheVariants.{Memory};

    ghost from_gives = { λ _ e. e ≡ Memory };

    fn from(_: AllocError) -> Self {
        DescFault::Memory
    }
}

/// Where the first `;` stands.
#[tactic(auto, unfolding(crate::specs::DescriptorReading::class_end))]
fn class_end(units: &[u16]) -> Option<usize>
    ensures place { result ≡ end_of_class units.now }
    ensures within { IfSome result (λ end. end < length units.now) }
{
    units.iter().position(|unit| *unit == CLASS_END)
}

/// How many `[` stand in front of another unit.
#[tactic(auto, unfolding(crate::specs::DescriptorReading::dimensions))]
fn dimensions(units: &[u16]) -> Option<usize>
    ensures place { result ≡ dimensions_of units.now }
    ensures within { IfSome result (λ n. n < length units.now) }
{
    units.iter().position(|unit| *unit != DIMENSION)
}

/// What stands before the first `;`, and what behind it.
#[tactic(auto, unfolding(crate::specs::DescriptorReading::split_class))]
fn class_split(units: &[u16]) -> Option<(&[u16], &[u16])>
    ensures { option_map (λ x. (x.0.now, x.1.now)) result ≡ split_class units.now }
{
    let end = class_end(units)?;
    Some((&units[..end], &units[end + 1..]))
}

/// The number of leading `[`, and what follows them, where something does.
#[tactic(auto, unfolding(crate::specs::DescriptorReading::split_dimensions))]
fn dimensions_split(units: &[u16]) -> Option<(usize, &[u16])>
    ensures { option_map (λ x. (x.0, x.1.now)) result ≡ split_dimensions units.now }
{
    let dimensions = dimensions(units)?;
    Some((dimensions, &units[dimensions..]))
}

/// An element as it was read, with no memory taken yet: a class's name still stands in the text.
#[derive(Drop)]
enum ReadElement<'a> {
    Kept(ElementType),
    Float,
    Double,
    Class(&'a [u16]),
}

impl ReadElement<'_> {
    fn is_floating(&self) -> bool
        ensures { result ≡ is_floating (any_element self.now) }
    {
        matches!(self, ReadElement::Float | ReadElement::Double)
    }

    /// The element, `None` for a float or a double.
    fn kept(self, alloc: Global) -> Result<Option<ElementType>, AllocError>
        ensures { IfOk result (λ e. e ≡ kept_element (any_element self.entry)) }
    {
        match self {
            ReadElement::Kept(element) => Ok(Some(element)),
            ReadElement::Float | ReadElement::Double => Ok(None),
            ReadElement::Class(name) => {
                Ok(Some(ElementType::Class(Units::new(name.to_vec(alloc)?))))
            }
        }
    }
}

/// A type in the same way.
#[derive(Drop)]
struct ReadType<'a> {
    dimensions: usize,
    element: ReadElement<'a>,
}

/// The class whose name stands before the first `;`, and the units behind it.
#[tactic(auto, unfolding(crate::specs::DescriptorReading::read_class))]
fn class_front(units: &[u16]) -> Option<(ReadElement<'_>, &[u16])>
    ensures { option_map (λ x. (any_element x.0, x.1.now)) result ≡ read_class units.now }
{
    let (name, rest) = class_split(units)?;
    if has_class_form(name) {
        Some((ReadElement::Class(name), rest))
    } else {
        None
    }
}

/// The element at the front of the units, and the units behind it.
#[tactic(auto, unfolding(crate::specs::DescriptorReading::read_element))]
fn element_front(units: &[u16]) -> Option<(ReadElement<'_>, &[u16])>
    ensures { option_map (λ x. (any_element x.0, x.1.now)) result ≡ read_element units.now }
{
    let (letter, rest) = units.split_first()?;
    let element = match *letter {
        BOOLEAN => ReadElement::Kept(ElementType::Boolean),
        BYTE => ReadElement::Kept(ElementType::Byte),
        CHAR => ReadElement::Kept(ElementType::Char),
        SHORT => ReadElement::Kept(ElementType::Short),
        INT => ReadElement::Kept(ElementType::Int),
        LONG => ReadElement::Kept(ElementType::Long),
        FLOAT => ReadElement::Float,
        DOUBLE => ReadElement::Double,
        CLASS => return class_front(rest),
        _ => return None,
    };
    Some((element, rest))
}

/// The type at the front of the units, and the units behind it.
#[tactic(auto, unfolding(crate::specs::DescriptorReading::read_type))]
fn type_front(units: &[u16]) -> Option<(ReadType<'_>, &[u16])>
    ensures { option_map (λ x. (any_read x.0, x.1.now)) result ≡ read_type units.now }
{
    let (dimensions, rest) = dimensions_split(units)?;
    let (element, rest) = element_front(rest)?;
    let read = ReadType {
        dimensions,
        element,
    };
    Some((read, rest))
}

/// The same with memory taken for it, `None` in place of a type with a float or a double.
fn type_at(alloc: Global, units: &[u16]) -> Result<(Option<FieldType>, &[u16]), DescFault>
    ensures { Reads kept_type (λ x. (x.0, x.1.now)) result (read_type units.now) }
{
    let Some((read, rest)) = type_front(units) else {
        return Err(DescFault::Bad);
    };
    let dimensions = read.dimensions;
    let kept = read.element.kept(alloc)?.map(|element| FieldType {
        dimensions,
        element,
    });
    Ok((kept, rest))
}

/// What follows the unit, where the units begin with it.
fn after(unit: u16, units: &[u16]) -> Option<&[u16]>
    ensures { MatchOption result ((rest : List ℕ) → units.now ≢ unit ∷ rest) (λ rest. units.now ≡ unit ∷ rest.now) }
{
    units.strip_prefix(&[unit])
}

/// The type that the units are, all of them.
fn type_of(alloc: Global, units: &[u16]) -> Result<FieldType, DescFault>
    ensures found { IfOk result (λ t. IsFieldText units.now (any_type t)) }
    ensures fault { IfErr result (λ e. IfFault e (FieldFault units.now)) }
{
    let (kept, rest) = type_at(alloc, units)?;
    if !rest.is_empty() {
        return Err(DescFault::Bad);
    }
    kept.ok_or(DescFault::Floating)
}

/// The result that the units are, all of them.
fn result_of(alloc: Global, units: &[u16]) -> Result<Option<FieldType>, DescFault>
    ensures found { IfOk result (λ r. IsResultText units.now (option_map any_type r)) }
    ensures fault { IfErr result (λ e. IfFault e (ResultFault units.now)) }
{
    if units == [VOID].as_slice() {
        return Ok(None);
    }
    Ok(Some(type_of(alloc, units)?))
}

/// The parameters with one more, `None` once one of them has a float or a double.
fn with_parameter(
    parameters: Option<Items<FieldType>>,
    parameter: Option<FieldType>,
) -> Result<Option<Items<FieldType>>, AllocError>
    ensures { IfOk result (λ all. all ≡ with_last parameters parameter) }
{
    match (parameters, parameter) {
        (Some(mut parameters), Some(parameter)) => {
            parameters.push(parameter)?;
            Ok(Some(parameters))
        }
        _ => Ok(None),
    }
}

/// The parameters up to the `)` behind them, `None` where one has a float or a double, and the units behind that `)`.
fn parameters_at(
    alloc: Global,
    units: &[u16],
) -> Result<(Option<Items<FieldType>>, &[u16]), DescFault>
    ensures found { IfOk result (λ x. AreParameters units.now x.0 x.1.now) }
    ensures fault { IfErr result (IsNoParameters units.now) }
{
    let mut parameters = Some(Items::new(alloc));
    let mut rest = units;
    loop {
        if let Some(after) = after(PARAMETERS_END, rest) {
            return Ok((parameters, after));
        }
        let (parameter, after) = type_at(alloc, rest)?;
        parameters = with_parameter(parameters, parameter)?;
        rest = after;
    }
}

/// The method that the units are, all of them.
fn method_of(alloc: Global, units: &[u16]) -> Result<MethodType, DescFault>
    ensures found { IfOk result (λ m. IsMethodText units.now (any_method m)) }
    ensures fault { IfErr result (λ e. IfFault e (MethodFault units.now)) }
{
    let Some(rest) = after(PARAMETERS, units) else {
        return Err(DescFault::Bad);
    };
    let (parameters, rest) = parameters_at(alloc, rest)?;
    let result = result_of(alloc, rest)?;
    match parameters {
        Some(parameters) => Ok(MethodType { parameters, result }),
        None => Err(DescFault::Floating),
    }
}

/// The field descriptor that the text is, all of it (JVM specification 4.3.2), or why it is none. `Memory` is answered only
/// where an allocation failed. The limit of 255 dimensions is left to the caller.
pub fn field_desc(alloc: Global, text: &Units) -> Result<Desc, DescFault>
    // What is answered is a field's, and spelled so.
    ensures found { IfOk result (IsFieldDesc text.now) }

    // What the text spells is answered, unless memory runs out.
    ensures only { (d : Desc) → IsFieldDesc text.now d → GivesDesc result d }

    // A fault is the text's.
    ensures fault { IfErr result (λ e. IfFault e (FieldFault text.now)) }

    // A text is refused for its fault, unless memory runs out.
    ensures exact { (f : DescFault) → FieldFault text.now f → RefusesFor result f }
{
    Ok(Desc::Field(type_of(alloc, text.as_slice())?))
}

/// The method descriptor that the text is, all of it (JVM specification 4.3.3), or why it is none. `Memory` is answered
/// only where an allocation failed. The limit of 255 on the parameters' length is left to the caller.
pub fn method_desc(alloc: Global, text: &Units) -> Result<Desc, DescFault>
    // What is answered is a method's, and spelled so.
    ensures found { IfOk result (IsMethodDesc text.now) }

    // What the text spells is answered, unless memory runs out.
    ensures only { (d : Desc) → IsMethodDesc text.now d → GivesDesc result d }

    // A fault is the text's.
    ensures fault { IfErr result (λ e. IfFault e (MethodFault text.now)) }

    // A text is refused for its fault, unless memory runs out.
    ensures exact { (f : DescFault) → MethodFault text.now f → RefusesFor result f }
{
    Ok(Desc::Method(method_of(alloc, text.as_slice())?))
}

/// Whether the type that the units are, all of them, is of floating point.
#[tactic(auto, unfolding(crate::specs::DescriptorFlaws::read_field))]
fn is_floating_field(units: &[u16]) -> Option<bool>
    ensures { result ≡ option_map is_floating_type (read_field units.now) }
{
    match type_front(units) {
        Some((read, [])) => Some(read.element.is_floating()),
        _ => None,
    }
}

/// Whether the type at the front of the units is of floating point, and the units behind it.
fn floating_type(units: &[u16]) -> Option<(bool, &[u16])>
    ensures { option_map (λ x. (x.0, x.1.now)) result ≡ option_map floating_one (read_type units.now) }
{
    let (read, rest) = type_front(units)?;
    Some((read.element.is_floating(), rest))
}

/// Whether one of the parameters at the front of the units is of floating point, and what follows the `)` behind them.
fn floating_parameters(units: &[u16]) -> Option<(bool, &[u16])>
    ensures { option_map (λ x. (x.0, x.1.now)) result ≡ option_map floating_some (read_parameters (length units.now) units.now) }
{
    let mut floating = false;
    let mut rest = units;
    loop {
        if let Some(after) = after(PARAMETERS_END, rest) {
            return Some((floating, after));
        }
        let (parameter, after) = floating_type(rest)?;
        floating |= parameter;
        rest = after;
    }
}

/// Whether the result that the units are, all of them, is of floating point.
#[tactic(auto, unfolding(crate::specs::DescriptorFlaws::read_result))]
fn is_floating_result(units: &[u16]) -> Option<bool>
    ensures { result ≡ option_map floating_result (read_result units.now) }
{
    if units == [VOID].as_slice() {
        Some(false)
    } else {
        is_floating_field(units)
    }
}

/// Whether the method that the units are, all of them, has a type of floating point.
#[tactic(auto, unfolding(crate::specs::DescriptorFlaws::read_method))]
fn is_floating_method(units: &[u16]) -> Option<bool>
    ensures { result ≡ option_map floating_method (read_method units.now) }
{
    let rest = after(PARAMETERS, units)?;
    let (floating, rest) = floating_parameters(rest)?;
    let result = is_floating_result(rest)?;
    Some(floating || result)
}

/// The flaw of a text, by whether floating point is in it, where it is a descriptor.
fn flaw_of(floating: Option<bool>) -> Option<DescFlaw>
    ensures { result ≡ flaw_by floating }
{
    match floating {
        None => Some(DescFlaw::Bad),
        Some(true) => Some(DescFlaw::Floating),
        Some(false) => None,
    }
}

/// Why the text is no field descriptor of the profile (JVM specification 4.3.2), `None` where it is one: where
/// `field_desc` reads it unless memory runs out. It takes no memory.
pub fn field_flaw(text: &Units) -> Option<DescFlaw>
    // It is computed from the text.
    ensures value { result ≡ flaw_of_field text.now }

    // It is what the grammar says.
    ensures says { IsFieldAnswer text.now result }
{
    flaw_of(is_floating_field(text.as_slice()))
}

/// Why the text is no method descriptor of the profile (JVM specification 4.3.3), `None` where it is one: where
/// `method_desc` reads it unless memory runs out. It takes no memory.
pub fn method_flaw(text: &Units) -> Option<DescFlaw>
    // It is computed from the text.
    ensures value { result ≡ flaw_of_method text.now }

    // It is what the grammar says.
    ensures says { IsMethodAnswer text.now result }
{
    flaw_of(is_floating_method(text.as_slice()))
}
