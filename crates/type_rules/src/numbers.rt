//! Constants of opcodes, arithmetic, conversions, comparisons and branches.
ghost use Rattle.std.specs.Prelude.{◌≡◌, ◌∷◌, [], map};
ghost use Rattle.type_frames.specs.declared.vtype.VType.TheVariants.{Integer};
ghost use Rattle.type_frames.specs.Seen.{type_seen};
ghost use Rattle.type_frames.specs.RulesOfNumbers.{moved as rule_moved, width_type as type_of_width, arithmetic_rule, conversion_rule, comparison_rule, branch_rule};
ghost use Rattle.type_rules.specs.Methods.{env_of};
ghost use Rattle.type_states.specs.Answers.{Leaves};

use crate::Method;
use class_code::{Arithmetic, Branch, Conversion, Width};
use type_frames::VTypeRef;
use type_states::{State, Stop};

/// Takes these, the first one from the top, and puts these, the first one first.
pub(crate) fn moved<'a>(
    method: &Method<'a>,
    takes: &[VTypeRef<'_>],
    puts: &[VTypeRef<'a>],
    state: &mut State<'a>,
) -> Result<(), Stop>
    ensures { Leaves result state.new (rule_moved (env_of method.now) (map type_seen takes.now) (map type_seen puts.now) state.old) }
{
    state.take_all(method.hierarchy, takes)?;
    state.put_all(method.max_stack, puts)
}

fn width_type<'a>(width: Width) -> VTypeRef<'a>
    ensures { type_seen result ≡ type_of_width width }
{
    match width {
        Width::Int => VTypeRef::Integer,
        Width::Long => VTypeRef::Long,
    }
}

/// Takes one value, and puts another.
fn one_for_one<'a>(
    method: &Method<'a>,
    from: VTypeRef<'_>,
    to: VTypeRef<'a>,
    state: &mut State<'a>,
) -> Result<(), Stop>
    ensures { Leaves result state.new (rule_moved (env_of method.now) (type_seen from.entry ∷ []) (type_seen to.entry ∷ []) state.old) }
{
    state.take(method.hierarchy, from)?;
    state.put(method.max_stack, to)
}

/// Takes two values, the upper one first, and puts one.
fn one_for_two<'a>(
    method: &Method<'a>,
    upper: VTypeRef<'_>,
    lower: VTypeRef<'_>,
    to: VTypeRef<'a>,
    state: &mut State<'a>,
) -> Result<(), Stop>
    ensures { Leaves result state.new (rule_moved (env_of method.now) (type_seen upper.entry ∷ type_seen lower.entry ∷ []) (type_seen to.entry ∷ []) state.old) }
{
    state.take(method.hierarchy, upper)?;
    state.take(method.hierarchy, lower)?;
    state.put(method.max_stack, to)
}

pub(crate) fn arithmetic<'a>(
    method: &Method<'a>,
    op: Arithmetic,
    width: Width,
    state: &mut State<'a>,
) -> Result<(), Stop>
    ensures { Leaves result state.new (arithmetic_rule (env_of method.now) op width state.old) }
{
    let t = width_type(width);
    match op {
        Arithmetic::Neg => one_for_one(method, t, t, state),
        Arithmetic::Shl | Arithmetic::Shr | Arithmetic::Ushr => {
            one_for_two(method, VTypeRef::Integer, t, t, state)
        }
        _ => one_for_two(method, t, t, t, state),
    }
}

pub(crate) fn conversion<'a>(
    method: &Method<'a>,
    conversion: Conversion,
    state: &mut State<'a>,
) -> Result<(), Stop>
    ensures { Leaves result state.new (conversion_rule (env_of method.now) conversion state.old) }
{
    let (from, to) = match conversion {
        Conversion::LongToInt => (Width::Long, Width::Int),
        Conversion::IntToLong => (Width::Int, Width::Long),
        _ => (Width::Int, Width::Int),
    };
    one_for_one(method, width_type(from), width_type(to), state)
}

pub(crate) fn comparison<'a>(method: &Method<'a>, state: &mut State<'a>) -> Result<(), Stop>
    ensures { Leaves result state.new (comparison_rule (env_of method.now) state.old) }
{
    let (long, int) = (VTypeRef::Long, VTypeRef::Integer);
    one_for_two(method, long, long, int, state)
}

pub(crate) fn branch<'a>(
    method: &Method<'a>,
    branch: Branch,
    state: &mut State<'a>,
) -> Result<(), Stop>
    ensures { Leaves result state.new (branch_rule (env_of method.now) branch state.old) }
{
    match branch {
        Branch::If(_) => moved(method, &[VTypeRef::Integer], &[], state),
        Branch::IfIntCompare(_) => moved(
            method,
            &[VTypeRef::Integer, VTypeRef::Integer],
            &[],
            state,
        ),
        Branch::IfSameReference | Branch::IfOtherReference => {
            state.take_reference()?;
            state.take_reference()
        }
        Branch::Goto => Ok(()),
        Branch::IfNull | Branch::IfNonNull => state.take_reference(),
    }
}

/// The key of a switch.
pub(crate) fn switch<'a>(method: &Method<'a>, state: &mut State<'a>) -> Result<(), Stop>
    ensures { Leaves result state.new (rule_moved (env_of method.now) (Integer ∷ []) [] state.old) }
{
    moved(method, &[VTypeRef::Integer], &[], state)
}
