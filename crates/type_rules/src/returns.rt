//! Returns.
ghost use Rattle.std.specs.Prelude.{◌≡◌};
ghost use Rattle.type_frames.specs.RulesOfCalls.{return_rule, return_void_rule};
ghost use Rattle.type_rules.specs.Methods.{env_of};
ghost use Rattle.type_states.specs.Answers.{Leaves};

use crate::Method;
use class_code::Kind;
use type_states::{State, Stop, is_kind};

/// `ireturn`, `lreturn`, `areturn`
pub(crate) fn return_value<'a>(
    method: &Method<'a>,
    kind: Kind,
    state: &mut State<'a>,
) -> Result<(), Stop>
    ensures { Leaves result state.new (return_rule (env_of method.now) kind state.old) }
{
    match method.result {
        Some(t) if is_kind(kind, t) => state.take(method.hierarchy, t),
        _ => Err(Stop::Refused),
    }
}

/// `return`: of a method without a result; an `<init>` has called another one.
pub(crate) fn return_void<'a>(method: &Method<'a>, state: &mut State<'a>) -> Result<(), Stop>
    ensures { Leaves result state.new (return_void_rule (env_of method.now) state.old) }
{
    if method.result.is_none() && !state.is_this_uninit() {
        Ok(())
    } else {
        Err(Stop::Refused)
    }
}
