//! `new`, `checkcast` and `instanceof`.
ghost use Rattle.std.specs.Prelude.{◌≡◌};
ghost use Rattle.type_frames.specs.RulesOfFields.{new_rule, cast_rule, instance_rule};
ghost use Rattle.type_rules.specs.Methods.{env_of};
ghost use Rattle.type_states.specs.Answers.{Leaves};

use crate::Method;
use crate::names::{is_array, object};
use crate::numbers::moved;
use type_frames::{ClassName, VTypeRef};
use type_states::{State, Stop};

/// The `new` at an offset, of a class that is no array.
pub(crate) fn new_object<'a>(
    method: &Method<'a>,
    at: u16,
    index: u16,
    state: &mut State<'a>,
) -> Result<(), Stop>
    ensures { Leaves result state.new (new_rule (env_of method.now) at index state.old) }
{
    let Some(class) = method.tree.class_at(index) else {
        return Err(Stop::Refused);
    };
    if is_array(ClassName::Named(class.as_slice())) || state.has_uninit(at) {
        return Err(Stop::Refused);
    }
    state.forget(at);
    state.put(method.max_stack, VTypeRef::Uninit(at))
}

pub(crate) fn cast<'a>(method: &Method<'a>, index: u16, state: &mut State<'a>) -> Result<(), Stop>
    ensures { Leaves result state.new (cast_rule (env_of method.now) index state.old) }
{
    let Some(class) = method.tree.class_at(index) else {
        return Err(Stop::Refused);
    };
    let to = VTypeRef::Object(ClassName::Named(class.as_slice()));
    moved(method, &[object()], &[to], state)
}

pub(crate) fn instance<'a>(
    method: &Method<'a>,
    index: u16,
    state: &mut State<'a>,
) -> Result<(), Stop>
    ensures { Leaves result state.new (instance_rule (env_of method.now) index state.old) }
{
    if method.tree.class_at(index).is_none() {
        return Err(Stop::Refused);
    }
    moved(method, &[object()], &[VTypeRef::Integer], state)
}
