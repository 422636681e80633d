//! Loads and stores of local variables.
ghost use Rattle.std.specs.Prelude.{◌≡◌};
ghost use Rattle.type_frames.specs.RulesOfLocals.{load_rule, store_rule, increment_rule};
ghost use Rattle.type_rules.specs.Methods.{env_of};
ghost use Rattle.type_states.specs.Answers.{Leaves};

use crate::Method;
use class_code::Kind;
use type_states::{State, Stop, is_kind};

pub(crate) fn load<'a>(
    method: &Method<'a>,
    kind: Kind,
    place: u16,
    state: &mut State<'a>,
) -> Result<(), Stop>
    ensures { Leaves result state.new (load_rule (env_of method.now) kind place state.old) }
{
    match state.local(place) {
        Some(t) if is_kind(kind, t) => state.put(method.max_stack, t),
        _ => Err(Stop::Refused),
    }
}

pub(crate) fn store(kind: Kind, place: u16, state: &mut State<'_>) -> Result<(), Stop>
    ensures { Leaves result state.new (store_rule kind place state.old) }
{
    let t = state.take_any()?;
    if !is_kind(kind, t) {
        return Err(Stop::Refused);
    }
    state.store(place, t)
}

/// `iinc`
pub(crate) fn increment(place: u16, state: &mut State<'_>) -> Result<(), Stop>
    ensures { Leaves result state.new (increment_rule place state.old) }
{
    match state.local(place) {
        Some(t) if is_kind(Kind::Int, t) => Ok(()),
        _ => Err(Stop::Refused),
    }
}
