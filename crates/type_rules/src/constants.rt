//! Constants of the constant pool.
ghost use Rattle.std.specs.Prelude.{◌≡◌, option_map, option_copied};
ghost use Rattle.std.specs.Option.{option_and_then};
ghost use Rattle.type_frames.specs.Seen.{type_seen};
ghost use Rattle.type_frames.specs.RulesOfFields.{constant_type as type_of_constant, constant_rule, long_constant_rule};
ghost use Rattle.type_rules.specs.Methods.{env_of};
ghost use Rattle.type_states.specs.Answers.{Leaves};

use crate::Method;
use class_tree::Const;
use type_frames::{ClassName, VTypeRef};
use type_states::{State, Stop};

/// The units of `java/lang/String`.
const STRING: [u16; 16] = [
    0x6a, 0x61, 0x76, 0x61, 0x2f, 0x6c, 0x61, 0x6e, 0x67, 0x2f, 0x53, 0x74, 0x72, 0x69, 0x6e, 0x67,
];

/// The units of `java/lang/Class`.
const CLASS: [u16; 15] = [
    0x6a, 0x61, 0x76, 0x61, 0x2f, 0x6c, 0x61, 0x6e, 0x67, 0x2f, 0x43, 0x6c, 0x61, 0x73, 0x73,
];

fn constant_type(entry: &Const) -> Option<VTypeRef<'static>>
    ensures { option_map type_seen result ≡ type_of_constant entry.now }
{
    match entry {
        Const::Integer(_) => Some(VTypeRef::Integer),
        Const::Text(_) => Some(VTypeRef::Object(ClassName::Named(&STRING))),
        Const::Class(_) => Some(VTypeRef::Object(ClassName::Named(&CLASS))),
        _ => None,
    }
}

/// `ldc` and `ldc_w`
pub(crate) fn constant<'a>(
    method: &Method<'a>,
    index: u16,
    state: &mut State<'a>,
) -> Result<(), Stop>
    ensures { Leaves result state.new (constant_rule (env_of method.now) index state.old) }
{
    let Some(entry) = method.tree.entry_at(index) else {
        return Err(Stop::Refused);
    };
    match constant_type(entry) {
        Some(t) => state.put(method.max_stack, t),
        None => Err(Stop::Refused),
    }
}

/// `ldc2_w`
pub(crate) fn long_constant<'a>(
    method: &Method<'a>,
    index: u16,
    state: &mut State<'a>,
) -> Result<(), Stop>
    ensures { Leaves result state.new (long_constant_rule (env_of method.now) index state.old) }
{
    match method.tree.entry_at(index) {
        Some(Const::Long(_)) => state.put(method.max_stack, VTypeRef::Long),
        _ => Err(Stop::Refused),
    }
}
