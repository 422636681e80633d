//! Instructions on fields.
ghost use Rattle.std.specs.Prelude.{◌≡◌, option_map};
ghost use Rattle.type_frames.specs.declared.vtype.VType.TheVariants.{Object};
ghost use Rattle.type_frames.specs.Seen.{type_seen};
ghost use Rattle.type_frames.specs.Environments.{reference_of, field_at as field_named};
ghost use Rattle.type_frames.specs.RulesOfFields.{typed_field as field_typed, get_static_rule, put_static_rule, get_field_rule, put_field_rule};
ghost use Rattle.type_rules.specs.Methods.{env_of};
ghost use Rattle.type_rules.specs.Named.{reference_seen, field_seen, may_put_own};
ghost use Rattle.type_states.specs.Answers.{Leaves, Names};

use crate::Method;
use crate::numbers::moved;
use class_tree::{ClassFile, Const};
use jv_names::Units;
use type_descriptors::field_ref_checked;
use type_frames::{ClassName, VTypeRef, stands_for};
use type_states::{State, Stop};

/// A field or a method as the constant pool names it (4.4.2).
#[derive(Clone, Copy)]
pub(crate) struct MemberRef<'a> {
    pub(crate) class: &'a Units,
    pub(crate) name: &'a Units,
    pub(crate) desc: &'a Units,
}

impl<'a> MemberRef<'a> {
    /// An object of the class.
    pub(crate) fn object(&self) -> VTypeRef<'a>
        ensures { type_seen result ≡ Object self.now.class.now }
    {
        VTypeRef::Object(ClassName::Named(self.class.as_slice()))
    }
}

/// The class, the name and the descriptor of two entries.
pub(crate) fn reference_of(tree: &ClassFile, class: u16, pair: u16) -> Option<MemberRef<'_>>
    ensures { option_map reference_seen result ≡ reference_of tree.now.pool class pair }
{
    let class = tree.class_at(class)?;
    let (name, desc) = tree.name_type_at(pair)?;
    Some(MemberRef { class, name, desc })
}

fn field_at(tree: &ClassFile, index: u16) -> Option<MemberRef<'_>>
    ensures { option_map reference_seen result ≡ field_named tree.now.pool index }
{
    match tree.entry_at(index)? {
        Const::Field(class, pair) => reference_of(tree, *class, *pair),
        _ => None,
    }
}

/// The field that the pool names, and its type.
fn typed_field<'a>(method: &Method<'a>, index: u16) -> Result<(MemberRef<'a>, VTypeRef<'a>), Stop>
    ensures { Names field_seen result (field_typed (env_of method.now) index) }
{
    let Some(field) = field_at(method.tree, index) else {
        return Err(Stop::Refused);
    };
    match field_ref_checked(field.desc) {
        Some(t) => Ok((field, t)),
        None => Err(Stop::Refused),
    }
}

pub(crate) fn get_static<'a>(
    method: &Method<'a>,
    index: u16,
    state: &mut State<'a>,
) -> Result<(), Stop>
    ensures { Leaves result state.new (get_static_rule (env_of method.now) index state.old) }
{
    let (_, t) = typed_field(method, index)?;
    state.put(method.max_stack, t)
}

pub(crate) fn put_static<'a>(
    method: &Method<'a>,
    index: u16,
    state: &mut State<'a>,
) -> Result<(), Stop>
    ensures { Leaves result state.new (put_static_rule (env_of method.now) index state.old) }
{
    let (_, t) = typed_field(method, index)?;
    state.take(method.hierarchy, t)
}

pub(crate) fn get_field<'a>(
    method: &Method<'a>,
    index: u16,
    state: &mut State<'a>,
) -> Result<(), Stop>
    ensures { Leaves result state.new (get_field_rule (env_of method.now) index state.old) }
{
    let (field, t) = typed_field(method, index)?;
    moved(method, &[field.object()], &[t], state)
}

/// Whether an `<init>` may set this field of the object that it has to initialize still: it is one of the current class.
fn is_own_field(method: &Method<'_>, field: MemberRef<'_>, object: VTypeRef<'_>) -> bool
    ensures { result ≡ may_put_own (env_of method.now) (reference_seen field.entry) (type_seen object.entry) }
{
    method.is_init
        && field.class.as_slice() == method.class.as_slice()
        && matches!(object, VTypeRef::UninitThis)
}

pub(crate) fn put_field<'a>(
    method: &Method<'a>,
    index: u16,
    state: &mut State<'a>,
) -> Result<(), Stop>
    ensures { Leaves result state.new (put_field_rule (env_of method.now) index state.old) }
{
    let (field, t) = typed_field(method, index)?;
    state.take(method.hierarchy, t)?;
    let object = state.take_any()?;
    if stands_for(method.hierarchy, object, field.object()) || is_own_field(method, field, object) {
        Ok(())
    } else {
        Err(Stop::Refused)
    }
}
