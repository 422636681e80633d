ghost use Rattle.std.specs.Prelude.{◌≡◌, codes};
ghost use Rattle.type_frames.specs.declared.vtype.VType.TheVariants.{Object};
ghost use Rattle.type_frames.specs.States.{taken};
ghost use Rattle.class_code.specs.Listing.{IsRising};
ghost use Rattle.class_code.specs.Codes.{slot_place as place_of_slot};
ghost use Rattle.type_frames.specs.Rules.{simple_rule, pool_rule, rule as rule_of};
ghost use Rattle.type_rules.specs.Methods.{env_of};
ghost use Rattle.type_states.specs.Answers.{Leaves};

use crate::{Method, arrays, calls, constants, fields, locals, numbers, objects, returns, stack};
use class_code::{Instr, PoolOp, Simple, Slot};
use jv_names::THROWABLE;
use std::alloc::Global;
use type_frames::{ClassName, VTypeRef};
use type_states::{State, Stop};

fn slot_place(slot: Slot) -> u16
    ensures { result ≡ place_of_slot slot }
{
    match slot {
        Slot::Zero => 0,
        Slot::One => 1,
        Slot::Two => 2,
        Slot::Three => 3,
    }
}

/// `athrow`
fn throw<'a>(method: &Method<'a>, state: &mut State<'a>) -> Result<(), Stop>
    ensures { Leaves result state.new (taken method.now.hierarchy.now (Object (codes "java/lang/Throwable")) state.old) }
{
    let throwable = VTypeRef::Object(ClassName::Named(&THROWABLE));
    state.take(method.hierarchy, throwable)
}

/// An instruction that is its opcode alone.
#[tactic(auto, unfolding(type_frames::specs::Rules::simple_rule))]
fn simple<'a>(method: &Method<'a>, simple: Simple, state: &mut State<'a>) -> Result<(), Stop>
    ensures { Leaves result state.new (simple_rule (env_of method.now) simple state.old) }
{
    let room = method.max_stack;
    match simple {
        Simple::Nop => Ok(()),
        Simple::ConstNull => state.put(room, VTypeRef::Null),
        Simple::ConstInt(_) => state.put(room, VTypeRef::Integer),
        Simple::ConstLong(_) => state.put(room, VTypeRef::Long),
        Simple::Load(kind, slot) => locals::load(method, kind, slot_place(slot), state),
        Simple::Store(kind, slot) => locals::store(kind, slot_place(slot), state),
        Simple::ArrayLoad(element) => arrays::load(method, element, state),
        Simple::ArrayStore(element) => arrays::store(method, element, state),
        Simple::Stack(op) => stack::rearrange(room, op, state),
        Simple::Arithmetic(op, width) => numbers::arithmetic(method, op, width, state),
        Simple::Convert(conversion) => numbers::conversion(method, conversion, state),
        Simple::CompareLongs => numbers::comparison(method, state),
        Simple::Return(kind) => returns::return_value(method, kind, state),
        Simple::ReturnVoid => returns::return_void(method, state),
        Simple::ArrayLength => arrays::length(method, state),
        Simple::Throw => throw(method, state),
        Simple::MonitorEnter => state.take_reference(),
        Simple::MonitorExit => state.take_reference(),
    }
}

/// The instruction at an offset, with an entry of the constant pool.
#[tactic(auto, unfolding(type_frames::specs::Rules::pool_rule))]
fn pool<'a>(
    alloc: Global,
    method: &Method<'a>,
    at: u16,
    op: PoolOp,
    index: u16,
    state: &mut State<'a>,
) -> Result<(), Stop>
    requires { IsRising method.now.instrs.now }
    ensures { Leaves result state.new (pool_rule (env_of method.now) at op index state.old) }
{
    match op {
        PoolOp::LoadConstWide => constants::constant(method, index, state),
        PoolOp::LoadLongConst => constants::long_constant(method, index, state),
        PoolOp::GetStatic => fields::get_static(method, index, state),
        PoolOp::PutStatic => fields::put_static(method, index, state),
        PoolOp::GetField => fields::get_field(method, index, state),
        PoolOp::PutField => fields::put_field(method, index, state),
        PoolOp::InvokeVirtual => calls::invoke_virtual(alloc, method, index, state),
        PoolOp::InvokeSpecial => calls::invoke_special(alloc, method, index, state),
        PoolOp::InvokeStatic => calls::invoke_static(alloc, method, index, state),
        PoolOp::New => objects::new_object(method, at, index, state),
        PoolOp::NewReferenceArray => arrays::new_references(method, index, state),
        PoolOp::CheckCast => objects::cast(method, index, state),
        PoolOp::InstanceOf => objects::instance(method, index, state),
    }
}

/// What the instruction at an offset makes of the type state before it (4.10.1.9). `Refused` says that its rule refuses the state;
/// the state is then spent, as it is after `Memory`.
///
/// The time is that of the types that it takes and puts; a call of an `<init>` and a `new` go through all types of the state.
#[tactic(auto, unfolding(type_frames::specs::Rules::rule))]
pub fn rule<'a>(
    alloc: Global,
    method: &Method<'a>,
    at: u16,
    instr: &Instr,
    state: &mut State<'a>,
) -> Result<(), Stop>
    requires { IsRising method.now.instrs.now }
    ensures { Leaves result state.new (rule_of (env_of method.now) at instr.now state.old) }
{
    let room = method.max_stack;
    match instr {
        Instr::Simple(op) => simple(method, *op, state),
        Instr::PushByte(_) => state.put(room, VTypeRef::Integer),
        Instr::PushShort(_) => state.put(room, VTypeRef::Integer),
        Instr::PushInt(_) => state.put(room, VTypeRef::Integer),
        Instr::PushLong(_) => state.put(room, VTypeRef::Long),
        Instr::LoadConst(index) => constants::constant(method, u16::from(*index), state),
        Instr::Load(kind, place) => locals::load(method, *kind, u16::from(*place), state),
        Instr::LoadWide(kind, place) => locals::load(method, *kind, *place, state),
        Instr::Store(kind, place) => locals::store(*kind, u16::from(*place), state),
        Instr::StoreWide(kind, place) => locals::store(*kind, *place, state),
        Instr::Increment(place, _) => locals::increment(u16::from(*place), state),
        Instr::IncrementWide(place, _) => locals::increment(*place, state),
        Instr::Branch(branch, _) => numbers::branch(method, *branch, state),
        Instr::GotoWide(_) => Ok(()),
        Instr::TableSwitch(_) => numbers::switch(method, state),
        Instr::LookupSwitch(_) => numbers::switch(method, state),
        Instr::Pool(op, index) => pool(alloc, method, at, *op, *index, state),
        Instr::InvokeInterface(index, count) => {
            calls::invoke_interface(alloc, method, *index, *count, state)
        }
        Instr::NewArray(primitive) => arrays::new_numbers(method, *primitive, state),
        Instr::MultiNewArray(index, lengths) => arrays::new_multi(method, *index, *lengths, state),
    }
}
