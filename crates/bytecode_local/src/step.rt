ghost use Rattle.std.specs.Prelude.{◌≡◌, ◌↔◌, IsTrue, Some, None, IfSome, OnSome, IsSomeAnd, ◌+ℤ◌, pos};
ghost use Rattle.std.specs.Bool.{OnTrue};
ghost use Rattle.class_code.specs.Codes.{slot_place};
ghost use Rattle.class_code.specs.Listing.{IsRising};
ghost use Rattle.class_code.specs.Lookups.{instr_at};
ghost use Rattle.bytecode_local.specs.Changes.{can_take, changed};
ghost use Rattle.bytecode_local.specs.Effect.{local_simple, local, simple_change, change_of, offset, goes_on_at, planned, effect, Fits};

use crate::branches::branch;
use crate::change::{Change, apply, can_take};
use crate::constants::{int_constant, long_constant};
use crate::locals::{increment_change, load_change, store_change};
use crate::numbers::{compare_longs, compute, is_division, make_conversion};
use crate::rearranging::rearrange;
use crate::switches::{switch_by_lookup, switch_by_table};
use class_code::{Instr, Simple, Slot, entry_at};
use thread_frames::{Frame, Locals, Operands};
use ti_ids::Value;

/// An offset at which no instruction of a code begins, which has at most 65,535 bytes (JVM specification 4.7.3).
const PAST_ALL_CODE: u16 = 65_535;

fn is_local_simple(simple: Simple) -> bool
    ensures { result ≡ local_simple simple }
{
    match simple {
        Simple::Arithmetic(op, _) => !is_division(op),
        Simple::ArrayLoad(_)
        | Simple::ArrayStore(_)
        | Simple::Return(_)
        | Simple::ReturnVoid
        | Simple::ArrayLength
        | Simple::Throw
        | Simple::MonitorEnter
        | Simple::MonitorExit => false,
        _ => true,
    }
}

/// Whether an instruction changes its own frame alone, and throws nothing.
pub fn is_local(instr: &Instr) -> bool
    ensures { result ≡ local instr.now }
{
    match instr {
        Instr::Simple(simple) => is_local_simple(*simple),
        Instr::LoadConst(_)
        | Instr::Pool(_, _)
        | Instr::InvokeInterface(_, _)
        | Instr::NewArray(_)
        | Instr::MultiNewArray(_, _) => false,
        _ => true,
    }
}

fn slot_place(slot: Slot) -> u16
    ensures { result ≡ slot_place slot }
{
    match slot {
        Slot::Zero => 0,
        Slot::One => 1,
        Slot::Two => 2,
        Slot::Three => 3,
    }
}

fn simple_change(simple: Simple, locals: &Locals, stack: &Operands) -> Option<Change>
    ensures value { result ≡ simple_change simple locals.now stack.now }
    ensures local { OnSome result (IsTrue (local_simple simple)) }
{
    match simple {
        Simple::Nop => Some(Change::exchange(0, &[])),
        Simple::ConstNull => Some(Change::pushing(Value::Ref(None))),
        Simple::ConstInt(constant) => Some(Change::pushing(Value::Int(int_constant(constant)))),
        Simple::ConstLong(constant) => Some(Change::pushing(Value::Long(long_constant(constant)))),
        Simple::Load(kind, slot) => load_change(kind, slot_place(slot), locals),
        Simple::Store(kind, slot) => store_change(kind, slot_place(slot), stack),
        Simple::Stack(op) => rearrange(op, stack),
        Simple::Arithmetic(op, width) => compute(op, width, stack),
        Simple::Convert(conversion) => make_conversion(conversion, stack),
        Simple::CompareLongs => compare_longs(stack),
        _ => None,
    }
}

fn change_of(instr: &Instr, locals: &Locals, stack: &Operands) -> Option<Change>
    ensures value { result ≡ change_of instr.now locals.now stack.now }
    ensures local { OnSome result (IsTrue (local instr.now)) }
{
    match instr {
        Instr::Simple(simple) => simple_change(*simple, locals, stack),
        Instr::PushByte(number) => Some(Change::pushing(Value::Int(i32::from(*number)))),
        Instr::PushShort(number) => Some(Change::pushing(Value::Int(i32::from(*number)))),
        Instr::PushInt(number) => Some(Change::pushing(Value::Int(*number))),
        Instr::PushLong(number) => Some(Change::pushing(Value::Long(*number))),
        Instr::Load(kind, place) => load_change(*kind, u16::from(*place), locals),
        Instr::LoadWide(kind, place) => load_change(*kind, *place, locals),
        Instr::Store(kind, place) => store_change(*kind, u16::from(*place), stack),
        Instr::StoreWide(kind, place) => store_change(*kind, *place, stack),
        Instr::Increment(place, by) => increment_change(u16::from(*place), i32::from(*by), locals),
        Instr::IncrementWide(place, by) => increment_change(*place, i32::from(*by), locals),
        Instr::Branch(when, by) => branch(*when, i32::from(*by), stack),
        Instr::GotoWide(by) => Some(Change::jumping(0, true, *by)),
        Instr::TableSwitch(table) => switch_by_table(table, stack),
        Instr::LookupSwitch(lookup) => switch_by_lookup(lookup, stack),
        _ => None,
    }
}

/// The offset so far from this one.
fn jump(pc: u16, by: i32) -> Option<u16>
    ensures { result ≡ offset (pos pc +ℤ by) }
{
    let target = i64::from(pc) + i64::from(by);
    if (0..=0xffff).contains(&target) {
        Some(target as u16)
    } else {
        None
    }
}

/// What the instruction at the pc changes of the frame, and the pc after it.
fn plan<P>(code: &[(u16, Instr)], frame: &Frame<P>) -> Option<(Change, u16)>
    requires { IsRising code.now }
    ensures value { result ≡ planned code.now frame.now }
    ensures taken { IfSome result (λ p. IsTrue (can_take frame.now p.0)) }
    ensures local { OnSome result (IsSomeAnd (instr_at code.now frame.now.pc) (λ i. IsTrue (local i))) }
{
    let (instr, following) = entry_at(code, frame.pc)?;
    let change = change_of(instr, &frame.locals, &frame.stack)?;
    if !can_take(frame, &change) {
        return None;
    }
    let pc = match change.jump {
        Some(by) => jump(frame.pc, by)?,
        None => following.unwrap_or(PAST_ALL_CODE),
    };
    Some((change, pc))
}

/// Whether the instruction at the frame's pc is local, and no misfit: its operands and local variables are there and of
/// the kinds that it needs, and the operand stack has room for what it pushes.
///
/// `code` is a method's list of instructions, as `class_code::decode` gives it, with `PushInt` and `PushLong` in place of
/// each `ldc`, `ldc_w` and `ldc2_w` of a number. The time is logarithmic in its length, but for a `lookupswitch`, whose
/// keys are looked at one by one.
pub fn fits<P>(code: &[(u16, Instr)], frame: &Frame<P>) -> bool
    requires { IsRising code.now }
    ensures fits { IsTrue result ↔ Fits code.now frame.now }

    // What fits is local.
    ensures local { OnTrue result (IsSomeAnd (instr_at code.now frame.now.pc) (λ i. IsTrue (local i))) }
{
    plan(code, frame).is_some()
}

/// The frame after the instruction at its pc. No memory is taken. Behind the last instruction the pc is 65,535, where none
/// begins.
pub fn local_step<P: Drop>(code: &[(u16, Instr)], frame: Frame<P>) -> Frame<P>
    requires rising { IsRising code.now }
    requires fits { Fits code.now frame }
    ensures { effect code.now frame ≡ Some result }
{
    let Some((change, pc)) = plan(code, &frame) else {
        unreachable!();
    };
    apply(change, pc, frame)
}
