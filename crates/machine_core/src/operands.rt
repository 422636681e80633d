ghost use Rattle.std.specs.Prelude.{◌≡◌, ◌∷◌, List, ℕ, reverse, IfOk, OnOk, Some};
ghost use Rattle.machine_model.specs.Effects.{int_op as op_of};
ghost use Rattle.machine_core.specs.Performs.{Shows, IsTopTwo, ints_of, printed_of, known_effect};

use first_form::{Instr, Op};
use std::alloc::AllocError;
use ti_ids::{ObjNo, Value};

/// What an instruction does beside what it does to the operands.
#[derive(Clone, Copy, Debug, PartialEq, Eq)]
pub enum Done {
    Goes,
    /// It prints the number and a line feed.
    Prints(i32),
    /// The frame is left.
    Leaves,
    /// There are no such operands.
    Misfit,
}

#[tactic(auto, using(std::proofs::lemmas::Int::wraps))]
fn int_op(op: Op, left: i32, right: i32) -> i32
    ensures { result ≡ op_of op left right }
{
    match op {
        Op::Add => left.wrapping_add(right),
        Op::Sub => left.wrapping_sub(right),
        Op::Mul => left.wrapping_mul(right),
    }
}

/// The last entry and the one before it.
#[tactic(auto, using(crate::proofs::Stacks::reverse_one))]
fn top_two(stack: &[Value]) -> Option<(Value, Value)>
    ensures { IsTopTwo (reverse stack.now) result }
{
    let (upper, others) = stack.split_last()?;
    let (lower, _) = others.split_last()?;
    Some((*upper, *lower))
}

/// Two ints, the lower one first.
fn two_ints(upper: Value, lower: Value) -> Option<(i32, i32)>
    ensures { result ≡ ints_of upper lower }
{
    match upper {
        Value::Int(right) => match lower {
            Value::Int(left) => Some((left, right)),
            Value::Long(_) => None,
            Value::Ref(_) => None,
        },
        Value::Long(_) => None,
        Value::Ref(_) => None,
    }
}

/// The int that stands on an object.
fn int_on_object(upper: Value, lower: Value) -> Option<i32>
    ensures { result ≡ printed_of upper lower }
{
    match upper {
        Value::Int(value) => match lower {
            Value::Ref(Some(_)) => Some(value),
            Value::Ref(None) => None,
            Value::Int(_) => None,
            Value::Long(_) => None,
        },
        Value::Long(_) => None,
        Value::Ref(_) => None,
    }
}

/// Takes the two upper entries off.
#[tactic(auto, using(crate::proofs::Stacks::reverse_one))]
fn drop_two(stack: &mut Vec<Value>)
    ensures { (a b : _) (rest : List _) → reverse stack.old.items ≡ a ∷ b ∷ rest → reverse stack.new.items ≡ rest }
{
    let _ = stack.pop();
    let _ = stack.pop();
}

/// Puts an entry on the others.
#[tactic(auto, using(crate::proofs::Stacks::reverse_one))]
fn put(stack: &mut Vec<Value>, value: Value) -> Result<(), AllocError>
    ensures { OnOk result (reverse stack.new.items ≡ value ∷ reverse stack.old.items) }
{
    stack.push(value)?;
    Ok(())
}

/// Performs an instruction on the operands. Without them nothing happens.
pub fn perform(stack: &mut Vec<Value>, instr: Instr) -> Result<Done, AllocError>
    ensures { IfOk result (λ done. Shows done (known_effect instr (reverse stack.old.items)) (reverse stack.old.items) (reverse stack.new.items)) }
{
    match instr {
        Instr::IntConst(value) => {
            put(stack, Value::Int(i32::from(value)))?;
            Ok(Done::Goes)
        }
        Instr::GetStatic(_) => {
            put(stack, Value::Ref(Some(ObjNo(1))))?;
            Ok(Done::Goes)
        }
        Instr::IntArith(op) => operate(stack, op),
        Instr::InvokeVirtual(_) => Ok(print(stack)),
        Instr::Return => Ok(Done::Leaves),
    }
}

fn operate(stack: &mut Vec<Value>, op: Op) -> Result<Done, AllocError>
    ensures { IfOk result (λ done. Shows done (known_effect (Instr.IntArith op) (reverse stack.old.items)) (reverse stack.old.items) (reverse stack.new.items)) }
{
    match top_two(stack) {
        None => Ok(Done::Misfit),
        Some((upper, lower)) => match two_ints(upper, lower) {
            None => Ok(Done::Misfit),
            Some((left, right)) => {
                drop_two(stack);
                put(stack, Value::Int(int_op(op, left, right)))?;
                Ok(Done::Goes)
            }
        },
    }
}

fn print(stack: &mut Vec<Value>) -> Done
    ensures { (n : ℕ) → Shows result (known_effect (Instr.InvokeVirtual n) (reverse stack.old.items)) (reverse stack.old.items) (reverse stack.new.items) }
{
    match top_two(stack) {
        None => Done::Misfit,
        Some((upper, lower)) => match int_on_object(upper, lower) {
            None => Done::Misfit,
            Some(value) => {
                drop_two(stack);
                Done::Prints(value)
            }
        },
    }
}
