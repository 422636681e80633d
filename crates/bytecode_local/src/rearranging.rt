ghost use Rattle.std.specs.Prelude.{◌≡◌};
ghost use Rattle.bytecode_local.specs.Rearranging.{popped_two, copied_under_two, two_copied, two_copied_under_one, long_copied_under_two, pair_copied_under_two, two_copied_under_two, rearranged};

use crate::change::Change;
use crate::kinds::{category_one_at, is_category_two};
use class_code::StackOp;
use thread_frames::Operands;

fn pop2(stack: &Operands) -> Option<Change>
    ensures { result ≡ popped_two stack.now }
{
    let value1 = stack.get(0)?;
    if is_category_two(value1) {
        return Some(Change::exchange(1, &[]));
    }
    category_one_at(stack, 1)?;
    Some(Change::exchange(2, &[]))
}

fn dup_x2(stack: &Operands) -> Option<Change>
    ensures { result ≡ copied_under_two stack.now }
{
    let value1 = category_one_at(stack, 0)?;
    let value2 = stack.get(1)?;
    if is_category_two(value2) {
        return Some(Change::exchange(2, &[value1, value2, value1]));
    }
    let value3 = category_one_at(stack, 2)?;
    Some(Change::exchange(3, &[value1, value2, value3, value1]))
}

fn dup2(stack: &Operands) -> Option<Change>
    ensures { result ≡ two_copied stack.now }
{
    let value1 = stack.get(0)?;
    if is_category_two(value1) {
        return Some(Change::exchange(1, &[value1, value1]));
    }
    let value2 = category_one_at(stack, 1)?;
    Some(Change::exchange(2, &[value1, value2, value1, value2]))
}

fn dup2_x1(stack: &Operands) -> Option<Change>
    ensures { result ≡ two_copied_under_one stack.now }
{
    let value1 = stack.get(0)?;
    let value2 = category_one_at(stack, 1)?;
    if is_category_two(value1) {
        return Some(Change::exchange(2, &[value1, value2, value1]));
    }
    let value3 = category_one_at(stack, 2)?;
    Some(Change::exchange(3, &[value1, value2, value3, value1, value2]))
}

/// `dup2_x2` where the top is of category 2.
fn dup2_x2_long(stack: &Operands) -> Option<Change>
    ensures { result ≡ long_copied_under_two stack.now }
{
    let value1 = stack.get(0)?;
    let value2 = stack.get(1)?;
    if is_category_two(value2) {
        return Some(Change::exchange(2, &[value1, value2, value1]));
    }
    let value3 = category_one_at(stack, 2)?;
    Some(Change::exchange(3, &[value1, value2, value3, value1]))
}

/// `dup2_x2` where the top is of category 1.
fn dup2_x2_pair(stack: &Operands) -> Option<Change>
    ensures { result ≡ pair_copied_under_two stack.now }
{
    let value1 = stack.get(0)?;
    let value2 = category_one_at(stack, 1)?;
    let value3 = stack.get(2)?;
    if is_category_two(value3) {
        return Some(Change::exchange(3, &[value1, value2, value3, value1, value2]));
    }
    let value4 = category_one_at(stack, 3)?;
    Some(Change::exchange(4, &[value1, value2, value3, value4, value1, value2]))
}

fn dup2_x2(stack: &Operands) -> Option<Change>
    ensures { result ≡ two_copied_under_two stack.now }
{
    if is_category_two(stack.get(0)?) {
        dup2_x2_long(stack)
    } else {
        dup2_x2_pair(stack)
    }
}

/// What an instruction changes that moves or copies operands whatever they hold.
pub(crate) fn rearrange(op: StackOp, stack: &Operands) -> Option<Change>
    ensures { result ≡ rearranged op stack.now }
{
    match op {
        StackOp::Pop => {
            category_one_at(stack, 0)?;
            Some(Change::exchange(1, &[]))
        }
        StackOp::Pop2 => pop2(stack),
        StackOp::Dup => {
            let value1 = category_one_at(stack, 0)?;
            Some(Change::exchange(1, &[value1, value1]))
        }
        StackOp::DupX1 => {
            let value1 = category_one_at(stack, 0)?;
            let value2 = category_one_at(stack, 1)?;
            Some(Change::exchange(2, &[value1, value2, value1]))
        }
        StackOp::DupX2 => dup_x2(stack),
        StackOp::Dup2 => dup2(stack),
        StackOp::Dup2X1 => dup2_x1(stack),
        StackOp::Dup2X2 => dup2_x2(stack),
        StackOp::Swap => {
            let value1 = category_one_at(stack, 0)?;
            let value2 = category_one_at(stack, 1)?;
            Some(Change::exchange(2, &[value2, value1]))
        }
    }
}
