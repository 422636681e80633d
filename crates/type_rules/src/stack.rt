//! What moves or copies operands whatever they are. Each takes one word or a whole long.
ghost use Rattle.std.specs.Prelude.{◌≡◌};
ghost use Rattle.type_frames.specs.RulesOfStack.{pop2_rule, dup_rule, dup_x1_rule, dup_x2_rule, dup2_rule, dup2_x1_rule, dup2_over_two, dup2_over_ones, dup2_x2_rule, swap_rule, stack_rule};
ghost use Rattle.type_rules.specs.Methods.{long_over_any, words_over_any};
ghost use Rattle.type_states.specs.Answers.{Leaves};

use class_code::StackOp;
use type_frames::VTypeRef;
use type_states::{State, Stop};

#[tactic(auto, using(crate::proofs::Tops::or_by_top))]
fn pop2(state: &mut State<'_>) -> Result<(), Stop>
    ensures { Leaves result state.new (pop2_rule state.old) }
{
    if state.has_long() {
        state.take_long()?;
    } else {
        state.take_word()?;
        state.take_word()?;
    }
    Ok(())
}

fn dup(room: u16, state: &mut State<'_>) -> Result<(), Stop>
    ensures { Leaves result state.new (dup_rule room state.old) }
{
    let a = state.take_word()?;
    state.put_all(room, &[a, a])
}

fn dup_x1(room: u16, state: &mut State<'_>) -> Result<(), Stop>
    ensures { Leaves result state.new (dup_x1_rule room state.old) }
{
    let a = state.take_word()?;
    let b = state.take_word()?;
    state.put_all(room, &[a, b, a])
}

#[tactic(auto, using(crate::proofs::Tops::or_by_top))]
fn dup_x2(room: u16, state: &mut State<'_>) -> Result<(), Stop>
    ensures { Leaves result state.new (dup_x2_rule room state.old) }
{
    let a = state.take_word()?;
    if state.has_long() {
        let b = state.take_long()?;
        return state.put_all(room, &[a, b, a]);
    }
    let b = state.take_word()?;
    let c = state.take_word()?;
    state.put_all(room, &[a, c, b, a])
}

#[tactic(auto, using(crate::proofs::Tops::or_by_top))]
fn dup2(room: u16, state: &mut State<'_>) -> Result<(), Stop>
    ensures { Leaves result state.new (dup2_rule room state.old) }
{
    if state.has_long() {
        let a = state.take_long()?;
        return state.put_all(room, &[a, a]);
    }
    let a = state.take_word()?;
    let b = state.take_word()?;
    state.put_all(room, &[b, a, b, a])
}

#[tactic(auto, using(crate::proofs::Tops::or_by_top))]
fn dup2_x1(room: u16, state: &mut State<'_>) -> Result<(), Stop>
    ensures { Leaves result state.new (dup2_x1_rule room state.old) }
{
    if state.has_long() {
        let a = state.take_long()?;
        let b = state.take_word()?;
        return state.put_all(room, &[a, b, a]);
    }
    let a = state.take_word()?;
    let b = state.take_word()?;
    let c = state.take_word()?;
    state.put_all(room, &[b, a, c, b, a])
}

/// `dup2_x2` of a long.
#[tactic(auto, using(crate::proofs::Tops::or_by_top))]
fn dup2_x2_of_long(room: u16, state: &mut State<'_>) -> Result<(), Stop>
    ensures { Leaves result state.new (long_over_any room state.old) }
{
    let a = state.take_long()?;
    if state.has_long() {
        let b = state.take_long()?;
        return state.put_all(room, &[a, b, a]);
    }
    let b = state.take_word()?;
    let c = state.take_word()?;
    state.put_all(room, &[a, c, b, a])
}

/// `dup2_x2` of two words.
#[tactic(auto, using(crate::proofs::Tops::or_by_top))]
fn dup2_x2_of_words(room: u16, state: &mut State<'_>) -> Result<(), Stop>
    ensures { Leaves result state.new (words_over_any room state.old) }
{
    let a = state.take_word()?;
    let b = state.take_word()?;
    if state.has_long() {
        let c = state.take_long()?;
        return state.put_all(room, &[b, a, c, b, a]);
    }
    let c = state.take_word()?;
    let d = state.take_word()?;
    state.put_all(room, &[b, a, d, c, b, a])
}

#[tactic(auto, using(crate::proofs::Tops::dup2_x2_by_top))]
fn dup2_x2(room: u16, state: &mut State<'_>) -> Result<(), Stop>
    ensures { Leaves result state.new (dup2_x2_rule room state.old) }
{
    if state.has_long() {
        dup2_x2_of_long(room, state)
    } else {
        dup2_x2_of_words(room, state)
    }
}

fn swap(room: u16, state: &mut State<'_>) -> Result<(), Stop>
    ensures { Leaves result state.new (swap_rule room state.old) }
{
    let a = state.take_word()?;
    let b = state.take_word()?;
    state.put_all(room, &[a, b])
}

#[tactic(auto, unfolding(type_frames::specs::RulesOfStack::stack_rule))]
pub(crate) fn rearrange(room: u16, op: StackOp, state: &mut State<'_>) -> Result<(), Stop>
    ensures { Leaves result state.new (stack_rule room op state.old) }
{
    match op {
        StackOp::Pop => state.take_word().map(|_| ()),
        StackOp::Pop2 => pop2(state),
        StackOp::Dup => dup(room, state),
        StackOp::DupX1 => dup_x1(room, state),
        StackOp::DupX2 => dup_x2(room, state),
        StackOp::Dup2 => dup2(room, state),
        StackOp::Dup2X1 => dup2_x1(room, state),
        StackOp::Dup2X2 => dup2_x2(room, state),
        StackOp::Swap => swap(room, state),
    }
}
