ghost use Rattle.std.specs.Prelude.{◌≡◌, ◌≤◌, ◌*◌, ◌++◌, IsTrue, length, drop, take};
ghost use Rattle.thread_frames.specs.Operands.{value_words, words_of};
ghost use Rattle.bytecode_local.specs.Changes.{exchange, storing, jumping, changed_entries, has_room, stores_within, can_take, changed};
ghost use Rattle.bytecode_local.specs.Constants.{pushing};

use crate::locals::{has_places, store, value_words};
use std::marker::Model;
use thread_frames::{Frame, Locals, Operands};
use ti_ids::{Announced, Value};

/// How many operands an instruction puts on the operand stack at most: `dup2_x2` six.
const MOST: usize = 6;

/// At most six operands, the top first.
#[derive(Drop)]
pub(crate) struct Pushed {
    values: [Value; 6],
    count: usize,
}

impl Model for Pushed {
    ghost use Rattle.std.specs.Prelude.{◌≤◌, List, take};
    ghost use Rattle.ti_ids.specs.declared.value.Value.{Value as JavaValue};

    ghost Value = { List JavaValue };

    ghost view = { λ s. take s.count s.values };

    ghost invariant = { λ s. s.count ≤ 6 };
}

impl Pushed {
    fn new(values: &[Value]) -> Pushed
        requires { length values.now ≤ MOST }
        ensures { result ≡ values.now }
    {
        let mut held = [Value::Int(0); 6];
        for (place, value) in values.iter().enumerate() {
            held[place] = *value;
        }
        Pushed {
            values: held,
            count: values.len(),
        }
    }

    fn as_slice(&self) -> &[Value]
        ensures value { result.now ≡ self.now }
        ensures bound { length result.now ≤ MOST }
    {
        &self.values[..self.count]
    }
}

/// What an instruction changes of its frame.
#[derive(Drop)]
pub(crate) struct Change {
    /// How many of the topmost operands it takes.
    pub(crate) taken: u8,
    /// The operands that it puts in their place, the top first.
    pub(crate) given: Pushed,
    /// The local variable that it stores into, and the value.
    pub(crate) stored: Option<(u16, Value)>,
    /// How far it jumps, in bytes from its own opcode. None where the next instruction follows.
    pub(crate) jump: Option<i32>,
}

impl Model for Change {
    ghost use Rattle.bytecode_local.specs.Changes.{Change as FrameChange};

    ghost Value = { FrameChange };

    ghost view = { λ c. record { taken = c.taken; given = c.given; stored = c.stored; jump = c.jump } };
}

impl Change {
    pub(crate) fn exchange(taken: u8, given: &[Value]) -> Change
        requires { length given.now ≤ MOST }
        ensures { result ≡ exchange taken given.now }
    {
        Change {
            taken,
            given: Pushed::new(given),
            stored: None,
            jump: None,
        }
    }

    pub(crate) fn pushing(value: Value) -> Change
        ensures { result ≡ pushing value }
    {
        Change::exchange(0, &[value])
    }

    pub(crate) fn storing(taken: u8, place: u16, value: Value) -> Change
        ensures { result ≡ storing taken place value }
    {
        Change {
            taken,
            given: Pushed::new(&[]),
            stored: Some((place, value)),
            jump: None,
        }
    }

    pub(crate) fn jumping(taken: u8, holds: bool, by: i32) -> Change
        ensures { result ≡ jumping taken holds by }
    {
        Change {
            taken,
            given: Pushed::new(&[]),
            stored: None,
            jump: if holds { Some(by) } else { None },
        }
    }
}

/// How many words these operands take.
#[tactic(auto, using(std::proofs::lemmas::List::Sums::sum_by_more, crate::proofs::OperandCounts::words_at_most_two))]
fn words_of(values: &[Value]) -> u64
    requires { length values.now ≤ MOST }
    ensures value { result ≡ words_of values.now }
    ensures bound { result ≤ 2 * length values.now }
{
    let mut words = 0;
    for value in values {
        words += value_words(*value) as u64;
    }
    words
}

/// How many words so many of the topmost operands take.
#[tactic(auto, using(crate::proofs::OperandCounts::words_of_more, crate::proofs::OperandCounts::words_of_all, crate::proofs::OperandCounts::words_at_most_two))]
fn words_of_top(stack: &Operands, count: u8) -> u64
    ensures { result ≡ words_of (take count stack.now.entries) }
{
    let mut words = 0;
    for depth in 0..usize::from(count) {
        let Some(value) = stack.get(depth) else {
            return words;
        };
        words += value_words(value) as u64;
    }
    words
}

/// Whether the operand stack has room for what a change leaves on it.
#[tactic(auto, using(crate::proofs::OperandCounts::words_of_changed, crate::proofs::OperandCounts::words_of_taken))]
fn has_room(change: &Change, stack: &Operands) -> bool
    ensures { result ≡ has_room change.now stack.now }
{
    let taken = words_of_top(stack, change.taken);
    let given = words_of(change.given.as_slice());
    u64::from(stack.words()) - taken + given <= u64::from(stack.room())
}

/// Whether the local variables are there that a change stores into.
fn stores_within(change: &Change, locals: &Locals) -> bool
    ensures { result ≡ stores_within change.now.stored locals.now }
{
    match change.stored {
        Some((place, value)) => has_places(locals, place, value),
        None => true,
    }
}

/// Whether a frame has room for what a change puts on its operand stack, and the local variables that it stores into.
pub(crate) fn can_take<P>(frame: &Frame<P>, change: &Change) -> bool
    ensures { result ≡ can_take frame.now change.now }
{
    has_room(change, &frame.stack) && stores_within(change, &frame.locals)
}

/// Puts these operands on top, of which the first is the new top.
#[tactic(auto, using(crate::proofs::OperandCounts::one_more_put, crate::proofs::OperandCounts::room_for_more))]
fn push_all(stack: &mut Operands, values: &[Value])
    requires { words_of (values.now ++ stack.old.entries) ≤ stack.old.room }
    ensures { stack.new ≡ record { entries = values.now ++ stack.old.entries; room = stack.old.room } }
{
    let mut left = values.len();
    while left > 0 {
        left -= 1;
        stack.push(values[left]);
    }
}

/// The frame after a change, at this pc.
pub(crate) fn apply<P: Drop>(change: Change, pc: u16, frame: Frame<P>) -> Frame<P>
    requires { IsTrue (can_take frame change) }
    ensures { result ≡ changed frame change pc }
{
    let mut frame = frame;
    frame.stack.drop_top(usize::from(change.taken));
    push_all(&mut frame.stack, change.given.as_slice());
    if let Some((place, value)) = change.stored {
        store(&mut frame.locals, place, value);
    }
    frame.pc = pc;
    frame.announced = Announced::No;
    frame
}
