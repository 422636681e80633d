ghost use Rattle.std.specs.Prelude.{◌≡◌, ◌≤◌, ◌<◌, ◌↔◌, IsTrue, IfOk, OnOk, [], length, slice_get, slice_set};
ghost use Rattle.thread_frames.specs.Operands.{words_of, Fits, value_words, empty_stack, with_pushed, without_top};
ghost use Rattle.thread_frames.specs.Arguments.{topmost, without_topmost};

use std::alloc::{AllocError, Global};
use std::marker::Model;
use ti_ids::Value;

/// An operand stack (JVM specification 2.6.2), which contracts see as its entries, the top first, and its room in words. The
/// memory for its room is taken when it is made, so that a push takes none.
///
/// A long takes two words and is one entry; every other value takes one word.
#[derive(Drop)]
pub struct Operands {
    values: Vec<Value>,
    room: u32,
    words: u32,
}

impl Model for Operands {
    ghost use Rattle.std.specs.Prelude.{reverse};
    ghost use Rattle.thread_frames.specs.Operands.{OperandStack, HoldsRoom};

    ghost Value = { OperandStack };

    ghost view = { λ s. record { entries = reverse s.values.items; room = s.room } };

    ghost invariant = { λ s. HoldsRoom s.values s.room s.words };
}

/// The words of one value.
fn words_of_value(value: Value) -> u32
    ensures { result ≡ value_words value }
{
    match value {
        Value::Long(_) => 2,
        _ => 1,
    }
}

impl Operands {
    /// An empty stack with room for so many words.
    pub fn new(alloc: Global, room: u32) -> Result<Operands, AllocError>
        ensures { IfOk result (λ stack. stack ≡ empty_stack room) }
    {
        Ok(Operands {
            values: Vec::with_capacity(alloc, room as usize)?,
            room,
            words: 0,
        })
    }

    /// An empty stack without room. No memory is taken.
    pub(crate) fn none(alloc: Global) -> Operands
        ensures { result ≡ empty_stack 0 }
    {
        Operands {
            values: Vec::new(alloc),
            room: 0,
            words: 0,
        }
    }

    /// Makes it an empty stack with room for so many words, in the memory that it has, as far as that goes. After an `Err` it has
    /// the room that it had.
    pub(crate) fn begin(&mut self, room: u32) -> Result<(), AllocError>
        ensures { OnOk result (self.new ≡ empty_stack room) }
    {
        self.clear();
        self.values.reserve(room as usize)?;
        self.room = room;
        Ok(())
    }

    /// Whether there is room for a value on top.
    pub fn fits(&self, value: Value) -> bool
        ensures { IsTrue result ↔ Fits self.now value }
    {
        words_of_value(value) <= self.room - self.words
    }

    /// Puts a value on top. No memory is taken.
    pub fn push(&mut self, value: Value)
        requires { Fits self.old value }
        ensures { self.new ≡ with_pushed self.old value }
    {
        self.words += words_of_value(value);
        self.values.push_reserved(value);
    }

    /// Takes the top away.
    pub fn pop(&mut self) -> Option<Value>
        ensures taken { result ≡ slice_get self.old.entries 0 }
        ensures rest { self.new ≡ without_top self.old }
    {
        let value = self.values.pop()?;
        self.words -= words_of_value(value);
        Some(value)
    }

    /// The top.
    pub fn top(&self) -> Option<Value>
        ensures { result ≡ slice_get self.now.entries 0 }
    {
        self.values.last().copied()
    }

    /// The entry that lies so many below the top, which itself is at 0.
    pub fn get(&self, depth: usize) -> Option<Value>
        ensures { result ≡ slice_get self.now.entries depth }
    {
        let count = self.values.len();
        if depth >= count {
            return None;
        }
        Some(self.values[count - 1 - depth])
    }

    /// Puts a value in the place of the entry that lies so many below the top.
    pub fn set(&mut self, depth: usize, value: Value)
        requires within { depth < length self.old.entries }
        requires fits { words_of (slice_set self.old.entries depth value) ≤ self.old.room }
        ensures { self.new ≡ record self.old { entries = slice_set self.old.entries depth value } }
    {
        let place = self.values.len() - 1 - depth;
        let old = self.values[place];
        self.words = self.words - words_of_value(old) + words_of_value(value);
        self.values[place] = value;
    }

    /// The topmost entries, so many, of which the last lies on top; all of them, where there are no more.
    pub fn topmost(&self, count: usize) -> &[Value]
        ensures { result.now ≡ topmost count self.now }
    {
        let below = self.values.len().saturating_sub(count);
        &self.values[below..]
    }

    /// How many words the topmost entries take, so many; all of them, where there are no more. The time is linear in their number.
    #[tactic(auto, using(std::proofs::lemmas::List::Sums::sum_by_more, std::proofs::lemmas::List::Sums::sum_by_more_le, crate::proofs::ArgumentWords::topmost_within, crate::proofs::ArgumentWords::topmost_all))]
    pub fn words_of_top(&self, count: usize) -> u32
        ensures { result ≡ words_of (topmost count self.now) }
    {
        let all = self.words();
        if count >= self.len() {
            return all;
        }
        let mut words = 0;
        for value in self.topmost(count) {
            words += words_of_value(*value);
        }
        words
    }

    /// Takes the topmost entries away, so many; all of them, where there are no more. The time is linear in their number.
    #[tactic(auto, using(crate::proofs::Reversed::drop_one_more))]
    pub fn drop_top(&mut self, count: usize)
        ensures { self.new ≡ without_topmost count self.old }
    {
        for _dropped in 0..count.min(self.values.len()) {
            self.pop();
        }
    }

    /// Takes all entries away.
    pub fn clear(&mut self)
        ensures { self.new ≡ empty_stack self.old.room }
    {
        self.values.clear();
        self.words = 0;
    }

    /// How many entries there are.
    #[tactic(auto, using(crate::proofs::OperandWords::held_within))]
    pub fn len(&self) -> usize
        ensures value { result ≡ length self.now.entries }
        ensures within { result ≤ self.now.room }
    {
        self.values.len()
    }

    pub fn is_empty(&self) -> bool
        ensures { IsTrue result ↔ (self.now.entries ≡ []) }
    {
        self.values.is_empty()
    }

    /// How many words the entries take.
    pub fn words(&self) -> u32
        ensures value { result ≡ words_of self.now.entries }
        ensures within { result ≤ self.now.room }
    {
        self.words
    }

    /// How many words there is room for.
    pub fn room(&self) -> u32
        ensures { result ≡ self.now.room }
    {
        self.room
    }

    /// An equal stack, with room of its own.
    #[tactic(auto, using(crate::proofs::OperandWords::held_within))]
    pub fn clone_in(&self, alloc: Global) -> Result<Operands, AllocError>
        ensures { IfOk result (λ copy. copy ≡ self.now) }
    {
        let mut values = Vec::with_capacity(alloc, self.room as usize)?;
        if values.extend_from_slice(self.values.as_slice()).is_err() {
            unreachable!();
        }
        Ok(Operands {
            values,
            room: self.room,
            words: self.words,
        })
    }
}
