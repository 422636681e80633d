//! How instructions take types from the operand stack, and put types on it.
ghost use Rattle.std.specs.Prelude.{◌≡◌, map, length, is_some};
ghost use Rattle.type_frames.specs.Types.{type_words};
ghost use Rattle.type_frames.specs.States.{taken, all_taken, put, all_put, top_if};
ghost use Rattle.type_frames.specs.RulesOfCalls.{is_any};
ghost use Rattle.type_frames.specs.RulesOfStack.{one, two};
ghost use Rattle.type_frames.specs.RulesOfNumbers.{reference_taken};
ghost use Rattle.type_frames.specs.Seen.{type_seen};
ghost use Rattle.type_states.specs.Answers.{Leaves, Gives, NeverOfMemory, OnMemory};

use crate::kinds::{is_long, is_reference, is_word};
use crate::{State, Stop};
use std::alloc::AllocError;
use type_frames::{Hierarchy, VTypeRef, stands_for};

/// How many words a value of a type takes.
fn words_of(t: VTypeRef<'_>) -> u32
    ensures { result ≡ length (type_words (type_seen t.entry)) }
{
    if is_long(t) { 2 } else { 1 }
}

impl<'a> State<'a> {
    /// Takes the top, whatever it is.
    pub fn take_any(&mut self) -> Result<VTypeRef<'a>, Stop>
        ensures gives { Gives type_seen result self.new (top_if is_any self.old) }
        ensures never { NeverOfMemory result }
    {
        match self.stack.pop() {
            Some(top) => {
                self.words -= words_of(top);
                Ok(top)
            }
            None => Err(Stop::Refused),
        }
    }

    /// Takes a top that may stand for this type.
    pub fn take(&mut self, hierarchy: &Hierarchy, t: VTypeRef<'_>) -> Result<(), Stop>
        ensures leaves { Leaves result self.new (taken hierarchy.now (type_seen t.entry) self.old) }
        ensures never { NeverOfMemory result }
    {
        let top = self.take_any()?;
        if stands_for(hierarchy, top, t) {
            Ok(())
        } else {
            Err(Stop::Refused)
        }
    }

    /// Takes these, the first one from the top.
    #[tactic(auto, using(crate::proofs::Taking::taken_more, crate::proofs::Taking::taken_not, crate::proofs::Taking::taken_over))]
    pub fn take_all(&mut self, hierarchy: &Hierarchy, types: &[VTypeRef<'_>]) -> Result<(), Stop>
        ensures leaves { Leaves result self.new (all_taken hierarchy.now (map type_seen types.now) self.old) }
        ensures never { NeverOfMemory result }
    {
        for t in types {
            self.take(hierarchy, *t)?;
        }
        Ok(())
    }

    /// Takes a value of one word that can be used.
    pub fn take_word(&mut self) -> Result<VTypeRef<'a>, Stop>
        ensures gives { Gives type_seen result self.new (one self.old) }
        ensures never { NeverOfMemory result }
    {
        let top = self.take_any()?;
        if is_word(top) {
            Ok(top)
        } else {
            Err(Stop::Refused)
        }
    }

    /// Takes a long.
    pub fn take_long(&mut self) -> Result<VTypeRef<'a>, Stop>
        ensures gives { Gives type_seen result self.new (two self.old) }
        ensures never { NeverOfMemory result }
    {
        let top = self.take_any()?;
        if is_long(top) {
            Ok(top)
        } else {
            Err(Stop::Refused)
        }
    }

    /// Takes a reference of any sort, also one to an object that is not initialized.
    pub fn take_reference(&mut self) -> Result<(), Stop>
        ensures leaves { Leaves result self.new (reference_taken self.old) }
        ensures never { NeverOfMemory result }
    {
        let top = self.take_any()?;
        if is_reference(top) {
            Ok(())
        } else {
            Err(Stop::Refused)
        }
    }

    /// Whether the top is a long.
    pub fn has_long(&self) -> bool
        ensures { result ≡ is_some (two self.now) }
    {
        match self.stack.last() {
            Some(top) => is_long(*top),
            None => false,
        }
    }

    /// Puts a value of this type on top, where there is room for so many words.
    pub fn put(&mut self, room: u16, t: VTypeRef<'a>) -> Result<(), Stop>
        ensures leaves { Leaves result self.new (put room (type_seen t.entry) self.old) }
        ensures kept { OnMemory result (self.new ≡ self.old) }
    {
        let words = self.words + words_of(t);
        if words > u32::from(room) {
            return Err(Stop::Refused);
        }
        if let Err(full) = self.stack.push(t) {
            return Err(AllocError::from(full).into());
        }
        self.words = words;
        Ok(())
    }

    /// Puts these, the first one first. After want of memory nothing is said of the state, since some of them may have been put.
    #[tactic(auto, using(crate::proofs::Taking::put_more, crate::proofs::Taking::put_not, crate::proofs::Taking::put_over))]
    pub fn put_all(&mut self, room: u16, types: &[VTypeRef<'a>]) -> Result<(), Stop>
        ensures { Leaves result self.new (all_put room (map type_seen types.now) self.old) }
    {
        for t in types {
            self.put(room, *t)?;
        }
        Ok(())
    }
}
