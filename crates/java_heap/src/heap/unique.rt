//! Objects of which there is one each: the String of a constant, and the Class object of a class (JVM specification 5.1).
ghost use Rattle.std.specs.Prelude.{◌≡◌, ◌+◌, ◌≤◌, IfOk, IsNone, OnErr, OnOk};
ghost use Rattle.java_heap.specs.Objects.{fresh, words_of};
ghost use Rattle.java_heap.specs.Heaps.{words_taken, literal_of, class_object_of};
ghost use Rattle.java_heap.specs.Changes.{Adds, GivesOnce};
ghost use Rattle.java_heap.specs.Kept.{PutsClassObject};

use super::Heap;
use super::allocation::HEADER_WORDS;
use crate::{CLASS, Content, HeapFault, Object, STRING};
use jv_names::Units;
use std::alloc::AllocError;
use ti_ids::{ClassNo, ObjNo};

impl Heap {
    /// The String of the constant of these units, which is made at the first call.
    pub fn literal(&mut self, units: &Units) -> Result<ObjNo, HeapFault>
        ensures once { GivesOnce (literal_of self.old units.now) self.old self.new (fresh STRING (Content.Literal units.now)) result }
    {
        if let Some(made) = self.literal_made(units.as_slice()) {
            return Ok(made);
        }
        let words = self.room_for(HEADER_WORDS + units.as_slice().len())?;
        Ok(self.add_literal(units, words)?)
    }

    /// The Class object of a class, which is made at the first call. The index of them is as long as the largest number of
    /// a class that has one.
    pub fn class_object(&mut self, class: ClassNo) -> Result<ObjNo, HeapFault>
        ensures once { GivesOnce (class_object_of self.old class) self.old self.new (fresh CLASS (Content.ClassObject class)) result }
    {
        if let Some(made) = self.class_object_made(class) {
            return Ok(made);
        }
        let words = self.room_for(HEADER_WORDS)?;
        Ok(self.add_class_object(class, words)?)
    }

    /// The String of the constant of these units, if it was made.
    fn literal_made(&self, units: &[u16]) -> Option<ObjNo>
        ensures { result ≡ literal_of self.now units.now }
    {
        self.literals.get(units).copied()
    }

    /// The Class object of a class, if it was made, in constant time.
    pub fn class_object_made(&self, class: ClassNo) -> Option<ObjNo>
        ensures value { result ≡ class_object_of self.now class }
    {
        *self.class_objects.get(class.0 as usize)?
    }

    /// Makes the String of a constant, which takes so many words.
    fn add_literal(&mut self, units: &Units, words: u32) -> Result<ObjNo, AllocError>
        requires absent { IsNone (literal_of self.old units.now) }
        requires words { words ≡ words_of (Content.Literal units.now) }
        requires room { words_taken self.old + words ≤ self.old.limit }
        ensures ok { IfOk result (Adds self.old self.new (fresh STRING (Content.Literal units.now))) }
        ensures err { OnErr result (self.new ≡ self.old) }
    {
        let number = self.next_number();
        let key = Vec::from_slice(self.alloc, units.as_slice())?;
        let object = Object::fresh(STRING, Content::Literal(units.clone_in(self.alloc)?));
        self.objects.reserve(1)?;
        self.literals.insert(key, number)?;
        self.objects.push_reserved(object);
        self.words += words;
        Ok(number)
    }

    /// Makes the Class object of a class, which takes so many words.
    fn add_class_object(&mut self, class: ClassNo, words: u32) -> Result<ObjNo, AllocError>
        requires absent { IsNone (class_object_of self.old class) }
        requires words { words ≡ words_of (Content.ClassObject class) }
        requires room { words_taken self.old + words ≤ self.old.limit }
        ensures ok { IfOk result (Adds self.old self.new (fresh CLASS (Content.ClassObject class))) }
        ensures err { OnErr result (self.new ≡ self.old) }
    {
        let number = self.next_number();
        let object = Object::fresh(CLASS, Content::ClassObject(class));
        self.objects.reserve(1)?;
        put(&mut self.class_objects, class, number)?;
        self.objects.push_reserved(object);
        self.words += words;
        Ok(number)
    }
}

/// Puts a class's Class object into an index, which grows as far as the class's number.
fn put(index: &mut Vec<Option<ObjNo>>, class: ClassNo, object: ObjNo) -> Result<(), AllocError>
    ensures put { OnOk result (PutsClassObject index.old.items index.new.items class object) }
    ensures err { OnErr result (index.new.items ≡ index.old.items) }
{
    let place = class.0 as usize;
    if index.len() <= place {
        index.resize(place + 1, None)?;
    }
    index[place] = Some(object);
    Ok(())
}
