//! More units of texts that the program made. They take heap words, or are refused.
ghost use Rattle.std.specs.Prelude.{◌≡◌, ◌<◌, ◌↔◌, Err, IfOk, OnErr, OnOk, Some, length, slice_get};
ghost use Rattle.java_heap.specs.Objects.{is_text};
ghost use Rattle.java_heap.specs.Heaps.{is_text_at, units_at};
ghost use Rattle.java_heap.specs.Changes.{PassesLimit, PutsTextOf, with_more};
ghost use Rattle.java_heap.specs.declared.object.Object.{Object};

use super::Heap;
use crate::{HeapFault, Object};
use std::alloc::AllocError;
use ti_ids::ObjNo;

impl Heap {
    /// Puts UTF-16 units behind those of a text that the program made, in amortized time linear in them, and tells whether
    /// the object holds such a text. Where it holds none, nothing changes.
    pub fn append(&mut self, object: ObjNo, units: &[u16]) -> Result<bool, HeapFault>
        ensures grown { OnOk result (self.new ≡ with_more self.old object units.now) }
        ensures text { IfOk result (λ grows. grows ≡ is_text_at self.old object) }
        ensures full { (result ≡ Err HeapFault.Full) ↔ PassesLimit self.old (length units.now) }
        ensures err { OnErr result (self.new ≡ self.old) }
    {
        let words = self.room_for(units.len())?;
        let Some(place) = self.place_of(object) else {
            return Ok(false);
        };
        if !self.objects[place].content.append(units)? {
            return Ok(false);
        }
        self.words += words;
        Ok(true)
    }

    /// The same with the units of another text, or of the same one, which are copied once. What has no text has no units.
    pub fn append_text_of(&mut self, object: ObjNo, from: ObjNo) -> Result<bool, HeapFault>
        ensures grown { OnOk result (self.new ≡ with_more self.old object (units_at self.old from)) }
        ensures text { IfOk result (λ grows. grows ≡ is_text_at self.old object) }
        ensures full { (result ≡ Err HeapFault.Full) ↔ PassesLimit self.old (length (units_at self.old from)) }
        ensures err { OnErr result (self.new ≡ self.old) }
    {
        let words = self.room_for(self.units(from).len())?;
        let Some(other) = self.place_of(from) else {
            return self.append(object, &[]);
        };
        let Some(place) = self.place_of(object) else {
            return Ok(false);
        };
        if !append_between(&mut self.objects, place, other)? {
            return Ok(false);
        }
        self.words += words;
        Ok(true)
    }

    /// The units of a text; none of what has no text.
    fn units(&self, object: ObjNo) -> &[u16]
        ensures { result.now ≡ units_at self.now object }
    {
        match self.text(object) {
            Some(units) => units,
            None => &[],
        }
    }
}

/// Puts the units of the text at one place behind the text at another or the same, where the program made it.
fn append_between(objects: &mut [Object], place: usize, from: usize) -> Result<bool, AllocError>
    requires place { place < length objects.old }
    requires from { from < length objects.old }
    ensures grown { OnOk result (PutsTextOf objects.old objects.new place from) }
    ensures text { IfOk result (λ grows. (was : Object) → slice_get objects.old place ≡ Some was → grows ≡ is_text was.content) }
    ensures err { OnErr result (objects.new ≡ objects.old) }
{
    if place == from {
        return objects[place].content.append_itself();
    }
    let (low, high) = objects.split_at_mut(place.max(from));
    if place < from {
        low[place].content.append(high[0].content.units())
    } else {
        high[0].content.append(low[from].content.units())
    }
}
