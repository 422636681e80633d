//! New objects. Each takes heap words, or is refused.
ghost use Rattle.std.specs.Prelude.{◌≡◌, ◌+◌, ◌≤◌, ◌↔◌, Err, IfOk, IsTrue, OnErr, MatchResult, replicate};
ghost use Rattle.java_heap.specs.Objects.{fresh, words_of};
ghost use Rattle.java_heap.specs.Kept.{is_plain};
ghost use Rattle.java_heap.specs.Heaps.{words_taken, has_room, next_number, text_at};
ghost use Rattle.java_heap.specs.Changes.{PassesLimit, Adds, CopiesText};

use super::Heap;
use crate::{Content, HeapFault, Object, Text};
use sqlite_items::Items;
use std::alloc::AllocError;
use ti_ids::{ClassNo, ObjNo, Value};

/// The words of an object beside its fields, elements or units.
pub const HEADER_WORDS: usize = 2;

impl Heap {
    /// Whether so many words more are within the limit, so that a caller can decide before it changes anything.
    pub fn has_room(&self, words: usize) -> bool
        ensures room { result ≡ has_room self.now words }
    {
        words <= (self.limit - self.words) as usize
    }

    /// Passes so many words on, where the limit has room for them.
    pub(super) fn room_for(&self, words: usize) -> Result<u32, HeapFault>
        ensures { MatchResult result (λ w. (w ≡ words) × (words_taken self.now + words ≤ self.now.limit)) (λ e. (e ≡ HeapFault.Full) × PassesLimit self.now words) }
    {
        if words > (self.limit - self.words) as usize {
            return Err(HeapFault::Full);
        }
        Ok(words as u32)
    }

    /// The number of the next object.
    pub(super) fn next_number(&self) -> ObjNo
        ensures { result ≡ next_number self.now }
    {
        ObjNo(self.objects.len() as u32 + 1)
    }

    /// Puts an object of so many words behind the others.
    fn add(&mut self, object: Object, words: u32) -> Result<ObjNo, AllocError>
        requires words { words ≡ words_of object.content }
        requires room { words_taken self.old + words ≤ self.old.limit }
        requires plain { IsTrue (is_plain object.content) }
        ensures ok { IfOk result (Adds self.old self.new object) }
        ensures err { OnErr result (self.new ≡ self.old) }
    {
        let number = self.next_number();
        self.objects.push(object)?;
        self.words += words;
        Ok(number)
    }

    /// An instance of a class, with these fields.
    pub fn alloc_object(&mut self, class: ClassNo, fields: &[Value]) -> Result<ObjNo, HeapFault>
        ensures made { IfOk result (Adds self.old self.new (fresh class (Content.Fields fields.now))) }
        ensures full { (result ≡ Err HeapFault.Full) ↔ PassesLimit self.old (words_of (Content.Fields fields.now)) }
        ensures err { OnErr result (self.new ≡ self.old) }
    {
        let words = self.room_for(HEADER_WORDS + fields.len())?;
        let fields = Items::from_slice(self.alloc, fields)?;
        Ok(self.add(Object::fresh(class, Content::Fields(fields)), words)?)
    }

    /// An array of so many elements, each of which is `first`.
    pub fn alloc_array(
        &mut self,
        class: ClassNo,
        length: u32,
        first: Value,
    ) -> Result<ObjNo, HeapFault>
        ensures made { IfOk result (Adds self.old self.new (fresh class (Content.Elements (replicate length first)))) }
        ensures full { (result ≡ Err HeapFault.Full) ↔ PassesLimit self.old (words_of (Content.Elements (replicate length first))) }
        ensures err { OnErr result (self.new ≡ self.old) }
    {
        let words = self.room_for(HEADER_WORDS + length as usize)?;
        let mut elements = Vec::with_capacity(self.alloc, length as usize)?;
        elements.resize(length as usize, first)?;
        let content = Content::Elements(Items::from_vec(elements));
        Ok(self.add(Object::fresh(class, content), words)?)
    }

    /// A String or a StringBuilder of these UTF-16 units, which are copied.
    pub fn alloc_text(&mut self, class: ClassNo, units: &[u16]) -> Result<ObjNo, HeapFault>
        ensures made { IfOk result (Adds self.old self.new (fresh class (Content.Text units.now))) }
        ensures full { (result ≡ Err HeapFault.Full) ↔ PassesLimit self.old (words_of (Content.Text units.now)) }
        ensures err { OnErr result (self.new ≡ self.old) }
    {
        let words = self.room_for(HEADER_WORDS + units.len())?;
        let text = Text::from_slice(self.alloc, units)?;
        Ok(self.add(Object::fresh(class, Content::Text(text)), words)?)
    }

    /// A String or a StringBuilder of these UTF-16 units, which it keeps without a copy.
    pub fn alloc_owned_text(&mut self, class: ClassNo, units: Vec<u16>) -> Result<ObjNo, HeapFault>
        ensures made { IfOk result (Adds self.old self.new (fresh class (Content.Text units.items))) }
        ensures full { (result ≡ Err HeapFault.Full) ↔ PassesLimit self.old (words_of (Content.Text units.items)) }
        ensures err { OnErr result (self.new ≡ self.old) }
    {
        let words = self.room_for(HEADER_WORDS + units.len())?;
        let text = Text::from_vec(units);
        Ok(self.add(Object::fresh(class, Content::Text(text)), words)?)
    }

    /// A String or a StringBuilder of the UTF-16 units of another text, which are copied once; None for what has no text.
    pub fn copy_text(&mut self, class: ClassNo, from: ObjNo) -> Result<Option<ObjNo>, HeapFault>
        ensures copied { CopiesText (text_at self.old from) self.old self.new class result }
    {
        let Some(units) = self.text(from) else {
            return Ok(None);
        };
        let words = self.room_for(HEADER_WORDS + units.len())?;
        let text = Text::from_slice(self.alloc, units)?;
        let object = Object::fresh(class, Content::Text(text));
        Ok(Some(self.add(object, words)?))
    }
}
