//! What objects hold: class, fields, elements, text, and the reference at an object's side. What isn't there is None, and is
//! not changed.
ghost use Rattle.std.specs.Prelude.{◌≡◌, ◌-◌, ◌<◌, ◌^◌, None, IfSome, MatchOption, length, slice_set, option_copied};
ghost use Rattle.java_heap.specs.Objects.{words_of};
ghost use Rattle.java_heap.specs.Heaps.{object_at, class_at, side_at, field_at, elem_at, array_length_at, text_at, class_named_at};
ghost use Rattle.java_heap.specs.Changes.{with_field, with_elem, with_side};

use super::Heap;
use crate::{Content, Object};
use sqlite_items::Items;
use ti_ids::{ClassNo, ObjNo, Value};

impl Heap {
    /// Where an object stands among the others.
    pub(super) fn place_of(&self, object: ObjNo) -> Option<usize>
        ensures { MatchOption result (object_at self.now object ≡ None) (λ place. (0 < object.0) × (place ≡ object.0 - 1) × (place < length self.now.objects)) }
    {
        if object.0 == 0 {
            return None;
        }
        let place = object.0 as usize - 1;
        if place < self.objects.len() {
            Some(place)
        } else {
            None
        }
    }

    /// The object of a number.
    fn find(&self, object: ObjNo) -> Option<&Object>
        ensures found { option_copied result ≡ object_at self.now object }
        ensures small { IfSome result (λ o. words_of o.now.content < 2 ^ 31) }
    {
        if object.0 == 0 {
            return None;
        }
        self.objects.get(object.0 as usize - 1)
    }

    /// The class of an object, as it was allocated.
    pub fn class_of(&self, object: ObjNo) -> Option<ClassNo>
        ensures value { result ≡ class_at self.now object }
    {
        Some(self.find(object)?.class)
    }

    /// The further reference of an object.
    pub fn side(&self, object: ObjNo) -> Option<Option<ObjNo>>
        ensures value { result ≡ side_at self.now object }
    {
        Some(self.find(object)?.side)
    }

    /// Puts another reference at an object's side.
    pub fn set_side(&mut self, object: ObjNo, side: Option<ObjNo>)
        ensures changed { self.new ≡ with_side self.old object side }
    {
        let Some(place) = self.place_of(object) else {
            return;
        };
        self.objects[place].side = side;
    }

    /// The field at a place of an instance, from 0 on.
    pub fn get_field(&self, object: ObjNo, place: u32) -> Option<Value>
        ensures value { result ≡ field_at self.now object place }
    {
        match &self.find(object)?.content {
            Content::Fields(fields) => fields.get(place as usize).copied(),
            _ => None,
        }
    }

    /// Puts a value in the field at a place of an instance.
    pub fn set_field(&mut self, object: ObjNo, place: u32, value: Value)
        ensures changed { self.new ≡ with_field self.old object place value }
    {
        let Some(at) = self.place_of(object) else {
            return;
        };
        let Content::Fields(fields) = &mut self.objects[at].content else {
            return;
        };
        put(fields, place, value);
    }

    /// The element at a place of an array, from 0 on.
    pub fn get_elem(&self, object: ObjNo, place: u32) -> Option<Value>
        ensures value { result ≡ elem_at self.now object place }
    {
        match &self.find(object)?.content {
            Content::Elements(elements) => elements.get(place as usize).copied(),
            _ => None,
        }
    }

    /// Puts a value in the element at a place of an array.
    pub fn set_elem(&mut self, object: ObjNo, place: u32, value: Value)
        ensures changed { self.new ≡ with_elem self.old object place value }
    {
        let Some(at) = self.place_of(object) else {
            return;
        };
        let Content::Elements(elements) = &mut self.objects[at].content else {
            return;
        };
        put(elements, place, value);
    }

    /// How many elements an array has; None for what is no array.
    pub fn array_length(&self, object: ObjNo) -> Option<u32>
        ensures value { result ≡ array_length_at self.now object }
        ensures small { IfSome result (λ n. n < 2 ^ 31) }
    {
        match &self.find(object)?.content {
            Content::Elements(elements) => Some(elements.len() as u32),
            _ => None,
        }
    }

    /// The UTF-16 units of a String or a StringBuilder; None for what is neither.
    pub fn text(&self, object: ObjNo) -> Option<&[u16]>
        ensures value { option_copied result ≡ text_at self.now object }
        ensures small { IfSome result (λ units. length units.now < 2 ^ 31) }
    {
        self.find(object)?.content.text()
    }

    /// The class that a Class object stands for; None for what is no Class object.
    pub fn class_named(&self, object: ObjNo) -> Option<ClassNo>
        ensures value { result ≡ class_named_at self.now object }
    {
        match &self.find(object)?.content {
            Content::ClassObject(class) => Some(*class),
            _ => None,
        }
    }
}

/// Puts a value at a place of these, where there is one.
fn put(values: &mut Items<Value>, place: u32, value: Value)
    ensures { values.new ≡ slice_set values.old place value }
{
    if (place as usize) < values.len() {
        values.set(place as usize, value);
    }
}
