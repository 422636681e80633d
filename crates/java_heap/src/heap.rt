ghost use Rattle.std.specs.Prelude.{◌≡◌, ◌<◌, ◌^◌, length};

mod access;
mod allocation;
mod growth;
mod unique;

use crate::Object;
pub use allocation::HEADER_WORDS;
use std::alloc::Global;
use std::collections::BTreeMap;
use std::marker::Model;
use ti_ids::ObjNo;

/// The objects of a Java program (JVM specification 2.5.3), which may take as many heap words as its limit says. Contracts
/// see it as its limit and the list of its objects, in order of allocation.
#[derive(Drop)]
pub struct Heap {
    alloc: Global,
    limit: u32,
    /// How many words the objects take.
    words: u32,
    objects: Vec<Object>,
    /// The String of each constant, by its units.
    literals: BTreeMap<Vec<u16>, ObjNo>,
    /// At the number of each class its Class object, if it was made.
    class_objects: Vec<Option<ObjNo>>,
}

impl Model for Heap {
    ghost use Rattle.java_heap.specs.Heaps.{HeapValue};

    ghost Value = { HeapValue };

    ghost use Rattle.java_heap.specs.Inside.{seen, IsKeptInside};

    ghost view = { seen };

    ghost invariant = { IsKeptInside };
}

impl Heap {
    ghost use Rattle.std.specs.Prelude.{[]};
    ghost use Rattle.java_heap.specs.Heaps.{words_taken, IsSound};

    /// A heap of this limit in heap words, with no objects. No memory is taken yet.
    pub fn new(alloc: Global, limit: u32) -> Heap
        requires { limit < 2 ^ 31 }
        ensures empty { result ≡ record { limit = limit; objects = [] } }
    {
        Heap {
            alloc,
            limit,
            words: 0,
            objects: Vec::new(alloc),
            literals: BTreeMap::new(alloc),
            class_objects: Vec::new(alloc),
        }
    }

    /// How many objects there are.
    pub fn count(&self) -> u32
        ensures value { result ≡ length self.now.objects }

        // As each heap is.
        ensures kept { IsSound self.now }
    {
        self.objects.len() as u32
    }

    /// How many heap words the objects take.
    pub fn words(&self) -> u32
        ensures value { result ≡ words_taken self.now }
    {
        self.words
    }

    /// How many heap words they may take.
    pub fn limit(&self) -> u32
        ensures value { result ≡ self.now.limit }
    {
        self.limit
    }
}
