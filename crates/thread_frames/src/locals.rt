ghost use Rattle.std.specs.Prelude.{◌≡◌, ◌<◌, ◌↔◌, ◌++◌, IsTrue, IfOk, OnOk, OnSome, [], length, slice_get, slice_set};
ghost use Rattle.thread_frames.specs.Arguments.{places_of, locals_of};

use std::alloc::{AllocError, Global};
use std::marker::Model;
use ti_ids::Value;

/// The local variables of a frame (JVM specification 2.6.1), which contracts see as the list of what they hold.
#[derive(Drop)]
pub struct Locals {
    values: Vec<Value>,
}

impl Model for Locals {
    ghost use Rattle.std.specs.Prelude.{List};
    ghost use Rattle.ti_ids.specs.declared.value.Value.{Value as JavaValue};

    ghost Value = { List JavaValue };

    ghost view = { λ it. it.values.items };
}

impl Locals {
    /// No local variables. No memory is taken.
    pub(crate) fn none(alloc: Global) -> Locals
        ensures { result ≡ [] }
    {
        Locals {
            values: Vec::new(alloc),
        }
    }

    pub fn from_vec(values: Vec<Value>) -> Locals
        ensures { result ≡ values.items }
    {
        Locals { values }
    }

    pub fn from_slice(alloc: Global, values: &[Value]) -> Result<Locals, AllocError>
        ensures { IfOk result (λ locals. locals ≡ values.now) }
    {
        let values = Vec::from_slice(alloc, values)?;
        Ok(Locals { values })
    }

    pub fn as_slice(&self) -> &[Value]
        ensures { result.now ≡ self.now }
    {
        self.values.as_slice()
    }

    pub fn len(&self) -> usize
        ensures { result ≡ length self.now }
    {
        self.values.len()
    }

    pub fn is_empty(&self) -> bool
        ensures { IsTrue result ↔ (self.now ≡ []) }
    {
        self.values.is_empty()
    }

    /// What the local variable at this place holds.
    pub fn get(&self, place: usize) -> Option<Value>
        ensures value { result ≡ slice_get self.now place }
        ensures within { OnSome result (place < length self.now) }
    {
        self.values.get(place).copied()
    }

    pub fn set(&mut self, place: usize, value: Value)
        requires { place < length self.old }
        ensures { self.new ≡ slice_set self.old place value }
    {
        self.values[place] = value;
    }

    /// Adds the places that a value takes.
    fn push(&mut self, value: Value) -> Result<(), AllocError>
        ensures { OnOk result (self.new ≡ self.old ++ places_of value) }
    {
        self.values.push(value)?;
        if let Value::Long(_) = value {
            self.values.push(Value::Int(0))?;
        }
        Ok(())
    }

    /// Makes them those of a method that was just invoked, in the memory of those that they are. What they hold after an `Err` is
    /// left open.
    pub(crate) fn begin(&mut self, count: u32, arguments: &[Value]) -> Result<(), AllocError>
        ensures { OnOk result (self.new ≡ locals_of count arguments.now) }
    {
        self.values.clear();
        for argument in arguments {
            self.push(*argument)?;
        }
        let places = self.values.len().max(count as usize);
        self.values.resize(places, Value::Int(0))
    }
}
