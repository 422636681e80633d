ghost use Rattle.std.specs.Prelude.{◌≡◌, ◌↔◌, IfOk, IsTrue};
ghost use Rattle.jv_names.specs.Names.{is_class_name as names_class, is_member_name as names_member, is_method_name as names_method, is_special_name as names_special};

use crate::name::{are_member_units, are_method_units, has_class_form};
use std::alloc::{AllocError, Global};
use std::marker::Model;

/// A text as UTF-16 code units. Contracts see it as the list of them.
///
/// The class-file format spells its names in modified UTF-8 (JVM specification 4.4.7), which has a form for each unit,
/// lone surrogates among them, so units say what any name of it says.
#[derive(Drop, Debug)]
pub struct Units {
    units: Vec<u16>,
}

impl Model for Units {
    ghost use Rattle.std.specs.Prelude.{List, ℕ};

    ghost Value = { List ℕ };

    ghost view = { λ u. u.units.items };
}

impl Units {
    /// The text of these units, with no memory taken.
    pub fn new(units: Vec<u16>) -> Units
        ensures { result ≡ units.items }
    {
        Units { units }
    }

    /// The units, with no memory taken.
    pub fn into_vec(self) -> Vec<u16>
        ensures { result.items ≡ self }
    {
        self.units
    }

    /// Each byte as one unit, which is the bytes' text where they are ASCII.
    pub fn from_ascii(alloc: Global, bytes: &[u8]) -> Result<Units, AllocError>
        ensures { IfOk result (λ u. u ≡ bytes.now) }
    {
        let mut units = Vec::with_capacity(alloc, bytes.len())?;
        for byte in bytes {
            units.push(u16::from(*byte))?;
        }
        Ok(Units { units })
    }

    /// The units, in order.
    pub fn as_slice(&self) -> &[u16]
        ensures { result.now ≡ self.now }
    {
        &self.units
    }

    /// A copy.
    pub fn clone_in(&self, alloc: Global) -> Result<Units, AllocError>
        ensures { IfOk result (λ u. u ≡ self.now) }
    {
        Ok(Units {
            units: self.units.as_slice().to_vec(alloc)?,
        })
    }

    /// Whether both are one text, unit for unit.
    pub fn same(&self, other: &Units) -> bool
        ensures { IsTrue result ↔ (self.now ≡ other.now) }
    {
        self.units.as_slice() == other.units.as_slice()
    }

    /// Whether the text is a class's name in internal form: parts that are not empty, with `/` between them, and in them
    /// none of `.`, `;` and `[` (JVM specification 4.2.1 and 4.2.2).
    pub fn is_class_name(&self) -> bool
        ensures { result ≡ names_class self.now }
    {
        has_class_form(self.units.as_slice())
    }

    /// Whether the text may be a field's name: it is not empty and has none of `.`, `;`, `[` and `/` (JVM specification
    /// 4.2.2).
    pub fn is_member_name(&self) -> bool
        ensures { result ≡ names_member self.now }
    {
        !self.units.is_empty() && are_member_units(&self.units)
    }

    /// Whether the text may be a method's name: a field's name without `<` and `>`, or one of `<init>` and `<clinit>` (JVM
    /// specification 4.2.2).
    pub fn is_method_name(&self) -> bool
        ensures { result ≡ names_method self.now }
    {
        self.is_special_name() || (self.is_member_name() && are_method_units(&self.units))
    }

    fn is_special_name(&self) -> bool
        ensures { result ≡ names_special self.now }
    {
        self.is_text(b"<init>") || self.is_text(b"<clinit>")
    }

    /// Whether the units are these bytes, one for one.
    pub fn is_text(&self, bytes: &[u8]) -> bool
        ensures { IsTrue result ↔ (self.now ≡ bytes.now) }
    {
        if self.units.len() != bytes.len() {
            return false;
        }
        for i in 0..bytes.len() {
            if self.units[i] != u16::from(bytes[i]) {
                return false;
            }
        }
        true
    }
}
