ghost use Rattle.std.specs.Prelude.{◌≡◌, ◌++◌, IfOk, OnOk, OnErr};

use std::alloc::{AllocError, Global};
use std::marker::Model;

/// The text of a String or a StringBuilder, as UTF-16 units. Contracts see it as the list of them.
#[derive(Drop)]
pub struct Text {
    units: Vec<u16>,
}

impl Model for Text {
    ghost use Rattle.std.specs.Prelude.{List, ℕ};

    ghost Value = { List ℕ };

    ghost view = { λ t. t.units.items };
}

impl Text {
    /// A text of these units.
    pub fn from_slice(alloc: Global, units: &[u16]) -> Result<Text, AllocError>
        ensures { IfOk result (λ text. text ≡ units.now) }
    {
        Ok(Text {
            units: units.to_vec(alloc)?,
        })
    }

    /// A text of these units, which it keeps.
    pub fn from_vec(units: Vec<u16>) -> Text
        ensures { result ≡ units.items }
    {
        Text { units }
    }

    /// The units, in order.
    pub fn as_slice(&self) -> &[u16]
        ensures { result.now ≡ self.now }
    {
        &self.units
    }

    /// Puts units behind the others, in amortized time linear in them.
    pub fn append(&mut self, units: &[u16]) -> Result<(), AllocError>
        ensures ok { OnOk result (self.new ≡ self.old ++ units.now) }
        ensures err { OnErr result (self.new ≡ self.old) }
    {
        self.units.extend_from_slice(units)
    }

    /// Puts its own units behind themselves, in linear time.
    pub fn append_itself(&mut self) -> Result<(), AllocError>
        ensures ok { OnOk result (self.new ≡ self.old ++ self.old) }
        ensures err { OnErr result (self.new ≡ self.old) }
    {
        self.units.extend_from_within(0..self.units.len())
    }
}
