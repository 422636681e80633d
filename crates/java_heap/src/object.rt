use crate::Text;
use jv_names::Units;
use sqlite_items::Items;
use std::alloc::AllocError;
use ti_ids::{ClassNo, ObjNo, Value};

/// The class `java/lang/String`. Classes are numbered in the order of their definition, which begins with Object, Cloneable,
/// Serializable, String, StringBuilder and Class.
pub const STRING: ClassNo = ClassNo(4);

/// The class `java/lang/StringBuilder`.
pub const STRING_BUILDER: ClassNo = ClassNo(5);

/// The class `java/lang/Class`.
pub const CLASS: ClassNo = ClassNo(6);

/// An instance of a class or an array (JVM specification 2.4).
#[derive(Drop)]
pub struct Object {
    pub class: ClassNo,
    pub content: Content,
    /// One further reference, which takes no heap word: a Thread's target, a Throwable's message.
    pub side: Option<ObjNo>,
}

/// What an object holds.
#[derive(Drop)]
pub enum Content {
    /// An instance's fields, those of its superclasses among them.
    Fields(Items<Value>),
    /// An array's elements.
    Elements(Items<Value>),
    /// The text of a String or a StringBuilder that the program made.
    Text(Text),
    /// The text of the String of a constant, of which there is one for each text (JVM specification 5.1).
    Literal(Units),
    /// The Class object of this class, of which there is one for each class.
    ClassObject(ClassNo),
}

impl Content {
    ghost use Rattle.std.specs.Prelude.{◌≡◌, IfOk, OnErr, OnOk, option_copied};
    ghost use Rattle.java_heap.specs.Objects.{text_of, units_of, is_text};
    ghost use Rattle.java_heap.specs.Changes.{put_behind};

    /// The UTF-16 units of a text.
    pub(crate) fn text(&self) -> Option<&[u16]>
        ensures { option_copied result ≡ text_of self.now }
    {
        match self {
            Content::Text(text) => Some(text.as_slice()),
            Content::Literal(units) => Some(units.as_slice()),
            _ => None,
        }
    }

    /// The UTF-16 units of a text; none of what is no text.
    pub(crate) fn units(&self) -> &[u16]
        ensures { result.now ≡ units_of self.now }
    {
        match self {
            Content::Text(text) => text.as_slice(),
            Content::Literal(units) => units.as_slice(),
            _ => &[],
        }
    }

    /// Puts units behind those of a text that the program made, and tells whether it is one.
    pub(crate) fn append(&mut self, units: &[u16]) -> Result<bool, AllocError>
        ensures grown { OnOk result (self.new ≡ put_behind units.now self.old) }
        ensures text { IfOk result (λ grows. grows ≡ is_text self.old) }
        ensures err { OnErr result (self.new ≡ self.old) }
    {
        let Content::Text(text) = self else {
            return Ok(false);
        };
        text.append(units)?;
        Ok(true)
    }

    /// The same with the text's own units.
    pub(crate) fn append_itself(&mut self) -> Result<bool, AllocError>
        ensures grown { OnOk result (self.new ≡ put_behind (units_of self.old) self.old) }
        ensures text { IfOk result (λ grows. grows ≡ is_text self.old) }
        ensures err { OnErr result (self.new ≡ self.old) }
    {
        let Content::Text(text) = self else {
            return Ok(false);
        };
        text.append_itself()?;
        Ok(true)
    }
}

impl Object {
    ghost use Rattle.std.specs.Prelude.{◌≡◌};
    ghost use Rattle.java_heap.specs.Objects.{fresh};

    /// An object with nothing at its side.
    pub(crate) fn fresh(class: ClassNo, content: Content) -> Object
        ensures { result ≡ fresh class content }
    {
        Object {
            class,
            content,
            side: None,
        }
    }
}
