//! Array classes, which are made at their first use (5.3.3).
ghost use Rattle.std.specs.Prelude.{◌≡◌, ◌+◌, ◌<◌, ◌^◌, ◌++◌, length, option_to_list, Some, None, IsSome, IsOk, OnOk, OnErr, IfOk};
ghost use Rattle.std.specs.List.{filter_map};
ghost use Rattle.jv_names.specs.declared.descriptor.FieldType.{FieldType};
ghost use Rattle.link_versions.specs.Classes.{number_of};
ghost use Rattle.link_versions.specs.Subtypes.{array_interface_names};
ghost use Rattle.link_versions.specs.Changes.{element_by, IsElementThere, IsArrayName, CanMakeArray, array_class as class_of_array, with_array};
ghost use Rattle.link_versions.specs.Entries.{class_of, IsSound};

use crate::Classes;
use crate::class::{Element, Entry, EntryKind};
use crate::order::{collect_order, collect_supers};
use jv_names::{
    CLONEABLE, Desc, DescFault, ElementType, FieldType, OBJECT, SERIALIZABLE, Units, field_desc,
};
use sqlite_items::Items;
use std::alloc::{AllocError, Global};
use ti_ids::{ClassNo, InitState};

/// The type of which a name is the descriptor.
fn array_type(alloc: Global, name: &Units) -> Result<FieldType, AllocError>
    requires { (t : FieldType) × IsArrayName name.now t }
    ensures { (t : FieldType) → IsArrayName name.now t → IfOk result (λ found. found ≡ t) }
{
    match field_desc(alloc, name) {
        Ok(Desc::Field(array)) => Ok(array),
        Err(DescFault::Memory) => Err(AllocError),
        Ok(Desc::Method(_)) => unreachable!(),
        Err(DescFault::Bad) => unreachable!(),
        Err(DescFault::Floating) => unreachable!(),
    }
}

impl Classes {
    /// What an array type is over.
    fn element(&self, element: &ElementType) -> Element
        requires { IsElementThere self.now element.now }
        ensures { result ≡ element_by (number_of self.now) element.now }
    {
        match element {
            ElementType::Boolean => Element::Boolean,
            ElementType::Byte => Element::Byte,
            ElementType::Char => Element::Char,
            ElementType::Short => Element::Short,
            ElementType::Int => Element::Int,
            ElementType::Long => Element::Long,
            ElementType::Class(name) => match self.find(name.as_slice()) {
                Some(class) => Element::Class(class),
                None => unreachable!(),
            },
        }
    }

    /// Puts the class of a name behind others, where there is one.
    fn put_named(&self, classes: &mut Items<ClassNo>, name: &[u16]) -> Result<(), AllocError>
        ensures { OnOk result (classes.new ≡ classes.old ++ option_to_list (number_of self.now name.now)) }
    {
        if let Some(class) = self.find(name) {
            classes.push(class)?;
        }
        Ok(())
    }

    /// The interfaces of each array class, as far as they are there.
    fn array_interfaces(&self) -> Result<Items<ClassNo>, AllocError>
        ensures { IfOk result (λ interfaces. interfaces ≡ filter_map (number_of self.now) array_interface_names) }
    {
        let mut interfaces = Items::new(self.alloc);
        self.put_named(&mut interfaces, &CLONEABLE)?;
        self.put_named(&mut interfaces, &SERIALIZABLE)?;
        Ok(interfaces)
    }

    /// The entry of a new array class.
    fn array_entry(&self, name: &Units) -> Result<Entry, AllocError>
        requires can { CanMakeArray self.now name.now }
        requires fresh { number_of self.now name.now ≡ None }
        requires room { length self.now + 1 < 2 ^ 32 }
        ensures class { (t : FieldType) → IsArrayName name.now t → IfOk result (λ e. class_of e ≡ class_of_array (number_of self.now) name.now t) }
        ensures sound { IfOk result (IsSound self.now) }
    {
        let number = ClassNo((self.table.len() + 1) as u32);
        let array = array_type(self.alloc, name)?;
        let name = name.clone_in(self.alloc)?;
        let parent = self.find(&OBJECT);
        let interfaces = self.array_interfaces()?;
        let order = collect_order(
            self.alloc,
            &self.table,
            number,
            interfaces.as_slice(),
            parent,
        )?;
        let supers = collect_supers(self.alloc, &self.table, number, parent)?;
        let kind = EntryKind::Array {
            dimensions: array.dimensions,
            element: self.element(&array.element),
        };
        Ok(Entry {
            name,
            parent,
            interfaces,
            order,
            supers,
            kind,
            state: InitState::Initialized,
        })
    }

    /// The class of an array type by its descriptor, which is made at the first call (5.3.3): it extends `Object`, implements
    /// `Cloneable` and `Serializable`, as far as these are there, and needs no initialization.
    ///
    /// Only want of memory refuses it.
    pub fn array_class(&mut self, name: &Units) -> Result<ClassNo, AllocError>
        requires can { CanMakeArray self.old name.now }

        // The number of a new class fits 32 bits.
        requires room { number_of self.old name.now ≡ None → length self.old + 1 < 2 ^ 32 }
        ensures made { (t : FieldType) → IsArrayName name.now t → OnOk result (self.new ≡ with_array self.old name.now t) }
        ensures number { IfOk result (λ n. number_of self.new name.now ≡ Some n) }

        // After want of memory all is as it was.
        ensures err { OnErr result (self.new ≡ self.old) }

        // A class that is there takes no memory.
        ensures again { IsSome (number_of self.old name.now) → IsOk result }
    {
        if let Some(class) = self.find(name.as_slice()) {
            return Ok(class);
        }
        let entry = self.array_entry(name)?;
        self.push(entry)
    }
}
