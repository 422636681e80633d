use jv_names::Units;
use sqlite_items::Items;

/// A method's name and its descriptor.
#[derive(Drop)]
pub struct Signature {
    pub name: Units,
    pub desc: Units,
}

/// What the type check asks of a class, as its file states it (4.1 and 4.6).
#[derive(Drop)]
pub struct HierarchyClass {
    pub name: Units,
    /// `Object` has none.
    pub superclass: Option<Units>,
    pub interfaces: Items<Units>,
    pub is_interface: bool,
    pub is_final: bool,
    /// Its final methods that are neither private nor static: those that no subclass may override.
    pub final_methods: Items<Signature>,
}
