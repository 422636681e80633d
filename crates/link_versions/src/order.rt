//! The lookup order of a new class, and its superclasses.
ghost use Rattle.std.specs.Prelude.{◌≡◌, [], ◌∷◌, flat_map, OnOk, IfOk};
ghost use Rattle.link_versions.specs.Orders.{lookup_order, superclasses, from_parent, ordered};
ghost use Rattle.link_versions.specs.Collecting.{added, all_added, IsCollected};
ghost use Rattle.link_versions.specs.Entries.{classes_of, IsTable};

use crate::entries::{order_of, supers_of};
use crate::entry_table::Table;
use sqlite_items::Items;
use std::alloc::{AllocError, Global};
use std::collections::HashSet;
use ti_ids::ClassNo;

/// Classes, each once, where it came first. `seen` has their numbers.
#[derive(Drop)]
struct Collected {
    list: Vec<ClassNo>,
    seen: HashSet<u32>,
}

impl Collected {
    fn new(alloc: Global) -> Collected
        ensures empty { result.list.items ≡ [] }
        ensures collected { IsCollected result.list.items result.seen }
    {
        Collected {
            list: Vec::new(alloc),
            seen: HashSet::new(alloc),
        }
    }

    /// Adds a class, unless it is there.
    fn add(&mut self, class: ClassNo) -> Result<(), AllocError>
        requires { IsCollected self.old.list.items self.old.seen }
        ensures list { OnOk result (self.new.list.items ≡ added self.old.list.items class) }
        ensures collected { OnOk result (IsCollected self.new.list.items self.new.seen) }
    {
        if self.seen.insert(class.0)? {
            self.list.push(class)?;
        }
        Ok(())
    }

    /// Adds classes, one after another.
    fn add_all(&mut self, classes: &[ClassNo]) -> Result<(), AllocError>
        requires { IsCollected self.old.list.items self.old.seen }
        ensures list { OnOk result (self.new.list.items ≡ all_added self.old.list.items classes.now) }
        ensures collected { OnOk result (IsCollected self.new.list.items self.new.seen) }
    {
        for class in classes {
            self.add(*class)?;
        }
        Ok(())
    }

    /// Adds the orders of classes, one after another.
    fn add_orders(&mut self, entries: &Table, classes: &[ClassNo]) -> Result<(), AllocError>
        requires collected { IsCollected self.old.list.items self.old.seen }
        requires table { IsTable entries.now }
        ensures list { OnOk result (self.new.list.items ≡ all_added self.old.list.items (flat_map (lookup_order (classes_of entries.now)) classes.now)) }
        ensures collected { OnOk result (IsCollected self.new.list.items self.new.seen) }
    {
        for class in classes {
            self.add_all(order_of(entries, *class))?;
        }
        Ok(())
    }
}

/// The lookup order of a new class with these interfaces and this superclass.
pub(crate) fn collect_order(
    alloc: Global,
    entries: &Table,
    class: ClassNo,
    interfaces: &[ClassNo],
    parent: Option<ClassNo>,
) -> Result<Items<ClassNo>, AllocError>
    requires { IsTable entries.now }
    ensures { IfOk result (λ order. order ≡ ordered (lookup_order (classes_of entries.now)) class interfaces.now parent) }
{
    let mut order = Collected::new(alloc);
    order.add(class)?;
    order.add_orders(entries, interfaces)?;
    if let Some(parent) = parent {
        order.add_all(order_of(entries, parent))?;
    }
    Ok(Items::from_vec(order.list))
}

/// A new class and its superclasses upwards.
pub(crate) fn collect_supers(
    alloc: Global,
    entries: &Table,
    class: ClassNo,
    parent: Option<ClassNo>,
) -> Result<Items<ClassNo>, AllocError>
    requires { IsTable entries.now }
    ensures { IfOk result (λ supers. supers ≡ class ∷ from_parent (superclasses (classes_of entries.now)) parent) }
{
    let mut supers = Vec::new(alloc);
    supers.push(class)?;
    if let Some(parent) = parent {
        supers.extend_from_slice(supers_of(entries, parent))?;
    }
    Ok(Items::from_vec(supers))
}
