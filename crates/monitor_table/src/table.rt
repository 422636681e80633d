ghost use Rattle.std.specs.Prelude.{◌≡◌, ◌≢◌, ◌-◌, ◌^◌, ◌<◌, ◌↔◌, None, Some, IsTrue, IsSome, IsOk, IfOk, IfErr, OnOk, OnErr, option_copied};
ghost use Rattle.std.specs.FinMap as map;
ghost use Rattle.slab.specs.Slab.{get, ContainsKey};
ghost use Rattle.ti_ids.specs.declared.number.ThreadNo.{ThreadNo};
ghost use Rattle.monitor_table.specs.Monitors.{free, entered, left, gone_to_wait, with_one_notified, with_all_notified, taken_back};
ghost use Rattle.monitor_table.specs.Table.{state_of, with_state, with_change, IsOwner, IsOtherOwner, IsNotified, IsWaiting, IsLawful};
ghost use Rattle.monitor_table.specs.Index.{place_in, shown, IsIndexed, PutsPlace};

use crate::monitor::Monitor;
use slab::Slab;
use std::alloc::{AllocError, Global};
use std::marker::Model;
use thiserror::Error;
use ti_ids::{ObjNo, ThreadNo};

/// What became of a thread's entry into a monitor (Java Language Specification, SE 8, 17.1).
#[derive(Clone, Copy, Debug, PartialEq, Eq)]
pub enum Entry {
    /// It owns the monitor, with one entry more.
    Entered,
    /// Another thread owns the monitor: this one.
    Owned(ThreadNo),
}

/// Why a call that only the owner of a monitor may make was not performed.
#[derive(Clone, Copy, Debug, PartialEq, Eq, Error)]
pub enum MonitorFault {
    /// The thread doesn't own the monitor. In Java this is an `IllegalMonitorStateException`.
    #[error("not the owner of the monitor")]
    NotOwner,
    /// Memory ran out.
    #[error("out of memory")]
    Memory,
}

impl From<AllocError> for MonitorFault {
    ghost use Rattle.monitor_table.specs.declared.table.MonitorFault.TheVariants.{Memory};

    ghost from_gives = { λ _ e. e ≡ Memory };

    fn from(_: AllocError) -> Self {
        MonitorFault::Memory
    }
}

/// The monitors of all objects. Each object has one, and only those that are in use are kept: a monitor that nobody owns and
/// for which nobody waits is free, and its room is used again. Threads that wait for an object are notified in the order of
/// their waits; which of those that were notified goes on first is the caller's to choose.
///
/// A call takes constant time, but for the room that an object of a larger number than any before takes at its first entry.
/// `take_back`, `is_notified` and `is_waiting` take linear time in the number of threads that wait for that object.
#[derive(Drop)]
pub struct Monitors {
    // At the number of each object where in the slab its monitor stands, if it is in use.
    places: Vec<Option<usize>>,
    monitors: Slab<Monitor>,
    alloc: Global,
}

impl Model for Monitors {
    ghost use Rattle.std.specs.FinMap as map;
    ghost use Rattle.std.specs.Coded.{coded_ℕ};
    ghost use Rattle.slab.specs.Slab.{get};
    ghost use Rattle.monitor_table.specs.Table.{MonitorMap, monitor_code};
    ghost use Rattle.monitor_table.specs.Index.{place_in, shown, IsIndexed};

    ghost Value = { MonitorMap };

    ghost coded = { map.code coded_ℕ monitor_code };

    ghost view = { λ t. shown t.places.items t.monitors };

    ghost invariant = { λ t. IsIndexed (place_in t.places.items) (get t.monitors) };
}

impl Monitors {
    /// Monitors none of which is in use.
    pub fn new(alloc: Global) -> Monitors
        ensures { result ≡ map.empty }
    {
        Monitors {
            places: Vec::new(alloc),
            monitors: Slab::new(alloc),
            alloc,
        }
    }

    /// The monitor of an object, if it is in use.
    fn monitor_of(&self, object: ObjNo) -> Option<&Monitor>
        ensures monitor { option_copied result ≡ map.get self.now object.0 }
        ensures lawful { IsLawful self.now }
    {
        let key = place_of(&self.places, object)?;
        self.monitors.get(key)
    }

    /// The thread that owns an object's monitor.
    pub fn owner(&self, object: ObjNo) -> Option<ThreadNo>
        ensures owner { result ≡ (state_of self.now object).owner }

        // As every table is.
        ensures lawful { IsLawful self.now }
    {
        self.monitor_of(object)?.owner()
    }

    /// How often the owner of an object's monitor has entered it and not yet exited. Where nobody owns it this is 0.
    pub fn entries(&self, object: ObjNo) -> u32
        ensures { result ≡ (state_of self.now object).entries }
    {
        self.monitor_of(object)
            .map_or(0, |monitor| monitor.entries())
    }

    /// Whether a thread was notified by an object and hasn't taken its monitor back.
    pub fn is_notified(&self, object: ObjNo, thread: ThreadNo) -> bool
        ensures { IsTrue result ↔ IsNotified self.now object thread }
    {
        self.monitor_of(object)
            .is_some_and(|monitor| monitor.is_notified(thread))
    }

    /// Whether a thread waits for an object and wasn't notified.
    pub fn is_waiting(&self, object: ObjNo, thread: ThreadNo) -> bool
        ensures { IsTrue result ↔ IsWaiting self.now object thread }
    {
        self.monitor_of(object)
            .is_some_and(|monitor| monitor.is_waiting(thread))
    }

    /// A thread enters an object's monitor (Java Language Specification, SE 8, 17.1): it owns the monitor with one entry
    /// more, unless another thread owns it.
    pub fn enter(&mut self, object: ObjNo, thread: ThreadNo) -> Result<Entry, AllocError>
        requires countable { (state_of self.old object).entries < 2 ^ 32 - 1 }

        // Another thread that owns the monitor is told of, and then and after want of memory nothing has changed.
        ensures owned { (other : ThreadNo) →
            (result ≡ Ok (Entry.Owned other)) ↔ IsOtherOwner self.old object thread other }
        ensures entered { result ≡ Ok Entry.Entered → self.new ≡ with_change (entered thread) self.old object }
        ensures kept { result ≢ Ok Entry.Entered → self.new ≡ self.old }

        // A monitor that is in use takes no memory.
        ensures memory { OnErr result (state_of self.old object ≡ free) }
    {
        let Some(key) = place_of(&self.places, object) else {
            self.add(object, thread)?;
            return Ok(Entry::Entered);
        };
        if let Some(owner) = self.monitors[key].other_owner(thread) {
            return Ok(Entry::Owned(owner));
        }
        self.monitors[key].enter(thread);
        Ok(Entry::Entered)
    }

    /// Puts an object's monitor, which is free, into use for the thread that enters it.
    fn add(&mut self, object: ObjNo, thread: ThreadNo) -> Result<(), AllocError>
        requires free { map.get self.old object.0 ≡ None }
        ensures added { OnOk result (self.new ≡ with_state self.old object (entered thread free)) }
        ensures kept { OnErr result (self.new ≡ self.old) }
    {
        self.monitors.reserve(1)?;
        put(&mut self.places, object, self.monitors.vacant_key())?;
        self.monitors
            .insert_reserved(Monitor::new(self.alloc, thread));
        Ok(())
    }

    /// The owner of an object's monitor exits once (17.1). With its last entry the monitor has no owner.
    pub fn exit(&mut self, object: ObjNo, thread: ThreadNo) -> Result<(), MonitorFault>
        ensures owner { IsOk result ↔ IsOwner self.old object thread }
        ensures not_owner { (result ≡ Err MonitorFault.NotOwner) ↔ ¬ IsOwner self.old object thread }
        ensures left { OnOk result (self.new ≡ with_change left self.old object) }
        ensures kept { OnErr result (self.new ≡ self.old) }
    {
        let key = owned_place(&self.places, &self.monitors, object, thread)?;
        let monitor = &mut self.monitors[key];
        monitor.exit();
        if monitor.is_free() {
            clear(&mut self.places, object);
            self.monitors.remove(key);
        }
        Ok(())
    }

    /// The owner of an object's monitor goes to wait (17.2.1): it gives up all its entries, and waits behind all others.
    pub fn wait(&mut self, object: ObjNo, thread: ThreadNo) -> Result<(), MonitorFault>
        // The owner alone may wait, and only memory can fail it.
        ensures owner { result ≢ Err MonitorFault.NotOwner → IsOwner self.old object thread }
        ensures not_owner { (result ≡ Err MonitorFault.NotOwner) ↔ ¬ IsOwner self.old object thread }
        ensures gone { OnOk result (self.new ≡ with_change (gone_to_wait thread) self.old object) }
        ensures kept { OnErr result (self.new ≡ self.old) }
    {
        let key = owned_place(&self.places, &self.monitors, object, thread)?;
        self.monitors[key].wait(thread)?;
        Ok(())
    }

    /// The owner of an object's monitor notifies the thread that has waited longest of those that weren't notified (17.2.2).
    /// Without one nothing changes.
    pub fn notify(&mut self, object: ObjNo, thread: ThreadNo) -> Result<(), MonitorFault>
        ensures owner { IsOk result ↔ IsOwner self.old object thread }
        ensures not_owner { (result ≡ Err MonitorFault.NotOwner) ↔ ¬ IsOwner self.old object thread }
        ensures notified { OnOk result (self.new ≡ with_change with_one_notified self.old object) }
        ensures kept { OnErr result (self.new ≡ self.old) }
    {
        let key = owned_place(&self.places, &self.monitors, object, thread)?;
        self.monitors[key].notify();
        Ok(())
    }

    /// The owner of an object's monitor notifies every thread that waits for the object (17.2.2).
    pub fn notify_all(&mut self, object: ObjNo, thread: ThreadNo) -> Result<(), MonitorFault>
        ensures owner { IsOk result ↔ IsOwner self.old object thread }
        ensures not_owner { (result ≡ Err MonitorFault.NotOwner) ↔ ¬ IsOwner self.old object thread }
        ensures notified { OnOk result (self.new ≡ with_change with_all_notified self.old object) }
        ensures kept { OnErr result (self.new ≡ self.old) }
    {
        let key = owned_place(&self.places, &self.monitors, object, thread)?;
        self.monitors[key].notify_all();
        Ok(())
    }

    /// A thread that was notified owns the object's monitor again, with the entries that its wait gave up (17.2.1).
    pub fn take_back(&mut self, object: ObjNo, thread: ThreadNo)
        requires notified { IsNotified self.old object thread }
        requires not_owned { (state_of self.old object).owner ≡ None }
        ensures { self.new ≡ with_change (taken_back thread) self.old object }
    {
        let key = place_of(&self.places, object).unwrap();
        self.monitors[key].take_back(thread);
    }
}

/// The place of an object's monitor, if it is in use.
fn place_of(places: &Vec<Option<usize>>, object: ObjNo) -> Option<usize>
    ensures { result ≡ place_in places.now.items object.0 }
{
    *places.get(object.0 as usize)?
}

/// Puts the place of an object's monitor, with room for the object's number.
fn put(places: &mut Vec<Option<usize>>, object: ObjNo, key: usize) -> Result<(), AllocError>
    ensures put { OnOk result (PutsPlace places.old.items places.new.items object.0 (Some key)) }
    ensures err { OnErr result (places.new.items ≡ places.old.items) }
{
    let number = object.0 as usize;
    if places.len() <= number {
        places.resize(number + 1, None)?;
    }
    places[number] = Some(key);
    Ok(())
}

/// The object has no place any more.
fn clear(places: &mut Vec<Option<usize>>, object: ObjNo)
    ensures { PutsPlace places.old.items places.new.items object.0 None }
{
    let number = object.0 as usize;
    if number < places.len() {
        places[number] = None;
    }
}

/// The place of an object's monitor, where the thread owns it.
fn owned_place(
    places: &Vec<Option<usize>>,
    monitors: &Slab<Monitor>,
    object: ObjNo,
    thread: ThreadNo,
) -> Result<usize, MonitorFault>
    requires { IsIndexed (place_in places.now.items) (get monitors.now) }
    ensures owner { OnOk result (IsOwner (shown places.now.items monitors.now) object thread) }
    ensures not_owner { OnErr result (¬ IsOwner (shown places.now.items monitors.now) object thread) }
    ensures fault { IfErr result (λ fault. fault ≡ MonitorFault.NotOwner) }
    ensures place { IfOk result (λ key. place_in places.now.items object.0 ≡ Some key) }
    ensures stands { IfOk result (ContainsKey monitors.now) }
{
    let Some(key) = place_of(places, object) else {
        return Err(MonitorFault::NotOwner);
    };
    match monitors[key].owner() {
        Some(owner) if owner.0 == thread.0 => Ok(key),
        _ => Err(MonitorFault::NotOwner),
    }
}
