ghost use Rattle.std.specs.Prelude.{◌≡◌, ◌≢◌, ◌+◌, ◌^◌, ◌-◌, ◌<◌, ◌≤◌, ◌↔◌, Some, IsTrue, OnOk, OnErr, position};
ghost use Rattle.ti_ids.specs.declared.number.ThreadNo.{ThreadNo};
ghost use Rattle.monitor_table.specs.Monitors.{free, is_free, entered, left, gone_to_wait, with_one_notified, with_all_notified, is_by, has_wait, taken_back};

use std::alloc::{AllocError, Global};
use std::marker::Model;
use ti_ids::ThreadNo;

/// A wait for an object: the thread, and the entries into the object's monitor that it gave up and gets back.
#[derive(Clone, Copy)]
pub struct Waiting {
    pub thread: ThreadNo,
    pub entries: u32,
}

/// The monitor of one object. The waits that were notified stand before the others, so that a notification moves nothing.
#[derive(Drop)]
pub(crate) struct Monitor {
    owner: Option<ThreadNo>,
    entries: u32,
    waits: Vec<Waiting>,
    notified: usize,
}

impl Model for Monitor {
    ghost use Rattle.std.specs.Prelude.{◌≤◌, length, take, drop};
    ghost use Rattle.monitor_table.specs.Monitors.{Monitor as State};
    ghost use Rattle.monitor_table.specs.Table.{monitor_code};

    ghost Value = { State };

    ghost coded = { monitor_code };

    ghost view = { λ m. record {
      owner = m.owner;
      entries = m.entries;
      notified = take m.notified m.waits.items;
      waiting = drop m.notified m.waits.items;
    } };

    ghost invariant = { λ m. m.notified ≤ length m.waits.items };
}

impl Monitor {
    /// A monitor that was free, once this thread has entered it.
    pub(crate) fn new(alloc: Global, thread: ThreadNo) -> Monitor
        ensures { result ≡ entered thread free }
    {
        Monitor {
            owner: Some(thread),
            entries: 1,
            waits: Vec::new(alloc),
            notified: 0,
        }
    }

    pub(crate) fn owner(&self) -> Option<ThreadNo>
        ensures { result ≡ self.now.owner }
    {
        self.owner
    }

    /// The owner, where it is another thread than this one.
    pub(crate) fn other_owner(&self, thread: ThreadNo) -> Option<ThreadNo>
        ensures { (other : ThreadNo) → (result ≡ Some other) ↔ (self.now.owner ≡ Some other) × (other ≢ thread) }
    {
        match self.owner {
            Some(owner) if owner.0 != thread.0 => Some(owner),
            _ => None,
        }
    }

    pub(crate) fn entries(&self) -> u32
        ensures { result ≡ self.now.entries }
    {
        self.entries
    }

    pub(crate) fn is_free(&self) -> bool
        ensures { result ≡ is_free self.now }
    {
        self.owner.is_none() && self.waits.is_empty()
    }

    pub(crate) fn is_notified(&self, thread: ThreadNo) -> bool
        ensures { result ≡ has_wait thread self.now.notified }
    {
        has_wait(thread, &self.waits[..self.notified])
    }

    pub(crate) fn is_waiting(&self, thread: ThreadNo) -> bool
        ensures { result ≡ has_wait thread self.now.waiting }
    {
        has_wait(thread, &self.waits[self.notified..])
    }

    /// The thread enters, as the owner or where nobody owns the monitor.
    pub(crate) fn enter(&mut self, thread: ThreadNo)
        requires countable { self.old.entries < 2 ^ 32 - 1 }
        ensures { self.new ≡ entered thread self.old }
    {
        self.owner = Some(thread);
        self.entries += 1;
    }

    /// The owner exits once.
    pub(crate) fn exit(&mut self)
        requires entered { 1 ≤ self.old.entries }
        ensures { self.new ≡ left self.old }
    {
        if self.entries == 1 {
            self.owner = None;
        }
        self.entries -= 1;
    }

    /// The owner goes to wait.
    pub(crate) fn wait(&mut self, thread: ThreadNo) -> Result<(), AllocError>
        ensures gone { OnOk result (self.new ≡ gone_to_wait thread self.old) }
        ensures kept { OnErr result (self.new ≡ self.old) }
    {
        self.waits.push(Waiting {
            thread,
            entries: self.entries,
        })?;
        self.owner = None;
        self.entries = 0;
        Ok(())
    }

    /// Notifies the longest wait.
    pub(crate) fn notify(&mut self)
        ensures { self.new ≡ with_one_notified self.old }
    {
        if self.notified < self.waits.len() {
            self.notified += 1;
        }
    }

    /// Notifies every wait.
    pub(crate) fn notify_all(&mut self)
        ensures { self.new ≡ with_all_notified self.old }
    {
        self.notified = self.waits.len();
    }

    /// A thread that was notified owns the monitor again.
    pub(crate) fn take_back(&mut self, thread: ThreadNo)
        requires notified { IsTrue (has_wait thread self.old.notified) }
        ensures { self.new ≡ taken_back thread self.old }
    {
        let place = first_wait(thread, &self.waits[..self.notified]).unwrap();
        let wait = self.waits.remove(place);
        self.notified -= 1;
        self.owner = Some(thread);
        self.entries = wait.entries;
    }
}

/// Whether one of these waits is the thread's.
fn has_wait(thread: ThreadNo, waits: &[Waiting]) -> bool
    ensures { result ≡ has_wait thread waits.now }
{
    waits.iter().any(|wait| wait.thread.0 == thread.0)
}

/// The place of the thread's first wait among these.
fn first_wait(thread: ThreadNo, waits: &[Waiting]) -> Option<usize>
    ensures { result ≡ position (is_by thread) waits.now }
{
    waits.iter().position(|wait| wait.thread.0 == thread.0)
}
