//! The monitors of objects (Java Language Specification, SE 8, 17.1 and 17.2).

use crate::words::{Unanswered, object, said, thread, told_fault};
use monitor_table::{Entry, Monitors};
use std::alloc::Global;
use ti_ids::{ObjNo, ThreadNo};

/// Which threads a state of a monitor is looked up for.
const THREADS: [u32; 3] = [1, 2, 3];

fn enter(
    alloc: Global,
    monitors: &mut Monitors,
    object: ObjNo,
    thread: ThreadNo,
) -> Result<String, Unanswered> {
    if monitors.entries(object) == u32::MAX {
        return Err(Unanswered::NotCase);
    }
    match monitors.enter(object, thread)? {
        Entry::Entered => said(alloc, "entered"),
        Entry::Owned(owner) => Ok(format!(in alloc; "owned by t{}", owner.0)?),
    }
}

fn take_back(
    alloc: Global,
    monitors: &mut Monitors,
    object: ObjNo,
    thread: ThreadNo,
) -> Result<String, Unanswered> {
    if monitors.owner(object).is_some() || !monitors.is_notified(object, thread) {
        return Err(Unanswered::NotCase);
    }
    monitors.take_back(object, thread);
    said(alloc, "done")
}

/// What a step of a thread answers.
fn step(
    alloc: Global,
    monitors: &mut Monitors,
    step: &str,
    object: ObjNo,
    thread: ThreadNo,
) -> Result<String, Unanswered> {
    match step {
        "enter" => enter(alloc, monitors, object, thread),
        "exit" => told_fault(alloc, monitors.exit(object, thread)),
        "wait" => told_fault(alloc, monitors.wait(object, thread)),
        "notify" => told_fault(alloc, monitors.notify(object, thread)),
        "notify_all" => told_fault(alloc, monitors.notify_all(object, thread)),
        "take_back" => take_back(alloc, monitors, object, thread),
        _ => Err(Unanswered::NotCase),
    }
}

/// The owner of a monitor with its entries, and which threads were notified and wait.
fn state(alloc: Global, monitors: &Monitors, object: ObjNo) -> Result<String, Unanswered> {
    let mut notified = Vec::new(alloc);
    let mut waiting = Vec::new(alloc);
    for number in THREADS {
        if monitors.is_notified(object, ThreadNo(number)) {
            notified.push(number)?;
        }
        if monitors.is_waiting(object, ThreadNo(number)) {
            waiting.push(number)?;
        }
    }
    let owner = monitors.owner(object).map_or(0, |thread| thread.0);
    let entries = monitors.entries(object);
    Ok(format!(in alloc;
        "owner {owner}, entries {entries}, notified {notified:?}, waiting {waiting:?}"
    )?)
}

/// The answer of a line `STEP OBJECT THREAD`, and the state of the object's monitor after it.
pub fn answer(
    alloc: Global,
    monitors: &mut Monitors,
    words: &[&str],
) -> Result<String, Unanswered> {
    let &[name, at, by] = words else {
        return Err(Unanswered::NotCase);
    };
    let at = object(at)?;
    let told = step(alloc, monitors, name, at, thread(by)?)?;
    let after = state(alloc, monitors, at)?;
    Ok(format!(in alloc; "{told}; {after}")?)
}
