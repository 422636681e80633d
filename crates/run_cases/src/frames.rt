//! The stacks of threads (JVM specification 2.5.2), whose frames are told apart by their pins.

use crate::words::{Unanswered, number, said, thread, told_fault, told_number};
use std::alloc::Global;
use std::collections::BTreeMap;
use thread_frames::{Frame, FrameFault, Invocation, StackEntry, ThreadStack};
use ti_ids::{ClassNo, MethodNo};

/// Each thread that was named, with its stack.
#[derive(Drop)]
pub struct Stacks {
    threads: BTreeMap<u32, ThreadStack<u32>>,
}

impl Stacks {
    pub fn new(alloc: Global) -> Stacks {
        Stacks {
            threads: BTreeMap::new(alloc),
        }
    }
}

/// What a line `PIN LOCALS ROOM` pushes: a frame with so many local variables, and room for so many words of operands.
fn invocation(words: &[&str]) -> Result<Invocation<u32>, Unanswered> {
    let &[pin, locals, room] = words else {
        return Err(Unanswered::NotCase);
    };
    let class = ClassNo(1);
    Ok(Invocation {
        class,
        method: MethodNo { class, place: 0 },
        pin: number(pin)?,
        max_locals: number(locals)?,
        max_stack: number(room)?,
    })
}

fn push(stack: &mut ThreadStack<u32>, call: Invocation<u32>) -> Result<(), FrameFault> {
    if stack.is_deep(u64::from(call.max_locals) + u64::from(call.max_stack)) {
        return Err(FrameFault::Deep);
    }
    stack.push_frame(call, &[])?;
    Ok(())
}

/// Pushes frames without words and initializations in turn, until one is refused, and says how many entries there are.
fn fill(alloc: Global, stack: &mut ThreadStack<u32>) -> Result<String, Unanswered> {
    for turn in 0..1_000_000 {
        let pushed = if turn % 2 == 0 {
            push(stack, invocation(&["0", "0", "0"])?)
        } else {
            stack.push_init(ClassNo(1))
        };
        if pushed.is_err() {
            break;
        }
    }
    told_number(alloc, "entries ", Some(stack.depth()))
}

/// Puts a frame in the place of the top, which it names.
fn replace_top(
    alloc: Global,
    stack: &mut ThreadStack<u32>,
    words: &[&str],
) -> Result<String, Unanswered> {
    let mut other = ThreadStack::new(alloc);
    if push(&mut other, invocation(words)?).is_err() {
        return Err(Unanswered::NotCase);
    }
    let (Some(top), Some(frame)) = (stack.top_mut(), other.top()) else {
        return Err(Unanswered::NotCase);
    };
    if top.words() != frame.words() {
        return Err(Unanswered::NotCase);
    }
    let old = top.pin;
    *top = frame.clone_in(alloc)?;
    told_number(alloc, "frame ", Some(old))
}

fn entry(alloc: Global, stack: &ThreadStack<u32>, depth: u32) -> Result<String, Unanswered> {
    match stack.get(depth) {
        Some(StackEntry::Java(frame)) => told_number(alloc, "frame ", Some(frame.pin)),
        Some(StackEntry::Init(class)) => told_number(alloc, "class ", Some(class.0)),
        None => said(alloc, "none"),
    }
}

/// The answer of a line `CALL THREAD ..`.
pub fn answer(alloc: Global, stacks: &mut Stacks, words: &[&str]) -> Result<String, Unanswered> {
    let &[call, by, ref rest @ ..] = words else {
        return Err(Unanswered::NotCase);
    };
    let by = thread(by)?;
    let stack = stacks
        .threads
        .entry(by.0)?
        .or_insert(ThreadStack::new(alloc));
    match (call, rest) {
        ("push_frame", size) => told_fault(alloc, push(stack, invocation(size)?)),
        ("push_init", &[class]) => { told_fault(alloc, stack.push_init(ClassNo(number(class)?))) }
        ("fill", []) => fill(alloc, stack),
        ("replace_top", size) => replace_top(alloc, stack, size),
        ("get", &[depth]) => entry(alloc, stack, number(depth)?),
        ("depth", []) => told_number(alloc, "", Some(stack.depth())),
        ("top", []) => told_number(alloc, "frame ", stack.top().map(|frame| frame.pin)),
        ("top_init", []) => told_number(alloc, "class ", stack.top_init().map(|c| c.0)),
        ("pop_frame", []) => told_number(alloc, "frame ", stack.pop_frame()),
        ("pop_init", []) => told_number(alloc, "class ", stack.pop_init().map(|c| c.0)),
        _ => Err(Unanswered::NotCase),
    }
}
