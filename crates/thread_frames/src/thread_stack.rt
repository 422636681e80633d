ghost use Rattle.std.specs.Prelude.{◌≡◌, ◌+◌, ◌≤◌, ◌↔◌, Err, OnOk, OnErr, OnSome, IfNone, IsTrue, IsSome, [], length, reverse, slice_get, vec_len};
ghost use Rattle.std.specs.Option.{option_copied, option_copied_mut, option_map};
ghost use Rattle.std.specs.Borrow.{sem};
ghost use Rattle.thread_frames.specs.Operands.{words_of};
ghost use Rattle.thread_frames.specs.Frame.{entry_words};
ghost use Rattle.thread_frames.specs.Arguments.{begun_frame, called_frame};
ghost use Rattle.thread_frames.specs.ThreadStack.{most_frames, most_words, stack_words, top_words, IsDeep, java_top, init_top, pushed, popped, arguments_on, without_arguments_below, called, HasFrameAt, IsPutAt, IsSameBelow};

use crate::{Frame, FrameFault, Invocation, Locals, StackEntry};
use std::alloc::{AllocError, Global};
use std::marker::Model;
use ti_ids::{ClassNo, Value};

/// How many entries the stack of a thread has at most, initializations counted.
pub const MOST_FRAMES: u32 = 1024;

/// How many words the entries of a thread take at most.
pub const MOST_WORDS: u64 = 262_144;

/// How many words a frame takes at most whose memory is kept for another one.
const MOST_KEPT_WORDS: u64 = 256;

/// The stack of one thread (JVM specification 2.5.2), which contracts see as the list of its entries, the top first.
///
/// It has at most 1,024 entries, initializations counted, and what is pushed passes 262,144 words in no sum with what stands there.
/// Of the top alone, which `top_mut` lends, no such bound is kept here, but by whoever writes to it: all below
/// it takes at most so many words.
///
/// A frame that is popped stays in its place outside of the list, for its memory to be used by the next frame there. No call looks
/// at an entry but the one that it is about and the one below it.
#[derive(Drop)]
pub struct ThreadStack<P> {
    /// The lowest first. Behind the first `depth` ones stand entries that were popped.
    slots: Vec<StackEntry<P>>,
    depth: usize,
    /// The words of all entries but the top.
    words_below: u64,
    alloc: Global,
}

impl<P> Model for ThreadStack<P> {
    ghost use Rattle.std.specs.Prelude.{List, reverse, take};
    ghost use Rattle.thread_frames.specs.declared.frame.StackEntry.{StackEntry};
    ghost use Rattle.thread_frames.specs.ThreadStack.{HoldsEntries};

    ghost Value = { List (StackEntry P) };

    ghost view = { λ s. reverse (take s.depth s.slots.items) };

    ghost invariant = { λ s. HoldsEntries s.slots.items s.depth s.words_below };
}

/// The words of the last entry, if there is one.
fn last_words<P>(entries: &[StackEntry<P>]) -> u64
    ensures { result ≡ top_words (reverse entries.now) }
{
    match entries.last() {
        Some(entry) => entry.words(),
        None => 0,
    }
}

/// Whether the frame of a method stands at this place.
fn has_frame_at<P>(slots: &[StackEntry<P>], place: usize) -> bool
    ensures { IsTrue result → HasFrameAt slots.now place }
{
    matches!(slots.get(place), Some(StackEntry::Java(_)))
}

/// Puts an entry at this place, and keeps all before it.
fn put_at<P: Drop>(
    slots: &mut Vec<StackEntry<P>>,
    place: usize,
    entry: StackEntry<P>,
) -> Result<(), AllocError>
    requires { place ≤ vec_len slots.old }
    ensures put { OnOk result (IsPutAt slots.old.items slots.new.items place entry) }
    ensures kept { OnErr result (slots.new.items ≡ slots.old.items) }
{
    if place < slots.len() {
        slots[place] = entry;
        return Ok(());
    }
    slots.push(entry)?;
    Ok(())
}

/// Makes the frame of a method that was just invoked at this place, in the memory of the frame there, if there is one, and keeps
/// all before it.
fn begin_at<P: Copy>(
    alloc: Global,
    slots: &mut Vec<StackEntry<P>>,
    place: usize,
    call: Invocation<P>,
    locals: Locals,
) -> Result<(), AllocError>
    requires { place ≤ vec_len slots.old }
    ensures put { OnOk result (IsPutAt slots.old.items slots.new.items place (StackEntry.Java (begun_frame call locals))) }
    ensures kept { OnErr result (IsSameBelow slots.old.items slots.new.items place) }
{
    if has_frame_at(slots, place) {
        return slots[place].frame_mut().begin(call, locals);
    }
    let mut frame = Frame::empty(alloc, call.class, call.method, call.pin);
    frame.begin(call, locals)?;
    put_at(slots, place, StackEntry::Java(frame))
}

impl<P: Copy> ThreadStack<P> {
    ghost use Rattle.thread_frames.specs.Lends.{lends_known_top, lends_top};

    /// A stack without entries. No memory is taken.
    pub fn new(alloc: Global) -> ThreadStack<P>
        ensures { result ≡ [] }
    {
        ThreadStack {
            slots: Vec::new(alloc),
            depth: 0,
            words_below: 0,
            alloc,
        }
    }

    /// The entries, the top last.
    fn entries(&self) -> &[StackEntry<P>]
        ensures { reverse result.now ≡ self.now }
    {
        &self.slots[..self.depth]
    }

    /// How many entries there are.
    pub fn depth(&self) -> u32
        ensures value { result ≡ length self.now }
        ensures frames { result ≤ most_frames }
        ensures words { stack_words (popped self.now) ≤ most_words }
    {
        self.depth as u32
    }

    /// The entry that lies so many below the top, which itself is at 0.
    pub fn get(&self, depth: u32) -> Option<&StackEntry<P>>
        ensures { option_copied result ≡ slice_get self.now depth }
    {
        let entries = self.entries();
        if depth as usize >= entries.len() {
            return None;
        }
        entries.get(entries.len() - 1 - depth as usize)
    }

    /// The frame on top, if the top is the frame of a method.
    pub fn top(&self) -> Option<&Frame<P>>
        ensures { option_copied result ≡ java_top self.now }
    {
        match self.entries().last()? {
            StackEntry::Java(frame) => Some(frame),
            StackEntry::Init(_) => None,
        }
    }

    /// The class on top, if the top is an initialization.
    pub fn top_init(&self) -> Option<ClassNo>
        ensures { result ≡ init_top self.now }
    {
        match self.entries().last()? {
            StackEntry::Java(_) => None,
            StackEntry::Init(class) => Some(*class),
        }
    }

    /// The frame on top, to write to, if the top is the frame of a method. All below it stays as it is.
    pub fn top_mut(&mut self) -> Option<&mut Frame<P>>
        ensures* writes_back { sem 𝓛 (lends_top P.row self.entry result) }
        ensures value { option_copied_mut result ≡ java_top self.old }
    {
        if self.top().is_some() {
            Some(self.known_top_mut())
        } else {
            None
        }
    }

    fn known_top_mut(&mut self) -> &mut Frame<P>
        requires { IsSome (java_top self.old) }
        ensures* writes_back { sem 𝓛 (lends_known_top P.row self.entry result) }
        ensures value { java_top self.old ≡ Some result.now }
    {
        let top = self.depth - 1;
        self.slots[top].frame_mut()
    }

    /// Whether the stack is too deep for one more entry of so many words.
    pub fn is_deep(&self, words: u64) -> bool
        ensures { IsTrue result ↔ IsDeep self.now words }
    {
        if self.depth >= MOST_FRAMES as usize {
            return true;
        }
        let left = MOST_WORDS - self.words_below;
        let top = last_words(&self.slots[..self.depth]);
        if top > left {
            return true;
        }
        words > left - top
    }

    /// Puts the frame of a method that is invoked with these arguments on top. Only memory can be wanting.
    #[tactic(auto, using(crate::proofs::ArgumentWords::words_called))]
    pub fn push_frame(&mut self, call: Invocation<P>, arguments: &[Value]) -> Result<(), AllocError>
        requires places { words_of arguments.now ≤ call.max_locals }
        requires room { ¬ (IsDeep self.old (call.max_locals + call.max_stack)) }
        ensures pushed { OnOk result (self.new ≡ pushed (StackEntry.Java (called_frame call arguments.now)) self.old) }
        ensures kept { OnErr result (self.new ≡ self.old) }
    {
        let mut locals = self.take_locals();
        locals.begin(call.max_locals, arguments)?;
        self.push_with(call, locals)
    }

    /// Puts the frame of a method on top that is invoked with the topmost operands of the frame on top, so many, and takes
    /// them away. Only memory can be wanting.
    #[tactic(auto, using(crate::proofs::ArgumentWords::words_called))]
    pub fn call(&mut self, call: Invocation<P>, count: usize) -> Result<(), AllocError>
        requires caller { IsSome (java_top self.old) }
        requires places { words_of (arguments_on count self.old) ≤ call.max_locals }
        requires room { ¬ (IsDeep self.old (call.max_locals + call.max_stack)) }
        ensures called { OnOk result (self.new ≡ called call count self.old) }
        ensures kept { OnErr result (self.new ≡ self.old) }
    {
        let mut locals = self.take_locals();
        let Some(caller) = self.top() else {
            unreachable!();
        };
        locals.begin(call.max_locals, caller.stack.topmost(count))?;
        self.push_with(call, locals)?;
        self.drop_arguments(count);
        Ok(())
    }

    /// Takes so many of the topmost operands of the frame below the top away.
    fn drop_arguments(&mut self, count: usize)
        requires { IsSome (java_top (popped self.old)) }
        ensures { self.new ≡ without_arguments_below count self.old }
    {
        let below = self.depth - 2;
        let caller = self.slots[below].frame_mut();
        caller.stack.drop_top(count);
    }

    /// Puts an initialization of a class on top.
    pub fn push_init(&mut self, class: ClassNo) -> Result<(), FrameFault>
        ensures deep { (result ≡ Err FrameFault.Deep) ↔ IsDeep self.old 0 }
        ensures pushed { OnOk result (self.new ≡ pushed (StackEntry.Init class) self.old) }
        ensures kept { OnErr result (self.new ≡ self.old) }
    {
        if self.is_deep(0) {
            return Err(FrameFault::Deep);
        }
        self.push(StackEntry::Init(class))?;
        Ok(())
    }

    /// Puts the frame of a method on top that was just invoked, with these local variables.
    fn push_with(&mut self, call: Invocation<P>, locals: Locals) -> Result<(), AllocError>
        requires { ¬ (IsDeep self.old (length locals + call.max_stack)) }
        ensures pushed { OnOk result (self.new ≡ pushed (StackEntry.Java (begun_frame call locals)) self.old) }
        ensures kept { OnErr result (self.new ≡ self.old) }
    {
        let covered = last_words(&self.slots[..self.depth]);
        begin_at(self.alloc, &mut self.slots, self.depth, call, locals)?;
        self.words_below += covered;
        self.depth += 1;
        Ok(())
    }

    /// Puts an entry on top.
    fn push(&mut self, entry: StackEntry<P>) -> Result<(), AllocError>
        requires { ¬ (IsDeep self.old (entry_words entry)) }
        ensures pushed { OnOk result (self.new ≡ pushed entry self.old) }
        ensures kept { OnErr result (self.new ≡ self.old) }
    {
        let covered = last_words(&self.slots[..self.depth]);
        put_at(&mut self.slots, self.depth, entry)?;
        self.words_below += covered;
        self.depth += 1;
        Ok(())
    }

    /// Takes the top away, if it is the frame of a method, and answers its pin. Its memory is kept for a later frame.
    pub fn pop_frame(&mut self) -> Option<P>
        ensures taken { result ≡ option_map (λ frame. frame.pin) (java_top self.old) }
        ensures popped { OnSome result (self.new ≡ popped self.old) }
        ensures kept { IfNone result (self.new ≡ self.old) }
    {
        let top = self.top()?;
        let (pin, words) = (top.pin, top.words());
        self.pop();
        if words > MOST_KEPT_WORDS {
            self.drop_popped();
        }
        Some(pin)
    }

    /// Takes the top away, if it is an initialization.
    pub fn pop_init(&mut self) -> Option<ClassNo>
        ensures taken { result ≡ init_top self.old }
        ensures popped { OnSome result (self.new ≡ popped self.old) }
        ensures kept { IfNone result (self.new ≡ self.old) }
    {
        let class = self.top_init()?;
        self.pop();
        Some(class)
    }

    /// Takes the top away, if there is one.
    fn pop(&mut self)
        ensures { self.new ≡ popped self.old }
    {
        if self.depth == 0 {
            return;
        }
        self.depth -= 1;
        self.words_below -= last_words(&self.slots[..self.depth]);
    }

    /// Memory for the local variables of the next frame: those of the frame that was popped last from its place, if there is one.
    #[tactic(auto, using(crate::proofs::Slots::held_hidden, crate::proofs::Slots::taken_hidden))]
    fn take_locals(&mut self) -> Locals
        ensures { self.new ≡ self.old }
    {
        let place = self.depth;
        if has_frame_at(&self.slots, place) {
            return self.slots[place].frame_mut().take_locals(self.alloc);
        }
        Locals::none(self.alloc)
    }

    /// Gives the memory of the frame back that was popped last, if it was one.
    #[tactic(auto, using(crate::proofs::Slots::held_hidden, crate::proofs::Slots::taken_hidden))]
    fn drop_popped(&mut self)
        ensures { self.new ≡ self.old }
    {
        if let Some(entry) = self.slots.get_mut(self.depth) {
            *entry = StackEntry::Init(ClassNo(0));
        }
    }
}
