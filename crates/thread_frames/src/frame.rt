ghost use Rattle.std.specs.Prelude.{◌≡◌, IfOk, OnOk};
ghost use Rattle.std.specs.Borrow.{sem};
ghost use Rattle.thread_frames.specs.Arguments.{begun_frame};
ghost use Rattle.thread_frames.specs.Frame.{new_frame, frame_words, entry_words, IsJava};

use crate::{Locals, Operands};
use std::alloc::{AllocError, Global};
use std::mem;
use ti_ids::{Announced, ClassNo, MethodNo, Value};

/// The frame of a method that a thread runs (JVM specification 2.6). Nothing is known here of its pin.
#[derive(Drop)]
pub struct Frame<P> {
    /// The class that has the method.
    pub class: ClassNo,
    pub method: MethodNo,
    /// What says which code the frame runs.
    pub pin: P,
    /// The offset in bytes of the next instruction (2.5.1).
    pub pc: u16,
    /// The local variables (2.6.1), as many as the `max_locals` of the method's code. A long takes two of them: it stands in
    /// the first, and what the second one holds is left to whoever writes it.
    pub locals: Locals,
    /// The operand stack (2.6.2), with room for the `max_stack` words of the method's code.
    pub stack: Operands,
    pub announced: Announced,
}

/// What the frame of an invoked method is made of, beside its arguments.
#[derive(Drop)]
pub struct Invocation<P> {
    /// The class that has the method.
    pub class: ClassNo,
    pub method: MethodNo,
    pub pin: P,
    /// How many local variables the method's code has, the places of its arguments counted.
    pub max_locals: u32,
    /// How many words its operand stack has room for.
    pub max_stack: u32,
}

/// What the stack of a thread is made of: the frames of methods, and the initializations of classes that the thread runs.
#[derive(Drop)]
pub enum StackEntry<P> {
    Java(Frame<P>),
    Init(ClassNo),
}

impl<P: Drop> Frame<P> {
    /// The frame of a method that was just invoked, with memory for its operand stack. `room` is in words.
    pub fn new(
        alloc: Global,
        class: ClassNo,
        method: MethodNo,
        pin: P,
        locals: Vec<Value>,
        room: u32,
    ) -> Result<Frame<P>, AllocError>
        ensures { IfOk result (λ frame. frame ≡ new_frame class method pin locals.items room) }
    {
        let stack = Operands::new(alloc, room)?;
        Ok(Frame {
            class,
            method,
            pin,
            pc: 0,
            locals: Locals::from_vec(locals),
            stack,
            announced: Announced::New,
        })
    }
}

impl<P: Copy> Frame<P> {
    /// A frame without local variables and room. No memory is taken.
    pub(crate) fn empty(alloc: Global, class: ClassNo, method: MethodNo, pin: P) -> Frame<P> {
        Frame {
            class,
            method,
            pin,
            pc: 0,
            locals: Locals::none(alloc),
            stack: Operands::none(alloc),
            announced: Announced::New,
        }
    }

    /// Makes it the frame of a method that was just invoked, with these local variables, in the memory that it has, as far as that
    /// goes.
    pub(crate) fn begin(&mut self, call: Invocation<P>, locals: Locals) -> Result<(), AllocError>
        ensures { OnOk result (self.new ≡ begun_frame call locals) }
    {
        self.stack.begin(call.max_stack)?;
        self.class = call.class;
        self.method = call.method;
        self.pin = call.pin;
        self.pc = 0;
        self.locals = locals;
        self.announced = Announced::New;
        Ok(())
    }

    /// The local variables, which it then lacks.
    pub(crate) fn take_locals(&mut self, alloc: Global) -> Locals {
        mem::replace(&mut self.locals, Locals::none(alloc))
    }
}

impl<P> Frame<P> {
    /// The words that the frame takes: its local variables and the room of its operand stack.
    pub fn words(&self) -> u64
        ensures { result ≡ frame_words self.now }
    {
        self.locals.as_slice().len() as u64 + u64::from(self.stack.room())
    }
}

impl<P: Clone> Frame<P> {
    /// An equal frame, whose operand stack has room of its own.
    pub fn clone_in(&self, alloc: Global) -> Result<Frame<P>, AllocError>
        // What is cloned of the pin is the pin.
        requires { (copy : P) → P.is_clone self.now.pin copy → copy ≡ self.now.pin }
        ensures { IfOk result (λ copy. copy ≡ self.now) }
    {
        Ok(Frame {
            class: self.class,
            method: self.method,
            pin: self.pin.clone()?,
            pc: self.pc,
            locals: Locals::from_slice(alloc, self.locals.as_slice())?,
            stack: self.stack.clone_in(alloc)?,
            announced: self.announced,
        })
    }
}

impl<P> StackEntry<P> {
    ghost use Rattle.thread_frames.specs.Lends.{lends_frame};

    /// The words that the entry takes; an initialization takes none.
    pub fn words(&self) -> u64
        ensures { result ≡ entry_words self.now }
    {
        match self {
            StackEntry::Java(frame) => frame.words(),
            StackEntry::Init(_) => 0,
        }
    }

    /// The frame, to write to.
    pub(crate) fn frame_mut(&mut self) -> &mut Frame<P>
        requires { IsJava self.old }
        ensures* writes_back { sem 𝓛 (lends_frame P.row self.entry result) }
        ensures value { self.old ≡ StackEntry.Java result.now }
    {
        match self {
            StackEntry::Java(frame) => frame,
            StackEntry::Init(_) => unreachable!(),
        }
    }
}
