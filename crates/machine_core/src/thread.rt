ghost use Rattle.std.specs.Prelude.{◌≡◌, ◌+◌, ◌≤◌, ◌<◌, ◌^◌, reverse, length, Some, IfOk};
ghost use Rattle.first_form.specs.Instructions.{size as size_of};
ghost use Rattle.machine_model.specs.Rules.{entry_rule, is_over};
ghost use Rattle.machine_core.specs.Frames.{FrameDone, Steps, TopDone, Executed, rule_on_top, rule_seen};

use crate::frame::{Frame, JavaFrame};
use crate::operands::{Done, perform};
use first_form::Instr;
use first_form_read::ClassFile;
use machine_model::ThreadRule;
use std::alloc::AllocError;
use ti_ids::{Announced, InitState, ThreadState};

/// A Java thread: what it is doing and its frames, of which the last is the top.
#[derive(Drop)]
pub struct Thread {
    pub state: ThreadState,
    pub frames: Vec<Frame>,
}

/// How many bytes an instruction takes.
fn size(instr: Instr) -> u16
    ensures { result ≡ size_of instr }
{
    match instr {
        Instr::IntConst(_) => 1,
        Instr::IntArith(_) => 1,
        Instr::GetStatic(_) => 3,
        Instr::InvokeVirtual(_) => 3,
        Instr::Return => 1,
    }
}

/// Performs an instruction, and goes on to the next one.
fn perform_on(frame: &mut JavaFrame, instr: Instr) -> Result<Done, AllocError>
    requires { frame.old.pc + size_of instr < 2 ^ 16 }
    ensures { IfOk result (λ done. FrameDone done instr frame.old frame.new) }
{
    let done = perform(&mut frame.stack, instr)?;
    match done {
        Done::Misfit => Ok(Done::Misfit),
        Done::Leaves => Ok(Done::Leaves),
        Done::Goes => {
            frame.pc += size(instr);
            frame.announced = Announced::No;
            Ok(Done::Goes)
        }
        Done::Prints(value) => {
            frame.pc += size(instr);
            frame.announced = Announced::No;
            Ok(Done::Prints(value))
        }
    }
}

/// Performs the instruction at the frame's pc, if there is one.
fn step_frame(frame: &mut JavaFrame, file: &ClassFile) -> Result<Done, AllocError>
    ensures { IfOk result (Steps file.now frame.old frame.new) }
{
    match file.instr_at(frame.pc) {
        None => Ok(Done::Misfit),
        Some(instr) => perform_on(frame, instr),
    }
}

/// Performs the instruction of a top frame, and puts the frame back unless it is left.
fn execute_top(frames: &mut Vec<Frame>, top: Frame, file: &ClassFile) -> Result<Done, AllocError>
    ensures { IfOk result (λ done. TopDone file.now done (Some top) frames.old.items frames.new.items) }
{
    match top {
        Frame::Init => {
            frames.push(Frame::Init)?;
            Ok(Done::Misfit)
        }
        Frame::Java(frame) => {
            let mut frame = frame;
            let done = step_frame(&mut frame, file)?;
            if let Done::Leaves = done {
                return Ok(done);
            }
            frames.push(Frame::Java(frame))?;
            Ok(done)
        }
    }
}

/// Performs the instruction of the top frame, which is left after a return.
pub fn execute(frames: &mut Vec<Frame>, file: &ClassFile) -> Result<Done, AllocError>
    ensures { IfOk result (λ done. Executed file.now done frames.old.items frames.new.items) }
{
    match frames.pop() {
        None => Ok(Done::Misfit),
        Some(top) => execute_top(frames, top, file),
    }
}

/// The rule of a thread that has begun: by its top frame, or this one without any.
fn rule_of_top(frames: &[Frame], otherwise: ThreadRule) -> ThreadRule
    ensures { result ≡ rule_on_top (reverse frames.now) otherwise }
{
    match frames.split_last() {
        None => otherwise,
        Some((Frame::Init, _)) => ThreadRule::EndInit,
        Some((Frame::Java(_), _)) => ThreadRule::Execute,
    }
}

/// The rule of a thread that hasn't entered its method and has no frame, by how far the main class is.
fn rule_of_entry(class: Option<InitState>) -> ThreadRule
    ensures { result ≡ entry_rule class }
{
    match class {
        None => ThreadRule::Load,
        Some(InitState::Loaded) => ThreadRule::Link,
        Some(InitState::Linked) => ThreadRule::BeginInit,
        Some(InitState::InProgress(_)) => ThreadRule::Enter,
        Some(InitState::Initialized) => ThreadRule::Enter,
        Some(InitState::Erroneous) => ThreadRule::Enter,
    }
}

impl Thread {
    /// The rule by which the thread makes its next step, in phase Live.
    pub fn rule(&self, class: Option<InitState>) -> Option<ThreadRule>
        ensures { result ≡ rule_seen class self.now }
    {
        match self.state {
            ThreadState::Unbegun => Some(ThreadRule::Begin),
            ThreadState::Entering => Some(rule_of_top(&self.frames, rule_of_entry(class))),
            ThreadState::Running => Some(rule_of_top(&self.frames, ThreadRule::Finish)),
            ThreadState::Ended => None,
        }
    }

    pub fn has_ended(&self) -> bool
        ensures { result ≡ is_over self.now.state }
    {
        match self.state {
            ThreadState::Unbegun => false,
            ThreadState::Entering => false,
            ThreadState::Running => false,
            ThreadState::Ended => true,
        }
    }
}
