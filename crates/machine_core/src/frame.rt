ghost use Rattle.std.specs.Prelude.{IfOk};
ghost use Rattle.machine_core.specs.Frames.{IsMainFrame};

use std::alloc::{AllocError, Global};
use ti_ids::{Announced, ObjNo, Value};

/// A method's frame (JVM specification 2.6). The pc counts bytes of the code; of the operand stack the last entry is the
/// top.
#[derive(Drop)]
pub struct JavaFrame {
    pub pc: u16,
    pub locals: Vec<Value>,
    pub stack: Vec<Value>,
    pub announced: Announced,
}

/// What stands on a thread's stack of frames.
#[derive(Drop)]
pub enum Frame {
    /// The initialization of the main class.
    Init,
    Java(JavaFrame),
}

/// The frame of main, with its argument. The room of the operand stack is taken here.
pub fn main_frame(alloc: Global, argument: ObjNo) -> Result<JavaFrame, AllocError>
    ensures { IfOk result (λ f. IsMainFrame f argument) }
{
    Ok(JavaFrame {
        pc: 0,
        locals: vec![in alloc; Value::Ref(Some(argument))]?,
        stack: Vec::with_capacity(alloc, 3)?,
        announced: Announced::New,
    })
}
