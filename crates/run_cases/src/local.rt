//! One instruction on a frame (JVM specification 6.5).

ghost use Rattle.std.specs.Prelude.{◌<◌};

use crate::operands::listed;
use crate::words::{Shown, Unanswered, number, said, values};
use bytecode_local::{fits, is_local, local_step};
use class_code::{Instr, Simple, instr_at};
use std::alloc::Global;
use thread_frames::Frame;
use ti_ids::{ClassNo, MethodNo, Value};

/// A frame at the start of a method, with room for so many words of operands. The operands begin with the lowest.
pub fn frame(
    alloc: Global,
    room: &str,
    operands: &str,
    locals: &str,
) -> Result<Frame<u32>, Unanswered> {
    let class = ClassNo(1);
    let method = MethodNo { class, place: 0 };
    let locals: Vec<&str> = locals.split_whitespace().collect(alloc)?;
    let locals = values(alloc, &locals)?;
    let mut frame = Frame::new(alloc, class, method, 0, locals, number(room)?)?;
    let operands: Vec<&str> = operands.split_whitespace().collect(alloc)?;
    for value in values(alloc, &operands)? {
        if !frame.stack.fits(value) {
            return Err(Unanswered::NotCase);
        }
        frame.stack.push(value);
    }
    Ok(frame)
}

/// The pc of a frame, its operands from the lowest to the top, and its local variables.
fn told(alloc: Global, frame: &Frame<u32>) -> Result<String, Unanswered> {
    let mut text = format!(in alloc; "pc {} |{} |", frame.pc, listed(alloc, &frame.stack)?)?;
    for value in frame.locals.as_slice() {
        write!(text, " {}", Shown(*value))?;
    }
    Ok(text)
}

/// The frame after an instruction of so many bytes, behind which another one stands.
#[tactic(auto, using(bytecode_local::proofs::TwoOffsets::two_rise))]
fn step(alloc: Global, instr: Instr, length: u16, frame: Frame<u32>) -> Result<String, Unanswered>
    requires { 0 < length }
{
    if !is_local(&instr) {
        return said(alloc, "not local");
    }
    let code = [(0, instr), (length, Instr::Simple(Simple::Nop))];
    if !fits(&code, &frame) {
        return said(alloc, "misfit");
    }
    told(alloc, &local_step(&code, frame))
}

/// The answer of a line `local CODE ROOM | OPERANDS | LOCALS`: an instruction in hexadecimal, and the frame that it is run on.
pub fn answer(alloc: Global, line: &str) -> Result<String, Unanswered> {
    let parts: Vec<&str> = line.split('|').collect(alloc)?;
    let &[head, operands, locals] = parts.as_slice() else {
        return Err(Unanswered::NotCase);
    };
    let words: Vec<&str> = head.split_whitespace().collect(alloc)?;
    let &["local", code, room] = words.as_slice() else {
        return Err(Unanswered::NotCase);
    };
    let bytes = hex::decode(alloc, code).map_err(|_| Unanswered::NotCase)?;
    if bytes.is_empty() || bytes.len() > 60_000 {
        return Err(Unanswered::NotCase);
    }
    match instr_at(alloc, 0, &bytes) {
        Ok((instr, [])) => step(
            alloc,
            instr,
            bytes.len() as u16,
            frame(alloc, room, operands, locals)?,
        ),
        _ => Err(Unanswered::NotCase),
    }
}
