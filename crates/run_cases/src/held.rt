//! What the lines of a file build up.

use crate::frames::Stacks;
use crate::words::{Unanswered, number, said};
use crate::{classes, frames, heap, local, monitors, operands};
use java_heap::Heap;
use link_versions::Classes;
use monitor_table::Monitors;
use std::alloc::Global;
use std::rt::Files;
use thread_frames::Operands;

/// The value that a line's call is on.
#[derive(Drop)]
pub enum Held {
    Nothing,
    Monitors(Monitors),
    /// The pin of a frame is its name here.
    Stacks(Stacks),
    Operands(Operands),
    Heap(Heap),
    Classes(Classes),
}

/// A heap of this limit in words, which is below 2^31.
fn heap_of(alloc: Global, limit: u32) -> Result<Held, Unanswered> {
    if limit >= 0x8000_0000 {
        return Err(Unanswered::NotCase);
    }
    Ok(Held::Heap(Heap::new(alloc, limit)))
}

/// A new value.
fn begin(alloc: Global, words: &[&str]) -> Result<Held, Unanswered> {
    match *words {
        ["monitors"] => Ok(Held::Monitors(Monitors::new(alloc))),
        ["stacks"] => Ok(Held::Stacks(Stacks::new(alloc))),
        ["operands", room] => Ok(Held::Operands(Operands::new(alloc, number(room)?)?)),
        ["heap", limit] => heap_of(alloc, number(limit)?),
        ["classes"] => Ok(Held::Classes(Classes::new(alloc))),
        _ => Err(Unanswered::NotCase),
    }
}

impl Held {
    /// Makes a line's call, and gives its answer.
    pub fn answer<R: Files + AllocGlobal>(
        &mut self,
        rt: &R,
        line: &str,
    ) -> Result<String, Unanswered> {
        let alloc = rt.alloc();
        let words: Vec<&str> = line.split_whitespace().collect(alloc)?;
        match words.as_slice() {
            ["new", what @ ..] => {
                *self = begin(alloc, what)?;
                said(alloc, "made")
            }
            ["local", ..] => local::answer(alloc, line),
            ["define", file] => match self {
                Held::Classes(classes) => classes::define(rt, classes, file),
                _ => Err(Unanswered::NotCase),
            },
            call => self.called(alloc, line, call),
        }
    }

    /// Makes a call of these words, which are the line's.
    fn called(&mut self, alloc: Global, line: &str, call: &[&str]) -> Result<String, Unanswered> {
        match self {
            Held::Nothing => Err(Unanswered::NotCase),
            Held::Monitors(monitors) => monitors::answer(alloc, monitors, call),
            Held::Stacks(stacks) => frames::answer(alloc, stacks, call),
            Held::Operands(operands) => operands::answer(alloc, operands, call),
            Held::Heap(heap) => heap::answer(alloc, heap, call),
            Held::Classes(classes) => classes::answer(alloc, classes, line, call),
        }
    }
}
