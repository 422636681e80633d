//! Runs one class. The words are `run --main NAME --class FILE`; the report, or one line that says
//! why there is none, goes to standard output.
#![tactic(auto)]

use host_run::{Status, host_one};
use std::alloc::AllocError;
use std::process::ExitCode;
use ti_port::{FileStore, StdSink, program_words};

fn main(rt: HostRuntime) -> ExitCode {
    let mut store = FileStore::new(&rt);
    let mut sink = StdSink::new(rt.stdout());
    let status = match program_words(&rt) {
        Ok(words) => host_one(rt.alloc(), &words, &mut store, &mut sink),
        Err(AllocError) => Status::OutOfMemory,
    };
    ExitCode::from(status.number())
}
