//! Says of class files whether the host accepts them. The words are `FILE..` or `--times N FILE..`, which reads
//! each file and writes it again, in memory, N times. Each file has its line on standard output: `NAME accepted BYTES`, `NAME FAULT OFFSET`, `NAME absent`,
//! `NAME too-large` or `NAME unreadable`.
#![tactic(auto)]

use check_run::{Status, check_all};
use std::alloc::AllocError;
use std::process::ExitCode;
use ti_port::{FileStore, program_words};

fn main(rt: HostRuntime) -> ExitCode {
    let mut store = FileStore::new(&rt);
    let status = match program_words(&rt) {
        Ok(words) => check_all(rt.alloc(), &words, &mut store, &mut rt.stdout()),
        Err(AllocError) => Status::OutOfMemory,
    };
    ExitCode::from(status as u8)
}
