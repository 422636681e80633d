//! What a call of the host does: the words are read, a class is loaded and run, and the report, or
//! one line that says why there is none, goes to a sink. Files come from any store.
#![tactic(auto)]

mod host;
mod line;
mod load;
mod run;
mod words;
mod write;

pub use host::host_one;
pub use job_words::Status;
